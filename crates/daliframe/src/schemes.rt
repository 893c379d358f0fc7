//! The event schemes of control devices.
ghost use Rattle.std.specs.Prelude.{◌≡◌, ◌<◌, ◌↔◌, IsSome, IfSome};
ghost use Rattle.daliframe.specs.EventSchemes.{scheme_number};

/// By what an event message names its sender (IEC 62386-103, clause 9).
#[derive(Clone, Copy, Debug, PartialEq, Eq)]
pub enum EventScheme {
    /// Instance type and instance number.
    Instance,
    /// Short address and instance type.
    Device,
    /// Short address and instance number.
    DeviceInstance,
    /// Device group and instance type.
    DeviceGroup,
    /// Instance group and instance type.
    InstanceGroup,
}

impl EventScheme {
    /// The event scheme of this number, where it is at most 4.
    pub fn new(number: u8) -> Option<Self>
        ensures known { IsSome result ↔ (number < 5) }
        ensures value { IfSome result (λ scheme. scheme_number scheme ≡ number) }
    {
        match number {
            0 => Some(EventScheme::Instance),
            1 => Some(EventScheme::Device),
            2 => Some(EventScheme::DeviceInstance),
            3 => Some(EventScheme::DeviceGroup),
            4 => Some(EventScheme::InstanceGroup),
            _ => None,
        }
    }

    /// The number of the scheme, 0 to 4, as SET EVENT SCHEME takes it.
    pub fn number(self) -> u8
        ensures value { result ≡ scheme_number self }
        ensures range { result < 5 }
    {
        match self {
            EventScheme::Instance => 0,
            EventScheme::Device => 1,
            EventScheme::DeviceInstance => 2,
            EventScheme::DeviceGroup => 3,
            EventScheme::InstanceGroup => 4,
        }
    }
}
