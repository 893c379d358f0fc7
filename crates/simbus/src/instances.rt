//! Simulated instances of control devices (profile).
ghost use Rattle.std.specs.Prelude.{◌≡◌};
ghost use Rattle.simbus.specs.Instances.{device_command_of, command_to, variables_of};
ghost use Rattle.simbus.specs.Instances.{instance_after_fields, instance_fields_answer};
ghost use Rattle.simbus.specs.Histories.{is_instance};

use daliframe::{EventScheme, Fields24, InstanceNumber, InstanceType, ShortAddress};

/// A simulated instance of a control device, as a scenario declares it.
#[derive(Clone, Copy)]
pub struct InputInstance {
    /// The device.
    pub address: ShortAddress,
    pub number: InstanceNumber,
    pub instance_type: InstanceType,
    pub scheme: EventScheme,
    /// The answer to QUERY INPUT VALUE.
    pub value: u8,
}

/// What commands change of an instance.
#[derive(Clone, Copy)]
pub struct InstanceVariables {
    pub scheme: EventScheme,
    /// Whether ENABLE INSTANCE or DISABLE INSTANCE was the last of the two; at first it is enabled.
    pub is_enabled: bool,
}

/// What an opcode commands an instance of a control device.
#[derive(Clone, Copy)]
pub(crate) enum DeviceCommand {
    Enable,
    Disable,
    SetEventScheme,
    QueryInstanceType,
    QueryEventScheme,
    QueryInputValue,
    /// No simulated instance does anything with it.
    Nothing,
}

impl DeviceCommand {
    /// What an opcode commands.
    #[tactic(auto, unfolding(crate::specs::Instances::device_command_of))]
    fn of(opcode: u8) -> Self
        ensures { result ≡ device_command_of opcode }
    {
        match opcode {
            0x62 => DeviceCommand::Enable,
            0x63 => DeviceCommand::Disable,
            0x67 => DeviceCommand::SetEventScheme,
            0x80 => DeviceCommand::QueryInstanceType,
            0x8B => DeviceCommand::QueryEventScheme,
            0x8C => DeviceCommand::QueryInputValue,
            _ => DeviceCommand::Nothing,
        }
    }
}

impl InputInstance {
    /// Whether it is the instance of this device with this number.
    pub(crate) fn is_at(&self, address: ShortAddress, number: InstanceNumber) -> bool
        ensures { result ≡ is_instance address number self.now }
    {
        self.address.number() == address.number() && self.number.number() == number.number()
    }

    /// The variables of an instance that no frame reached: enabled, with the scheme that was
    /// declared.
    pub(crate) fn variables(&self) -> InstanceVariables
        ensures { result ≡ variables_of self.now }
    {
        InstanceVariables {
            scheme: self.scheme,
            is_enabled: true,
        }
    }

    /// The variables after a frame that says this, as the second of a pair or not, where DTR0 of
    /// the devices is `dtr0`.
    pub(crate) fn after_fields(
        &self,
        variables: InstanceVariables,
        dtr0: u8,
        fields: &Fields24,
        is_pair: bool,
    ) -> InstanceVariables
        ensures { result ≡ instance_after_fields is_pair dtr0 self.now fields.now variables }
    {
        match self.command(fields) {
            DeviceCommand::Enable if is_pair => InstanceVariables {
                is_enabled: true,
                ..variables
            },
            DeviceCommand::Disable if is_pair => InstanceVariables {
                is_enabled: false,
                ..variables
            },
            DeviceCommand::SetEventScheme if is_pair => InstanceVariables {
                scheme: EventScheme::new(dtr0).unwrap_or(variables.scheme),
                ..variables
            },
            _ => variables,
        }
    }

    /// What an instance with these variables answers to a frame that says this.
    pub(crate) fn answer(&self, variables: InstanceVariables, fields: &Fields24) -> Option<u8>
        ensures { result ≡ instance_fields_answer self.now fields.now variables }
    {
        match self.command(fields) {
            DeviceCommand::QueryInstanceType => Some(self.instance_type.number()),
            DeviceCommand::QueryEventScheme => Some(variables.scheme.number()),
            DeviceCommand::QueryInputValue => Some(self.value),
            _ => None,
        }
    }

    /// What a frame that says this commands the instance.
    fn command(&self, fields: &Fields24) -> DeviceCommand
        ensures { result ≡ command_to self.now fields.now }
    {
        match fields {
            Fields24::Command {
                address,
                instance,
                opcode,
            } if address.number() == self.address.number()
                && instance.number() == self.number.number() => DeviceCommand::of(*opcode),
            _ => DeviceCommand::Nothing,
        }
    }
}
