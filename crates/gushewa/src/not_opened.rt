//! Why a controller does not start.

use plant::OpenFault;

/// Why a controller does not start.
#[derive(Clone, Copy, PartialEq, Eq)]
pub enum NotOpened {
    /// There are not as many buses as the text's binding has.
    Buses,
    /// The plant is not opened.
    Plant(OpenFault),
}
