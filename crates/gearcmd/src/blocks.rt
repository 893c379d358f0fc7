//! The request blocks that have a port CMD: what the number of a command is the number of.

/// GEAR_DO.
pub enum GearDo {}

/// GEAR_SET.
pub enum GearSet {}

/// GEAR_PAIR.
pub enum GearPair {}

/// GEAR_ASK.
pub enum GearAsk {}

/// DEV_DO.
pub enum DevDo {}

/// DEV_ASK.
pub enum DevAsk {}
