//! The links with their Shares.

use buslink::{Bus, Clock};
use planttallies::Tally;
use plantturns::{BusWithShare, ClockWithShare, LockStart, Share};

/// The buses and the clock with their Shares, and the Shares of the scan workers.
#[derive(Drop)]
pub(crate) struct LinkedShares<'a, B: Bus, C: Clock, J: LockStart, T: Tally> {
    /// The buses, by their numbers.
    pub buses: Vec<BusWithShare<'a, B, J, T>>,
    /// The scan workers, by their numbers.
    pub workers: Vec<Share<'a, J, T>>,
    /// The clock.
    pub timed: ClockWithShare<'a, C, J, T>,
}
