//! Buses and their Shares, put together before a run and taken apart after it.

ghost use Rattle.std.specs.Prelude.{◌≡◌, ◌≤◌, [], length, map, vec_len, vec_capacity};
ghost use Rattle.plantevents.specs.declared.role.Role.TheVariants as roles;
ghost use Rattle.plantturns.specs.Each.{Each};
ghost use Rattle.plantturns.specs.Receipts.{ShareParts, AreFresh, IsFresh};
ghost use Rattle.plantturns.specs.Links.{log_of};
ghost use Rattle.plantturns.specs.Logs.{IsServed};
ghost use Rattle.workers.specs.LinkedShares.{AreServed};

use buslink::Bus;
use planttallies::Tally;
use plantturns::{BusWithShare, Links, LockStart, Share};

/// Puts each bus and its Share together. Both lists are empty afterwards, and keep their room.
pub(crate) fn put_together<'a, B: Bus, J: LockStart + Links, T: Tally>(
    lines: &mut Vec<B>,
    shares: &mut Vec<Share<'a, J, T>>,
    served: &mut Vec<BusWithShare<'a, B, J, T>>,
)
    requires ready { Each (λ bus line. (share : ShareParts)
        → IsFresh J.start (roles.Bus bus) share
        → IsServed (log_of J.buses bus) bus share (B.log line)) 0 lines.old.items }
    requires fresh { AreFresh J.start roles.Bus (vec_len lines.old) shares.old.items }
    requires none { served.old.items ≡ [] }
    requires room { vec_len lines.old ≤ vec_capacity served.old }
    ensures served { AreServed J.buses B.log 0 served.new.items }
    ensures count { length served.new.items ≡ length lines.old.items }
    ensures lines { (lines.new.items ≡ []) × (vec_capacity lines.new ≡ vec_capacity lines.old) }
    ensures shares { (shares.new.items ≡ []) × (vec_capacity shares.new ≡ vec_capacity shares.old) }
{
    for _bus in 0..lines.len() {
        let line = lines.remove(0);
        let share = shares.remove(0);
        served.push_reserved(BusWithShare { line, share });
    }
}

/// Takes each bus and its Share apart.
pub(crate) fn take_apart<'a, B: Bus, J: LockStart, T: Tally>(
    served: Vec<BusWithShare<'a, B, J, T>>,
    lines: &mut Vec<B>,
    shares: &mut Vec<Share<'a, J, T>>,
)
    requires none { (lines.old.items ≡ []) × (shares.old.items ≡ []) }
    requires room { (vec_len served ≤ vec_capacity lines.old)
        × (vec_len served ≤ vec_capacity shares.old) }
    ensures lines { lines.new.items ≡ map (λ s. s.line) served.entry.items }
    ensures shares { shares.new.items ≡ map (λ s. s.share) served.entry.items }
{
    let mut served = served;
    for _bus in 0..served.len() {
        let BusWithShare { line, share } = served.remove(0);
        lines.push_reserved(line);
        shares.push_reserved(share);
    }
}
