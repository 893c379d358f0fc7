//! Scans one after another.

ghost use Rattle.std.specs.Prelude.{◌≡◌, ◌+◌, ◌*◌, ◌^◌, ◌≤◌, IfOk};
ghost use Rattle.std.specs.Arc.{arc_value};
ghost use Rattle.iltypes.specs.Values.{AreOf};
ghost use Rattle.ilblocks.specs.Stores.{blocks_at_first};
ghost use Rattle.ilcode.specs.Listings.{lasting_types};
ghost use Rattle.textanswers.specs.Stepping.{IsScanAt, ScansTo, lasting};

use gearcmd::Request;
use ilmachine::{ScanResult, Snapshot, scan};
use iltypes::Value;
use ilverify::Verified;
use std::alloc::{AllocError, Global};
use std::marker::Model;
use std::sync::Arc;

/// When a scan was made, and what it took.
#[derive(Drop)]
pub struct Taken {
    moment: u64,
    steps: u32,
    requests: Vec<Request>,
}

impl Model for Taken {
    ghost use Rattle.textanswers.specs.Taking.{Taking};

    ghost Value = { Taking };

    ghost view = { λ t. record {
      moment = t.moment;
      steps = t.steps;
      requests = t.requests.items;
    } };
}

impl Taken {
    ghost use Rattle.std.specs.Prelude.{◌≡◌, IfOk};

    /// What the scan took.
    fn of(alloc: Global, made: &ScanResult) -> Result<Taken, AllocError>
        ensures moment { IfOk result (λ taken. taken.moment ≡ made.now.snapshot.moment) }
        ensures steps { IfOk result (λ taken. taken.steps ≡ made.now.steps) }
        ensures requests { IfOk result (λ taken. taken.requests ≡ made.now.after.requests) }
    {
        Ok(Taken {
            moment: made.snapshot().moment(),
            steps: made.steps(),
            requests: Vec::from_slice(alloc, made.outbox())?,
        })
    }

    /// The moment of the image that it began from, in milliseconds from the first scan's.
    pub fn moment(&self) -> u64
        ensures value { result ≡ self.now.moment }
    {
        self.moment
    }

    /// Its steps, one a word.
    pub fn steps(&self) -> u32
        ensures value { result ≡ self.now.steps }
    {
        self.steps
    }

    /// Its requests, in order.
    pub fn requests(&self) -> &[Request]
        ensures value { result.now ≡ self.now.requests }
    {
        &self.requests
    }
}

/// What some scans did: what each took, and the snapshot from which the next one would begin.
#[derive(Drop)]
pub struct Scans {
    pub each: Vec<Taken>,
    pub left: Snapshot,
}

/// Makes this many scans, at moments `every` milliseconds apart: the first from these values, with
/// block instances at their start, and each other from what the one before left.
pub fn make(
    alloc: Global,
    code: &Arc<Verified>,
    from: &[Value],
    scans: u32,
    every: u32,
) -> Result<Scans, AllocError>
    requires { AreOf from.now (lasting_types (arc_value code.now).code) }
    ensures { IfOk result (λ made. ScansTo (arc_value code.now) every scans
        (lasting from.now (blocks_at_first (arc_value code.now).code.kinds))
        made.each.items made.left.lasting) }
{
    let mut each = Vec::new(alloc);
    let mut left = Snapshot::new(alloc, code.clone()?, from, 0)?;
    for number in 0..scans {
        let moment = (u64::from(number) + 1) * u64::from(every);
        let (taken, after) = next(alloc, left, moment)?;
        each.push(taken)?;
        left = after;
    }
    Ok(Scans { each, left })
}

/// Makes one scan: what it took, and the snapshot of the next one, which is made at this moment.
fn next(alloc: Global, snapshot: Snapshot, moment: u64) -> Result<(Taken, Snapshot), AllocError>
    ensures scan { IfOk result (λ made. IsScanAt snapshot.verified snapshot.moment snapshot.lasting
        made.0 made.1.lasting) }
    ensures code { IfOk result (λ made. made.1.verified ≡ snapshot.verified) }
    ensures moment { IfOk result (λ made. made.1.moment ≡ moment) }
{
    let made = scan(snapshot)?;
    let taken = Taken::of(alloc, &made)?;
    Ok((taken, made.into_next(moment)))
}
