//! Shares.

ghost use Rattle.std.specs.Prelude.{◌≡◌, ◌≢◌, ℕ, ◌+◌, ◌-◌, ◌*◌, ◌<◌, ◌≤◌, Bool, List, [], length};
ghost use Rattle.limits.specs.Limits.{most_total};
ghost use Rattle.plantevents.specs.Parts.{Placed, part};
ghost use Rattle.plant.specs.Shown.{is_reserved};
ghost use Rattle.plantreceipts.specs.Receipts.{IsFresh, IsRole, IsNoted, IsReserved};
ghost use Rattle.plantreceipts.specs.Receipts.{IsLastPlace, seat_of, reserved_after};
ghost use Rattle.plantreceipts.specs.Tokens.{Held, Says, id_at, one_if};

use crate::lock_start::LockStart;
use crate::receipt::{NotedPart, Receipt};
use ghosts::Trace;
use plantevents::{Event, Role};
use planttallies::{Tallies, Tally};
use std::marker::{Model, PhantomData};
use std::sync::{OnceLock, OnceToken, Wait};

/// The part of one role: its receipts, and what ties them to the plant under the lock.
pub struct Share<'a, J: LockStart, T: Tally> {
    role: Role,
    /// For contracts alone.
    receipts: Trace<Receipt>,
    /// Whether a place of the history is kept back for this role.
    reserved: bool,
    /// How many events there were at the start: the place of the event of the first cell.
    base: u64,
    /// One more than the place of the newest receipt; 0 where there is none.
    reach: u64,
    tally: T,
    newest: Option<OnceToken<'a, NotedPart>>,
    lock_start: PhantomData<J>,
}

/// Written out, so that it is proved here alone.
impl<'a, J: LockStart, T: Tally> Drop for Share<'a, J, T> {
    fn drop(self) {
        let Self {
            role: _,
            receipts: _,
            reserved: _,
            base: _,
            reach: _,
            tally: _,
            newest: _,
            lock_start: _,
        } = self;
    }
}

impl<'a, J: LockStart, T: Tally> Model for Share<'a, J, T> {
    ghost use Rattle.plantevents.specs.Parts.{part};
    ghost use Rattle.plantreceipts.specs.Receipts.{ShareParts};
    ghost use Rattle.plantreceipts.specs.Shares.{IsShare};

    ghost Value = { ShareParts };

    ghost view = { λ s. record {
      role = s.role;
      receipts = s.receipts.items;
      before = part s.role J.start.history;
      reserved = s.reserved;
    } };

    ghost invariant = { λ s.
        IsShare J.start J.cells s.base s.reach (T.seat s.tally) (T.amount s.tally) s.newest
        (record {
          role = s.role;
          receipts = s.receipts.items;
          before = part s.role J.start.history;
          reserved = s.reserved;
        }) };
}

/// The cell of an event: the first one is that of the event with the place `base`.
fn cell_of<'a>(cells: &'a [OnceLock<NotedPart>], base: u64, index: u64) -> &'a OnceLock<NotedPart>
    requires from { base ≤ index }
    requires index { index < base + length cells.now }
    requires small { index < most_total }
    ensures { result.now.id ≡ id_at cells.now (index - base) }
{
    &cells[(index - base) as usize]
}

/// Writes a cell. It is tried until it is taken.
fn write<'a, R: Wait>(
    rt: &R,
    cell: &'a OnceLock<NotedPart>,
    noted: NotedPart,
) -> OnceToken<'a, NotedPart>
    ensures of { result.of ≡ cell.entry.now.id }
    ensures value { result.value ≡ noted }
{
    let mut left = noted;
    for _ in rt.forever() {
        match cell.set(rt, left) {
            Ok(token) => return token,
            Err(back) => left = back,
        }
    }
    unreachable!()
}

/// Whether a place is kept back for the role of an event after it: some use the one that was.
fn reserved_after(event: &Event, reserved: bool) -> bool
    ensures { result ≡ reserved_after event.now reserved }
{
    match event {
        Event::Tick { .. } | Event::Heard { .. } => false,
        _ => reserved,
    }
}

/// As a number.
fn one_if(reserved: bool) -> u64
    ensures { result ≡ one_if reserved }
{
    if reserved { 1 } else { 0 }
}

impl<'a, J: LockStart, T: Tally> Share<'a, J, T> {
    /// The Share of a role, which has no receipt yet. So many events there were at the start.
    pub(crate) fn new(base: u64, role: Role, reserved: bool, tally: T) -> Share<'a, J, T>
        requires base { base ≡ length J.start.history }
        requires known { IsRole J.start.plant role }
        requires tally { (T.seat tally ≡ seat_of role) × (T.amount tally ≡ one_if reserved) }
        requires reserved { reserved ≡ is_reserved role J.start }
        ensures fresh { IsFresh J.start role result }
    {
        Share {
            role,
            receipts: Trace::new(),
            reserved,
            base,
            reach: 0,
            tally,
            newest: None,
            lock_start: PhantomData,
        }
    }

    /// The role.
    pub fn role(&self) -> Role
        ensures value { result ≡ self.now.role }
        ensures known { IsRole J.start.plant self.now.role }
        ensures before { self.now.before ≡ part self.now.role J.start.history }
    {
        self.role
    }

    /// The place in the history of the newest receipt. There is one.
    pub fn last_place(&self) -> u64
        requires some { self.now.receipts ≢ [] }
        ensures value { IsLastPlace result self.now.receipts }
    {
        self.reach - 1
    }

    /// What the lock knows of this role is what is here.
    pub fn meet<K: Tallies<T>>(
        &mut self,
        numbers: &mut K,
        newest: &Option<OnceToken<'a, NotedPart>>,
    )
        requires { (reach : ℕ) × (reserved : Bool) × (receipts : List Placed)
            × Says (length J.start.history) J.cells (K.number numbers.old (seat_of self.old.role)) newest.now reach reserved
            receipts }
        ensures agree { (reach : ℕ) (reserved : Bool) (receipts : List Placed)
            → Says (length J.start.history) J.cells (K.number numbers.old (seat_of self.old.role)) newest.now reach reserved
            receipts → (self.old.receipts ≡ receipts) × (self.old.reserved ≡ reserved) }
        ensures same { (numbers.new ≡ numbers.old) × (self.new ≡ self.old) }
    {
        numbers.audit(&mut self.tally);
        if let Some(theirs) = newest {
            if let Some(mine) = &self.newest {
                theirs.agrees(mine);
            }
        }
    }

    /// Keeps a place back, if none is.
    pub fn keep<K: Tallies<T>>(&mut self, numbers: &mut K)
        ensures reserved { IsReserved self.old self.new }
        ensures mine { K.number numbers.new (seat_of self.old.role) + one_if self.old.reserved
            ≡ K.number numbers.old (seat_of self.old.role) + 1 }
        ensures others { (k : ℕ × ℕ) → k ≢ seat_of self.old.role
            → K.number numbers.new k ≡ K.number numbers.old k }
    {
        if !self.reserved {
            numbers.add(&mut self.tally, 1);
            self.reserved = true;
        }
    }

    /// Files an event: in its cell, in the lock's numbers, and here.
    pub fn note<K: Tallies<T>, R: Wait>(
        &mut self,
        rt: &R,
        cells: &'a [OnceLock<NotedPart>],
        numbers: &mut K,
        index: u64,
        event: Event,
    ) -> Option<OnceToken<'a, NotedPart>>
        requires cells { cells.now ≡ J.cells }
        requires from { length J.start.history ≤ index }
        requires index { index < length J.start.history + length cells.now }
        requires small { index < most_total }
        requires order { K.number numbers.old (seat_of self.old.role) ≤ 2 * index + 1 }
        ensures noted { IsNoted index event self.old self.new }
        ensures held { Held (length J.start.history) J.cells (index + 1) result
            self.new.receipts }
        ensures mine { K.number numbers.new (seat_of self.old.role)
            ≡ 2 * (index + 1) + one_if (reserved_after event self.old.reserved) }
        ensures others { (k : ℕ × ℕ) → k ≢ seat_of self.old.role
            → K.number numbers.new k ≡ K.number numbers.old k }
    {
        numbers.audit(&mut self.tally);
        let was = 2 * self.reach + one_if(self.reserved);
        self.reserved = reserved_after(&event, self.reserved);
        self.reach = index + 1;
        let is = 2 * self.reach + one_if(self.reserved);
        numbers.add(&mut self.tally, is - was);
        self.receipts.push(&Receipt::of(index, event));
        let cell = cell_of(cells, self.base, index);
        let token = write(rt, cell, NotedPart::of(&self.receipts));
        self.newest = Some(token.again());
        Some(token)
    }
}
