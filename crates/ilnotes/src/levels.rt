//! The levels that tasks store, by what they drive, and which gear the text puts into groups.

use crate::facts::{BlockCall, TaskFacts};
use ilblocks::BlockKind;
use illisting::{is_marked, mark};
use ilplan::Plan;
use ilsource::Name;
use std::alloc::{AllocError, Global};

/// The number of broadcast among addresses.
pub const BROADCAST: u8 = 80;

/// The number of group 0 among addresses.
pub const FIRST_GROUP: u8 = 64;

/// How many addresses a bus has: 64 short addresses, 16 groups and broadcast.
const ADDRESSES: u8 = 81;

/// How many groups a bus has.
const GROUPS: usize = 16;

/// The number of the command that puts a gear into group 0; the other groups follow.
const ADD_TO_GROUP: i64 = 18;

/// What a level or a command goes to.
#[derive(Clone, Copy)]
pub struct LevelTarget {
    pub bus: u8,
    /// 0 to 63 a short address, 64 to 79 a group, 80 all gear.
    pub address: u8,
}

impl LevelTarget {
    /// Past the last of all buses of a plan.
    pub fn end(plan: &Plan) -> LevelTarget {
        LevelTarget {
            bus: plan.buses(),
            address: 0,
        }
    }

    /// Its number among those of all buses.
    pub fn number(self) -> usize {
        usize::from(self.bus)
            .saturating_mul(usize::from(ADDRESSES))
            .saturating_add(usize::from(self.address))
    }

    /// The number of it in a group, among all addresses and groups of all buses.
    fn member(self, group: usize) -> usize {
        self.number().saturating_mul(GROUPS).saturating_add(group)
    }
}

/// A level that a task stores.
#[derive(Clone, Copy)]
pub struct Level {
    /// The number of its global variable.
    pub number: usize,
    pub name: Name,
    pub driven: LevelTarget,
    /// Whether a cyclic task changes it step by step, so that it is sent again soon.
    pub is_moved: bool,
}

/// The levels of all buses of a plan.
#[derive(Drop)]
pub struct LevelTable {
    levels: Vec<Option<Level>>,
    /// For each address whether the text puts it into the group: first by address, then by group.
    members: Vec<bool>,
}

impl LevelTable {
    /// The levels that tasks store.
    ///
    /// # Errors
    ///
    /// The allocator is out of memory.
    pub fn of(alloc: Global, plan: &Plan, tasks: &[TaskFacts]) -> Result<LevelTable, AllocError> {
        let end = LevelTarget::end(plan);
        let mut levels = LevelTable {
            levels: vec![in alloc; None; end.number()]?,
            members: vec![in alloc; false; end.member(0)]?,
        };
        for facts in tasks {
            levels.add_task(facts);
        }
        Ok(levels)
    }

    /// Adds the levels that a task stores, and the gear that it puts into groups.
    fn add_task(&mut self, facts: &TaskFacts) {
        for global in &facts.globals {
            if let Some(level) = facts.stored_level(*global) {
                if let Some(kept) = self.levels.get_mut(level.driven.number()) {
                    *kept = Some(level);
                }
            }
        }
        for call in &facts.calls {
            if let Some(member) = member_of(call) {
                mark(&mut self.members, member);
            }
        }
    }

    /// The level that drives just this.
    pub fn get(&self, driven: LevelTarget) -> Option<Level> {
        *self.levels.get(driven.number())?
    }

    /// Whether what is sent to the one surely reaches what the other drives as well: it is all gear
    /// of the same bus, or a group into which the text puts it.
    fn covers(&self, one: LevelTarget, other: LevelTarget) -> bool {
        match one.address.checked_sub(FIRST_GROUP) {
            _ if one.address == other.address => false,
            Some(_) if one.address == BROADCAST => true,
            Some(group) => is_marked(&self.members, other.member(usize::from(group))),
            None => false,
        }
    }

    /// A level of more gear, that of this among it. Of several it is the first by its address.
    pub fn above(&self, driven: LevelTarget) -> Option<Level> {
        for address in 0..ADDRESSES {
            if let Some(level) = self.get(LevelTarget { address, ..driven }) {
                if self.covers(level.driven, driven) {
                    return Some(level);
                }
            }
        }
        None
    }

    /// A level that what is sent there at a place changes as well, but none that is soon sent
    /// again. Of several it is the first by its address.
    pub fn below(&self, driven: LevelTarget, facts: &TaskFacts, place: usize) -> Option<Level> {
        for address in 0..BROADCAST {
            if let Some(level) = self.get(LevelTarget { address, ..driven }) {
                let is_again = level.is_moved || facts.sends_again(level, place);
                if self.covers(driven, level.driven) && !is_again {
                    return Some(level);
                }
            }
        }
        None
    }
}

/// The number of the member and its group, where a call puts a gear into a group.
fn member_of(call: &BlockCall) -> Option<usize> {
    if !matches!(call.kind, BlockKind::GearPair) || !call.may_request() {
        return None;
    }
    let group = usize::try_from(call.port(3)?.saturating_sub(ADD_TO_GROUP)).ok()?;
    if group < GROUPS {
        Some(call.driven()?.member(group))
    } else {
        None
    }
}
