//! What notes look at of each task, found in one walk along its words: how its variables and block
//! instances are used, what is stored to them, and what is known of their ports at each call.

ghost use Rattle.std.specs.Prelude.{◌<◌, length};

use crate::current::{Current, Way};
use crate::levels::{BROADCAST, Level, LevelTable, LevelTarget};
use crate::line_starts::LineStarts;
use ilblocks::{BlockKind, MOST_PORTS};
use ilcode::{Code, Word, WordOperand};
use ilcompile::Setup;
use illisting::{TaskNames, functions_in, line_at, name_in, read_by, written_by};
use ilplan::{Activation, Location, Plan, SlotOwner, Task};
use ilsource::{Name, Source};
use iltypes::Condition;
use std::alloc::{AllocError, Global};

/// The number of LEVEL among the ports of a GEAR_LEVEL.
const LEVEL_PORT: usize = 3;

/// What rules look at: the plan with its source program, and the facts that several of them need.
#[derive(Drop)]
pub struct House<'p> {
    pub plan: &'p Plan,
    pub source: &'p Source,
    /// Where the lines of the text begin.
    pub lines: LineStarts,
    pub tasks: Vec<TaskFacts<'p>>,
    pub levels: LevelTable,
}

/// What notes look at of a task.
#[derive(Drop)]
pub struct TaskFacts<'p> {
    /// Its number in the plan.
    pub number: usize,
    pub task: &'p Task,
    pub code: &'p Code,
    /// The milliseconds between two scans, where the clock starts the task.
    pub interval: Option<u32>,
    /// The global variable of the trigger, where an event starts the task.
    pub trigger: Option<usize>,
    /// For each function of the code its number in the plan.
    pub functions: Vec<usize>,
    /// The global variables that its slots are: its first ones.
    pub globals: Vec<GlobalSlot>,
    /// The slots, and then the ports.
    used: Vec<Usage>,
    /// The calls of block instances, in the order of the words.
    pub calls: Vec<BlockCall>,
    /// By the numbers of what levels drive, the place past the last call that sends one as it is.
    sent: Vec<usize>,
    /// The jumps of which the words before say the condition, with what it is.
    pub conditions: Vec<(usize, bool)>,
}

/// A slot that is a global variable.
#[derive(Clone, Copy)]
pub struct GlobalSlot {
    pub slot: usize,
    /// The number of the global variable.
    pub number: usize,
    pub name: Name,
    pub location: Option<Location>,
}

impl GlobalSlot {
    /// What it drives, where it is a level.
    pub fn driven(self) -> Option<LevelTarget> {
        match self.location {
            Some(Location::Level { bus, address }) => Some(LevelTarget { bus, address }),
            _ => None,
        }
    }
}

/// How a variable, or a port of a block instance, is used by the words of a code, reached or not.
#[derive(Clone, Copy)]
pub struct Usage {
    /// The line of the first word that reads it, or 0 where none does.
    pub read: usize,
    /// Whether a word stores to it, other than to give its first value or an argument.
    pub is_stored: bool,
    /// The one value that all words store that do, as far as they say it by themselves: FALSE
    /// counts as 0 and TRUE as 1. Where none stores it is 0.
    pub value: Option<i64>,
    /// What the straight line of this number stored last, and the slot that has the value.
    held: Option<i64>,
    stretch: usize,
    origin: Option<usize>,
    /// Whether a word stores what was computed from itself.
    pub moves: bool,
    /// A slot besides of which a word stores what was computed.
    follows: Option<usize>,
    /// The first word that stores, and the place among what a code uses from which it has just
    /// this value or the opposite, where no other stores and each scan carries it out.
    first: usize,
    turned: Option<usize>,
    // Of the first port of a block instance:
    /// Whether the instance is called.
    pub is_called: bool,
    /// Whether each scan calls it.
    pub is_always: bool,
    /// The one value that it has at all calls, as far as it is known.
    given: Option<i64>,
    /// Whether a call surely has FALSE there.
    pub is_false: bool,
    /// Whether each scan calls it with FALSE there.
    pub is_always_false: bool,
    /// Whether each scan calls it with TRUE there.
    pub is_always_true: bool,
}

/// What no word names.
const UNNAMED: Usage = Usage {
    read: 0,
    is_stored: false,
    value: Some(0),
    held: None,
    stretch: 0,
    origin: None,
    moves: false,
    follows: None,
    first: 0,
    turned: None,
    is_called: false,
    is_always: false,
    given: None,
    is_false: false,
    is_always_false: false,
    is_always_true: false,
};

impl Usage {
    /// Adds what a word stores here, at this place among what a code uses. S and R store where the
    /// current result is TRUE.
    fn store(&mut self, way: &Way, word: Word, place: usize) {
        let Current {
            value,
            origin,
            is_changed,
            is_opposite,
        } = way.stored_by(word);
        let is_conditional = matches!(word, Word::Set(_) | Word::Reset(_));
        if !self.is_stored {
            self.first = way.place;
        }
        let is_only = self.first == way.place && way.is_always() && !is_conditional;
        let is_kept = !is_changed && origin != Some(place);
        self.turned = if is_only && (is_opposite || is_kept) {
            origin
        } else {
            None
        };
        if self.is_stored && self.value != value {
            self.value = None;
        } else {
            self.value = value;
        }
        self.is_stored = self.is_stored || !matches!(word, Word::Give { .. });
        match origin {
            Some(origin) if origin != place => self.follows = Some(origin),
            Some(_) if is_changed => self.moves = true,
            _ => {}
        }
        let condition = way.result.value;
        if !is_conditional || condition != Some(0) {
            let is_held = !is_conditional || condition.is_some();
            self.held = if is_held { value } else { None };
            self.origin = if is_changed { None } else { origin };
            self.stretch = way.stretch;
        }
    }

    /// Adds a call of the block instance of which this is the first port.
    fn add_call(&mut self, call: &BlockCall) {
        let (is_false, is_true) = (call.port(0) == Some(0), call.port(0) == Some(1));
        let is_one = !self.is_called || self.given == call.port(0);
        self.given = if is_one { call.port(0) } else { None };
        self.is_called = true;
        self.is_always = self.is_always || call.is_always;
        self.is_false = self.is_false || is_false;
        self.is_always_false = self.is_always_false || is_false && call.is_always;
        self.is_always_true = self.is_always_true || is_true && call.is_always;
    }

    /// The one value of the first port of a block instance, where it has one alone.
    pub fn one_value(&self) -> Option<i64> {
        self.value.or(self.given)
    }

    /// The value at a call on this straight line, where it is known: what the line stored, or else
    /// the one value that all words of the code store, which is 0 at first.
    fn known(&self, stretch: usize) -> Option<i64> {
        if self.stretch == stretch {
            self.held
        } else {
            self.value
        }
    }
}

/// A call of a block instance, with what is known of its ports there.
#[derive(Clone, Copy)]
pub struct BlockCall {
    pub place: usize,
    pub line: usize,
    pub block: usize,
    pub kind: BlockKind,
    /// The name of the block instance.
    pub name: Name,
    ports: [Option<i64>; MOST_PORTS],
    /// The slot whose value is LEVEL of a GEAR_LEVEL.
    pub level: Option<usize>,
    /// Whether no jump leads past the call.
    is_always: bool,
}

impl BlockCall {
    /// The value of a port, where it is known.
    pub fn port(&self, port: usize) -> Option<i64> {
        *self.ports.get(port)?
    }

    /// Whether the call may make a request.
    pub fn may_request(&self) -> bool {
        self.kind.makes_requests() && self.port(0) != Some(0)
    }

    /// What BUS and ADR name, of a block that sends.
    pub fn driven(&self) -> Option<LevelTarget> {
        let bus = u8::try_from(self.port(1)?).ok()?;
        let address = u8::try_from(self.port(2)?).ok()?;
        Some(LevelTarget { bus, address })
    }
}

/// What rules look at of a setup and its source program.
///
/// # Errors
///
/// The allocator is out of memory.
pub fn house_of<'p>(
    alloc: Global,
    setup: &'p Setup,
    source: &'p Source,
) -> Result<House<'p>, AllocError> {
    let plan = setup.plan();
    let lines = LineStarts::of(alloc, source.text())?;
    let tasks = facts_of(alloc, setup)?;
    let levels = LevelTable::of(alloc, plan, &tasks)?;
    Ok(House {
        plan,
        source,
        lines,
        tasks,
        levels,
    })
}

/// What notes look at, for each task.
///
/// # Errors
///
/// The allocator is out of memory.
pub(crate) fn facts_of(alloc: Global, setup: &Setup) -> Result<Vec<TaskFacts<'_>>, AllocError> {
    let mut all = Vec::new(alloc);
    for number in 0..setup.plan().tasks() {
        let mut facts = TaskFacts::none(alloc, setup, number)?;
        facts.add_words(alloc)?;
        all.push(facts)?;
    }
    Ok(all)
}

/// The slots of a task that are global variables.
fn globals_in(alloc: Global, plan: &Plan, task: &Task) -> Result<Vec<GlobalSlot>, AllocError> {
    let mut globals = Vec::new(alloc);
    for (slot, found) in task.slots().iter().enumerate() {
        if let SlotOwner::Global(number) = found.variable {
            if number < plan.globals() {
                let global = plan.global(number);
                globals.push(GlobalSlot {
                    slot,
                    number,
                    name: global.name,
                    location: global.location,
                })?;
            }
        }
    }
    Ok(globals)
}

impl<'p> TaskFacts<'p> {
    /// No word is looked at so far.
    fn none(alloc: Global, setup: &'p Setup, number: usize) -> Result<TaskFacts<'p>, AllocError>
        requires { number < length setup.now.plan.tasks }
    {
        let plan = setup.plan();
        let task = plan.task(number);
        let code = setup.code(number).code();
        let (interval, trigger) = match task.activation() {
            Activation::Cyclic { interval } => (Some(interval), None),
            Activation::Event { trigger } => (None, Some(trigger)),
        };
        Ok(TaskFacts {
            number,
            task,
            code,
            interval,
            trigger,
            functions: functions_in(alloc, plan, number)?,
            globals: globals_in(alloc, plan, task)?,
            used: vec![in alloc; UNNAMED; port_place(code, code.kinds().len(), 0)]?,
            calls: Vec::new(alloc),
            sent: vec![in alloc; 0; LevelTarget::end(plan).number()]?,
            conditions: Vec::new(alloc),
        })
    }

    /// The names of what its words name.
    pub fn names<'a>(&'a self, plan: &'a Plan) -> TaskNames<'a> {
        TaskNames {
            plan,
            task: self.number,
            code: self.code,
            functions: &self.functions,
        }
    }

    /// The name of the variable in a slot, of the task or of one of its functions.
    pub fn name_of(&self, plan: &Plan, slot: usize) -> Option<Name> {
        match self.task.slots().get(slot) {
            Some(found) => match found.variable {
                SlotOwner::Own { name, .. } => Some(name),
                SlotOwner::Global(_) => Some(self.globals.get(slot)?.name),
            },
            None => {
                let mut name = None;
                for (body, number) in self.code.functions().iter().zip(&self.functions) {
                    if let Some(own) = slot.checked_sub(body.first) {
                        name = name_in(plan.functions().get(*number)?, own);
                    }
                }
                name
            }
        }
    }

    /// How a slot is used.
    pub fn slot(&self, slot: usize) -> Usage {
        self.used.get(slot).copied().unwrap_or(UNNAMED)
    }

    /// How a port of a block instance is used.
    pub fn port(&self, block: usize, port: usize) -> Usage {
        self.slot(port_place(self.code, block, port))
    }

    /// Whether what is stored to a slot may differ from scan to scan, since it is computed from
    /// what the scan before left.
    pub fn is_moved(&self, slot: usize) -> bool {
        let stored = self.slot(slot);
        match stored.follows {
            Some(origin) => stored.moves || self.slot(origin).moves,
            None => stored.moves,
        }
    }

    /// Whether each scan stores to a first port, or each second one, what makes it rise each second
    /// time: the opposite of what it was, or what a variable has that turns so.
    pub fn is_turned(&self, block: usize) -> bool {
        let place = port_place(self.code, block, 0);
        match self.slot(place).turned {
            Some(from) => from == place || self.slot(from).turned == Some(from),
            None => false,
        }
    }

    /// Whether a level is sent again as it is behind a place, or by a cyclic task somewhere.
    pub fn sends_again(&self, level: Level, place: usize) -> bool {
        let sent = self.sent.get(level.driven.number()).copied().unwrap_or(0);
        sent > place || self.interval.is_some() && sent > 0
    }

    /// The level that a call sends again as it is, to what that drives or to all gear of its bus.
    fn level_sent(&self, call: &BlockCall) -> Option<LevelTarget> {
        let level = self.globals.get(call.level?)?.driven()?;
        let driven = call.driven()?;
        let is_there = driven.address == BROADCAST || driven.address == level.address;
        if is_there && driven.bus == level.bus && call.may_request() {
            Some(level)
        } else {
            None
        }
    }

    /// The level that a slot is, where the task stores it.
    pub fn stored_level(&self, global: GlobalSlot) -> Option<Level> {
        let driven = global.driven()?;
        if !self.slot(global.slot).is_stored {
            return None;
        }
        Some(Level {
            number: global.number,
            name: global.name,
            driven,
            is_moved: self.interval.is_some() && self.is_moved(global.slot),
        })
    }

    /// Looks at each word. What is known at a call rests on all that is stored, so the calls are
    /// looked at on a second way.
    fn add_words(&mut self, alloc: Global) -> Result<(), AllocError> {
        let code = self.code;
        let trigger = self
            .globals
            .iter()
            .position(|global| Some(global.number) == self.trigger);
        let mut way = Way::new(alloc, code, trigger)?;
        for with_calls in [false, true] {
            for place in 0..code.len() {
                let word = code.word(place);
                way.arrive(place);
                self.add_word(&way, place, word);
                if with_calls {
                    self.add_call(&way, place, word)?;
                }
                way.go_on(word);
            }
        }
        Ok(())
    }

    /// Adds what a word reads and stores.
    fn add_word(&mut self, way: &Way, place: usize, word: Word) {
        let code = self.code;
        if let Some(operand) = read_by(word) {
            if let Some(kept) = self.used.get_mut(place_of(code, operand)) {
                if kept.read == 0 {
                    kept.read = line_at(code, place);
                }
            }
        }
        if let Some(operand) = written_by(word) {
            let written = place_of(code, operand);
            if let Some(kept) = self.used.get_mut(written) {
                kept.store(way, word, written);
            }
        }
    }

    /// Adds the call of a block instance, or the condition of a jump, where the word is one.
    fn add_call(&mut self, way: &Way, place: usize, word: Word) -> Result<(), AllocError> {
        if let Some(call) = self.call_at(way, place, word) {
            if let Some(kept) = self.used.get_mut(port_place(self.code, call.block, 0)) {
                kept.add_call(&call);
            }
            if let Some(level) = self.level_sent(&call) {
                if let Some(kept) = self.sent.get_mut(level.number()) {
                    *kept = place.saturating_add(1);
                }
            }
            self.calls.push(call)?;
        }
        match (word, way.result.value) {
            (Word::Jump { condition, .. }, Some(value)) if condition != Condition::Always => {
                self.conditions.push((place, value == 1))?;
            }
            _ => {}
        }
        Ok(())
    }

    /// The call of a block instance at a place, with what is known of its ports.
    fn call_at(&self, way: &Way, place: usize, word: Word) -> Option<BlockCall> {
        let Word::Call(block) = word else {
            return None;
        };
        let block = usize::from(block);
        let found = self.task.blocks().get(block)?;
        let stretch = way.stretch;
        let level = self.port(block, LEVEL_PORT);
        Some(BlockCall {
            place,
            line: line_at(self.code, place),
            block,
            kind: found.kind,
            name: found.name,
            ports: [
                self.port(block, 0).known(stretch),
                self.port(block, 1).known(stretch),
                self.port(block, 2).known(stretch),
                level.known(stretch),
                self.port(block, 4).known(stretch),
            ],
            level: if level.stretch == stretch && matches!(found.kind, BlockKind::GearLevel) {
                level.origin
            } else {
                None
            },
            is_always: way.is_always(),
        })
    }
}

/// The place of a port among what a code uses: behind its slots.
fn port_place(code: &Code, block: usize, port: usize) -> usize {
    block
        .saturating_mul(MOST_PORTS)
        .saturating_add(port)
        .saturating_add(code.slots().len())
}

/// The place of an operand among what a code uses; a constant has none there.
pub fn place_of(code: &Code, operand: WordOperand) -> usize {
    match operand {
        WordOperand::Slot(slot) => usize::from(slot),
        WordOperand::Port { port, block } => {
            port_place(code, usize::from(block), usize::from(port))
        }
        WordOperand::Constant(_) => usize::MAX,
    }
}
