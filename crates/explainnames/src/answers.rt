//! What is said of a fault of names, as text: slots are filled, and changes are tried.

ghost use Rattle.std.specs.Prelude.{IfOk, IfSome, IsTrue};
ghost use Rattle.explaincures.specs.Trying.{IsCure, NamesOn, ShowsCure};

use crate::said::{Change, Said, Slot};
use crate::standing::FaultPlace;
use crate::tokens::{Role, next_same, token_at};
use explaincures::{
    Advice, Edit, EditOutcome, Example, FaultAnswer, Side, is_near, line_number, line_of,
    meant_instruction, near_word, shown_text,
};
use iltokens::What;
use std::alloc::AllocError;

/// How many lines, sources or words are told or tried at most.
pub(crate) const MOST_TOLD: usize = 8;

impl FaultPlace<'_, '_> {
    /// What is said as an answer to a fault on a line, with the first change that helps, if one
    /// does.
    pub(crate) fn answer(&self, said: &Said, line: usize) -> Result<FaultAnswer, AllocError>
        ensures { let asked = self.now.asked.now in
            IfOk result (ShowsCure asked.binding.now asked.text.now line NamesOn) }
    {
        let Advice {
            what,
            cure,
            line: other,
        } = said.row;
        let answer = FaultAnswer {
            what: self.filled(said, what)?,
            facts: self.filled(said, said.facts)?,
            cure: self.filled(said, cure)?,
            example: Example::Other(self.filled(said, other)?),
        };
        match self.cure(said, line)? {
            Some(edit) => Ok(answer.with_change(edit)),
            None => Ok(answer),
        }
    }

    /// A text, with what stands for its slots.
    pub(crate) fn filled(&self, said: &Said, row: &str) -> Result<String, AllocError> {
        let mut text = String::new(self.alloc);
        let mut is_slot = false;
        for letter in row.chars() {
            match letter {
                '{' => is_slot = true,
                '}' => is_slot = false,
                name if is_slot => self.push_slot(&mut text, said, name)?,
                _ => text.push(letter)?,
            }
        }
        Ok(text)
    }

    /// Adds what stands for a slot, or all of a list.
    fn push_slot(&self, text: &mut String, said: &Said, name: char) -> Result<(), AllocError> {
        let mut at = said.at;
        for number in 0..self.spot.text.len() {
            let Some(one) = self.slot(said, name, number, &mut at) else {
                return Ok(());
            };
            let is_last = name == 'm' && self.meant_at(number.saturating_add(1)).is_none();
            text.push_str(match number {
                0 => "",
                _ if is_last => " or ",
                _ => ", ",
            })?;
            self.push(text, one)?;
        }
        Ok(())
    }

    /// What stands for a slot: `{0}` to `{2}`, `{l}` and `{g}` as said; `{b}` is how many buses
    /// there are, `{z}` the last of them, and `{c}` how many inputs the function has. Or what
    /// stands at a number of a list: `{p}` has the ports of the block whose port is meant, `{i}`
    /// the inputs of the function, `{e}` the sources, `{m}` the instructions that may be meant, and
    /// `{s}` the lines that store to the variable, which are looked for from a place on.
    fn slot(&self, said: &Said, name: char, number: usize, at: &mut usize) -> Option<Slot> {
        let [first, second, third] = said.slots;
        let buses = u64::from(self.asked.binding.buses());
        let line = line_number(self.spot.text, *at) as u64;
        match name {
            'p' => {
                let port = self.block_of_port()?.ports().get(number)?;
                Some(Slot::Bytes(port.name.spelling()))
            }
            'i' => Some(Slot::of(self.inputs().get(number)?.name)),
            'e' if number < MOST_TOLD => self.source(number, 0),
            'm' => Some(Slot::Word(self.meant_at(number)?)),
            's' if number < MOST_TOLD => {
                let found = next_same(&self.spot, *at, Role::Stored)?;
                *at = found.to;
                Some(Slot::Number(line_number(self.spot.text, found.from) as u64))
            }
            _ if number > 0 => None,
            '0' => Some(first),
            '1' => Some(second),
            '2' => Some(third),
            'l' => Some(Slot::Number(line)),
            'g' => Some(Slot::Line(line)),
            'b' => Some(Slot::Number(buses)),
            'z' => Some(Slot::Number(buses.saturating_sub(1))),
            'c' => Some(Slot::Number(self.inputs().len() as u64)),
            _ => None,
        }
    }

    /// The instruction of this number that may be meant by what was found.
    fn meant_at(&self, number: usize) -> Option<&'static str> {
        meant_instruction(self.spot.token(), number)
    }

    /// Adds what stands there in place of a slot: a number, and then bytes.
    fn push(&self, text: &mut String, slot: Slot) -> Result<(), AllocError> {
        text.push_str(&self.number_text(slot)?)?;
        text.push_str(&shown_text(self.alloc, self.bytes_of(slot))?)
    }

    /// The number of a slot; nothing where it has none.
    fn number_text(&self, slot: Slot) -> Result<String, AllocError> {
        match slot {
            Slot::Number(number) => format!(in self.alloc; "{number}"),
            Slot::Limit(number) => format!(in self.alloc; "{number}"),
            Slot::Source(bus, number) => format!(in self.alloc; "{bus}.{number}"),
            Slot::Line(line) => format!(in self.alloc; "{line:>6} | "),
            _ => Ok(String::new(self.alloc)),
        }
    }

    /// The bytes of a slot; none where it is a number.
    fn bytes_of(&self, slot: Slot) -> &[u8] {
        match slot {
            Slot::Word(word) => word.as_bytes(),
            Slot::Bytes(bytes) => bytes,
            Slot::Part(from, to) => self.spot.part(from, to),
            Slot::Line(line) => line_of(self.spot.text, line as usize),
            _ => &[],
        }
    }

    /// The source of this number, with what is added to its own.
    fn source(&self, number: usize, added: u64) -> Option<Slot> {
        let bound = self.asked.binding.sources().get(number)?;
        let place = u64::from(bound.number).saturating_add(added);
        Some(Slot::Source(u64::from(bound.bus), place))
    }

    /// The first change that helps, if one does.
    fn cure(&self, said: &Said, line: usize) -> Result<Option<Edit>, AllocError>
        ensures { let asked = self.now.asked.now in
            IfOk result (λ found. IfSome found
            (IsCure asked.binding.now asked.text.now line NamesOn)) }
    {
        let with = match said.change {
            Change::Nothing => return Ok(None),
            Change::Put(from, to, with) => return self.helping(said, line, (from, to), with),
            Change::Near => "{1}",
            Change::Source(_) => "{0}{1}",
        };
        let [first, ..] = said.slots;
        for one in &self.meant(said.change)? {
            let tried = said.with_slots([first, *one, Slot::Nothing]);
            let edit = self.helping(&tried, line, (self.spot.at, self.spot.found_to()), with)?;
            if edit.is_some() {
                return Ok(edit);
            }
        }
        Ok(None)
    }

    /// A text in place of the bytes from one place to another, if that helps: after it the names of
    /// the text have no fault up to the change.
    fn helping(
        &self,
        said: &Said,
        line: usize,
        place: (usize, usize),
        with: &str,
    ) -> Result<Option<Edit>, AllocError>
        ensures { let asked = self.now.asked.now in
            IfOk result (λ found. IfSome found
            (IsCure asked.binding.now asked.text.now line NamesOn)) }
    {
        let with = self.filled(said, with)?;
        let edit = Edit::new(self.alloc, place.0, place.1, with.as_bytes())?;
        let outcome = edit.outcome(self.alloc, self.asked, line)?;
        if !is_cure(outcome) {
            return Ok(None);
        }
        Ok(Some(edit))
    }

    /// The first sources of the binding, with what is added to their numbers; or the reserved word
    /// that is near to what was found, if one is, and then the names of the text that are, each
    /// once.
    fn meant(&self, change: Change) -> Result<Vec<Slot>, AllocError> {
        let mut all = Vec::new(self.alloc);
        if let Change::Source(added) = change {
            for number in 0..MOST_TOLD {
                if let Some(source) = self.source(number, added) {
                    all.push(source)?;
                }
            }
            return Ok(all);
        }
        if let Some(word) = near_word(self.spot.token()) {
            all.push(Slot::Word(word))?;
        }
        let mut at: usize = 0;
        for _ in 0..self.spot.text.len() {
            let Some(found) = token_at(self.spot.text, at) else {
                break;
            };
            at = found.to;
            let name = self.spot.part(found.from, found.to);
            let is_meant = found.what == What::Name && is_near(name, self.spot.token());
            if is_meant && all.len() <= MOST_TOLD && !self.has_name(&all, name) {
                all.push(Slot::Part(found.from, found.to))?;
            }
        }
        Ok(all)
    }

    /// Whether a name is one of some.
    fn has_name(&self, names: &[Slot], name: &[u8]) -> bool {
        for one in names {
            if let Slot::Part(from, to) = one {
                if self.spot.part(*from, *to).eq_ignore_ascii_case(name) {
                    return true;
                }
            }
        }
        false
    }
}

/// Whether the names of a text with a change that was tried have no fault up to the change.
fn is_cure(outcome: EditOutcome) -> bool
    ensures { IsTrue result → NamesOn outcome }
{
    matches!(
        outcome,
        EditOutcome::Accepted | EditOutcome::Name(Side::Behind) | EditOutcome::Code { .. }
    )
}
