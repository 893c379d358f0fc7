//! What could stand at a place of a text: the parser is asked for each word.

use crate::edits::read_to;
use crate::spots::part;
use crate::words::{ASKED, Group, asked_group, sign_name};
use iltokens::keywords;
use std::alloc::{AllocError, Global};

/// The most bytes up to a place at which it is asked for each word.
const MOST_ASKED: usize = 65_536;

/// How many are told at most.
const MOST_TOLD: usize = 8;

/// A word for which the parser was asked.
#[derive(Clone, Copy)]
struct Asked {
    group: Group,
    spelled: &'static str,
    can_stand: bool,
}

/// What could stand at a place.
#[derive(Drop)]
pub struct Possible {
    /// What was asked, in the order in which it is told.
    asked: Vec<Asked>,
    /// Whether the line, or the text, could end there.
    pub is_line_end: bool,
    is_text_end: bool,
}

impl Possible {
    /// What could stand at a place of a text, which reads up to there, where the parts that end
    /// before `start` may be left out; nothing where the text is too long to ask for each word.
    pub fn at(
        alloc: Global,
        text: &[u8],
        start: usize,
        at: usize,
    ) -> Result<Option<Possible>, AllocError> {
        let front = part(text, start, at);
        if front.len() > MOST_ASKED {
            return Ok(None);
        }
        let mut possible = Possible {
            asked: Vec::new(alloc),
            is_line_end: false,
            is_text_end: read_to(alloc, front)? > front.len(),
        };
        possible.ask(alloc, front)?;
        Ok(Some(possible))
    }

    /// Asks the parser for each word behind a text, and for the end of the line.
    fn ask(&mut self, alloc: Global, front: &[u8]) -> Result<(), AllocError> {
        for (group, _, samples) in ASKED {
            for spelled in *samples {
                self.ask_word(alloc, front, *group, *spelled)?;
            }
            self.ask_keywords(alloc, front, *group)?;
        }
        self.is_line_end = can_stand(alloc, front, b"\n")?;
        Ok(())
    }

    /// Asks for each reserved word of a group.
    fn ask_keywords(
        &mut self,
        alloc: Global,
        front: &[u8],
        group: Group,
    ) -> Result<(), AllocError> {
        for keyword in keywords() {
            if asked_group(*keyword) == Some(group) {
                self.ask_word(alloc, front, group, keyword.spelling())?;
            }
        }
        Ok(())
    }

    /// Asks for one word.
    fn ask_word(
        &mut self,
        alloc: Global,
        front: &[u8],
        group: Group,
        spelled: &'static str,
    ) -> Result<(), AllocError> {
        let can_stand = can_stand(alloc, front, spelled.as_bytes())?;
        self.asked.push(Asked {
            group,
            spelled,
            can_stand,
        })?;
        Ok(())
    }

    /// Whether something of a group could stand there.
    pub fn has(&self, group: Group) -> bool {
        for asked in &self.asked {
            if asked.group == group && asked.can_stand {
                return true;
            }
        }
        false
    }

    /// Whether all of a group could stand there.
    fn has_all(&self, group: Group) -> bool {
        for asked in &self.asked {
            if asked.group == group && !asked.can_stand {
                return false;
            }
        }
        true
    }

    /// The first word of a group.
    fn first_of(&self, group: Group) -> Option<&'static str> {
        for asked in &self.asked {
            if asked.group == group {
                return Some(asked.spelled);
            }
        }
        None
    }

    /// Whether a word could stand there.
    pub fn has_word(&self, spelled: &str) -> bool {
        for asked in &self.asked {
            if asked.can_stand && asked.spelled.as_bytes() == spelled.as_bytes() {
                return true;
            }
        }
        false
    }

    /// The word that could stand there, where that is all.
    pub fn only_word(&self) -> Option<&'static str> {
        let mut only = None;
        for asked in &self.asked {
            match (asked.can_stand, asked.group) {
                (true, Group::Word) if only.is_none() => only = Some(asked.spelled),
                (true, _) => return None,
                (false, _) => {}
            }
        }
        only
    }

    /// What could stand there, in words; the end of the line where that says something.
    pub fn words(&self, alloc: Global, with_end: bool) -> Result<Vec<&'static str>, AllocError> {
        let mut told: Vec<&'static str> = Vec::new(alloc);
        for asked in &self.asked {
            if let Some(word) = self.told(*asked) {
                told.push(word)?;
            }
        }
        if self.is_line_end && with_end {
            told.push("the end of the line")?;
        }
        if self.is_text_end {
            told.push("the end of the text")?;
        }
        Ok(told)
    }

    /// What is told of a word where it could stand there: that, or the name of its group, with the
    /// first, where all of that could; instructions in parentheses are told by all instructions.
    fn told(&self, asked: Asked) -> Option<&'static str> {
        let Asked { group, spelled, .. } = asked;
        let is_told = group == Group::Operator && self.has(Group::Outer);
        if !asked.can_stand || is_told {
            return None;
        }
        let name = group_name(group);
        if name.is_empty() || !self.has_all(group) {
            return Some(sign_name(spelled));
        }
        match self.first_of(group) {
            Some(first) if first.as_bytes() == spelled.as_bytes() => Some(name),
            _ => None,
        }
    }
}

/// How a group is told in one; nothing where each word of it is told.
fn group_name(group: Group) -> &'static str {
    for (one, name, _) in ASKED {
        if *one == group {
            return *name;
        }
    }
    ""
}

/// Whether a word can stand behind a text: the first fault is not there, but at the end.
fn can_stand(alloc: Global, front: &[u8], word: &[u8]) -> Result<bool, AllocError> {
    let mut bytes = Vec::from_slice(alloc, front)?;
    bytes.extend_from_slice(b" ")?;
    let len = bytes.len();
    bytes.extend_from_slice(word)?;
    Ok(read_to(alloc, &bytes)? > len)
}

/// Writes words one after another, at most so many, with `or` before the last.
pub fn list_words(alloc: Global, words: &[&'static str]) -> Result<String, AllocError> {
    let mut text = String::new(alloc);
    let last = words.len().saturating_sub(1);
    for (index, word) in words.iter().enumerate() {
        let (before, word) = match index {
            0 => ("", *word),
            MOST_TOLD => (", and ", "more"),
            _ if index > MOST_TOLD => ("", ""),
            _ if index == last => (" or ", *word),
            _ => (", ", *word),
        };
        text.push_str(before)?;
        text.push_str(word)?;
    }
    Ok(text)
}
