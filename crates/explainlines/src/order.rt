//! Why a line of good words is bad among the lines before it.

use crate::forms::Form;
use crate::reason::{Meant, Reason};
use crate::words::first_word;
use explaincures::line_of;
use wordlines::number_of;

/// What a line of good words says.
#[derive(Clone, Copy)]
pub(crate) struct Said<'a> {
    /// The file, and the number of the line.
    bytes: &'a [u8],
    number: usize,
    word: &'static str,
    /// The first three numbers behind the word, of which a place is two.
    numbers: [u64; 3],
}

/// What helps where two lines say the same.
const ONE_OF_TWO: &str = "leave one of the two lines out";

/// What helps where a bus is not there.
const OTHER_BUS: &str = "the first bus is 0; the line `buses` has the number of all buses";

impl<'a> Said<'a> {
    /// What the line of a number says, which is of this form.
    pub(crate) fn of(bytes: &'a [u8], number: usize, form: &Form) -> Said<'a> {
        Said {
            bytes,
            number,
            word: form.word,
            numbers: numbers_of(line_of(bytes, number)),
        }
    }

    /// Why it is bad among the lines of a binding.
    pub(crate) fn bad_in_binding(&self) -> Reason {
        let [bus, number, _] = self.numbers;
        let (first, _) = self.before(&["buses"], 0);
        let [buses, ..] = numbers_of(line_of(self.bytes, first));
        let (what, cure, line) = match self.word {
            _ if first == 0 => return self.without_buses(),
            "buses" => {
                let what = "the number of buses is said twice, first in line {3}";
                return self.reason(what, ONE_OF_TWO, first);
            }
            _ if bus >= buses && buses == 1 => {
                let what = "there is no bus {0}: there is bus 0 alone (line {3})";
                (what, OTHER_BUS, first)
            }
            _ if bus >= buses => {
                let what = "there is no bus {0}: there are 0 to {2} (line {3})";
                (what, OTHER_BUS, first)
            }
            "tries" => {
                let what = "bus {0} has a line `tries` already, line {3}";
                (what, ONE_OF_TWO, self.like(1))
            }
            _ => {
                let what = "the place {0}.{1} has a source already, in line {3}";
                let cure = "give each source a place of its own, with another number";
                (what, cure, self.like(2))
            }
        };
        let reason = Reason::of(what, cure);
        let reason = reason.with([bus, number, buses.saturating_sub(1), line as u64]);
        let behind = self.word.len().saturating_add(1);
        reason.at(behind, behind)
    }

    /// That no line before it says the number of buses: one behind it does, or none.
    fn without_buses(&self) -> Reason {
        let number = usize::MAX;
        let (later, _) = Said { number, ..*self }.before(&["buses"], 0);
        let ([bus, ..], [buses, ..]) = (self.numbers, numbers_of(line_of(self.bytes, later)));
        let (cure, count) = match later {
            0 => ("begin with the line `buses N`", bus.saturating_add(1)),
            _ => ("move line {3} before this one", buses),
        };
        let reason = Reason::of("the number of buses is not said yet", cure);
        let reason = reason.with([count, 0, 0, later as u64]);
        reason.meaning(Meant::With("buses {0}\n"))
    }

    /// Why it is bad among the lines of a scenario: it comes too late, or what it declares is
    /// declared already, or what it names is not.
    pub(crate) fn bad_in_scenario(&self) -> Reason {
        if self.word == "tick" || self.word == "ticks" {
            return self.bad_ticks();
        }
        let (ticked, _) = self.before(&["tick", "ticks", "event"], 0);
        if ticked > 0 {
            let what = "{word} behind the first tick or event, in line {3}";
            let cure = "say what is on the buses, and what becomes of frames, before that";
            return self.reason(what, cure, ticked).at(0, self.word.len());
        }
        let (count, line_before) = match self.word {
            "instance" => (3, "device {0} {1}\n"),
            _ => (2, "gear {0} {1}\n"),
        };
        let first = self.like(count);
        let what = match self.word {
            "gear" => "gear {1} of bus {0} is declared already, in line {3}",
            "device" => "device {1} of bus {0} is declared already, in line {3}",
            "reply" => "frame {1} of bus {0} has a line already, line {3}",
            "instance" if first < self.number => {
                "instance {2} of device {1} of bus {0} is declared already, in line {3}"
            }
            "instance" => "there is no device {1} on bus {0} up to here",
            _ => "there is no gear {1} on bus {0} up to here",
        };
        if first < self.number {
            let cure = "leave this line out, or give it another number";
            return self.reason(what, cure, first).meaning(Meant::Perhaps("# "));
        }
        let cure = "declare gear, devices and instances once, and before a line that names them";
        self.reason(what, cure, first)
            .meaning(Meant::With(line_before))
    }

    /// Why the ticks of one line cannot be: their last moment is before the first, the first falls,
    /// or they are too many.
    fn bad_ticks(&self) -> Reason {
        let [first, last, _] = self.numbers;
        let (_, line) = self.before(&["tick", "ticks"], 0);
        let before = last_moment(line_of(self.bytes, line));
        if self.word == "ticks" && last < first {
            let what = "the last moment {1} is before the first, {0}";
            let cure = "write the first moment, the last one, and the time from one to the next";
            self.reason(what, cure, line)
        } else if self.word == "tick" || first < before {
            let what = "moment {0} comes behind moment {1}, in line {3}";
            let reason = Reason::of(what, "moments stay or rise, from tick to tick");
            let behind = self.word.len().saturating_add(1);
            reason
                .with([first, before, 0, line.max(1) as u64])
                .at(behind, behind)
        } else {
            let what = "more ticks than the 149,796 lines of a scenario";
            let cure = "take a longer time from one to the next, or play it in two parts";
            self.reason(what, cure, line)
        }
    }

    /// A reason with its numbers, and with that of another line.
    fn reason(&self, what: &'static str, cure: &'static str, line: usize) -> Reason {
        let [one, two, three] = self.numbers;
        Reason::of(what, cure).with([one, two, three, line as u64])
    }

    /// The number of the first line before it with its word and so many of its numbers; its own
    /// where there is none.
    fn like(&self, count: usize) -> usize {
        match self.before(&[self.word], count) {
            (0, _) => self.number,
            (first, _) => first,
        }
    }

    /// The numbers of the first and of the last line before it that begin with one of these words
    /// and then have so many of its numbers; 0 where there is none.
    fn before(&self, words: &[&str], count: usize) -> (usize, usize) {
        let mut first = 0;
        let mut last = 0;
        for (index, line) in self.bytes.split(|byte| *byte == b'\n').enumerate() {
            let number = index.saturating_add(1);
            if number >= self.number {
                break;
            }
            let (word, numbers) = (first_word(line), numbers_of(line));
            let is_like = (0..count).all(|index| numbers.get(index) == self.numbers.get(index));
            if is_like && words.iter().any(|one| one.as_bytes() == word) {
                first = if first == 0 { number } else { first };
                last = number;
            }
        }
        (first, last)
    }
}

/// The first three numbers behind the first word of a line, with its CR or without.
fn numbers_of(line: &[u8]) -> [u64; 3] {
    let mut numbers = [0; 3];
    let words = line.split(|byte| *byte == b' ' || *byte == b'.' || *byte == b'\r');
    for (number, word) in numbers.iter_mut().zip(words.skip(1)) {
        *number = number_of(word, u64::MAX).unwrap_or(0);
    }
    numbers
}

/// The moment to which the clock comes by a line of ticks; 0 by none.
fn last_moment(line: &[u8]) -> u64 {
    let [first, last, step] = numbers_of(line);
    let time = last.saturating_sub(first);
    let over = time.checked_rem(step).unwrap_or(0);
    first.saturating_add(time.saturating_sub(over))
}
