//! Packed words of codes.

ghost use Rattle.std.specs.Prelude.{◌≡◌, length};

use ilcode::{Code, PackedWord, Word, WordOperand};
use iltypes::Condition;

/// `counts_the_slots_for_the_words`: the length of a code was the number of its slots.
pub fn length_is_that_of_the_words(code: &Code) -> usize
    requires slots { length code.now.slots ≡ 1 }
    requires words { length code.now.instructions ≡ 2 }
    ensures { result ≡ 2 }
{
    code.len()
}

/// `port_and_instance_exchanged`: of a port the instance stood where its number stands.
pub fn instance_stands_above_the_port() -> u32
    ensures { result ≡ 8640 }
{
    let word = Word::Load {
        negated: false,
        operand: WordOperand::Port { port: 1, block: 2 },
    };
    PackedWord::of(&word).bits()
}

/// `target_loses_its_high_part`: of a jump's target the upper 12 bits were left out.
pub fn target_keeps_its_high_part() -> u32
    ensures { result ≡ 1_048_604 }
{
    let word = Word::Jump {
        condition: Condition::Always,
        target: 4096,
    };
    PackedWord::of(&word).bits()
}

/// `any_bits_are_a_word`: bits were read as a word that other bits spell.
pub fn word_has_the_bits_that_it_was_read_from(bits: u32) -> u32
    ensures { result ≡ bits }
{
    match PackedWord::read(bits) {
        Some(word) => word.bits(),
        None => bits,
    }
}
