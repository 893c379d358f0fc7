//! Where the tables of a file stand.

ghost use Rattle.std.specs.Prelude.{◌≡◌, ◌*◌, length};
ghost use Rattle.ilcodefile.specs.Faults.{size};
ghost use Rattle.ilcodefile.specs.FaultSteps.{counted};
ghost use Rattle.ilcodefile.specs.TableSteps.{IsFront, after_blocks, after_constants};
ghost use Rattle.ilcodefile.specs.TableSteps.{after_functions, after_head, after_slots, after_starts};
ghost use Rattle.ilcodefile.specs.TableSteps.{after_words};

use crate::shape::FileCounts;

/// The bytes of each table.
#[derive(Clone, Copy)]
pub(crate) struct FileTables<'a> {
    pub(crate) constants: &'a [u8],
    pub(crate) slots: &'a [u8],
    pub(crate) blocks: &'a [u8],
    pub(crate) starts: &'a [u8],
    pub(crate) functions: &'a [u8],
    pub(crate) words: &'a [u8],
    pub(crate) lines: &'a [u8],
}

/// The tables of bytes that are as long as the counts ask for.
pub(crate) fn tables_in(bytes: &[u8], counts: FileCounts) -> FileTables<'_>
    requires { length bytes.now ≡ size (counted counts) }
    ensures constants { IsFront result.constants.now (after_head bytes.now (counted counts))
        (16 * counts.constants) }
    ensures slots { IsFront result.slots.now (after_constants bytes.now (counted counts))
        (24 * counts.slots) }
    ensures blocks { IsFront result.blocks.now (after_slots bytes.now (counted counts))
        counts.blocks }
    ensures starts { IsFront result.starts.now (after_blocks bytes.now (counted counts))
        (4 * counts.starts) }
    ensures functions { IsFront result.functions.now (after_starts bytes.now (counted counts))
        (16 * counts.functions) }
    ensures words { IsFront result.words.now (after_functions bytes.now (counted counts))
        (4 * counts.words) }
    ensures lines { result.lines.now ≡ after_words bytes.now (counted counts) }
    ensures lines_long { length result.lines.now ≡ 4 * counts.words }
{
    let (_, rest) = bytes.split_at(counts.version.head_size());
    let (constants, rest) = rest.split_at(16 * counts.constants);
    let (slots, rest) = rest.split_at(24 * counts.slots);
    let (blocks, rest) = rest.split_at(counts.blocks);
    let (starts, rest) = rest.split_at(4 * counts.starts);
    let (functions, rest) = rest.split_at(16 * counts.functions);
    let (words, lines) = rest.split_at(4 * counts.words);
    FileTables {
        constants,
        slots,
        blocks,
        starts,
        functions,
        words,
        lines,
    }
}
