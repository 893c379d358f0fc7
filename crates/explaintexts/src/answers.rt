//! What is said of a fault of a text.

ghost use Rattle.std.specs.Prelude.{IfOk, IfSome};
ghost use Rattle.explaincures.specs.Trying.{ReadsOn, ShowsCure};
ghost use Rattle.explaintexts.specs.Readings.{ShowsReading};

use crate::examples::example_of;
use crate::filling::{first_answer, given_len};
use crate::habits::habit_answer;
use crate::numbers::numbers;
use crate::proposals::{
    ASKED, RESERVED, forms, is_bracket, is_renamed, parted, signs_before, signs_instead, words,
};
use crate::said::{Change, Row, Said, Trial, advice};
use explaincures::{
    Advice, AskedText, FaultAnswer, Group, Possible, Spot, Surroundings, is_one_of, left_out,
    list_words, place_of,
};
use explainpatterns::{Standing, place_of_pair};
use iltext::TextCause;
use iltokens::{Keyword, keyword_of};
use std::alloc::{AllocError, Global};

/// What is said of a cause at a line and a column of a text, both counted from 1. A change that is
/// shown was tried: with it the text is accepted, or reads on behind the change and that line.
///
/// # Errors
///
/// The allocator is out of memory.
pub fn answer_text(
    alloc: Global,
    asked: &AskedText,
    line: usize,
    col: usize,
    cause: TextCause,
) -> Result<FaultAnswer, AllocError>
    ensures { IfOk result (ShowsCure asked.now.binding.now asked.now.text.now line
        (ReadsOn asked.now.text.now line col)) }
{
    let at = place_of(asked.text, line, col);
    let standing = Standing {
        asked,
        line,
        col,
        spot: Spot::of(asked.text, at),
        around: Surroundings::of(asked.text, at),
    };
    let answer = match cause {
        TextCause::Unexpected | TextCause::NotNested => habitual(alloc, &standing, None)?,
        TextCause::BadToken => {
            let is_last = left_out(alloc, &standing.spot)?.is_some();
            habitual(alloc, &standing, Some(bad_token(&standing.spot, is_last)))?
        }
        _ => of_other(cause, &standing.spot).answer(alloc, &standing)?,
    };
    match answer {
        Some(answer) => Ok(answer),
        None => unexpected(alloc, &standing),
    }
}

/// What is said of what people write, or of a number; or this, where none is meant.
fn habitual(
    alloc: Global,
    standing: &Standing,
    last: Option<Said>,
) -> Result<Option<FaultAnswer>, AllocError>
    ensures { IfOk result (λ found. IfSome found (ShowsReading standing.now)) }
{
    for stage in 0..STAGES {
        let answer = habitual_at(alloc, standing, last, stage)?;
        if answer.is_some() {
            return Ok(answer);
        }
    }
    Ok(None)
}

/// How many stages there are at which something is said of what people write.
const STAGES: u8 = 4;

/// What is said at a stage: of what is nearly right, of `=` and of a program without a name, of
/// what other languages have, and of numbers where no range is meant.
fn habitual_at(
    alloc: Global,
    standing: &Standing,
    last: Option<Said>,
    stage: u8,
) -> Result<Option<FaultAnswer>, AllocError>
    ensures { IfOk result (λ found. IfSome found (ShowsReading standing.now)) }
{
    match stage {
        0 => habit_answer(alloc, standing, 0, 2),
        1 => {
            let [value, all, inputs] = equals(standing);
            first_answer(alloc, standing, &[value, all, inputs, unnamed(standing)])
        }
        2 => habit_answer(alloc, standing, 2, 12),
        _ if is_range(alloc, standing)? => Ok(None),
        _ => {
            let [number, other] = numbers(standing);
            first_answer(alloc, standing, &[number, other, last])
        }
    }
}

/// Whether a range with two dots is meant at one.
fn is_range(alloc: Global, standing: &Standing) -> Result<bool, AllocError> {
    let Standing { spot, around, .. } = standing;
    let is_dot = !around.is_in_body() && spot.token() == b".".as_slice();
    let place = (spot.at, spot.found_to());
    Ok(
        is_dot
            && Said::of(ASKED, place)
                .put(place, "..")
                .cure(alloc, standing)?
                .is_some(),
    )
}

/// What is said where a program is open that has no name where one is asked for: something else
/// stands on a line below PROGRAM, or begins or ends a block, or the text ends.
fn unnamed(standing: &Standing) -> Option<Said> {
    let spot = &standing.spot;
    let unit = standing.around.unit?;
    let is_open = unit.word == Keyword::Program && unit.name.is_none();
    let is_below = unit.at < spot.line_from || is_bracket(spot.token());
    let is_other = keyword_of(spot.token()).is_some() && is_below;
    let row = advice!("a program without a name";
        "a program has a name, which stands behind PROGRAM";
        "PROGRAM hall\nVAR count : UINT; END_VAR");
    let is_missing = is_open && (is_other || spot.at >= spot.text.len());
    is_missing.then_some(Said::of(row, (spot.at, spot.at)))
}

/// What is said of `=` or `=>`: `:=` in its place, or in that of each such sign up to the end of
/// the line where the text reads with it; or how a call is written, where one is open.
fn equals(standing: &Standing) -> [Option<Said>; 3] {
    let spot = &standing.spot;
    let comment = place_of_pair(spot.rest(), b"(*");
    let code_len = comment.unwrap_or(spot.rest().len());
    let code = (spot.at, spot.at.saturating_add(code_len));
    let sign = (spot.at, spot.at.saturating_add(given_len(spot.rest())));
    let row = advice!("{1} where := is asked for"; "a value stands behind :="; "");
    let value = Said::of(row, sign);
    let all = value.put_parts(code, "{=}", [code, sign]);
    let row = advice!("{0} where := is asked for";
        "an input takes its value behind :=; an output is read behind the call, with a\n\
            dot";
        "CAL rest(IN := pressed, PT := T#3m)\nLD rest.Q");
    let is_given = spot.token() == b"=".as_slice();
    let is_input = is_given && standing.is_in_call();
    let is_output = is_input && is_one_of(standing.before(), &["Q", "ET", "CV"]);
    let is_value = is_given && !is_output;
    [
        is_value.then_some(value.put(sign, ":=")),
        is_value.then_some(all),
        is_input.then_some(Said::of(row, sign)),
    ]
}

/// What is said of a character that no word begins with, which may be the last of its line.
fn bad_token(spot: &Spot, is_last: bool) -> Said {
    let cure = if is_last {
        "leave it out: a text has words, numbers, times, addresses, comments and\n\
            , : ; := . .. ( ) &"
    } else {
        "a text has words, numbers, times, addresses, comments and , : ; := . .. ( ) &"
    };
    let row = Advice {
        what: "no word begins with {0}",
        cure,
        line: "LD a",
    };
    Said {
        change: Change::LeaveOut,
        ..Said::told(row, (spot.at, spot.found_to()))
    }
}

/// What is said of the other causes.
fn of_other(cause: TextCause, spot: &Spot) -> Said {
    let said = Said::of(row_of(cause, spot), (spot.at, spot.at));
    match cause {
        TextCause::CommentOpen => Said {
            trial: Trial::Text,
            ..said.put((spot.line_to, spot.line_to), " *)")
        },
        TextCause::NotAscii if is_marked(spot) => said.put((0, 3), ""),
        TextCause::NotAscii => match sign_meant(spot) {
            Some((len, sign)) => said.put((spot.at, spot.at.saturating_add(len)), sign),
            None => said,
        },
        _ => said,
    }
}

/// The sign that is meant by a blank or a dash of typesetting, and how many bytes that has.
fn sign_meant(spot: &Spot) -> Option<(usize, &'static str)> {
    match (byte_at(spot, 0), byte_at(spot, 1), byte_at(spot, 2)) {
        (0xc2, 0xa0, _) => Some((2, " ")),
        (0xe2, 0x80 | 0x88, 0x90..=0x95) => Some((3, "-")),
        _ => None,
    }
}

/// Whether a byte order mark stands there.
fn is_marked(spot: &Spot) -> bool {
    spot.at == 0 && spot.text.starts_with(b"\xef\xbb\xbf")
}

/// What is said of a cause.
fn row_of(cause: TextCause, spot: &Spot) -> Row {
    match cause {
        TextCause::NotAscii => row_of_character(spot),
        TextCause::TooDeep => advice!("a parenthesis too many: at most 32 are open at once";
            "store what is computed so far in a variable, and go on with that";
            "ST part"),
        TextCause::CommentOpen => advice!("a comment without end";
            "end it; (*) opens a comment too, and does not close it";
            "(* the stairs *)"),
        TextCause::TooLong => advice!("a text of over 1,048,576 bytes";
            "leave out comments, or divide the house among two controllers";
            "PROGRAM stairs"),
        _ => row_of_number(spot),
    }
}

/// What is said of a character that is not ASCII.
fn row_of_character(spot: &Spot) -> Row {
    if is_marked(spot) {
        return advice!("a byte order mark";
            "save the file without one: as ASCII, or as UTF-8 without a mark";
            "PROGRAM stairs");
    }
    match (byte_at(spot, 0), byte_at(spot, 1)) {
        (0xc2, 0xa0) => advice!("a blank that is not the one of the keyboard";
            "write a blank or a tab";
            "LD lamp"),
        (0xe2, 0x80) => advice!("a sign of typesetting";
            "write - for a dash, and names without quotation marks";
            "ADD -5"),
        (0xfe | 0xff, _) => advice!("a text in UTF-16";
            "save the file as ASCII, or as UTF-8 without a mark";
            "PROGRAM stairs"),
        _ => advice!("a character that is not ASCII";
            "write names without accents; in comments any character may stand";
            "PROGRAM cafe"),
    }
}

/// What is said of a number that is too big, by what it is.
fn row_of_number(spot: &Spot) -> Row {
    match byte_at(spot, 0) {
        b'T' | b't' => advice!("a time over its limit";
            "a time is at most 4294967295 milliseconds, which is some 49 days";
            "T#49d"),
        b'%' => advice!("an address over its limit";
            "buses are 0 to 63, and what stands behind the dot is 0 to 255 at most";
            "lamp AT %QB0.5 : USINT (0..254);"),
        _ => advice!("a number over its limit";
            "numbers have 64 signed bits: -9223372036854775808 to 9223372036854775807";
            "LD 9223372036854775807"),
    }
}

/// The byte that stands the given number of bytes behind a place of a line; 0 behind its end.
fn byte_at(spot: &Spot, number: usize) -> u8 {
    match spot.rest().get(number) {
        Some(byte) => *byte,
        None => 0,
    }
}

/// What is said where something cannot stand: what could, and a change of the line that is tried.
fn unexpected(alloc: Global, standing: &Standing) -> Result<FaultAnswer, AllocError>
    ensures { IfOk result (ShowsReading standing.now) }
{
    match Possible::at(
        alloc,
        standing.spot.text,
        standing.around.from,
        standing.spot.at,
    )? {
        Some(possible) => expected(alloc, standing, &possible),
        None => cannot_stand(standing).plain(alloc, standing),
    }
}

/// The same where it is known what could stand there.
fn expected(
    alloc: Global,
    standing: &Standing,
    possible: &Possible,
) -> Result<FaultAnswer, AllocError>
    ensures { IfOk result (ShowsReading standing.now) }
{
    let facts = told_of(alloc, standing, possible)?;
    let answer = match proposed(alloc, standing, possible)? {
        Some(answer) => answer,
        None => last(alloc, standing, possible)?.plain(alloc, standing)?,
    };
    Ok(answer.with_facts(facts))
}

/// What could stand there, in a line; nothing where that says nothing.
fn told_of(alloc: Global, standing: &Standing, possible: &Possible) -> Result<String, AllocError> {
    let with_end = standing.around.is_in_body() && !standing.spot.is_first();
    let told = possible.words(alloc, with_end)?;
    if told.is_empty() {
        return Ok(String::new(alloc));
    }
    let list = list_words(alloc, &told)?;
    format!(in alloc; "could stand here: {list}\n")
}

/// The first change of the line that helps.
fn proposed(
    alloc: Global,
    standing: &Standing,
    possible: &Possible,
) -> Result<Option<FaultAnswer>, AllocError>
    ensures { IfOk result (λ found. IfSome found (ShowsReading standing.now)) }
{
    for group in 0..GROUPS {
        let answer = proposed_of(alloc, standing, possible, group)?;
        if answer.is_some() {
            return Ok(answer);
        }
    }
    Ok(None)
}

/// How many groups of changes there are.
const GROUPS: u8 = 5;

/// The first change of a group that helps.
fn proposed_of(
    alloc: Global,
    standing: &Standing,
    possible: &Possible,
    group: u8,
) -> Result<Option<FaultAnswer>, AllocError>
    ensures { IfOk result (λ found. IfSome found (ShowsReading standing.now)) }
{
    match group {
        0 => first_answer(alloc, standing, &words(standing, possible)),
        1 => first_answer(alloc, standing, &forms(standing, possible)),
        2 => first_answer(alloc, standing, &signs_before(standing, possible)),
        3 => first_answer(alloc, standing, &parted(standing, possible)),
        _ => first_answer(alloc, standing, &signs_instead(standing, possible)),
    }
}

/// What is said where no change helps: that a word is reserved, where a name alone could stand, or
/// what is asked for, where that is one thing.
fn last(alloc: Global, standing: &Standing, possible: &Possible) -> Result<Said, AllocError> {
    let spot = &standing.spot;
    let said = cannot_stand(standing);
    let Advice { cure, line, .. } = said.row;
    let is_other = possible.has(Group::OtherType) || possible.has(Group::Number);
    if is_renamed(spot, possible) && !is_other {
        let row = Advice {
            line,
            ..Advice::of(RESERVED)
        };
        return Ok(Said { row, ..said });
    }
    let row = Advice {
        cure,
        line,
        ..Advice::of(ASKED)
    };
    let told = possible.words(alloc, standing.around.is_in_body())?;
    Ok(match told.as_slice() {
        [only] if !spot.token().is_empty() => Said { row, ..said }.with_words((*only, "")),
        _ => said,
    })
}

/// What is said where nothing else is.
fn cannot_stand(standing: &Standing) -> Said {
    let spot = &standing.spot;
    let (cure, line) = example_of(spot, &standing.around);
    let what = if spot.at >= spot.text.len() {
        "the text ends too early"
    } else if spot.token().is_empty() {
        "the line ends too early"
    } else {
        "{0} cannot stand here"
    };
    Said::told(Advice { what, cure, line }, (spot.at, spot.found_to()))
}
