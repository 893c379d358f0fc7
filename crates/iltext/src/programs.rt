//! Programs, TYPE blocks and whole texts.

ghost use Rattle.std.specs.Prelude.{◌≡◌, List, length};
ghost use Rattle.iltokens.specs.Items.{begins};
ghost use Rattle.iltokens.specs.Stops.{whole_read};
ghost use Rattle.iltokens.specs.Results.{Gives};
ghost use Rattle.iltext.specs.Declarations.{variables};
ghost use Rattle.iltext.specs.Texts.{blocks, program, derived_type, derived_types};
ghost use Rattle.iltext.specs.Texts.{types, function_unit, program_unit, unit, units, text};

use crate::configurations::optional_configuration;
use crate::declarations::{begins_declaration, begins_variables, type_declaration, variables};
use crate::functions::function;
use crate::instructions::lines;
use crate::reading::{end, line_ends, spaced_name, spaced_word};
use crate::token::{Token, TokenKind};
use ilsource::{Configuration, Declaration, Element, Program};
use iltokens::{Keyword, ReadError, What};
use std::alloc::Global;

/// `{variables}`, as one list.
fn blocks<'a>(
    alloc: Global,
    ts: &'a [Token],
) -> Result<(Vec<Declaration>, &'a [Token]), ReadError<'a, Token>>
    ensures { Gives (λ x. (x.0.items, x.1.now)) result (blocks.read ts.now) }
{
    let mut all = Vec::new(alloc);
    let mut rest = ts;
    'all: while begins_variables(rest) {
        let (one, after) = variables(alloc, rest)?;
        let mut one = one;
        all.append(&mut one)?;
        rest = after;
    }
    Ok((all, rest))
}

/// `PROGRAM name {variables} {line} END_PROGRAM`
#[tactic(auto, unfolding(crate::specs::Texts::program))]
fn program<'a>(
    alloc: Global,
    ts: &'a [Token],
) -> Result<(Program, &'a [Token]), ReadError<'a, Token>>
    ensures { Gives (λ x. (x.0, x.1.now)) result (program.read ts.now) }
{
    let rest = spaced_word(ts, Keyword::Program)?;
    let (name, rest) = spaced_name(rest)?;
    let (declarations, rest) = blocks(alloc, rest)?;
    let (lines, rest) = lines(alloc, rest)?;
    let rest = spaced_word(rest, Keyword::EndProgram)?;
    Ok((Program::new(name, declarations, lines), rest))
}

/// A type declaration, as an element of the text.
#[tactic(auto, unfolding(crate::specs::Texts::derived_type))]
fn derived_type<'a>(ts: &'a [Token]) -> Result<(Element, &'a [Token]), ReadError<'a, Token>>
    ensures { Gives (λ x. (x.0, x.1.now)) result (derived_type.read ts.now) }
{
    let (declaration, rest) = type_declaration(ts)?;
    Ok((Element::DerivedType(declaration), rest))
}

/// `{type_declaration}`
fn derived_types<'a>(
    alloc: Global,
    ts: &'a [Token],
) -> Result<(Vec<Element>, &'a [Token]), ReadError<'a, Token>>
    ensures { Gives (λ x. (x.0.items, x.1.now)) result (derived_types.read ts.now) }
{
    let mut all = Vec::new(alloc);
    let mut rest = ts;
    'all: while begins_declaration(rest) {
        let (one, after) = derived_type(rest)?;
        all.push(one)?;
        rest = after;
    }
    Ok((all, rest))
}

/// `TYPE {type_declaration} END_TYPE`
#[tactic(auto, unfolding(crate::specs::Texts::types))]
fn types<'a>(
    alloc: Global,
    ts: &'a [Token],
) -> Result<(Vec<Element>, &'a [Token]), ReadError<'a, Token>>
    ensures { Gives (λ x. (x.0.items, x.1.now)) result (types.read ts.now) }
{
    let rest = spaced_word(ts, Keyword::Type)?;
    let (all, rest) = derived_types(alloc, rest)?;
    let rest = spaced_word(rest, Keyword::EndType)?;
    Ok((all, rest))
}

#[tactic(auto, unfolding(crate::specs::Texts::types, crate::specs::Terminals::word))]
fn begins_types(ts: &[Token]) -> bool
    ensures { result ≡ begins types ts.now }
{
    matches!(
        ts,
        [
            Token {
                kind: TokenKind::Good(What::Keyword(Keyword::Type)),
                ..
            },
            ..
        ]
    )
}

/// A function, as an element of the text.
#[tactic(auto, unfolding(crate::specs::Texts::function_unit))]
fn function_unit<'a>(
    alloc: Global,
    ts: &'a [Token],
) -> Result<(Vec<Element>, &'a [Token]), ReadError<'a, Token>>
    ensures { Gives (λ x. (x.0.items, x.1.now)) result (function_unit.read ts.now) }
{
    let (function, rest) = function(alloc, ts)?;
    let mut all = Vec::new(alloc);
    all.push(Element::Function(function))?;
    Ok((all, rest))
}

#[tactic(auto, unfolding(crate::specs::Texts::function_unit, crate::specs::Functions::function, crate::specs::Functions::head, crate::specs::Functions::function_word))]
fn begins_function_unit(ts: &[Token]) -> bool
    ensures { result ≡ begins function_unit ts.now }
{
    matches!(
        ts,
        [
            Token {
                kind: TokenKind::Good(What::Keyword(Keyword::Function)),
                ..
            },
            ..
        ]
    )
}

/// A program, as an element of the text.
#[tactic(auto, unfolding(crate::specs::Texts::program_unit))]
fn program_unit<'a>(
    alloc: Global,
    ts: &'a [Token],
) -> Result<(Vec<Element>, &'a [Token]), ReadError<'a, Token>>
    ensures { Gives (λ x. (x.0.items, x.1.now)) result (program_unit.read ts.now) }
{
    let (program, rest) = program(alloc, ts)?;
    let mut all = Vec::new(alloc);
    all.push(Element::Program(program))?;
    Ok((all, rest))
}

/// A TYPE block, a function or a program.
#[tactic(auto, unfolding(crate::specs::Texts::unit))]
fn unit<'a>(
    alloc: Global,
    ts: &'a [Token],
) -> Result<(Vec<Element>, &'a [Token]), ReadError<'a, Token>>
    ensures { Gives (λ x. (x.0.items, x.1.now)) result (unit.read ts.now) }
{
    if begins_types(ts) {
        types(alloc, ts)
    } else if begins_function_unit(ts) {
        function_unit(alloc, ts)
    } else {
        program_unit(alloc, ts)
    }
}

#[tactic(auto, unfolding(crate::specs::Texts::unit, crate::specs::Texts::types, crate::specs::Texts::function_unit, crate::specs::Functions::function, crate::specs::Functions::head, crate::specs::Functions::function_word, crate::specs::Texts::program_unit, crate::specs::Texts::program, crate::specs::Terminals::word))]
fn begins_unit(ts: &[Token]) -> bool
    ensures { result ≡ begins unit ts.now }
{
    matches!(
        ts,
        [
            Token {
                kind: TokenKind::Good(
                    What::Keyword(Keyword::Type)
                        | What::Keyword(Keyword::Function)
                        | What::Keyword(Keyword::Program)
                ),
                ..
            },
            ..
        ]
    )
}

/// `{unit}`, as one list.
fn units<'a>(
    alloc: Global,
    ts: &'a [Token],
) -> Result<(Vec<Element>, &'a [Token]), ReadError<'a, Token>>
    ensures { Gives (λ x. (x.0.items, x.1.now)) result (units.read ts.now) }
{
    let mut all = Vec::new(alloc);
    let mut rest = ts;
    'all: while begins_unit(rest) {
        let (one, after) = unit(alloc, rest)?;
        let mut one = one;
        all.append(&mut one)?;
        rest = after;
    }
    Ok((all, rest))
}

/// What a text spells: its types, functions and programs, and its configuration.
type TextParts = (Vec<Element>, Option<Configuration>);

/// The types, functions and programs that the tokens spell, and the configuration.
#[tactic(auto, unfolding(crate::specs::Texts::text))]
pub(crate) fn whole_text<'a>(
    alloc: Global,
    ts: &'a [Token],
) -> Result<TextParts, ReadError<'a, Token>>
    ensures { Gives (λ x. (x.0.items, x.1)) result (whole_read text ts.now) }
{
    let rest = line_ends(ts);
    let (elements, rest) = units(alloc, rest)?;
    let (configuration, rest) = optional_configuration(alloc, rest)?;
    end(rest)?;
    Ok((elements, configuration))
}
