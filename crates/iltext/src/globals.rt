//! Declarations of global variables (IEC 61131-3, 2.4.3).

ghost use Rattle.std.specs.Prelude.{◌≡◌};
ghost use Rattle.iltokens.specs.Items.{begins};
ghost use Rattle.iltokens.specs.Results.{Gives};
ghost use Rattle.ilsource.specs.declared.name.Name.{Name};
ghost use Rattle.iltext.specs.Globals.{address, located, unlocated, global_named, global};
ghost use Rattle.iltext.specs.Globals.{globals, var_global, global_blocks};

use crate::declarations::{begins_declaration, names_after, typing};
use crate::reading::{begins_word, line_ends, spaced_delimiter, spaced_name, spaced_word};
use crate::token::{Token, TokenKind};
use ilsource::{DirectAddress, GlobalDeclaration, Name};
use iltokens::{Delimiter, Keyword, ReadError, What};
use std::alloc::Global;

/// `%QB`, `%IW` or `%IX` with its numbers.
#[tactic(auto, unfolding(crate::specs::Globals::address))]
fn address<'a>(ts: &'a [Token]) -> Result<(DirectAddress, &'a [Token]), ReadError<'a, Token>>
    ensures { Gives (λ x. (x.0, x.1.now)) result (address.read ts.now) }
{
    match ts {
        [first, rest @ ..] => match first.kind {
            TokenKind::Good(What::Address { kind, bus, place }) => Ok((
                DirectAddress {
                    at: first.from,
                    kind,
                    bus,
                    place,
                },
                rest,
            )),
            _ => Err(ReadError::Fault(ts)),
        },
        [] => Err(ReadError::Fault(ts)),
    }
}

/// `AT address ":" specification [":=" constant] ";"`, after the only name.
#[tactic(auto, unfolding(crate::specs::Globals::located))]
fn located<'a>(
    alloc: Global,
    name: Name,
    ts: &'a [Token],
) -> Result<(GlobalDeclaration, &'a [Token]), ReadError<'a, Token>>
    ensures { Gives (λ x. (x.0, x.1.now)) result ((located name).read ts.now) }
{
    let rest = spaced_word(ts, Keyword::At)?;
    let (address, rest) = address(rest)?;
    let rest = line_ends(rest);
    let rest = spaced_delimiter(rest, Delimiter::Colon)?;
    let ((specification, initial), rest) = typing(rest)?;
    let mut names = Vec::new(alloc);
    names.push(name)?;
    Ok((
        GlobalDeclaration::new(names, Some(address), specification, initial),
        rest,
    ))
}

/// `{"," name} ":" specification [":=" constant] ";"`, after a first name.
#[tactic(auto, unfolding(crate::specs::Globals::unlocated))]
fn unlocated<'a>(
    alloc: Global,
    first: Name,
    ts: &'a [Token],
) -> Result<(GlobalDeclaration, &'a [Token]), ReadError<'a, Token>>
    ensures { Gives (λ x. (x.0, x.1.now)) result ((unlocated first).read ts.now) }
{
    let (names, rest) = names_after(alloc, first, ts)?;
    let rest = spaced_delimiter(rest, Delimiter::Colon)?;
    let ((specification, initial), rest) = typing(rest)?;
    Ok((
        GlobalDeclaration::new(names, None, specification, initial),
        rest,
    ))
}

#[tactic(auto, unfolding(crate::specs::Globals::located))]
fn begins_located(ts: &[Token]) -> bool
    ensures { (name : Name) → result ≡ begins (located name) ts.now }
{
    begins_word(ts, Keyword::At)
}

/// `name (AT address | {"," name}) ":" specification [":=" constant] ";"`
#[tactic(auto, unfolding(crate::specs::Globals::global, crate::specs::Globals::global_named))]
fn global<'a>(
    alloc: Global,
    ts: &'a [Token],
) -> Result<(GlobalDeclaration, &'a [Token]), ReadError<'a, Token>>
    ensures { Gives (λ x. (x.0, x.1.now)) result (global.read ts.now) }
{
    let (name, rest) = spaced_name(ts)?;
    if begins_located(rest) {
        located(alloc, name, rest)
    } else {
        unlocated(alloc, name, rest)
    }
}

/// `{global}`
fn globals<'a>(
    alloc: Global,
    ts: &'a [Token],
) -> Result<(Vec<GlobalDeclaration>, &'a [Token]), ReadError<'a, Token>>
    ensures { Gives (λ x. (x.0.items, x.1.now)) result (globals.read ts.now) }
{
    let mut all = Vec::new(alloc);
    let mut rest = ts;
    'all: while begins_declaration(rest) {
        let (one, after) = global(alloc, rest)?;
        all.push(one)?;
        rest = after;
    }
    Ok((all, rest))
}

/// `VAR_GLOBAL {global} END_VAR`
#[tactic(auto, unfolding(crate::specs::Globals::var_global))]
fn var_global<'a>(
    alloc: Global,
    ts: &'a [Token],
) -> Result<(Vec<GlobalDeclaration>, &'a [Token]), ReadError<'a, Token>>
    ensures { Gives (λ x. (x.0.items, x.1.now)) result (var_global.read ts.now) }
{
    let rest = spaced_word(ts, Keyword::VarGlobal)?;
    let (all, rest) = globals(alloc, rest)?;
    let rest = spaced_word(rest, Keyword::EndVar)?;
    Ok((all, rest))
}

#[tactic(auto, unfolding(crate::specs::Globals::var_global))]
fn begins_var_global(ts: &[Token]) -> bool
    ensures { result ≡ begins var_global ts.now }
{
    begins_word(ts, Keyword::VarGlobal)
}

/// `{var_global}`, as one list.
pub(crate) fn global_blocks<'a>(
    alloc: Global,
    ts: &'a [Token],
) -> Result<(Vec<GlobalDeclaration>, &'a [Token]), ReadError<'a, Token>>
    ensures { Gives (λ x. (x.0.items, x.1.now)) result (global_blocks.read ts.now) }
{
    let mut all = Vec::new(alloc);
    let mut rest = ts;
    'all: while begins_var_global(rest) {
        let (one, after) = var_global(alloc, rest)?;
        let mut one = one;
        all.append(&mut one)?;
        rest = after;
    }
    Ok((all, rest))
}
