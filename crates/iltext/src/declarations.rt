//! Declarations of types and of variables (IEC 61131-3, 2.3.3.1 and 2.4.3).

ghost use Rattle.std.specs.Prelude.{◌≡◌, List, length};
ghost use Rattle.iltokens.specs.Items.{begins};
ghost use Rattle.iltokens.specs.Results.{Gives};
ghost use Rattle.iltext.specs.Terminals.{spaced};
ghost use Rattle.iltext.specs.Declarations.{integer, simple, interval, range, specification};
ghost use Rattle.iltext.specs.Declarations.{initial, typing, type_declaration, instances, declared};
ghost use Rattle.iltext.specs.Declarations.{next_name, names_after, names};
ghost use Rattle.iltext.specs.Declarations.{declaration, declarations, vars};
ghost use Rattle.iltext.specs.Declarations.{external, externals, var_external, variables};
ghost use Rattle.iltext.specs.Globals.{global};
ghost use Rattle.iltext.specs.Texts.{derived_type};

use crate::block_kinds::{begins_instances, block};
use crate::reading::{
    begins_name, begins_word, line_ends, spaced_constant, spaced_delimiter, spaced_name,
    spaced_number, spaced_word,
};
use crate::token::{Token, TokenKind};
use ilblocks::BlockKind;
use ilsource::{Constant, Declaration, Declared, Name, Specification, TypeDeclaration};
use iltokens::{Delimiter, Keyword, ReadError, What};
use iltypes::IntegerType;
use std::alloc::Global;

/// SINT, INT, DINT, USINT, UINT or UDINT.
#[tactic(auto, unfolding(crate::specs::Declarations::integer))]
fn integer<'a>(ts: &'a [Token]) -> Result<(IntegerType, &'a [Token]), ReadError<'a, Token>>
    ensures { Gives (λ x. (x.0, x.1.now)) result (integer.read ts.now) }
{
    match ts {
        [first, rest @ ..] => {
            let integer = match first.kind {
                TokenKind::Good(What::Keyword(Keyword::Sint)) => IntegerType::Sint,
                TokenKind::Good(What::Keyword(Keyword::Int)) => IntegerType::Int,
                TokenKind::Good(What::Keyword(Keyword::Dint)) => IntegerType::Dint,
                TokenKind::Good(What::Keyword(Keyword::Usint)) => IntegerType::Usint,
                TokenKind::Good(What::Keyword(Keyword::Uint)) => IntegerType::Uint,
                TokenKind::Good(What::Keyword(Keyword::Udint)) => IntegerType::Udint,
                _ => return Err(ReadError::Fault(ts)),
            };
            Ok((integer, rest))
        }
        [] => Err(ReadError::Fault(ts)),
    }
}

/// BOOL, TIME or the name of a type.
#[tactic(auto, unfolding(crate::specs::Declarations::simple))]
fn simple<'a>(ts: &'a [Token]) -> Result<(Specification, &'a [Token]), ReadError<'a, Token>>
    ensures { Gives (λ x. (x.0, x.1.now)) result (simple.read ts.now) }
{
    match ts {
        [first, rest @ ..] => {
            let specification = match first.kind {
                TokenKind::Good(What::Keyword(Keyword::Bool)) => Specification::Bool,
                TokenKind::Good(What::Keyword(Keyword::Time)) => Specification::Time,
                TokenKind::Good(What::Name) => Specification::Named(Name {
                    from: first.from,
                    to: first.to,
                }),
                _ => return Err(ReadError::Fault(ts)),
            };
            Ok((specification, rest))
        }
        [] => Err(ReadError::Fault(ts)),
    }
}

/// `"(" number ".." number ")"`
#[tactic(auto, unfolding(crate::specs::Declarations::interval))]
fn interval<'a>(ts: &'a [Token]) -> Result<((i64, i64), &'a [Token]), ReadError<'a, Token>>
    ensures { Gives (λ x. (x.0, x.1.now)) result (interval.read ts.now) }
{
    let rest = spaced_delimiter(ts, Delimiter::Open)?;
    let (low, rest) = spaced_number(rest)?;
    let rest = spaced_delimiter(rest, Delimiter::Range)?;
    let (high, rest) = spaced_number(rest)?;
    let rest = spaced_delimiter(rest, Delimiter::Close)?;
    Ok(((low, high), rest))
}

/// An integer type, or a subrange of one.
#[tactic(auto, unfolding(crate::specs::Declarations::range, crate::specs::Declarations::interval, crate::specs::Terminals::delimiter))]
fn range<'a>(ts: &'a [Token]) -> Result<(Specification, &'a [Token]), ReadError<'a, Token>>
    ensures { Gives (λ x. (x.0, x.1.now)) result (range.read ts.now) }
{
    let (base, rest) = integer(ts)?;
    let rest = line_ends(rest);
    match rest {
        [
            Token {
                kind: TokenKind::Good(What::Delimiter(Delimiter::Open)),
                ..
            },
            ..
        ] => {
            let ((low, high), rest) = interval(rest)?;
            Ok((Specification::Subrange { base, low, high }, rest))
        }
        _ => Ok((Specification::Integer(base), rest)),
    }
}

#[tactic(auto, unfolding(crate::specs::Declarations::simple))]
fn begins_simple(ts: &[Token]) -> bool
    ensures { result ≡ begins (spaced simple) ts.now }
{
    matches!(
        ts,
        [
            Token {
                kind: TokenKind::Good(
                    What::Keyword(Keyword::Bool) | What::Keyword(Keyword::Time) | What::Name,
                ),
                ..
            },
            ..
        ]
    )
}

/// The type that is written.
#[tactic(auto, unfolding(crate::specs::Declarations::specification))]
pub(crate) fn specification<'a>(
    ts: &'a [Token],
) -> Result<(Specification, &'a [Token]), ReadError<'a, Token>>
    ensures { Gives (λ x. (x.0, x.1.now)) result (specification.read ts.now) }
{
    if begins_simple(ts) {
        let (specification, rest) = simple(ts)?;
        Ok((specification, line_ends(rest)))
    } else {
        range(ts)
    }
}

/// `[":=" constant]`
#[tactic(auto, unfolding(crate::specs::Declarations::initial, crate::specs::Terminals::delimiter))]
fn initial<'a>(ts: &'a [Token]) -> Result<(Option<Constant>, &'a [Token]), ReadError<'a, Token>>
    ensures { Gives (λ x. (x.0, x.1.now)) result (initial.read ts.now) }
{
    match ts {
        [
            Token {
                kind: TokenKind::Good(What::Delimiter(Delimiter::Assign)),
                ..
            },
            ..
        ] => {
            let rest = spaced_delimiter(ts, Delimiter::Assign)?;
            let (value, rest) = spaced_constant(rest)?;
            Ok((Some(value), rest))
        }
        _ => Ok((None, ts)),
    }
}

/// `specification [":=" constant] ";"`
#[tactic(auto, unfolding(crate::specs::Declarations::typing))]
pub(crate) fn typing<'a>(
    ts: &'a [Token],
) -> Result<((Specification, Option<Constant>), &'a [Token]), ReadError<'a, Token>>
    ensures { Gives (λ x. (x.0, x.1.now)) result (typing.read ts.now) }
{
    let (specification, rest) = specification(ts)?;
    let (initial, rest) = initial(rest)?;
    let rest = spaced_delimiter(rest, Delimiter::Semicolon)?;
    Ok(((specification, initial), rest))
}

/// `name ":" specification [":=" constant] ";"`
#[tactic(auto, unfolding(crate::specs::Declarations::type_declaration))]
pub(crate) fn type_declaration<'a>(
    ts: &'a [Token],
) -> Result<(TypeDeclaration, &'a [Token]), ReadError<'a, Token>>
    ensures { Gives (λ x. (x.0, x.1.now)) result (type_declaration.read ts.now) }
{
    let (name, rest) = spaced_name(ts)?;
    let rest = spaced_delimiter(rest, Delimiter::Colon)?;
    let ((specification, initial), rest) = typing(rest)?;
    let declaration = TypeDeclaration {
        name,
        specification,
        initial,
    };
    Ok((declaration, rest))
}

#[tactic(auto, unfolding(crate::specs::Declarations::next_name, crate::specs::Terminals::delimiter))]
fn begins_next_name(ts: &[Token]) -> bool
    ensures { result ≡ begins next_name ts.now }
{
    matches!(
        ts,
        [
            Token {
                kind: TokenKind::Good(What::Delimiter(Delimiter::Comma)),
                ..
            },
            ..
        ]
    )
}

/// `"," name`
#[tactic(auto, unfolding(crate::specs::Declarations::next_name))]
fn next_name<'a>(ts: &'a [Token]) -> Result<(Name, &'a [Token]), ReadError<'a, Token>>
    ensures { Gives (λ x. (x.0, x.1.now)) result (next_name.read ts.now) }
{
    let rest = spaced_delimiter(ts, Delimiter::Comma)?;
    spaced_name(rest)
}

/// `{"," name}`, after a first name.
#[tactic(auto, unfolding(crate::specs::Declarations::names_after))]
pub(crate) fn names_after<'a>(
    alloc: Global,
    first: Name,
    ts: &'a [Token],
) -> Result<(Vec<Name>, &'a [Token]), ReadError<'a, Token>>
    ensures { Gives (λ x. (x.0.items, x.1.now)) result ((names_after first).read ts.now) }
{
    let mut names = Vec::new(alloc);
    names.push(first)?;
    let mut rest = ts;
    'more: while begins_next_name(rest) {
        let (next, after) = next_name(rest)?;
        names.push(next)?;
        rest = after;
    }
    Ok((names, rest))
}

/// `name {"," name}`
#[tactic(auto, unfolding(crate::specs::Declarations::names))]
pub(crate) fn names<'a>(
    alloc: Global,
    ts: &'a [Token],
) -> Result<(Vec<Name>, &'a [Token]), ReadError<'a, Token>>
    ensures { Gives (λ x. (x.0.items, x.1.now)) result (names.read ts.now) }
{
    let (first, rest) = spaced_name(ts)?;
    names_after(alloc, first, rest)
}

/// Whether a name stands first, with which declarations begin.
#[tactic(auto, unfolding(crate::specs::Declarations::declaration, crate::specs::Declarations::names, crate::specs::Declarations::external, crate::specs::Globals::global, crate::specs::Declarations::type_declaration, crate::specs::Texts::derived_type))]
pub(crate) fn begins_declaration(ts: &[Token]) -> bool
    ensures variables { result ≡ begins declaration ts.now }
    ensures externals { result ≡ begins external ts.now }
    ensures globals { result ≡ begins global ts.now }
    ensures types { result ≡ begins derived_type ts.now }
{
    begins_name(ts)
}

/// `block ";"`
#[tactic(auto, unfolding(crate::specs::Declarations::instances))]
fn instances<'a>(ts: &'a [Token]) -> Result<(BlockKind, &'a [Token]), ReadError<'a, Token>>
    ensures { Gives (λ x. (x.0, x.1.now)) result (instances.read ts.now) }
{
    let (kind, rest) = block(ts)?;
    let rest = line_ends(rest);
    let rest = spaced_delimiter(rest, Delimiter::Semicolon)?;
    Ok((kind, rest))
}

/// `block ";"` or `specification [":=" constant] ";"`
#[tactic(auto, unfolding(crate::specs::Declarations::declared))]
fn declared<'a>(ts: &'a [Token]) -> Result<(Declared, &'a [Token]), ReadError<'a, Token>>
    ensures { Gives (λ x. (x.0, x.1.now)) result (declared.read ts.now) }
{
    if begins_instances(ts) {
        let (kind, rest) = instances(ts)?;
        Ok((Declared::Blocks(kind), rest))
    } else {
        let ((specification, initial), rest) = typing(ts)?;
        let variables = Declared::Variables {
            specification,
            initial,
        };
        Ok((variables, rest))
    }
}

/// `name {"," name} ":" (specification [":=" constant] | block) ";"`
#[tactic(auto, unfolding(crate::specs::Declarations::declaration))]
fn declaration<'a>(
    alloc: Global,
    ts: &'a [Token],
) -> Result<(Declaration, &'a [Token]), ReadError<'a, Token>>
    ensures { Gives (λ x. (x.0, x.1.now)) result (declaration.read ts.now) }
{
    let (names, rest) = names(alloc, ts)?;
    let rest = spaced_delimiter(rest, Delimiter::Colon)?;
    let (declared, rest) = declared(rest)?;
    Ok((Declaration::new(names, declared), rest))
}

/// `{declaration}`
fn declarations<'a>(
    alloc: Global,
    ts: &'a [Token],
) -> Result<(Vec<Declaration>, &'a [Token]), ReadError<'a, Token>>
    ensures { Gives (λ x. (x.0.items, x.1.now)) result (declarations.read ts.now) }
{
    let mut all = Vec::new(alloc);
    let mut rest = ts;
    'all: while begins_declaration(rest) {
        let (one, after) = declaration(alloc, rest)?;
        all.push(one)?;
        rest = after;
    }
    Ok((all, rest))
}

/// `VAR {declaration} END_VAR`
#[tactic(auto, unfolding(crate::specs::Declarations::vars))]
pub(crate) fn vars<'a>(
    alloc: Global,
    ts: &'a [Token],
) -> Result<(Vec<Declaration>, &'a [Token]), ReadError<'a, Token>>
    ensures { Gives (λ x. (x.0.items, x.1.now)) result (vars.read ts.now) }
{
    let rest = spaced_word(ts, Keyword::Var)?;
    let (all, rest) = declarations(alloc, rest)?;
    let rest = spaced_word(rest, Keyword::EndVar)?;
    Ok((all, rest))
}

/// `name ":" specification ";"`
#[tactic(auto, unfolding(crate::specs::Declarations::external))]
fn external<'a>(
    alloc: Global,
    ts: &'a [Token],
) -> Result<(Declaration, &'a [Token]), ReadError<'a, Token>>
    ensures { Gives (λ x. (x.0, x.1.now)) result (external.read ts.now) }
{
    let (name, rest) = spaced_name(ts)?;
    let rest = spaced_delimiter(rest, Delimiter::Colon)?;
    let (specification, rest) = specification(rest)?;
    let rest = spaced_delimiter(rest, Delimiter::Semicolon)?;
    let mut names = Vec::new(alloc);
    names.push(name)?;
    Ok((
        Declaration::new(names, Declared::External(specification)),
        rest,
    ))
}

/// `{external}`
fn externals<'a>(
    alloc: Global,
    ts: &'a [Token],
) -> Result<(Vec<Declaration>, &'a [Token]), ReadError<'a, Token>>
    ensures { Gives (λ x. (x.0.items, x.1.now)) result (externals.read ts.now) }
{
    let mut all = Vec::new(alloc);
    let mut rest = ts;
    'all: while begins_declaration(rest) {
        let (one, after) = external(alloc, rest)?;
        all.push(one)?;
        rest = after;
    }
    Ok((all, rest))
}

/// `VAR_EXTERNAL {external} END_VAR`
#[tactic(auto, unfolding(crate::specs::Declarations::var_external))]
fn var_external<'a>(
    alloc: Global,
    ts: &'a [Token],
) -> Result<(Vec<Declaration>, &'a [Token]), ReadError<'a, Token>>
    ensures { Gives (λ x. (x.0.items, x.1.now)) result (var_external.read ts.now) }
{
    let rest = spaced_word(ts, Keyword::VarExternal)?;
    let (all, rest) = externals(alloc, rest)?;
    let rest = spaced_word(rest, Keyword::EndVar)?;
    Ok((all, rest))
}

/// Whether a VAR block stands first.
#[tactic(auto, unfolding(crate::specs::Declarations::vars, crate::specs::Terminals::word))]
pub(crate) fn begins_vars(ts: &[Token]) -> bool
    ensures { result ≡ begins vars ts.now }
{
    begins_word(ts, Keyword::Var)
}

/// A VAR or VAR_EXTERNAL block.
#[tactic(auto, unfolding(crate::specs::Declarations::variables))]
pub(crate) fn variables<'a>(
    alloc: Global,
    ts: &'a [Token],
) -> Result<(Vec<Declaration>, &'a [Token]), ReadError<'a, Token>>
    ensures { Gives (λ x. (x.0.items, x.1.now)) result (variables.read ts.now) }
{
    if begins_vars(ts) {
        vars(alloc, ts)
    } else {
        var_external(alloc, ts)
    }
}

/// Whether a VAR or VAR_EXTERNAL block stands first.
#[tactic(auto, unfolding(crate::specs::Declarations::variables, crate::specs::Declarations::vars, crate::specs::Declarations::var_external, crate::specs::Terminals::word))]
pub(crate) fn begins_variables(ts: &[Token]) -> bool
    ensures { result ≡ begins variables ts.now }
{
    begins_word(ts, Keyword::Var) || begins_word(ts, Keyword::VarExternal)
}
