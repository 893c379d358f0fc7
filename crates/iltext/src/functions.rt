//! Functions (IEC 61131-3, 2.5.1).

ghost use Rattle.std.specs.Prelude.{◌≡◌, List, length};
ghost use Rattle.iltokens.specs.Items.{begins};
ghost use Rattle.iltokens.specs.Results.{Gives};
ghost use Rattle.iltext.specs.Functions.{input, inputs, var_input, function_word, head};
ghost use Rattle.iltext.specs.Functions.{own_variables, function};

use crate::declarations::{begins_vars, names, specification, vars};
use crate::instructions::lines;
use crate::reading::{begins_name, line_ends, spaced_delimiter, spaced_name, spaced_word};
use crate::token::{Token, TokenKind};
use ilsource::{Declaration, Declared, Name, SourceFunction, Specification};
use iltokens::{Delimiter, Keyword, ReadError, What};
use std::alloc::Global;

/// With what a function begins.
#[derive(Clone, Copy)]
pub(crate) struct FunctionHead {
    /// The place of the word FUNCTION.
    pub at: usize,
    pub name: Name,
    /// The type of what the function gives.
    pub result_type: Specification,
}

/// `name {"," name} ":" specification ";"`
#[tactic(auto, unfolding(crate::specs::Functions::input))]
fn input<'a>(
    alloc: Global,
    ts: &'a [Token],
) -> Result<(Declaration, &'a [Token]), ReadError<'a, Token>>
    ensures { Gives (λ x. (x.0, x.1.now)) result (input.read ts.now) }
{
    let (names, rest) = names(alloc, ts)?;
    let rest = spaced_delimiter(rest, Delimiter::Colon)?;
    let (specification, rest) = specification(rest)?;
    let rest = spaced_delimiter(rest, Delimiter::Semicolon)?;
    let variables = Declared::Variables {
        specification,
        initial: None,
    };
    Ok((Declaration::new(names, variables), rest))
}

#[tactic(auto, unfolding(crate::specs::Functions::input, crate::specs::Declarations::names))]
fn begins_input(ts: &[Token]) -> bool
    ensures { result ≡ begins input ts.now }
{
    begins_name(ts)
}

/// `{input}`
fn inputs<'a>(
    alloc: Global,
    ts: &'a [Token],
) -> Result<(Vec<Declaration>, &'a [Token]), ReadError<'a, Token>>
    ensures { Gives (λ x. (x.0.items, x.1.now)) result (inputs.read ts.now) }
{
    let mut all = Vec::new(alloc);
    let mut rest = ts;
    'all: while begins_input(rest) {
        let (one, after) = input(alloc, rest)?;
        all.push(one)?;
        rest = after;
    }
    Ok((all, rest))
}

/// `VAR_INPUT {input} END_VAR`
#[tactic(auto, unfolding(crate::specs::Functions::var_input))]
fn var_input<'a>(
    alloc: Global,
    ts: &'a [Token],
) -> Result<(Vec<Declaration>, &'a [Token]), ReadError<'a, Token>>
    ensures { Gives (λ x. (x.0.items, x.1.now)) result (var_input.read ts.now) }
{
    let rest = spaced_word(ts, Keyword::VarInput)?;
    let (all, rest) = inputs(alloc, rest)?;
    let rest = spaced_word(rest, Keyword::EndVar)?;
    Ok((all, rest))
}

/// FUNCTION, by its place.
#[tactic(auto, unfolding(crate::specs::Functions::function_word))]
fn function_word<'a>(ts: &'a [Token]) -> Result<(usize, &'a [Token]), ReadError<'a, Token>>
    ensures { Gives (λ x. (x.0, x.1.now)) result (function_word.read ts.now) }
{
    match ts {
        [first, rest @ ..] => match first.kind {
            TokenKind::Good(What::Keyword(Keyword::Function)) => Ok((first.from, rest)),
            _ => Err(ReadError::Fault(ts)),
        },
        [] => Err(ReadError::Fault(ts)),
    }
}

/// `FUNCTION name ":" specification`
#[tactic(auto, unfolding(crate::specs::Functions::head))]
fn head<'a>(ts: &'a [Token]) -> Result<(FunctionHead, &'a [Token]), ReadError<'a, Token>>
    ensures { Gives (λ x. (x.0, x.1.now)) result (head.read ts.now) }
{
    let (at, rest) = function_word(ts)?;
    let rest = line_ends(rest);
    let (name, rest) = spaced_name(rest)?;
    let rest = spaced_delimiter(rest, Delimiter::Colon)?;
    let (result_type, rest) = specification(rest)?;
    let head = FunctionHead {
        at,
        name,
        result_type,
    };
    Ok((head, rest))
}

/// `[VAR {declaration} END_VAR]`
#[tactic(auto, unfolding(crate::specs::Functions::own_variables))]
fn own_variables<'a>(
    alloc: Global,
    ts: &'a [Token],
) -> Result<(Vec<Declaration>, &'a [Token]), ReadError<'a, Token>>
    ensures { Gives (λ x. (x.0.items, x.1.now)) result (own_variables.read ts.now) }
{
    if begins_vars(ts) {
        let (declarations, rest) = vars(alloc, ts)?;
        Ok((declarations, rest))
    } else {
        Ok((Vec::new(alloc), ts))
    }
}

/// `head VAR_INPUT {input} END_VAR [VAR {declaration} END_VAR] {line} END_FUNCTION`
#[tactic(auto, unfolding(crate::specs::Functions::function))]
pub(crate) fn function<'a>(
    alloc: Global,
    ts: &'a [Token],
) -> Result<(SourceFunction, &'a [Token]), ReadError<'a, Token>>
    ensures { Gives (λ x. (x.0, x.1.now)) result (function.read ts.now) }
{
    let (head, rest) = head(ts)?;
    let (inputs, rest) = var_input(alloc, rest)?;
    let (variables, rest) = own_variables(alloc, rest)?;
    let (lines, rest) = lines(alloc, rest)?;
    let rest = spaced_word(rest, Keyword::EndFunction)?;
    let function = SourceFunction::new(
        head.at,
        head.name,
        head.result_type,
        inputs,
        variables,
        lines,
    );
    Ok((function, rest))
}
