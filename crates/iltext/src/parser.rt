//! From bytes to a source program.

ghost use Rattle.std.specs.Prelude.{◌≡◌, ◌≤◌, length, IfOk, IfErr, All};
ghost use Rattle.limits.specs.Limits.{most_bytes};
ghost use Rattle.ilsource.specs.SourceTrees.{Tree};
ghost use Rattle.iltext.specs.Parsing.{IsText, IsReadAs, IsTextFault, IsFault};
ghost use Rattle.iltext.specs.ParsingSteps.{IsParsed, IsSourceOf};
ghost use Rattle.iltext.specs.declared.fault.TextFault.{TextFault};

use crate::cutting::tokens;
use crate::fault::{TextCause, TextFault, fault_at};
use crate::programs::whole_text;
use crate::token::Token;
use ilsource::{Configuration, Element, Source};
use iltokens::ReadError;
use limits::is_too_long;
use std::alloc::Global;

/// The source program that `text` spells, or its first fault: the place is that of the first token
/// (or byte that begins none) such that the tokens up to and including it are no front of a text,
/// and the cause is what stands there. The end of a text counts as a token just past its last byte.
/// A text of more than 1,048,576 bytes is refused at 1:1.
pub fn parse(alloc: Global, text: &[u8]) -> Result<Source, TextFault>
    // What is read is spelled so.
    ensures found { IfOk result (λ source. IsText text.now source) }
    // What is spelled so is read, unless memory runs out.
    ensures only { (tree : Tree) → IsText text.now tree → IsReadAs tree result }
    // A fault is the first.
    ensures fault { IfErr result (λ fault. IsFault text.now fault) }
    // A text has at most one source program.
    ensures one { (a b : Tree) → IsText text.now a → IsText text.now b → a ≡ b }
    // Any bytes have at most one fault,
    ensures one_fault { (a b : TextFault)
        → IsTextFault text.now a → IsTextFault text.now b → a ≡ b }
    // and those of a source program have none.
    ensures apart { (tree : Tree) (fault : TextFault)
        → IsText text.now tree → ¬ IsTextFault text.now fault }
{
    if is_too_long(text) {
        return Err(TextFault::At {
            line: 1,
            col: 1,
            cause: TextCause::TooLong,
        });
    }
    match tokens(alloc, text) {
        Ok(tokens) => parse_tokens(alloc, text, &tokens),
        Err(_) => Err(TextFault::Memory),
    }
}

/// What the tokens of `text` are read as.
fn parse_tokens(alloc: Global, text: &[u8], ts: &[Token]) -> Result<Source, TextFault>
    requires places { All (λ t. t.from ≤ length text.now) ts.now }
    requires short { length text.now ≤ most_bytes }
    ensures { IsParsed text.now ts.now result }
{
    match whole_text(alloc, ts) {
        Ok((elements, configuration)) => with_text(alloc, text, elements, configuration),
        Err(ReadError::Memory) => Err(TextFault::Memory),
        Err(ReadError::Fault(rest)) => {
            let (before, _) = ts.split_at(ts.len() - rest.len());
            Err(fault_at(text, before, rest))
        }
    }
}

/// The source program of these types, functions and programs and this configuration.
fn with_text(
    alloc: Global,
    text: &[u8],
    elements: Vec<Element>,
    configuration: Option<Configuration>,
) -> Result<Source, TextFault>
    requires { length text.now ≤ most_bytes }
    ensures { IsSourceOf text.now elements.items configuration result }
{
    match Vec::from_slice(alloc, text) {
        Ok(bytes) => Ok(Source::new(bytes, elements, configuration)),
        Err(_) => Err(TextFault::Memory),
    }
}
