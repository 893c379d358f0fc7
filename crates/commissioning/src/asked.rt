//! What questions of a survey were answered.

ghost use Rattle.std.specs.Prelude.{◌≡◌, find};
ghost use Rattle.std.specs.Option.{option_copied};
ghost use Rattle.commissioning.specs.Differences.{answer_of, byte_of, is_question, is_there};
ghost use Rattle.commissioning.specs.Differences.{outcome_of};

use crate::asking::Asked;
use crate::surveys::is_answer;
use buslink::{Outcome, Reply};
use gearcmd::Command;

/// Whether something answered a question.
pub(crate) fn is_answered(asked: &[Asked], question: Command) -> bool
    ensures { result ≡ is_there question asked.now }
{
    match outcome_of(asked, question) {
        Some(outcome) => is_answer(outcome),
        None => false,
    }
}

/// The byte that a question was answered.
pub(crate) fn answer_to(asked: &[Asked], question: Command) -> Option<u8>
    ensures { result ≡ answer_of question asked.now }
{
    match outcome_of(asked, question) {
        Some(Outcome::Done(Reply::Answer(byte))) => Some(byte),
        _ => None,
    }
}

/// How a question ended, the first time that it was asked.
fn outcome_of(asked: &[Asked], question: Command) -> Option<Outcome>
    ensures { result ≡ outcome_of question asked.now }
{
    match first_of(asked, question) {
        Some(one) => Some(one.outcome),
        None => None,
    }
}

/// The first of these that asked a question.
fn first_of(asked: &[Asked], question: Command) -> Option<&Asked>
    ensures { option_copied result ≡ find (λ a. is_question question a.command) asked.now }
{
    asked
        .iter()
        .find(|one| is_question(&question, &one.command))
}

/// Whether both are the same question to gear, or to an instance of a device.
fn is_question(question: &Command, other: &Command) -> bool
    ensures { result ≡ is_question question.now other.now }
{
    match (question, other) {
        (
            Command::GearAsk { address, command },
            Command::GearAsk {
                address: of,
                command: asked,
            },
        ) => address.number() == of.number() && command.number() == asked.number(),
        (
            Command::DevAsk {
                address,
                instance,
                command,
            },
            Command::DevAsk {
                address: of,
                instance: at,
                command: asked,
            },
        ) => {
            address.number() == of.number()
                && instance.number() == at.number()
                && command.number() == asked.number()
        }
        _ => false,
    }
}
