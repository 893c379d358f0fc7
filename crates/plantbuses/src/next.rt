//! What is handed out next, and its transaction.

ghost use Rattle.std.specs.Prelude.{◌≡◌};
ghost use Rattle.gearcmd.specs.FrameLists.{IsLegal};
ghost use Rattle.plantbuses.specs.HandingSteps.{IsOfClass, IsLevel, transaction_by, first_by};
ghost use Rattle.plantevents.specs.Variables.{whole};

use buslink::Transaction;
use busqueue::Class;
use daliframe::Address;
use gearcmd::Request;
use iltypes::Value;
use plantevents::Origin;

/// What is handed out next.
#[derive(Clone, Copy)]
pub struct Next {
    /// The priority of its first frame.
    pub class: Class,
    pub origin: Origin,
}

/// The same origin again.
fn copy_of(origin: &Origin) -> Origin
    ensures { result ≡ origin.now }
{
    *origin
}

impl Next {
    /// What it is made of.
    pub fn origin(&self) -> Origin
        ensures { result ≡ self.now.origin }
    {
        copy_of(&self.origin)
    }
}

/// Its transaction.
pub fn transaction_of(next: Next) -> Transaction
    requires { IsOfClass next.class next.origin }
    ensures value { result ≡ transaction_by next.class next.origin }
    ensures legal { IsLegal result.frames result.first_priority }
{
    let task = next.class.task();
    match next.origin {
        Origin::Queued(request) => Transaction::of(&request, task),
        Origin::Output { address, level } => {
            let address = Address::from_number(address).unwrap();
            Transaction::of_level(address, level, task)
        }
    }
}

/// The request, else the level.
pub fn first_of(class: Class, request: Option<Request>, level: Option<Next>) -> Option<Next>
    ensures { result ≡ first_by class request level }
{
    match request {
        Some(request) => {
            let origin = Origin::Queued(request);
            Some(Next { class, origin })
        }
        None => level,
    }
}

/// The level that a value is.
pub fn level_in(value: Value) -> u8
    requires { IsLevel value }
    ensures { value ≡ whole result }
{
    match value {
        Value::Int(level) => level as u8,
        Value::Bool(_) => unreachable!(),
    }
}
