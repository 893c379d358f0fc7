//! What is known after a function of one value.

ghost use Rattle.std.specs.Prelude.{◌≡◌, ◌↔◌, IfOk, Err};

use crate::cause::Cause;
use crate::known::Known;
use iltypes::{Function, IntegerType, Range};

impl Known {
    ghost use Rattle.ilverify.specs.declared.cause.Cause.{Cause};
    ghost use Rattle.ilverify.specs.Causes.{IsLeastCause};
    ghost use Rattle.ilverify.specs.Functions.{IsAfterFunction, ArisesAtFunction};
    ghost use Rattle.ilverify.specs.FunctionSteps.{IsFunctionVerdict};

    /// What is known after a function of the value (IEC 61131-3, 3.2.2 and 2.5.1.5): the least that
    /// holds all it gives. Else the least cause that arises.
    pub fn after_function(self, function: Function) -> Result<Known, Cause>
        ensures known { IfOk result (IsAfterFunction function self) }
        ensures refused { (cause : Cause) → (result ≡ Err cause)
            ↔ IsLeastCause (ArisesAtFunction function self) cause }
    {
        match self {
            Known::Bool => Known::function_of_truth(function),
            Known::Int(range) => Known::function_of_number(function, range),
        }
    }

    /// What is known after a function of a truth value.
    fn function_of_truth(function: Function) -> Result<Known, Cause>
        ensures { IsFunctionVerdict function Known.Bool result }
    {
        match function {
            Function::Not => Ok(Known::Bool),
            Function::Abs => Err(Cause::WrongType),
            Function::Convert(_) => Err(Cause::WrongType),
        }
    }

    /// What is known after a function of a number.
    fn function_of_number(function: Function, range: Range) -> Result<Known, Cause>
        ensures { IsFunctionVerdict function (Known.Int range) result }
    {
        match function {
            Function::Not => Err(Cause::WrongType),
            Function::Abs => Known::fitting(range.abs()),
            Function::Convert(target) => Known::convert(target, range),
        }
    }

    /// What is known after a conversion of a number.
    fn convert(target: IntegerType, found: Range) -> Result<Known, Cause>
        ensures { IsFunctionVerdict (Function.Convert target) (Known.Int found) result }
    {
        let allowed = target.range();
        if found.within(allowed) {
            Ok(Known::Int(found))
        } else {
            Err(Cause::OutOfRange { found, allowed })
        }
    }
}
