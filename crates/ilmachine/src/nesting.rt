//! What is open: calls of functions, and parentheses.

ghost use Rattle.std.specs.Prelude.{◌≡◌, reverse};
ghost use Rattle.ilcode.specs.Listings.{end_of};
ghost use Rattle.ilmachine.specs.Nestings.{body_in};

use crate::loaded::Loaded;
use crate::open_function::OpenFunction;
use crate::waiting::Waiting;
use arrayvec::ArrayVec;
use std::marker::Model;

/// The calls that are open, and the operators that wait for their parenthesis in any body that
/// runs, of both the innermost last, and the place where the innermost body ends. In each body 32
/// operators may wait, so there is room for 288 of them where 8 calls may be open, and for 32 where
/// the code has no functions: room is filled at each scan.
#[derive(Drop)]
pub(crate) struct Nesting<const ROOM: usize> {
    waiting: ArrayVec<Waiting, ROOM>,
    calls: ArrayVec<OpenFunction, 8>,
    end: usize,
}

impl<const ROOM: usize> Model for Nesting<ROOM> {
    ghost use Rattle.std.specs.Prelude.{reverse, length, ◌≤◌, ◌+◌, ◌*◌};
    ghost use Rattle.limits.specs.Limits.{most_nesting};
    ghost use Rattle.ilmachine.specs.Nestings.{Nested, nested_of, AreMarks};

    ghost Value = { Nested };

    ghost view = { λ n. nested_of n.waiting.items (reverse n.calls.items) n.end };

    ghost invariant = { λ n. AreMarks n.waiting.items (reverse n.calls.items)
        × (most_nesting * (length n.calls.items + 1) ≤ ROOM) × (ROOM ≤ 288) };
}

impl<const ROOM: usize> Nesting<ROOM> {
    ghost use Rattle.std.specs.Prelude.{◌≡◌, ◌<◌, ◌≤◌, ◌+◌, ◌*◌, [], ◌∷◌, IfNone, IfSome, length};
    ghost use Rattle.limits.specs.Limits.{most_nesting, most_calls};
    ghost use Rattle.ilcode.specs.Steps.{open_call};
    ghost use Rattle.ilmachine.specs.Nestings.{nested, IsOpenIn};

    /// Nothing is open, in the programs of a code, which end there.
    pub(crate) fn new(end: usize) -> Nesting<ROOM>
        requires least { most_nesting ≤ ROOM }
        requires most { ROOM ≤ 288 }
        ensures { result ≡ nested [] [] end }
    {
        Nesting {
            waiting: ArrayVec::new(),
            calls: ArrayVec::new(),
            end,
        }
    }

    /// The place where the innermost body ends.
    #[inline(always)]
    pub(crate) fn end(&self) -> usize
        ensures { result ≡ self.now.end }
    {
        self.end
    }

    /// One operator more waits in the innermost body.
    #[inline(always)]
    pub(crate) fn push(&mut self, waiting: Waiting)
        requires { length self.old.nesting < most_nesting }
        ensures { self.new ≡ nested (waiting ∷ self.old.nesting) self.old.calls self.old.end }
    {
        let _calls = self.calls.len();
        self.waiting.push(waiting);
    }

    /// The innermost operator, which waits no more.
    #[inline(always)]
    pub(crate) fn pop(&mut self) -> Waiting
        requires { 0 < length self.old.nesting }
        ensures { self.old ≡ nested (result ∷ self.new.nesting) self.new.calls self.new.end }
    {
        let Some(waiting) = self.waiting.pop() else {
            unreachable!()
        };
        waiting
    }

    /// Opens a call of a function whose body ends at `end`, and whose caller goes on at `back`.
    #[inline(always)]
    pub(crate) fn enter(&mut self, function: u32, back: usize, end: usize)
        requires few { length self.old.calls < most_calls }
        requires room { most_nesting * (length self.old.calls + 2) ≤ ROOM }
        ensures { self.new
            ≡ nested [] (open_call function back self.old.nesting ∷ self.old.calls) end }
    {
        let mark = self.waiting.len();
        self.calls.push(OpenFunction {
            function,
            back,
            mark,
        });
        self.end = end;
    }

    /// Closes the innermost call, if one is open: what was open in the caller is open again.
    #[inline(never)]
    pub(crate) fn leave(&mut self, code: &Loaded<'_>) -> Option<OpenFunction>
        requires closed { self.old.nesting ≡ [] }
        requires open { IsOpenIn code.now self.old }
        ensures none { IfNone result (self.old.calls ≡ []) }
        ensures some { IfSome result (λ c. self.old.calls
            ≡ open_call c.function c.back self.new.nesting ∷ self.new.calls) }
        ensures open { IfSome result (λ _. IsOpenIn code.now self.new) }
    {
        let call = self.calls.pop()?;
        self.end = innermost_end(code, &self.calls);
        Some(call)
    }
}

/// The place where the innermost body ends while these calls are open.
fn innermost_end(code: &Loaded<'_>, calls: &ArrayVec<OpenFunction, 8>) -> usize
    ensures { result ≡ end_of code.now (body_in (reverse calls.now.items)) }
{
    match calls.last() {
        Some(call) => code.end_of(call.function as usize + 1),
        None => code.end_of(0),
    }
}
