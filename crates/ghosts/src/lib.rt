//! Values and lists that contracts alone see.
//!
//! What crosses the boundary: [`Memo::of`] notes what a value is at one place of the code, so that
//! later clauses can speak of it as `memo.value`. A [`Trace`] begins empty, and [`Trace::push`]
//! puts what happened in front, so that clauses can speak of all that happened as `trace.items`,
//! the newest first. Neither has bytes, takes memory or owns anything, so both may cross threads
//! whatever they note; std's `Snapshot`, which is a memo otherwise, may not.
//!
//! ```text
//! let asked = Memo::of(&requests);
//! history.push(&event);
//! ```
#![tactic(auto)]

ghost use Rattle.std.specs.Prelude.{◌≡◌};
ghost use base.Fml.{ftrue};

mod trace;

use std::marker::{Model, PhantomData};
pub use trace::Trace;

/// A `T` as contracts see it. It has no bytes.
pub struct Memo<T> {
    marker: PhantomData<T>,
    pub ghost value: { T },
}

// It owns nothing, not even what its `value` would own.
impl<T> Model for Memo<T> {
    ghost also_owns = { λ _. ftrue };
}

impl<T> Memo<T> {
    /// A memo of what the reference shows, which it does not keep.
    pub fn of(x: &T) -> Memo<T>
        ensures { result.value ≡ x.now }
    {
        let _ = x;
        Memo {
            marker: PhantomData,
        }
    }
}

// It has no bytes and owns nothing, so no thread can reach anything through it.
unsafe impl<T> Send for Memo<T> {}

// As for `Send`: a shared memo leads to nothing either.
unsafe impl<T> Sync for Memo<T> {}

impl<T> Drop for Memo<T> {
    fn drop(self) {
        let Self { marker: _ } = self;
    }
}
