//! Lists that contracts alone see, the newest item first.

ghost use Rattle.std.specs.Prelude.{◌≡◌, List, [], ◌∷◌};
ghost use base.Fml.{ftrue};

use std::marker::{Model, PhantomData};

/// A list of `T`s as contracts see them, the newest first. It has no bytes.
pub struct Trace<T> {
    marker: PhantomData<T>,
    pub ghost items: { List T },
}

// It owns nothing, not even what its `items` would own.
impl<T> Model for Trace<T> {
    ghost also_owns = { λ _. ftrue };
}

impl<T> Trace<T> {
    /// The list of nothing.
    pub fn new() -> Trace<T>
        ensures { result.items ≡ [] }
    {
        Trace {
            marker: PhantomData,
        }
    }

    /// Puts in front what the reference shows, which it does not keep.
    pub fn push(&mut self, x: &T)
        ensures { self.new.items ≡ x.now ∷ self.old.items }
    {
        let longer = self.with(x);
        *self = longer;
    }

    /// The list with one item more in front.
    fn with(&self, x: &T) -> Trace<T>
        ensures { result.items ≡ x.now ∷ self.now.items }
    {
        let _ = self;
        let _ = x;
        Trace {
            marker: PhantomData,
        }
    }
}

// It has no bytes and owns nothing, so no thread can reach anything through it.
unsafe impl<T> Send for Trace<T> {}

// As for `Send`: a shared trace leads to nothing either.
unsafe impl<T> Sync for Trace<T> {}

impl<T> Drop for Trace<T> {
    fn drop(self) {
        let Self { marker: _ } = self;
    }
}
