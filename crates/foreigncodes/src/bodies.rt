//! The bodies of a random code, that of its programs and those of its functions, and what words in
//! them may name.

/// What a word probably finds as the current result.
#[derive(Clone, Copy)]
pub(crate) enum Held {
    Nothing,
    Truth,
    Number,
}

/// Whose words they are.
#[derive(Clone, Copy)]
enum Owner {
    /// Programs, of a code with the given number of functions.
    Programs(u32),
    /// The first function.
    First,
    /// The second function.
    Second,
}

/// The words of programs or of a function.
#[derive(Clone, Copy)]
pub(crate) struct Body {
    owner: Owner,
    /// The place of the first.
    pub(crate) from: u32,
    /// The place behind the last.
    pub(crate) to: u32,
}

impl Body {
    ghost use Rattle.std.specs.Prelude.{◌<◌};

    /// Programs of a code with no function.
    pub(crate) fn alone(to: u32) -> Body {
        Body::programs(0, to)
    }

    /// Programs of a code with the given number of functions.
    pub(crate) fn programs(functions: u32, to: u32) -> Body {
        Body {
            owner: Owner::Programs(functions),
            from: 0,
            to,
        }
    }

    /// The first function.
    pub(crate) fn first(from: u32, to: u32) -> Body {
        Body {
            owner: Owner::First,
            from,
            to,
        }
    }

    /// The second function.
    pub(crate) fn second(from: u32, to: u32) -> Body {
        Body {
            owner: Owner::Second,
            from,
            to,
        }
    }

    /// Whether the code has functions.
    pub(crate) fn has_functions(self) -> bool {
        !matches!(self.owner, Owner::Programs(0))
    }

    /// Whether it is that of a function.
    pub(crate) fn is_function(self) -> bool {
        !matches!(self.owner, Owner::Programs(_))
    }

    /// Whether there is a function that it may call.
    pub(crate) fn may_call(self) -> bool {
        !matches!(self.owner, Owner::Programs(0) | Owner::First)
    }

    /// The slot that it has in place of one of the four of the programs; in place of the fifth one
    /// that it may not read, or that is not there.
    pub(crate) fn slot(self, number: u32) -> u32
        ensures { number < 5 → result < 11 }
    {
        match (self.owner, number) {
            (Owner::Programs(_), _) => number,
            (Owner::First, 0 | 2 | 3) => 4,
            (Owner::First, 1) => 5,
            (Owner::First, _) => 0,
            (Owner::Second, 0) => 8,
            (Owner::Second, 1) => 7,
            (Owner::Second, 2) => 6,
            (Owner::Second, 3) => 9,
            (Owner::Second, _) => 10,
        }
    }

    /// An input of a function that it may call; one of its own slots where it may call none.
    pub(crate) fn input(self, number: u32) -> u32
        ensures { number < 11 → result < 11 }
    {
        match (self.owner, number % 3) {
            (Owner::Programs(2), 0) => 6,
            (Owner::Programs(2), 1) => 7,
            (Owner::Programs(0), _) => number,
            (Owner::First, 0) => 4,
            (Owner::First, _) => 5,
            _ => 4,
        }
    }

    /// A function that it may call; one that it may not where there is none.
    pub(crate) fn callee(self, number: u32) -> u32 {
        match self.owner {
            Owner::Programs(2) => number % 2,
            _ => 0,
        }
    }
}
