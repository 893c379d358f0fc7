//! Declarations of types and of variables (IEC 61131-3, 2.3.3.1 and 2.4.3).

use crate::name::Name;
use ilblocks::BlockKind;
use iltypes::IntegerType;
use std::marker::Model;

/// A constant as it is written.
#[derive(Clone, Copy)]
pub enum Constant {
    /// TRUE or FALSE.
    Bool(bool),
    /// A number, in any base.
    Number(i64),
    /// A duration, in milliseconds.
    Time(u32),
}

/// A type as it is written.
#[derive(Clone, Copy)]
pub enum Specification {
    Bool,
    Time,
    Integer(IntegerType),
    /// `INT (low..high)`. The limits are as they are written: they may be exchanged, or outside the
    /// base.
    Subrange {
        base: IntegerType,
        low: i64,
        high: i64,
    },
    /// The name of a declared type.
    Named(Name),
}

/// `name ":" specification [":=" constant] ";"`, between TYPE and END_TYPE.
#[derive(Clone, Copy)]
pub struct TypeDeclaration {
    pub name: Name,
    pub specification: Specification,
    /// The initial value that is written.
    pub initial: Option<Constant>,
}

/// What the names of a declaration are.
#[derive(Clone, Copy)]
pub enum Declared {
    /// Variables of one type, with the initial value that is written.
    Variables {
        specification: Specification,
        initial: Option<Constant>,
    },
    /// Instances of a function block.
    Blocks(BlockKind),
    /// In VAR_EXTERNAL: global variables of this type, which a configuration declares.
    External(Specification),
}

/// `name {"," name} ":" (specification [":=" constant] | block) ";"`: names that are declared
/// together.
#[derive(Drop)]
pub struct Declaration {
    names: Vec<Name>,
    declared: Declared,
}

impl Model for Declaration {
    ghost use Rattle.ilsource.specs.Programs.{DeclaredNames};

    ghost Value = { DeclaredNames };

    ghost view = { λ d. record { names = d.names.items; declared = d.declared } };
}

impl Declaration {
    ghost use Rattle.std.specs.Prelude.{◌≡◌};
    ghost use Rattle.ilsource.specs.Programs.{DeclaredNames};

    /// The declaration of these names.
    pub fn new(names: Vec<Name>, declared: Declared) -> Declaration
        ensures names { result.names ≡ names.items }
        ensures declared { result.declared ≡ declared }
    {
        Declaration { names, declared }
    }

    /// The names, in the order in which they are written.
    pub fn names(&self) -> &[Name]
        ensures { result.now ≡ self.now.names }
    {
        &self.names
    }

    /// What the names are.
    pub fn declared_kind(&self) -> Declared
        ensures { result ≡ self.now.declared }
    {
        self.declared
    }
}
