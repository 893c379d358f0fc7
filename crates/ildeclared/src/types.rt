//! What specifications and declarations mean below the types that are declared above them.

ghost use Rattle.std.specs.Prelude.{◌≡◌, None};
ghost use Rattle.ilsource.specs.declared.declaration.Specification.TheVariants.{Subrange};
ghost use Rattle.ildeclared.specs.DataTypes.{data_type, declared_type};
ghost use Rattle.ildeclared.specs.Kept.{types_in};

use crate::data_type::DataType;
use crate::names::Names;
use ilsource::{Constant, Name, Specification};
use iltypes::{IntegerType, Range};

/// What each type that is declared above a place means; nothing where its declaration is at fault.
pub type DeclaredTypes = Names<Option<DataType>>;

/// What a type's name means, or `None` where no type above has it. `lower` is the text in lower
/// case.
pub(crate) fn type_of_name(
    lower: &[u8],
    types: &DeclaredTypes,
    name: Name,
) -> Option<Option<DataType>>
    ensures { result ≡ types_in lower.now types.now name }
{
    types.get(name.text(lower))
}

/// The subrange, or `None` where it is empty or is not within its base.
pub(crate) fn subrange(base: IntegerType, low: i64, high: i64) -> Option<DataType>
    ensures { result ≡ data_type (λ name. None) (Subrange base low high) }
{
    let range = Range::new(low, high)?;
    if range.within(base.range()) {
        Some(DataType::whole_numbers(range, low))
    } else {
        None
    }
}

/// What a specification means below these types.
pub(crate) fn data_type(
    lower: &[u8],
    types: &DeclaredTypes,
    specification: Specification,
) -> Option<DataType>
    ensures { result ≡ data_type (types_in lower.now types.now) specification }
{
    match specification {
        Specification::Bool => Some(DataType::truth_values()),
        Specification::Time => Some(DataType::whole_numbers(
            Range {
                lo: 0,
                hi: 4_294_967_295,
            },
            0,
        )),
        Specification::Integer(base) => Some(DataType::whole_numbers(base.range(), 0)),
        Specification::Subrange { base, low, high } => subrange(base, low, high),
        Specification::Named(name) => type_of_name(lower, types, name)?,
    }
}

/// What a declaration means below these types, or `None` where it is at fault, or its type is.
/// `lower` is the text in lower case.
pub fn declared_type(
    lower: &[u8],
    types: &DeclaredTypes,
    specification: Specification,
    initial: Option<Constant>,
) -> Option<DataType>
    ensures { result ≡ declared_type (types_in lower.now types.now) specification initial }
{
    data_type(lower, types, specification)?.with_initial(initial)
}
