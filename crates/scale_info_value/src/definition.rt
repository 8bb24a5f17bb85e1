//! The definitions that ids stand for.
ghost use Rattle.std.specs.Prelude.{◌≡◌, ◌≤◌, List, ℕ, Some, option_map, IfOk, IfErr};
ghost use Rattle.scale_info_value.specs.Outcomes.{failed};
ghost use Rattle.scale_info_value.specs.Readings.{type_at, value_within, compact_within};
ghost use Rattle.scale_info_value.specs.Readings.{definition_within, compact_definition_within};

use crate::value::Failure;
pub use scale_info_table::definitions::Definitions;
use scale_info_types::form::PortableForm;
use scale_info_types::ty::TypeDef;

/// The definition of the type with this id, where so many levels are left for a value of it.
///
/// Errors: `TooDeep`, where none is left; `NoSuchType`, where the id is no index.
#[inline(always)]
pub fn definition_of<T: Definitions>(
    table: &T,
    id: u32,
    left: u8,
) -> Result<&TypeDef<PortableForm>, Failure>
    ensures level { IfOk result (λ _. 1 ≤ left) }
    ensures found { IfOk result (λ found.
        option_map (λ d. d.type_def) (type_at (T.table table.now) id) ≡ Some found.now) }
    ensures known { IfOk result (λ found. (input : List ℕ)
        → (value_within left (T.table table.now) id input
        ≡ definition_within left (T.table table.now) found.now input)
        × (compact_within left (T.table table.now) id input
        ≡ compact_definition_within left (T.table table.now) found.now input)) }
    ensures unknown { IfErr result (λ why. (input : List ℕ)
        → (value_within left (T.table table.now) id input ≡ failed why)
        × (compact_within left (T.table table.now) id input ≡ failed why)) }
{
    if left == 0 {
        return Err(Failure::TooDeep);
    }
    match table.definition(id) {
        None => Err(Failure::NoSuchType),
        Some(definition) => Ok(definition),
    }
}
