//! The definitions that ids stand for.
ghost use Rattle.std.specs.Prelude.{◌≡◌, ◌≢◌, ◌≤◌, IfOk, IfErr};
ghost use Rattle.serde_json.specs.Data.{Data};
ghost use Rattle.scale_info_value_visit.specs.Events.{definition_at, is_byte};
ghost use Rattle.scale_info_value_json.specs.declared.error.ValueJsonError.TheVariants as error;
ghost use Rattle.scale_info_value_json.specs.Takers.{IsErrorOf};
ghost use Rattle.scale_info_value_json.specs.Takings.{value_within, compact_within};
ghost use Rattle.scale_info_value_json.specs.Takings.{definition_within, compact_definition_within};

use crate::error::ValueJsonError;
use scale_info_types::form::PortableForm;
use scale_info_types::ty::{TypeDef, TypeDefPrimitive};
use scale_info_value::definition::Definitions;

/// The definition of the type with this id, where so many levels are left for a value of it.
///
/// Errors: `TooDeep`, where none is left; `NoSuchType`, where the id is no index.
#[inline(always)]
pub fn definition_of<T: Definitions>(
    table: &T,
    id: u32,
    left: u8,
) -> Result<&TypeDef<PortableForm>, ValueJsonError>
    ensures level { IfOk result (λ _. 1 ≤ left) }
    ensures known { IfOk result (λ found. (tree : Data)
        → (value_within left (T.table table.now) id tree
        ≡ definition_within left (T.table table.now) found.now tree)
        × (compact_within left (T.table table.now) id tree
        ≡ compact_definition_within left (T.table table.now) found.now tree)) }
    ensures unknown { IfErr result (λ why. (tree : Data)
        → IsErrorOf (value_within left (T.table table.now) id tree) why
        × IsErrorOf (compact_within left (T.table table.now) id tree) why) }
    ensures not_memory { IfErr result (λ why. why ≢ error.Memory) }
{
    if left == 0 {
        return Err(ValueJsonError::TooDeep);
    }
    match table.definition(id) {
        None => Err(ValueJsonError::NoSuchType),
        Some(definition) => Ok(definition),
    }
}

/// Whether the type with this id is `u8`.
pub fn is_byte<T: Definitions>(table: &T, id: u32) -> bool
    ensures { result ≡ is_byte (definition_at (T.table table.now) id) }
{
    match table.definition(id) {
        Some(definition) => matches!(definition, TypeDef::Primitive(TypeDefPrimitive::U8)),
        None => false,
    }
}
