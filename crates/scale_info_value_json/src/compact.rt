//! Compact integers, by the type that they are compact forms of.
ghost use Rattle.std.specs.Prelude.{◌≡◌, ◌≢◌, IfOk, IfErr};
ghost use Rattle.serde_json.specs.Data.{Data};
ghost use Rattle.serde_json.specs.View.{view};
ghost use Rattle.scale_info_value_json.specs.declared.error.ValueJsonError.TheVariants as error;
ghost use Rattle.scale_info_value_json.specs.Takers.{IsErrorOf, taken};
ghost use Rattle.scale_info_value_json.specs.DefinitionTakers.{compact_primitive};
ghost use Rattle.scale_info_value_json.specs.Takings.{compact_within};

use crate::definition::definition_of;
use crate::error::ValueJsonError;
use crate::primitive::unsigned;
use scale_info_types::ty::{TypeDef, TypeDefPrimitive};
use scale_info_value::definition::Definitions;
use scale_info_value::value::Value;

/// A compact integer that fits a primitive type. Not inlined, so that it takes no stack at each
/// level of a value.
#[inline(never)]
pub fn compact_primitive(
    kind: &TypeDefPrimitive,
    tree: &serde_json::Value,
) -> Result<Value, ValueJsonError>
    ensures ok { IfOk result (λ value. compact_primitive kind.now (view tree.now) ≡ taken value) }
    ensures err { IfErr result (IsErrorOf (compact_primitive kind.now (view tree.now))) }
{
    match kind {
        TypeDefPrimitive::U8 => unsigned(255, tree),
        TypeDefPrimitive::U16 => unsigned(65535, tree),
        TypeDefPrimitive::U32 => unsigned(4294967295, tree),
        TypeDefPrimitive::U64 => unsigned(18446744073709551615, tree),
        TypeDefPrimitive::U128 => unsigned(340282366920938463463374607431768211455, tree),
        _ => Err(ValueJsonError::Unsupported),
    }
}

/// The primitive type whose compact integers are those of the type with this id, where so many
/// levels are left: that of its only field, if it is a composite.
///
/// Errors: `Unsupported`, where the type has no compact integers; and as [`definition_of`].
#[cycle(compact)]
pub fn compact_kind<T: Definitions>(
    table: &T,
    id: u32,
    left: u8,
) -> Result<&TypeDefPrimitive, ValueJsonError>
    ensures ok { IfOk result (λ kind. (tree : Data)
        → compact_within left (T.table table.now) id tree ≡ compact_primitive kind.now tree) }
    ensures err { IfErr result (λ why. (tree : Data)
        → IsErrorOf (compact_within left (T.table table.now) id tree) why) }
    ensures not_memory { IfErr result (λ why. why ≢ error.Memory) }
{
    let definition = definition_of(table, id, left)?;
    match definition {
        TypeDef::Composite(composite) => match composite.fields.as_slice() {
            [field] => compact_kind(table, field.ty.id, left - 1),
            _ => Err(ValueJsonError::Unsupported),
        },
        TypeDef::Primitive(kind) => Ok(kind),
        _ => Err(ValueJsonError::Unsupported),
    }
}
