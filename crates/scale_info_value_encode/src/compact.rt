//! Compact integers by a table.
ghost use Rattle.std.specs.Prelude.{◌≡◌, [], ◌≤◌, ◌+◌, ◌^◌, IfErr, OnOk, OnErr};
ghost use Rattle.scale_info_value_encode.specs.Failures.{Fails};
ghost use Rattle.scale_info_value_encode.specs.Writers.{Appends};
ghost use Rattle.scale_info_value_encode.specs.IntegerWriters.{compact_below};
ghost use Rattle.scale_info_value_encode.specs.DefinitionWriters.{held, unsigned_in};
ghost use Rattle.scale_info_value_encode.specs.DefinitionWriters.{compact_primitive};
ghost use Rattle.scale_info_value_encode.specs.Writings.{compact_within, compact_definition_within};

use crate::definition::definition_of;
use crate::failure::PartError;
use crate::integer::compact;
use scale_info_types::form::PortableForm;
use scale_info_types::ty::{TypeDef, TypeDefPrimitive};
use scale_info_value::definition::Definitions;
use scale_info_value::value::Value;

/// Appends a compact integer that is at most this one.
fn compact_up_to(most: u128, value: &Value, out: &mut Vec<u8>) -> Result<(), PartError>
    ensures ok { OnOk result
        (Appends (held unsigned_in (compact_below (most + 1)) value.now)
        out.old.items out.new.items) }
    ensures err { IfErr result (Fails (held unsigned_in (compact_below (most + 1)) value.now) []) }
    ensures same { OnErr result (out.new.items ≡ out.old.items) }
{
    match value {
        Value::Unsigned(n) if *n <= most => compact(*n, out),
        _ => Err(PartError::Mismatch),
    }
}

/// Appends a compact integer that fits a primitive type.
fn compact_primitive(
    kind: &TypeDefPrimitive,
    value: &Value,
    out: &mut Vec<u8>,
) -> Result<(), PartError>
    ensures ok { OnOk result
        (Appends (compact_primitive kind.now value.now) out.old.items out.new.items) }
    ensures err { IfErr result (Fails (compact_primitive kind.now value.now) []) }
    ensures same { OnErr result (out.new.items ≡ out.old.items) }
{
    match kind {
        TypeDefPrimitive::U8 => compact_up_to(255, value, out),
        TypeDefPrimitive::U16 => compact_up_to(65535, value, out),
        TypeDefPrimitive::U32 => compact_up_to(4294967295, value, out),
        TypeDefPrimitive::U64 => compact_up_to(18446744073709551615, value, out),
        TypeDefPrimitive::U128 => {
            compact_up_to(340282366920938463463374607431768211455, value, out)
        }
        _ => Err(PartError::Unsupported),
    }
}

/// Appends a compact integer of the type with this id, where so many levels are left.
#[cycle(compact)]
pub fn compact_within<T: Definitions>(
    table: &T,
    id: u32,
    left: u8,
    value: &Value,
    out: &mut Vec<u8>,
) -> Result<(), PartError>
    ensures ok { OnOk result
        (Appends (compact_within left (T.table table.now) id value.now) out.old.items
        out.new.items) }
    ensures err { IfErr result (Fails (compact_within left
        (T.table table.now) id value.now) []) }
    ensures same { OnErr result (out.new.items ≡ out.old.items) }
{
    let definition = definition_of(table, id, left)?;
    compact_by(table, definition, left, value, out)
}

/// Appends a compact integer by the definition of its type.
#[cycle(compact)]
fn compact_by<T: Definitions>(
    table: &T,
    definition: &TypeDef<PortableForm>,
    left: u8,
    value: &Value,
    out: &mut Vec<u8>,
) -> Result<(), PartError>
    requires { 1 ≤ left }
    ensures ok { OnOk result
        (Appends (compact_definition_within left (T.table table.now) definition.now value.now)
        out.old.items out.new.items) }
    ensures err { IfErr result
        (Fails (compact_definition_within left (T.table table.now) definition.now value.now) []) }
    ensures same { OnErr result (out.new.items ≡ out.old.items) }
{
    match definition {
        TypeDef::Composite(composite) => match composite.fields.as_slice() {
            [field] => compact_within(table, field.ty.id, left - 1, value, out),
            _ => Err(PartError::Unsupported),
        },
        TypeDef::Primitive(kind) => compact_primitive(kind, value, out),
        _ => Err(PartError::Unsupported),
    }
}
