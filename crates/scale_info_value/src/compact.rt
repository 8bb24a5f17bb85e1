//! Compact integers by a table.
ghost use Rattle.std.specs.Prelude.{◌≡◌, ◌≤◌, IfOk, IfErr};
ghost use Rattle.scale_info_value.specs.Outcomes.{decoded, failed};
ghost use Rattle.scale_info_value.specs.ValueDefinitions.{compact_primitive};
ghost use Rattle.scale_info_value.specs.Readings.{compact_within, compact_definition_within};

use crate::definition::{Definitions, definition_of};
use crate::integer::compact_up_to;
use crate::value::Failure;
use scale_info_types::form::PortableForm;
use scale_info_types::ty::{TypeDef, TypeDefPrimitive};

/// A compact integer that fits a primitive type, and the rest.
fn compact_primitive<'a>(
    kind: &TypeDefPrimitive,
    input: &'a [u8],
) -> Result<(u128, &'a [u8]), Failure>
    ensures ok { IfOk result
        (λ found. compact_primitive kind.now input.now ≡ decoded found.0 found.1.now) }
    ensures err { IfErr result (λ why. compact_primitive kind.now input.now ≡ failed why) }
{
    match kind {
        TypeDefPrimitive::U8 => compact_up_to(255, input),
        TypeDefPrimitive::U16 => compact_up_to(65535, input),
        TypeDefPrimitive::U32 => compact_up_to(4294967295, input),
        TypeDefPrimitive::U64 => compact_up_to(18446744073709551615, input),
        TypeDefPrimitive::U128 => { compact_up_to(340282366920938463463374607431768211455, input) }
        _ => Err(Failure::Unsupported),
    }
}

/// A compact integer of the type with this id, and the rest, where so many levels are left.
#[cycle(compact)]
pub fn compact_within<'a, T: Definitions>(
    table: &T,
    id: u32,
    left: u8,
    input: &'a [u8],
) -> Result<(u128, &'a [u8]), Failure>
    ensures ok { IfOk result
        (λ found. compact_within left (T.table table.now) id input.now
        ≡ decoded found.0 found.1.now) }
    ensures err { IfErr result
        (λ why. compact_within left (T.table table.now) id input.now ≡ failed why) }
{
    let definition = definition_of(table, id, left)?;
    compact_by(table, definition, left, input)
}

/// A compact integer by the definition of its type, and the rest.
#[cycle(compact)]
fn compact_by<'a, T: Definitions>(
    table: &T,
    definition: &TypeDef<PortableForm>,
    left: u8,
    input: &'a [u8],
) -> Result<(u128, &'a [u8]), Failure>
    requires { 1 ≤ left }
    ensures ok { IfOk result
        (λ found. compact_definition_within left (T.table table.now) definition.now input.now
        ≡ decoded found.0 found.1.now) }
    ensures err { IfErr result
        (λ why. compact_definition_within left (T.table table.now) definition.now input.now
        ≡ failed why) }
{
    match definition {
        TypeDef::Composite(composite) => match composite.fields.as_slice() {
            [field] => compact_within(table, field.ty.id, left - 1, input),
            _ => Err(Failure::Unsupported),
        },
        TypeDef::Primitive(kind) => compact_primitive(kind, input),
        _ => Err(Failure::Unsupported),
    }
}
