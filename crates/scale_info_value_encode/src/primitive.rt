//! Values of primitive types, which have no parts.
ghost use Rattle.std.specs.Prelude.{◌≡◌, [], IfErr, OnOk, OnErr};
ghost use Rattle.scale_info_value.specs.IntegerWidths.{width_of};
ghost use Rattle.scale_info_value_encode.specs.Failures.{Fails};
ghost use Rattle.scale_info_value_encode.specs.Writers.{Appends};
ghost use Rattle.scale_info_value_encode.specs.DefinitionWriters.{unsigned_in, signed_in, truth_in};
ghost use Rattle.scale_info_value_encode.specs.DefinitionWriters.{text_in, held, unsigned, signed};
ghost use Rattle.scale_info_value_encode.specs.DefinitionWriters.{truth};
ghost use Rattle.scale_info_value_encode.specs.DefinitionWriters.{text, primitive};

use crate::failure::PartError;
use crate::integer::{signed, unsigned};
use scale_info_bytes::error::EncodeError;
use scale_info_bytes::text::encode_text;
use scale_info_types::ty::TypeDefPrimitive;
use scale_info_value::integer::IntegerWidth;
use scale_info_value::value::Value;

/// Appends a truth value.
fn truth(value: &Value, out: &mut Vec<u8>) -> Result<(), PartError>
    ensures ok { OnOk result
        (Appends (held truth_in truth value.now) out.old.items out.new.items) }
    ensures err { IfErr result (Fails (held truth_in truth value.now) []) }
    ensures same { OnErr result (out.new.items ≡ out.old.items) }
{
    match value {
        Value::Bool(truth) => Ok(out.push(*truth as u8)?),
        _ => Err(PartError::Mismatch),
    }
}

/// Appends an integer of an unsigned type.
fn unsigned_value(width: IntegerWidth, value: &Value, out: &mut Vec<u8>) -> Result<(), PartError>
    ensures ok { OnOk result
        (Appends (held unsigned_in (unsigned (width_of width)) value.now)
        out.old.items out.new.items) }
    ensures err { IfErr result
        (Fails (held unsigned_in (unsigned (width_of width)) value.now) []) }
    ensures same { OnErr result (out.new.items ≡ out.old.items) }
{
    match value {
        Value::Unsigned(n) => unsigned(width, *n, out),
        _ => Err(PartError::Mismatch),
    }
}

/// Appends an integer of a signed type.
fn signed_value(width: IntegerWidth, value: &Value, out: &mut Vec<u8>) -> Result<(), PartError>
    ensures ok { OnOk result
        (Appends (held signed_in (signed (width_of width)) value.now)
        out.old.items out.new.items) }
    ensures err { IfErr result (Fails (held signed_in (signed (width_of width)) value.now) []) }
    ensures same { OnErr result (out.new.items ≡ out.old.items) }
{
    match value {
        Value::Signed(n) => signed(width, *n, out),
        _ => Err(PartError::Mismatch),
    }
}

/// Appends a text.
fn text(value: &Value, out: &mut Vec<u8>) -> Result<(), PartError>
    ensures ok { OnOk result (Appends (held text_in text value.now) out.old.items out.new.items) }
    ensures err { IfErr result (Fails (held text_in text value.now) []) }
    ensures same { OnErr result (out.new.items ≡ out.old.items) }
{
    match value {
        Value::Text(chars) => match encode_text(out, chars.as_str()) {
            Ok(()) => Ok(()),
            Err(EncodeError::TooLong) => Err(PartError::Mismatch),
            Err(EncodeError::Memory) => Err(PartError::Memory),
        },
        _ => Err(PartError::Mismatch),
    }
}

/// Appends a value of a primitive type.
pub fn primitive(kind: &TypeDefPrimitive, value: &Value, out: &mut Vec<u8>) -> Result<(), PartError>
    ensures ok { OnOk result
        (Appends (primitive kind.now value.now) out.old.items out.new.items) }
    ensures err { IfErr result (Fails (primitive kind.now value.now) []) }
    ensures same { OnErr result (out.new.items ≡ out.old.items) }
{
    match kind {
        TypeDefPrimitive::Bool => truth(value, out),
        TypeDefPrimitive::Str => text(value, out),
        TypeDefPrimitive::U8 => unsigned_value(IntegerWidth::One, value, out),
        TypeDefPrimitive::U16 => unsigned_value(IntegerWidth::Two, value, out),
        TypeDefPrimitive::U32 => unsigned_value(IntegerWidth::Four, value, out),
        TypeDefPrimitive::U64 => unsigned_value(IntegerWidth::Eight, value, out),
        TypeDefPrimitive::U128 => unsigned_value(IntegerWidth::Sixteen, value, out),
        TypeDefPrimitive::I8 => signed_value(IntegerWidth::One, value, out),
        TypeDefPrimitive::I16 => signed_value(IntegerWidth::Two, value, out),
        TypeDefPrimitive::I32 => signed_value(IntegerWidth::Four, value, out),
        TypeDefPrimitive::I64 => signed_value(IntegerWidth::Eight, value, out),
        TypeDefPrimitive::I128 => signed_value(IntegerWidth::Sixteen, value, out),
        TypeDefPrimitive::Char | TypeDefPrimitive::U256 | TypeDefPrimitive::I256 => {
            Err(PartError::Unsupported)
        }
    }
}
