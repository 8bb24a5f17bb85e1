//! Values of primitive types, which have no parts.
ghost use Rattle.std.specs.Prelude.{◌≡◌, ◌+◌, ◌≤◌, ◌^◌, IfOk, IfErr};
ghost use Rattle.serde_json.specs.View.{view};
ghost use Rattle.scale_info_value_json.specs.Takers.{IsErrorOf, taken};
ghost use Rattle.scale_info_value_json.specs.DefinitionTakers.{truth, unsigned, signed, text};
ghost use Rattle.scale_info_value_json.specs.DefinitionTakers.{primitive, text_of};

use crate::error::ValueJsonError;
use crate::tree::{integer_within, natural_up_to};
use scale_info_collections::text::Text;
use scale_info_types::ty::TypeDefPrimitive;
use scale_info_value::value::Value;
use std::alloc::Global;

/// A truth value.
fn truth(tree: &serde_json::Value) -> Result<Value, ValueJsonError>
    ensures ok { IfOk result (λ value. truth (view tree.now) ≡ taken value) }
    ensures err { IfErr result (IsErrorOf (truth (view tree.now))) }
{
    match tree.as_bool() {
        Some(truth) => Ok(Value::Bool(truth)),
        None => Err(ValueJsonError::Mismatch),
    }
}

/// An integer of an unsigned type that is at most this one.
pub fn unsigned(most: u128, tree: &serde_json::Value) -> Result<Value, ValueJsonError>
    ensures ok { IfOk result (λ value. unsigned (most + 1) (view tree.now) ≡ taken value) }
    ensures err { IfErr result (IsErrorOf (unsigned (most + 1) (view tree.now))) }
{
    match natural_up_to(most, tree) {
        Some(n) => Ok(Value::Unsigned(n)),
        None => Err(ValueJsonError::Mismatch),
    }
}

/// An integer of a signed type that is within the limit.
fn signed(limit: u128, tree: &serde_json::Value) -> Result<Value, ValueJsonError>
    requires { limit ≤ 2 ^ 127 }
    ensures ok { IfOk result (λ value. signed limit (view tree.now) ≡ taken value) }
    ensures err { IfErr result (IsErrorOf (signed limit (view tree.now))) }
{
    match integer_within(limit, tree) {
        Some(n) => Ok(Value::Signed(n)),
        None => Err(ValueJsonError::Mismatch),
    }
}

/// A text of its own.
fn text_of(alloc: Global, text: &str) -> Result<Value, ValueJsonError>
    ensures ok { IfOk result (λ value. text_of text.now ≡ taken value) }
    ensures err { IfErr result (IsErrorOf (text_of text.now)) }
{
    if text.len() > 4294967295 {
        return Err(ValueJsonError::Mismatch);
    }
    Ok(Value::Text(Text::from(String::from_str(alloc, text)?)))
}

/// A text.
fn text(alloc: Global, tree: &serde_json::Value) -> Result<Value, ValueJsonError>
    ensures ok { IfOk result (λ value. text (view tree.now) ≡ taken value) }
    ensures err { IfErr result (IsErrorOf (text (view tree.now))) }
{
    match tree.as_str() {
        Some(text) => text_of(alloc, text),
        None => Err(ValueJsonError::Mismatch),
    }
}

/// A value of a primitive type. Not inlined, so that it takes no stack at each level of a value.
#[inline(never)]
pub fn primitive(
    alloc: Global,
    kind: &TypeDefPrimitive,
    tree: &serde_json::Value,
) -> Result<Value, ValueJsonError>
    ensures ok { IfOk result (λ value. primitive kind.now (view tree.now) ≡ taken value) }
    ensures err { IfErr result (IsErrorOf (primitive kind.now (view tree.now))) }
{
    match kind {
        TypeDefPrimitive::Bool => truth(tree),
        TypeDefPrimitive::Str => text(alloc, tree),
        TypeDefPrimitive::U8 => unsigned(255, tree),
        TypeDefPrimitive::U16 => unsigned(65535, tree),
        TypeDefPrimitive::U32 => unsigned(4294967295, tree),
        TypeDefPrimitive::U64 => unsigned(18446744073709551615, tree),
        TypeDefPrimitive::U128 => unsigned(340282366920938463463374607431768211455, tree),
        TypeDefPrimitive::I8 => signed(128, tree),
        TypeDefPrimitive::I16 => signed(32768, tree),
        TypeDefPrimitive::I32 => signed(2147483648, tree),
        TypeDefPrimitive::I64 => signed(9223372036854775808, tree),
        TypeDefPrimitive::I128 => signed(170141183460469231731687303715884105728, tree),
        TypeDefPrimitive::Char | TypeDefPrimitive::U256 | TypeDefPrimitive::I256 => {
            Err(ValueJsonError::Unsupported)
        }
    }
}
