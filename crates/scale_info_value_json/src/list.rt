//! Lists of bytes, and how many items a list may have.
ghost use Rattle.std.specs.Prelude.{◌≡◌, ◌≤◌, ◌∷◌, [], IfOk, IfErr, map, true};
ghost use Rattle.scale_info_value.specs.declared.value.Value.TheVariants as Values;
ghost use Rattle.scale_info_value_json.specs.Takers.{IsErrorOf, taken};
ghost use Rattle.scale_info_value_json.specs.Takings.{is_count_of, AtBytes};

use crate::error::ValueJsonError;
use crate::tree::bytes_of;
use scale_info_collections::items::Items;
use scale_info_value::value::Value;
use std::alloc::{AllocError, Global};

/// Whether a list may have so many items: the count, or fewer than 2^32 where there is none.
pub fn is_count_of(count: Option<u32>, items: usize) -> bool
    ensures { result ≡ is_count_of count items }
{
    match count {
        Some(count) => items == count as usize,
        None => items <= 4294967295,
    }
}

/// The bytes as integers.
fn integers(alloc: Global, bytes: &[u8]) -> Result<Items<Value>, AllocError>
    ensures { IfOk result (λ values. values ≡ map Values.Unsigned bytes.now) }
{
    let mut values = Vec::with_capacity(alloc, bytes.len())?;
    for byte in bytes {
        values.push_reserved(Value::Unsigned(*byte as u128));
    }
    Ok(Items::from(values))
}

/// A list of bytes, of a text of hexadecimal digits, whatever the table and its entry for bytes.
#[inline(never)]
pub fn byte_list(
    alloc: Global,
    count: Option<u32>,
    left: u8,
    text: &str,
) -> Result<Value, ValueJsonError>
    requires { 1 ≤ left }
    ensures ok { IfOk result
        (λ value. AtBytes left count text.now (λ outcome. outcome ≡ taken value)) }
    ensures err { IfErr result
        (λ e. AtBytes left count text.now (λ outcome. IsErrorOf outcome e)) }
{
    let bytes = bytes_of(alloc, text)?;
    let all = bytes.as_slice();
    if !is_count_of(count, all.len()) {
        return Err(ValueJsonError::Mismatch);
    }
    if left == 1 && !all.is_empty() {
        return Err(ValueJsonError::TooDeep);
    }
    Ok(Value::List(integers(alloc, all)?))
}
