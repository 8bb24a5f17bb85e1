//! What a tree holds.
ghost use Rattle.std.specs.Prelude.{◌≡◌, ◌+◌, ◌<◌, ◌≤◌, ◌^◌, IfOk, IfErr, Some, option_map, map};
ghost use Rattle.serde_json.specs.View.{view};
ghost use Rattle.scale_info_value_json.specs.Takers.{IsErrorOf, if_found, taken};
ghost use Rattle.scale_info_value_json.specs.TreeParts.{natural_in, integer_in, below, within};
ghost use Rattle.scale_info_hexadecimal.specs.Digits.{bytes_by_digits};
ghost use Rattle.scale_info_value_json.specs.TreeParts.{items_in, has_members};
ghost use Rattle.scale_info_value_json.specs.TreeParts.{member_in, variant_in, is_nothing};
ghost use Rattle.scale_info_value_json.specs.TreeParts.{index_and_fields, is_within};
ghost use Rattle.scale_info_value_json.specs.Takings.{seen};

use crate::error::ValueJsonError;
use crate::number::{decimal, signed_decimal};
use scale_info_collections::text::Text;
use scale_info_hexadecimal::decode::decode;
use std::alloc::Global;

/// The integer without a sign, up to the most, that a tree holds; None where it holds none.
pub fn natural_up_to(most: u128, tree: &serde_json::Value) -> Option<u128>
    ensures { result ≡ below (most + 1) (natural_in (view tree.now)) }
{
    let found = match tree.as_str() {
        Some(text) => decimal(text),
        None => tree.as_u64().map(|n| n as u128),
    };
    match found {
        Some(n) if n <= most => Some(n),
        _ => None,
    }
}

/// Whether an integer is at least the negative limit, and below the limit.
fn is_within(limit: u128, n: i128) -> bool
    ensures { result ≡ is_within limit n }
{
    if n < 0 {
        n.unsigned_abs() <= limit
    } else {
        n.unsigned_abs() < limit
    }
}

/// The integer within the limit that a tree holds; None where it holds none.
pub fn integer_within(limit: u128, tree: &serde_json::Value) -> Option<i128>
    requires { limit ≤ 2 ^ 127 }
    ensures { result ≡ within limit (integer_in (view tree.now)) }
{
    let found = match tree.as_str() {
        Some(text) => signed_decimal(text),
        None => match tree.as_u64() {
            Some(n) => Some(n as i128),
            None => tree.as_i64().map(|n| n as i128),
        },
    };
    match found {
        Some(n) if is_within(limit, n) => Some(n),
        _ => None,
    }
}

/// The trees of the items of an array; None where the tree is none.
pub fn items_of(tree: &serde_json::Value) -> Option<&[serde_json::Value]>
    ensures { option_map (λ trees. map view trees.now) result ≡ items_in (view tree.now) }
{
    match tree.as_array() {
        Some(trees) => Some(trees.as_slice()),
        None => None,
    }
}

/// The bytes that a text writes in hexadecimal digits, after `0x` or without it.
///
/// Errors: `Mismatch`, where it writes none; `Memory`, where an allocation failed.
pub fn bytes_of(alloc: Global, text: &str) -> Result<Vec<u8>, ValueJsonError>
    ensures ok { IfOk result (λ bytes. bytes_by_digits text.now ≡ Some bytes.items) }
    ensures err { IfErr result (IsErrorOf (if_found (bytes_by_digits text.now) taken)) }
{
    match decode(alloc, text.as_bytes())? {
        Some(bytes) => Ok(bytes),
        None => Err(ValueJsonError::Mismatch),
    }
}

/// Whether a tree is an object with so many members.
pub fn has_members(count: usize, tree: &serde_json::Value) -> bool
    ensures { result ≡ has_members count (view tree.now) }
{
    match tree.as_object() {
        Some(members) => members.len() == count,
        None => false,
    }
}

/// The tree under a name; None where there is no name, or no tree under it.
pub fn member_of<'t>(
    name: &Option<Text>,
    tree: &'t serde_json::Value,
) -> Option<&'t serde_json::Value>
    ensures { seen result ≡ member_in name.now (view tree.now) }
{
    match name {
        Some(name) => tree.get(name.as_str()),
        None => None,
    }
}

/// The name of a variant, and what stands under it, if anything does; None where the tree is no
/// variant.
pub fn variant_parts(tree: &serde_json::Value) -> Option<(&str, Option<&serde_json::Value>)>
    ensures { option_map (λ parts. (parts.0.now, seen parts.1)) result
        ≡ variant_in (view tree.now) }
{
    if let Some(name) = tree.as_str() {
        return Some((name, None));
    }
    let members = tree.as_object()?;
    if members.len() != 1 {
        return None;
    }
    let (name, content) = members.first_key_value()?;
    Some((name.as_str(), Some(content)))
}

/// Whether nothing stands for the fields of a variant.
pub fn is_nothing(content: Option<&serde_json::Value>) -> bool
    ensures { result ≡ is_nothing (seen content.entry) }
{
    match content {
        None => true,
        Some(tree) => match items_of(tree) {
            Some(trees) => trees.is_empty(),
            None => false,
        },
    }
}

/// An index, and what stands for the fields, if anything does; None where the tree is no array of
/// these.
pub fn index_and_fields(tree: &serde_json::Value) -> Option<(u8, Option<&serde_json::Value>)>
    ensures { option_map (λ found. (found.0, seen found.1)) result
        ≡ index_and_fields (view tree.now) }
{
    let (index, content) = match items_of(tree)? {
        [index] => (index, None),
        [index, content] => (index, Some(content)),
        _ => return None,
    };
    let index = natural_up_to(255, index)?;
    Some((index as u8, content))
}
