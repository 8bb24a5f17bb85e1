//! Calls that read a value without making it.
use crate::levels::{depth, table_bytes, value_bytes};
use anyhow::{Result, bail};
use scale_info_table::portable::PortableRegistry;
use scale_info_value_borrowed::borrowed::decode_borrowed;
use scale_info_value_text::value_text::append_value_json;
use scale_info_value_visit::skip::skip_value;
use std::alloc::Global;

/// The depth of a value that was borrowed, and then copied.
fn borrow(alloc: Global, table: &PortableRegistry, input: &[u8], levels: u32) -> Result<usize> {
    let (borrowed, _) = decode_borrowed(alloc, table, levels, input)?;
    Ok(depth(&borrowed.to_value(alloc)?, levels))
}

/// How many bytes the text of a value takes.
fn write(alloc: Global, table: &PortableRegistry, input: &[u8], levels: u32) -> Result<usize> {
    let mut text = Vec::new(alloc);
    append_value_json(alloc, table, levels, input, &mut text)?;
    Ok(text.len())
}

/// How many bytes a value takes.
fn skip(table: &PortableRegistry, input: &[u8], levels: u32) -> Result<usize> {
    let rest = skip_value(table, levels, input)?;
    Ok(input.len().saturating_sub(rest.len()))
}

/// Makes the call of this name.
pub fn call(alloc: Global, kinds: &str, call: &str, levels: u32) -> Result<usize> {
    let table = table_bytes(alloc, kinds, levels)?;
    let (table, _) = PortableRegistry::decode(alloc, &table)?;
    let input = value_bytes(alloc, kinds, levels)?;
    match call {
        "borrow" => borrow(alloc, &table, &input, levels),
        "write" => write(alloc, &table, &input, levels),
        "skip" => skip(&table, &input, levels),
        _ => bail!("no call has this name"),
    }
}
