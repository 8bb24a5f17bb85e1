//! A caller that copies a value as bytes, and only if it is one.
ghost use Rattle.std.specs.Prelude.{◌≡◌, ◌++◌, OnOk};

use anyhow::bail;
use scale_info::PortableRegistry;
use scale_info::laws::written_as_read;
use scale_info::value::{decode_value, encode_value};
use std::alloc::Global;

/// Decodes the whole input and appends the encoding of its value, which is the input: no value has
/// two encodings.
pub fn append_value(
    alloc: Global,
    table: &PortableRegistry,
    id: u32,
    input: &[u8],
    out: &mut Vec<u8>,
) -> anyhow::Result<()>
    ensures { OnOk result (out.new.items ≡ out.old.items ++ input.now) }
{
    written_as_read();
    let (value, rest) = decode_value(alloc, table, id, input)?;
    if !rest.is_empty() {
        bail!("{} bytes after the value", rest.len());
    }
    encode_value(table, id, &value, out)?;
    Ok(())
}
