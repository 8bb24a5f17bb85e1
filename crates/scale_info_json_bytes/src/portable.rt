//! Encoded tables as JSON text.
ghost use Rattle.std.specs.Prelude.{IfOk, IfErr};
ghost use Rattle.scale_info_bytes.specs.Encodings.{HasNoPrefix, IfMalformed};
ghost use Rattle.scale_info_grammar.specs.Ty.{EncodesTypes};
ghost use Rattle.scale_info_json_bytes.specs.Transcodings.{AppendsJson};

use crate::list::transcode_list;
use json::Writer;
use scale_info_bytes::error::DecodeError;
use scale_info_types::ty::PortableType;
use std::alloc::Global;

/// Appends the JSON text of the table that the input begins with, and returns the buffer and the
/// rest of the input.
///
/// It is the text that `append_json` writes for the decoded table.
/// No string, list or entry of the table is made: only the buffer is allocated.
///
/// Errors: `Malformed`, if no prefix of the input encodes a table; `Memory`, if an allocation
/// failed. The buffer is then dropped.
///
/// ```text
/// let (text, rest) = append_json_of(alloc, &[0], Vec::new(alloc))?; // {"types":[]}
/// ```
pub fn append_json_of(
    _alloc: Global,
    input: &[u8],
    out: Vec<u8>,
) -> Result<(Vec<u8>, &[u8]), DecodeError>
    ensures ok { IfOk result (λ found.
        AppendsJson input.now found.1.now out.items found.0.items) }
    ensures malformed { IfErr result (IfMalformed (HasNoPrefix EncodesTypes input.now)) }
{
    let mut writer = Writer::new(out);
    writer.begin_object()?;
    writer.key("types")?;
    let rest = transcode_list::<PortableType>(input, &mut writer)?;
    writer.end_object()?;
    Ok((writer.into_inner(), rest))
}
