//! Where the entries of a table begin.
ghost use Rattle.std.specs.Prelude.{IfOk, IfErr};
ghost use Rattle.scale_info_bytes.specs.Encodings.{HasNoPrefix, IfMalformed};
ghost use Rattle.scale_info_table.specs.TableEncoding.{EncodesRegistry};
ghost use Rattle.scale_info_table_view.specs.Views.{BeginsWithTable};

use scale_info_bytes::error::DecodeError;
use scale_info_bytes::integer::decode_compact;
use scale_info_passes::visitors::skip;
use scale_info_types::ty::PortableType;
use std::alloc::{AllocFailed, Global};

/// The offset of each entry of the table at the start of the input, and the rest of the input.
///
/// It goes over the table once, and allocates the offsets alone, for entries already passed and
/// never for an announced count.
///
/// Errors: `Malformed`, where no prefix of the input encodes a table; `Memory`, where an allocation
/// failed.
pub(crate) fn find_entries(alloc: Global, input: &[u8]) -> Result<(Vec<usize>, &[u8]), DecodeError>
    ensures ok { IfOk result
        (λ found. BeginsWithTable input.now found.1.now found.0.items) }
    ensures malformed { IfErr result (IfMalformed (HasNoPrefix EncodesRegistry input.now)) }
{
    let Some((count, body)) = decode_compact(input) else {
        return Err(DecodeError::Malformed);
    };
    let mut offsets = Vec::new(alloc);
    let mut rest = body;
    for _ in 0..count {
        offsets.push(input.len().saturating_sub(rest.len()))?;
        let Some(after) = skip::<PortableType>(rest) else {
            return Err(DecodeError::Malformed);
        };
        rest = after;
    }
    Ok((offsets, rest))
}
