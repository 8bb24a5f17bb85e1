//! Lists whose items are written again without docs.
ghost use Rattle.std.specs.Prelude.{map, IfOk, IfErr, OnErr};
ghost use Rattle.scale_info_bytes.specs.Encodings.{IfMalformed, IsPrefix};
ghost use Rattle.scale_info_bytes.specs.PartLaws.{list_law};
ghost use Rattle.scale_info_bytes.specs.Parts.{EncodesList, HasNoItems};
ghost use Rattle.scale_info_table_docs.specs.Changes.{AppendsChangedItems};

use crate::part::WithoutDocs;
use scale_info_bytes::error::DecodeError;
use scale_info_bytes::integer::{decode_compact, encode_compact};
use scale_info_collections::items::Items;

/// Appends as many items as the count says, without docs, and returns the rest of the input.
fn append_items<'a, T: WithoutDocs>(
    count: u32,
    input: &'a [u8],
    out: &mut Vec<u8>,
) -> Result<&'a [u8], DecodeError>
    ensures ok { IfOk result (λ rest. AppendsChangedItems T.encodes T.without_docs count
        input.now rest.now out.old.items out.new.items) }
    ensures malformed { IfErr result (IfMalformed (HasNoItems T.encodes count input.now)) }
    ensures kept { OnErr result (IsPrefix out.old.items out.new.items) }
{
    let mut rest = input;
    for _ in 0..count {
        let after = T::append(rest, out)?;
        rest = after;
    }
    Ok(rest)
}

/// A part of a table that has docs, whose lists are written again item by item.
pub trait HasDocs: WithoutDocs {}

/// A list, each of whose items is written again without docs.
impl<T: HasDocs> WithoutDocs for Items<T> {
    ghost encodes = { EncodesList T.encodes };

    ghost without_docs = { map T.without_docs };

    fn append<'a>(input: &'a [u8], out: &mut Vec<u8>) -> Result<&'a [u8], DecodeError> {
        match decode_compact(input) {
            Some((count, items)) => {
                encode_compact(out, count)?;
                append_items::<T>(count, items, out)
            }
            None => Err(DecodeError::Malformed),
        }
    }

    ghost law = { list_law T.law };
}
