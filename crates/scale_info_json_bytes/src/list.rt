//! Encoded lists as JSON text.
ghost use Rattle.std.specs.Prelude.{◌≡◌, ◌++◌, List, ℕ, length, IfOk, IfErr, OnOk};
ghost use Rattle.scale_info_bytes.specs.Encodings.{HasNoPrefix, HasPrefix, IfMalformed};
ghost use Rattle.scale_info_bytes.specs.PartLaws.{list_law};
ghost use Rattle.scale_info_bytes.specs.Parts.{EncodesItems, EncodesList};
ghost use Rattle.scale_info_json_trees.specs.Steps.{tokens_of};
ghost use Rattle.scale_info_json_trees.specs.Written.{list_tree};
ghost use Rattle.scale_info_json_bytes.specs.Transcodings.{WritesItems, WritesList};

use crate::transcode::Transcode;
use json::Writer;
use scale_info_bytes::error::DecodeError;
use scale_info_bytes::integer::decode_compact;
use scale_info_collections::items::Items;

/// Reads as many items as the count says, writes each as JSON, and returns the rest.
fn transcode_items<'a, T: Transcode>(
    count: u32,
    input: &'a [u8],
    out: &mut Writer,
) -> Result<&'a [u8], DecodeError>
    ensures before { OnOk result (out.new.before ≡ out.old.before) }
    ensures ok { IfOk result (λ rest. WritesItems T.encodes T.written count
        input.now rest.now out.old.tokens out.new.tokens) }
    ensures malformed { IfErr result
        (IfMalformed
        ((values : _) (rest : _) → length values ≡ count
        → HasPrefix (EncodesItems T.encodes values) input.now rest → ⊥)) }
{
    let mut rest = input;
    for _ in 0..count {
        let after = T::transcode(rest, out)?;
        rest = after;
    }
    Ok(rest)
}

/// Reads a list, writes it as a JSON array, and returns the rest.
///
/// Errors: `Malformed`, if no prefix of the input encodes a list; `Memory`, if an allocation
/// failed.
pub fn transcode_list<'a, T: Transcode>(
    input: &'a [u8],
    out: &mut Writer,
) -> Result<&'a [u8], DecodeError>
    ensures before { OnOk result (out.new.before ≡ out.old.before) }
    ensures ok { IfOk result (λ rest. WritesList T.encodes T.written
        input.now rest.now out.old.tokens out.new.tokens) }
    ensures malformed { IfErr result
        (IfMalformed (HasNoPrefix (EncodesList T.encodes) input.now)) }
{
    match decode_compact(input) {
        Some((count, items)) => {
            out.begin_array()?;
            let rest = transcode_items::<T>(count, items, out)?;
            out.end_array()?;
            Ok(rest)
        }
        None => Err(DecodeError::Malformed),
    }
}

impl<T: Transcode> Transcode for Items<T> {
    ghost encodes = { EncodesList T.encodes };

    ghost written = { list_tree T.written };

    fn transcode<'a>(input: &'a [u8], out: &mut Writer) -> Result<&'a [u8], DecodeError> {
        transcode_list::<T>(input, out)
    }

    ghost law = { list_law T.law };
}
