//! The parts of a value, written one after another: all of them, or none.
ghost use Rattle.std.specs.Prelude.{◌≡◌, OnOk, OnErr, IfErr};
ghost use Rattle.scale_info_bytes.specs.Encodings.{AppendsEncoding, HasNoEncoding, IfTooLong};
ghost use Rattle.scale_info_bytes.specs.Parts.{HasIndex, EncodesPair};

use crate::scale::Scale;
use scale_info_bytes::error::{EncodeError, truncate_on_err};

/// Appends two values. On an Err the output is as before.
pub(crate) fn encode_two<A: Scale, B: Scale>(
    first: &A,
    second: &B,
    out: &mut Vec<u8>,
) -> Result<(), EncodeError>
    ensures ok { OnOk result
        (AppendsEncoding (EncodesPair A.encodes B.encodes (first.now, second.now)) out.old.items
        out.new.items) }
    ensures err { OnErr result (out.new.items ≡ out.old.items) }
    ensures too_long { IfErr result
        (IfTooLong (HasNoEncoding (EncodesPair A.encodes B.encodes (first.now, second.now)))) }
{
    let start = out.len();
    first.encode_to(out)?;
    let written = second.encode_to(out);
    truncate_on_err(out, start, written)
}

/// Appends an index byte and a value. On an Err the output is as before.
pub(crate) fn encode_with_index<T: Scale>(
    index: u8,
    value: &T,
    out: &mut Vec<u8>,
) -> Result<(), EncodeError>
    ensures ok { OnOk result
        (AppendsEncoding (HasIndex index (T.encodes value.now)) out.old.items out.new.items) }
    ensures err { OnErr result (out.new.items ≡ out.old.items) }
    ensures too_long { IfErr result (IfTooLong (HasNoEncoding (T.encodes value.now))) }
{
    let start = out.len();
    out.push(index)?;
    let written = value.encode_to(out);
    truncate_on_err(out, start, written)
}
