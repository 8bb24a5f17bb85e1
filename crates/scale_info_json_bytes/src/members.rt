//! Objects: a value says its members, each as its row says, and the braces stand here once.
ghost use Rattle.std.specs.Prelude.{option_map, List, ℕ, Some, IfOk, IfErr, OnOk};
ghost use Rattle.serde_json.specs.Data.{number, string, unsigned};
ghost use Rattle.scale_info_bytes.specs.Encodings.{HasNoPrefix, IfMalformed, IsEncoding};
ghost use Rattle.scale_info_bytes.specs.Parts.{EncodesList, EncodesPair};
ghost use Rattle.scale_info_json_trees.specs.PartTrees.{id_tree};
ghost use Rattle.scale_info_json_trees.specs.Written.{object_tree, unless_empty, Row};
ghost use Rattle.scale_info_json_bytes.specs.Transcodings.{two_rows_of, AppendsRow, WritesRow};
ghost use Rattle.scale_info_json_bytes.specs.Transcodings.{WritesRows};

use crate::transcode::Transcode;
use json::Writer;
use scale_info_bytes::error::DecodeError;
use scale_info_bytes::integer::decode_compact;
use scale_info_collections::items::Items;
use scale_info_identities::symbol::UntrackedSymbol;
use scale_info_identities::type_id::TypeId;
use std::alloc::AllocError;

type Id = UntrackedSymbol<TypeId>;

/// A value whose JSON text is an object, written member by member straight from its bytes.
pub trait TranscodeMembers {
    /// The whole list of bytes encodes the value.
    ghost encodes: { Self → List ℕ → Type 0 };

    /// Its keys in byte order, and how each is written.
    ghost rows: { Self → List Row };

    /// Reads the value at the start of the input, writes the members of its object, and returns the
    /// rest.
    ///
    /// Errors: `Malformed`, if no prefix of the input encodes a value; `Memory`, if an allocation
    /// failed.
    fn transcode_members<'a>(input: &'a [u8], out: &mut Writer) -> Result<&'a [u8], DecodeError>
        ensures ok { IfOk result (λ rest. WritesRows encodes rows
            input.now rest.now out.old out.new) }
        ensures malformed { IfErr result (IfMalformed (HasNoPrefix encodes input.now)) };

    /// A value has one encoding at most, no encoding is a proper prefix of another, and an encoding
    /// is made of bytes.
    ghost law: { IsEncoding encodes };
}

impl<T: TranscodeMembers> Transcode for T {
    ghost encodes = { T.encodes };

    ghost written = { λ v. object_tree (T.rows v) };

    fn transcode<'a>(input: &'a [u8], out: &mut Writer) -> Result<&'a [u8], DecodeError> {
        out.begin_object()?;
        let rest = T::transcode_members(input, out)?;
        out.end_object()?;
        Ok(rest)
    }

    ghost law = { T.law };
}

/// Writes a key and a number.
///
/// Errors: `AllocError`, if an allocation failed.
pub fn write_number(key: &str, value: u32, out: &mut Writer) -> Result<(), AllocError>
    ensures { OnOk result (AppendsRow (key.now, Some (number (unsigned value))) out.old out.new) }
{
    out.key(key)?;
    out.u64(value as u64)
}

/// Writes a key and an id.
///
/// Errors: `AllocError`, if an allocation failed.
pub fn write_id(key: &str, id: &Id, out: &mut Writer) -> Result<(), AllocError>
    ensures { OnOk result (AppendsRow (key.now, Some (id_tree id.now)) out.old out.new) }
{
    write_number(key, id.id, out)
}

/// Writes a key and a string.
///
/// Errors: `AllocError`, if an allocation failed.
pub fn write_str(key: &str, text: &str, out: &mut Writer) -> Result<(), AllocError>
    ensures { OnOk result (AppendsRow (key.now, Some (string text.now)) out.old out.new) }
{
    out.key(key)?;
    out.string(text)
}

/// Writes a key and a string, and leaves both out where there is no string.
///
/// Errors: `AllocError`, if an allocation failed.
pub fn write_optional_str(key: &str, text: Option<&str>, out: &mut Writer) -> Result<(), AllocError>
    ensures { OnOk result
        (AppendsRow (key.now, option_map string (option_map (λ t. t.now) text.entry))
        out.old out.new) }
{
    match text {
        None => Ok(()),
        Some(text) => write_str(key, text, out),
    }
}

/// Writes a key and the JSON text of the value that the input begins with, and returns the rest.
///
/// Errors: `Malformed`, if no prefix of the input encodes a value; `Memory`, if an allocation
/// failed.
pub fn transcode_member<'a, T: Transcode>(
    key: &str,
    input: &'a [u8],
    out: &mut Writer,
) -> Result<&'a [u8], DecodeError>
    ensures ok { IfOk result (λ rest. WritesRow T.encodes (λ v. (key.now, Some (T.written v)))
        input.now rest.now out.old out.new) }
    ensures malformed { IfErr result (IfMalformed (HasNoPrefix T.encodes input.now)) }
{
    out.key(key)?;
    let rest = T::transcode(input, out)?;
    Ok(rest)
}

/// Writes two keys, each with the JSON text of its value: of the one that the input begins with and
/// of the one after it. Returns the rest.
///
/// Errors: `Malformed`, if no prefix of the input encodes the two values; `Memory`, if an allocation
/// failed.
pub fn transcode_two<'a, A: Transcode, B: Transcode>(
    first: &str,
    second: &str,
    input: &'a [u8],
    out: &mut Writer,
) -> Result<&'a [u8], DecodeError>
    ensures ok { IfOk result (λ rest. WritesRows (EncodesPair A.encodes B.encodes)
        (two_rows_of first.now second.now A.written B.written)
        input.now rest.now out.old out.new) }
    ensures malformed { IfErr result
        (IfMalformed (HasNoPrefix (EncodesPair A.encodes B.encodes) input.now)) }
{
    let between = transcode_member::<A>(first, input, out)?;
    transcode_member::<B>(second, between, out)
}

/// Writes a key and the JSON array of the list that the input begins with, and leaves both out
/// where the list is empty. Returns the rest.
///
/// Errors: `Malformed`, if no prefix of the input encodes a list; `Memory`, if an allocation
/// failed.
pub fn transcode_unless_empty<'a, T: Transcode>(
    key: &str,
    input: &'a [u8],
    out: &mut Writer,
) -> Result<&'a [u8], DecodeError>
    ensures ok { IfOk result (λ rest. WritesRow (EncodesList T.encodes)
        (λ values. (key.now, unless_empty T.written values))
        input.now rest.now out.old out.new) }
    ensures malformed { IfErr result
        (IfMalformed (HasNoPrefix (EncodesList T.encodes) input.now)) }
{
    match decode_compact(input) {
        None => Err(DecodeError::Malformed),
        Some((count, empty)) => {
            if count == 0 {
                return Ok(empty);
            }
            let rest = transcode_member::<Items<T>>(key, input, out)?;
            Ok(rest)
        }
    }
}
