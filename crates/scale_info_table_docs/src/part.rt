//! Parts of a table that are written again without docs.
ghost use Rattle.std.specs.Prelude.{IfOk, IfErr, OnErr, List, ℕ};
ghost use Rattle.scale_info_bytes.specs.Encodings.{HasNoPrefix, IfMalformed, IsEncoding, IsPrefix};
ghost use Rattle.scale_info_table_docs.specs.Changes.{AppendsChanged};

use scale_info_bytes::error::DecodeError;
use scale_info_passes::pass::Pass;
use scale_info_passes::visitors::skip;

/// A part of a table that is written again without docs.
///
/// An implementor states what encodes the part and the part without docs, and owes the contract of
/// `append` and a proof of `law`.
pub trait WithoutDocs {
    /// The whole list of bytes encodes the part.
    ghost encodes: { Self → List ℕ → Type 0 };

    /// The part without docs.
    ghost without_docs: { Self → Self };

    /// Appends the part at the start of the input, without docs, and returns the rest.
    ///
    /// Errors: `Malformed`, if no prefix of the input encodes a part; `Memory`, if an allocation
    /// failed. Some of the part may then have been appended.
    fn append<'a>(input: &'a [u8], out: &mut Vec<u8>) -> Result<&'a [u8], DecodeError>
        ensures ok { IfOk result (λ rest. AppendsChanged encodes without_docs
            input.now rest.now out.old.items out.new.items) }
        ensures malformed { IfErr result (IfMalformed (HasNoPrefix encodes input.now)) }
        ensures kept { OnErr result (IsPrefix out.old.items out.new.items) };

    /// A part has one encoding at most, no encoding is a proper prefix of another, and an encoding
    /// is made of bytes.
    ghost law: { IsEncoding encodes };
}

/// Appends a part that has no docs as it is, and returns the rest of the input.
///
/// Errors: as those of [`WithoutDocs::append`].
pub fn append_copy<'a, T: Pass>(input: &'a [u8], out: &mut Vec<u8>) -> Result<&'a [u8], DecodeError>
    ensures ok { IfOk result (λ rest. AppendsChanged T.encodes (λ v. v)
        input.now rest.now out.old.items out.new.items) }
    ensures malformed { IfErr result (IfMalformed (HasNoPrefix T.encodes input.now)) }
    ensures kept { OnErr result (IsPrefix out.old.items out.new.items) }
{
    match skip::<T>(input) {
        Some(rest) => {
            let length = input.len().saturating_sub(rest.len());
            out.extend_from_slice(&input[..length])?;
            Ok(rest)
        }
        None => Err(DecodeError::Malformed),
    }
}

/// A part of a table that has no docs.
pub trait HasNoDocs: Pass {}

impl<T: HasNoDocs> WithoutDocs for T {
    ghost encodes = { T.encodes };

    ghost without_docs = { λ v. v };

    fn append<'a>(input: &'a [u8], out: &mut Vec<u8>) -> Result<&'a [u8], DecodeError> {
        append_copy::<T>(input, out)
    }

    ghost law = { T.law };
}
