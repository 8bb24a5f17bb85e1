//! What it is for a value to be read from bytes and written as JSON, with no string, list or entry
//! made.
ghost use Rattle.std.specs.Prelude.{◌≡◌, List, ℕ, IfOk, IfErr, OnOk};
ghost use Rattle.serde_json.specs.Data.{Data};
ghost use Rattle.scale_info_bytes.specs.Encodings.{HasNoPrefix, IfMalformed, IsEncoding};
ghost use Rattle.scale_info_json_bytes.specs.Transcodings.{WritesOne};

use json::Writer;
use scale_info_bytes::error::DecodeError;

/// A value whose JSON text is written straight from its bytes.
pub trait Transcode {
    /// The whole list of bytes encodes the value.
    ghost encodes: { Self → List ℕ → Type 0 };

    /// The tree that is written for the value.
    ghost written: { Self → Data };

    /// Reads the value at the start of the input, writes its JSON text, and returns the rest.
    ///
    /// Errors: `Malformed`, if no prefix of the input encodes a value; `Memory`, if an allocation
    /// failed.
    fn transcode<'a>(input: &'a [u8], out: &mut Writer) -> Result<&'a [u8], DecodeError>
        ensures before { OnOk result (out.new.before ≡ out.old.before) }
        ensures ok { IfOk result (λ rest. WritesOne encodes written
            input.now rest.now out.old.tokens out.new.tokens) }
        ensures malformed { IfErr result (IfMalformed (HasNoPrefix encodes input.now)) };

    /// A value has one encoding at most, no encoding is a proper prefix of another, and an encoding
    /// is made of bytes.
    ghost law: { IsEncoding encodes };
}
