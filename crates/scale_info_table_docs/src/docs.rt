//! Tables without docs.
ghost use Rattle.std.specs.Prelude.{◌≡◌, map, IfOk, IfErr, OnErr};
ghost use Rattle.scale_info_bytes.specs.Encodings.{HasNoPrefix, IfMalformed};
ghost use Rattle.scale_info_table_docs.specs.Changes.{AppendsChanged};
ghost use Rattle.scale_info_table_docs.specs.WithoutDocs.{entry_without_docs};
ghost use Rattle.scale_info_grammar.specs.Ty.{EncodesTypes};

use crate::part::WithoutDocs;
use scale_info_bytes::error::DecodeError;
use scale_info_collections::items::Items;
use scale_info_types::ty::PortableType;

/// Appends the table at the start of the input without docs, and returns the rest of the input.
///
/// What is appended is the encoding of the table in which no entry, field and variant has a line of
/// docs, and which is the same in all else: ids, paths, parameters and definitions. It is no longer
/// than the table was. The bytes are gone over once, and nothing but the output is allocated.
///
/// Errors: `Malformed`, if no prefix of the input is a table; `Memory`, if an allocation failed.
/// The output is then as it was.
///
/// ```text
/// // one entry: no path, no parameter, bool, one line of docs of one byte
/// append_without_docs(&[4, 0, 0, 0, 5, 0, 4, 4, 100], &mut out)?
/// // appended [4, 0, 0, 0, 5, 0, 0]
/// ```
pub fn append_without_docs<'a>(input: &'a [u8], out: &mut Vec<u8>) -> Result<&'a [u8], DecodeError>
    ensures ok { IfOk result (λ rest. AppendsChanged EncodesTypes (map entry_without_docs)
        input.now rest.now out.old.items out.new.items) }
    ensures malformed { IfErr result (IfMalformed (HasNoPrefix EncodesTypes input.now)) }
    ensures same { OnErr result (out.new.items ≡ out.old.items) }
{
    let start = out.len();
    let appended = Items::<PortableType>::append(input, out);
    if appended.is_err() {
        out.truncate(start);
    }
    appended
}
