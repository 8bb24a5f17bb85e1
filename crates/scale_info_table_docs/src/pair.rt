//! Pairs of which each part is written again without docs.
ghost use Rattle.scale_info_bytes.specs.PartLaws.{pair_law};
ghost use Rattle.scale_info_bytes.specs.Parts.{EncodesPair};

use crate::part::WithoutDocs;
use scale_info_bytes::error::DecodeError;

impl<A: WithoutDocs, B: WithoutDocs> WithoutDocs for (A, B) {
    ghost encodes = { EncodesPair A.encodes B.encodes };

    ghost without_docs = { λ v. (A.without_docs v.0, B.without_docs v.1) };

    fn append<'a>(input: &'a [u8], out: &mut Vec<u8>) -> Result<&'a [u8], DecodeError> {
        let rest = A::append(input, out)?;
        B::append(rest, out)
    }

    ghost law = { pair_law A.law B.law };
}
