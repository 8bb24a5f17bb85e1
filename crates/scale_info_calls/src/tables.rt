//! Tables that are decoded.
ghost use Rattle.std.specs.Prelude.{IfErr, IfOk};
ghost use Rattle.scale_info_calls.specs.WholeTables.{IsTableRefusal};
ghost use Rattle.scale_info_grammar.specs.Ty.{EncodesTypes};

use crate::error::CallError;
use scale_info_codec::DecodeError;
use scale_info_table::portable::PortableRegistry;
use std::alloc::Global;

/// The table that the input is.
///
/// Errors: `Malformed`, where no prefix of the input is a table; `TrailingBytes`, where bytes come
/// after the table; `Memory`, where an allocation failed.
pub fn registry_of(alloc: Global, input: &[u8]) -> Result<PortableRegistry, CallError>
    ensures ok { IfOk result (λ registry. EncodesTypes registry.types input.now) }
    ensures err { IfErr result (IsTableRefusal input.now) }
{
    let (registry, rest) = match PortableRegistry::decode(alloc, input) {
        Ok(found) => found,
        Err(DecodeError::Malformed) => return Err(CallError::Malformed),
        Err(DecodeError::Memory) => return Err(CallError::Memory),
    };
    if !rest.is_empty() {
        return Err(CallError::TrailingBytes);
    }
    Ok(registry)
}
