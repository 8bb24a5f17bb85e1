//! Whether bytes are one table.
ghost use Rattle.std.specs.Prelude.{IfErr, OnOk};
ghost use Rattle.scale_info_calls.specs.WholeTables.{IsNoTable, IsOneTable};

use crate::error::CallError;
use scale_info_collections::items::Items;
use scale_info_passes::visitors::skip;
use scale_info_types::ty::PortableType;

/// Finds that the input is one table, with nothing after it. Does not allocate.
///
/// Errors: `Malformed`, where no prefix of the input is a table; `TrailingBytes`, where bytes come
/// after the table.
///
/// ```text
/// check(&[4, 0, 0, 0, 5, 5, 0])   // Ok: the table of u32
/// check(&[])                      // Err(Malformed)
/// ```
pub fn check(input: &[u8]) -> Result<(), CallError>
    ensures ok { OnOk result (IsOneTable input.now) }
    ensures err { IfErr result (IsNoTable input.now) }
{
    match skip::<Items<PortableType>>(input) {
        Some(rest) => {
            if rest.is_empty() {
                Ok(())
            } else {
                Err(CallError::TrailingBytes)
            }
        }
        None => Err(CallError::Malformed),
    }
}
