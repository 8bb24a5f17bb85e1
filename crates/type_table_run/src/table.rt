//! Whether bytes are one table.
ghost use Rattle.std.specs.Prelude.{IfErr, OnOk};
ghost use Rattle.type_table_run.specs.OneTable.{IsOneTable, IsCheckError};

use scale_info_collections::items::Items;
use scale_info_passes::visitors::skip;
use scale_info_types::ty::PortableType;
use type_table_io::error::RunError;

/// Finds that the input is one table, with nothing after it. Does not allocate.
///
/// Errors: `Malformed`, if no prefix of the input is a table; `TrailingBytes`, if bytes come after
/// the table.
pub fn check_table(input: &[u8]) -> Result<(), RunError>
    ensures ok { OnOk result (IsOneTable input.now) }
    ensures err { IfErr result (IsCheckError input.now) }
{
    match skip::<Items<PortableType>>(input) {
        Some(rest) => {
            if rest.is_empty() {
                Ok(())
            } else {
                Err(RunError::TrailingBytes)
            }
        }
        None => Err(RunError::Malformed),
    }
}
