//! The errors of pruning, as those of calls.
ghost use Rattle.std.specs.Prelude.{◌≡◌};
ghost use Rattle.scale_info_calls.specs.WholeTables.{error_of};

use crate::error::CallError;
use scale_info_table_prune::prune::PruneError;

/// The error of a call for one of pruning, or of reading a table.
pub fn error_of(error: PruneError) -> CallError
    ensures { result ≡ error_of error }
{
    match error {
        PruneError::Malformed => CallError::Malformed,
        PruneError::Trailing => CallError::TrailingBytes,
        PruneError::NoSuchType(id) => CallError::NoSuchType(id),
        PruneError::Dangling(id) => CallError::Dangling(id),
        PruneError::Memory => CallError::Memory,
    }
}
