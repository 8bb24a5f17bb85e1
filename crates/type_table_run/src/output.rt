//! What a command writes for its input.
ghost use Rattle.std.specs.Prelude.{◌≡◌, ◌↔◌, All, IfOk, IfErr, List, map, ℕ};
ghost use Rattle.scale_info_table_prune.specs.Prunes.{IsPruneError};
ghost use Rattle.scale_info_table_prune.specs.declared.prune.PruneError.TheVariants as prune_error;
ghost use Rattle.type_table_io.specs.Commands.{HasIdTexts, given_ids};
ghost use Rattle.type_table_io.specs.Ids.{IsIdText, id_in};
ghost use Rattle.type_table_io.specs.declared.error.RunError.TheVariants as run_error;
ghost use Rattle.type_table_run.specs.Outputs.{IsPrunedTo, Outputs};
ghost use Rattle.type_table_run.specs.Refusals.{IsCommandError};

use crate::json_line::json_of;
use crate::table::check_table;
use scale_info_collections::text::Text;
use scale_info_table_prune::prune::{PruneError, append_pruned};
use std::alloc::Global;
use type_table_io::command::Command;
use type_table_io::error::RunError;
use type_table_io::id::ids_of;

/// The program's error for one of pruning.
fn command_error(error: PruneError) -> RunError
    ensures cause { (given input : List ℕ) → IsPruneError input given error
        → IsCommandError given input result }
    ensures memory { (result ≡ run_error.Memory) ↔ (error ≡ prune_error.Memory) }
{
    match error {
        PruneError::Malformed => RunError::Malformed,
        PruneError::Trailing => RunError::TrailingBytes,
        PruneError::NoSuchType(id) => RunError::NoSuchType(id),
        PruneError::Dangling(id) => RunError::Dangling(id),
        PruneError::Memory => RunError::Memory,
    }
}

/// The table of what the ids reach, of the table that the input is.
///
/// Errors: as [`append_pruned`].
fn pruned(alloc: Global, input: &[u8], ids: &[Text]) -> Result<Vec<u8>, RunError>
    requires { All IsIdText ids.now }
    ensures ok { IfOk result (λ output. IsPrunedTo (map id_in ids.now) input.now output.items) }
    ensures err { IfErr result (IsCommandError (map id_in ids.now) input.now) }
{
    let ids = ids_of(alloc, ids).map_err(|_| RunError::Memory)?;
    let mut output = Vec::new(alloc);
    match append_pruned(alloc, input, &ids, &mut output) {
        Ok(()) => Ok(output),
        Err(error) => Err(command_error(error)),
    }
}

/// The whole output of a command for its whole input.
///
/// No command makes a table or an entry of one: `check`, `prune` and `json` go over the bytes.
///
/// Errors: `Malformed`, if no prefix of the input is a table; `TrailingBytes`, if bytes come after
/// the table; `NoSuchType` and `Dangling`, if the table has no such index; `Memory`, if an
/// allocation failed, which `check` never reports.
pub fn output_of(alloc: Global, command: &Command, input: Vec<u8>) -> Result<Vec<u8>, RunError>
    requires { HasIdTexts command.now }
    ensures ok { IfOk result (λ output. Outputs command.now input.items output.items) }
    ensures err { IfErr result (IsCommandError (given_ids command.now) input.items) }
{
    match command {
        Command::Check => {
            check_table(&input)?;
            Ok(input)
        }
        Command::Prune(ids) => pruned(alloc, &input, ids),
        Command::Json => json_of(alloc, &input),
    }
}
