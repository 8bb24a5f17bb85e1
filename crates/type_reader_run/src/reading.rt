//! Inputs, read whole.
ghost use Rattle.std.specs.Prelude.{◌≡◌, IfSome, IfOk, IfErr, OnOk};
ghost use Rattle.std.specs.Io.KnownBytes.{IsAtEnd};
ghost use Rattle.type_reader_io.specs.Inputs.{IsReadError};
ghost use Rattle.type_reader_run.specs.Tables.{input_bytes};

use crate::table::{TableInput, input_of};
use std::alloc::Global;
use std::io::Read;
use type_reader_io::error::ReaderError;
use type_table_io::error::RunError;
use type_table_io::reading::read_to_end;

/// Reads an input to its end.
///
/// Errors: `Memory`, if an allocation failed; `Input`, if a read fails.
pub fn read_input<R: Read>(alloc: Global, reader: &mut R) -> Result<Vec<u8>, ReaderError>
    ensures whole { IfOk result (λ input.
        IfSome (R.remaining reader.old) (λ bytes. input.items ≡ bytes)) }
    ensures end { OnOk result (IsAtEnd (R.remaining reader.new)) }
    ensures error { IfErr result IsReadError }
{
    match read_to_end(alloc, reader) {
        Ok(input) => Ok(input),
        Err(RunError::Memory) => Err(ReaderError::Memory),
        Err(_) => Err(ReaderError::Input),
    }
}

/// The same, as an input.
pub fn read_whole<R: Read>(alloc: Global, reader: &mut R) -> Result<TableInput, ReaderError>
    ensures bytes { IfOk result (λ input. IfSome (R.remaining reader.old)
        (λ bytes. input.bytes.items ≡ input_bytes bytes)) }
    ensures end { OnOk result (IsAtEnd (R.remaining reader.new)) }
    ensures error { IfErr result IsReadError }
{
    Ok(input_of(alloc, read_input(alloc, reader)?)?)
}
