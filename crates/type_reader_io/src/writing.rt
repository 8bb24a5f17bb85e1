//! Outputs, written whole.
ghost use Rattle.std.specs.Prelude.{◌≡◌, IfErr, OnOk};
ghost use Rattle.std.specs.Io.KnownBytes.{Appends};
ghost use Rattle.type_reader_io.specs.declared.error.ReaderError.TheVariants as reader_error;
ghost use Rattle.type_table_io.specs.Reports.{AppendsPrefix};

use crate::error::ReaderError;
use std::io::Write;
use type_table_io::writing::write_all;

/// Writes the output whole.
///
/// Errors: `Output`, if a write or a flush fails; then a prefix was written.
pub fn write_output<W: Write>(output: &mut W, bytes: &[u8]) -> Result<(), ReaderError>
    ensures ok { OnOk result (Appends (W.contents output.old) (W.contents output.new) bytes.now) }
    ensures prefix { AppendsPrefix (W.contents output.old) (W.contents output.new) bytes.now }
    ensures err { IfErr result (λ e. e ≡ reader_error.Output) }
{
    if write_all(output, bytes).is_err() {
        return Err(ReaderError::Output);
    }
    match output.flush() {
        Ok(()) => Ok(()),
        Err(_) => Err(ReaderError::Output),
    }
}
