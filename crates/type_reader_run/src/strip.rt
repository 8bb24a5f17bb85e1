//! Tables without docs.
ghost use Rattle.std.specs.Prelude.{◌≡◌, IfOk, IfErr};
ghost use Rattle.type_reader_io.specs.declared.error.ReaderError.TheVariants as reader_error;
ghost use Rattle.type_reader_run.specs.Outputs.{IsStripped};
ghost use Rattle.type_reader_run.specs.Tables.{IsOneTable};

use scale_info_table_docs::docs::append_without_docs;
use std::alloc::Global;
use type_reader_io::error::ReaderError;

/// The table with all docs left out.
///
/// Errors: `Memory`, if an allocation failed.
pub fn stripped(alloc: Global, table: &[u8]) -> Result<Vec<u8>, ReaderError>
    requires { IsOneTable table.now }
    ensures ok { IfOk result (λ output. IsStripped table.now output.items) }
    ensures err { IfErr result (λ e. e ≡ reader_error.Memory) }
{
    let mut output = Vec::new(alloc);
    match append_without_docs(table, &mut output) {
        Ok(_) => Ok(output),
        Err(_) => Err(ReaderError::Memory),
    }
}
