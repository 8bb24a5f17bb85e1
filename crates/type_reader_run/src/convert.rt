//! A value of a type that a text gives, converted.
ghost use Rattle.std.specs.Prelude.{◌≡◌, IfOk, IfErr};
ghost use Rattle.type_reader_run.specs.Conversions.{GivesNoType, GivesType, IsConversionError};
ghost use Rattle.type_reader_run.specs.Conversions.{IsConverted, error_of};
ghost use Rattle.type_reader_run.specs.Tables.{IsOneTable};

use crate::selection::one_named;
use crate::table::registry_of;
use scale_info_collections::text::Text;
use std::alloc::Global;
use type_reader_io::command::Conversion;
use type_reader_io::error::{LineError, ReaderError};
use type_reader_lines::Converter;

/// What converts values of the one type that the text gives.
///
/// Errors: as [`one_named`].
pub fn converter_of(
    alloc: Global,
    conversion: Conversion,
    table: &[u8],
    text: &Text,
) -> Result<Converter, ReaderError>
    requires { IsOneTable table.now }
    ensures ok { IfOk result (λ converter.
        GivesType table.now text.now converter.registry converter.id) }
    ensures way { IfOk result (λ converter. converter.conversion ≡ conversion) }
    ensures err { IfErr result (GivesNoType table.now text.now) }
{
    let registry = registry_of(alloc, table)?;
    let id = one_named(alloc, &registry, text)?;
    Ok(Converter {
        alloc,
        conversion,
        registry,
        id,
    })
}

/// The program's error for one of a line.
fn error_of(error: LineError) -> ReaderError
    ensures { result ≡ error_of error }
{
    match error {
        LineError::Fault(fault) => ReaderError::NoValue(fault),
        LineError::Memory => ReaderError::Memory,
    }
}

/// The value of the one type that the text gives, converted, as a line.
///
/// Errors: as [`converter_of`] and [`Converter::line_of`].
pub fn converted(
    alloc: Global,
    conversion: Conversion,
    table: &[u8],
    text: &Text,
    value: &Text,
) -> Result<Vec<u8>, ReaderError>
    requires { IsOneTable table.now }
    ensures ok { IfOk result
        (λ line. IsConverted conversion table.now text.now value.now line.items) }
    ensures err { IfErr result (IsConversionError conversion table.now text.now value.now) }
{
    let converter = converter_of(alloc, conversion, table, text)?;
    match converter.line_of(value.as_str().as_bytes()) {
        Ok(line) => Ok(line),
        Err(error) => Err(error_of(error)),
    }
}
