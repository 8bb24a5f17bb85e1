//! Values of a type, converted one by one.
ghost use Rattle.std.specs.Prelude.{◌≡◌, IfOk, IfErr, OnErr, OnOk};
ghost use Rattle.type_reader_lines.specs.Conversions.{AppendsLine, IsLine, IsLineError};

use crate::encode::append_encoded_line;
use crate::value::append_value_line;
use scale_info_hexadecimal::digits::Digits;
use scale_info_table::portable::PortableRegistry;
use std::alloc::Global;
use type_reader_io::command::Conversion;
use type_reader_io::error::LineError;

/// What converts values of one type. It is made of its fields; an id that is no index of the table
/// is the error of each value.
#[derive(Drop)]
pub struct Converter {
    /// Where it allocates.
    pub alloc: Global,
    /// Which way values are converted.
    pub conversion: Conversion,
    /// The table.
    pub registry: PortableRegistry,
    /// The id of the type.
    pub id: u32,
}

impl Converter {
    /// Appends the value, converted, as a line.
    ///
    /// Errors: `Fault`, where there is none; `Memory`, if an allocation failed. The output is then
    /// as it was.
    pub fn append_line(
        &self,
        value: &[u8],
        digits: &mut Digits,
        output: &mut Vec<u8>,
    ) -> Result<(), LineError>
        ensures ok { OnOk result (AppendsLine
            (IsLine self.now.conversion self.now.registry self.now.id value.now)
            output.old.items output.new.items) }
        ensures err { IfErr result
            (IsLineError self.now.conversion self.now.registry self.now.id value.now) }
        ensures keeps { OnErr result (output.new.items ≡ output.old.items) }
    {
        match self.conversion {
            Conversion::Decode => {
                append_value_line(self.alloc, &self.registry, self.id, value, digits, output)
            }
            Conversion::Encode => {
                append_encoded_line(self.alloc, &self.registry, self.id, value, output)
            }
        }
    }

    /// The value, converted, as a line, with the line feed at its end.
    ///
    /// For example, the digits `0x2a00`, decoded as a `u16`, are the line `42`.
    ///
    /// Errors: as [`Converter::append_line`].
    pub fn line_of(&self, value: &[u8]) -> Result<Vec<u8>, LineError>
        ensures ok { IfOk result (λ line.
            IsLine self.now.conversion self.now.registry self.now.id value.now line.items) }
        ensures err { IfErr result
            (IsLineError self.now.conversion self.now.registry self.now.id value.now) }
    {
        let mut line = Vec::new(self.alloc);
        self.append_line(value, &mut Digits::new(self.alloc), &mut line)?;
        Ok(line)
    }
}
