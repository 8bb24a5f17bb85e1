//! Options as JSON text.
ghost use Rattle.scale_info_bytes.specs.PartLaws.{option_law};
ghost use Rattle.scale_info_bytes.specs.Parts.{EncodesOption};
ghost use Rattle.scale_info_json_trees.specs.Written.{or_null};

use crate::transcode::Transcode;
use json::Writer;
use scale_info_bytes::error::DecodeError;

/// None is null.
impl<T: Transcode> Transcode for Option<T> {
    ghost encodes = { EncodesOption T.encodes };

    ghost written = { or_null T.written };

    fn transcode<'a>(input: &'a [u8], out: &mut Writer) -> Result<&'a [u8], DecodeError> {
        match input {
            [0, rest @ ..] => {
                out.null()?;
                Ok(rest)
            }
            [1, value @ ..] => {
                let rest = T::transcode(value, out)?;
                Ok(rest)
            }
            _ => Err(DecodeError::Malformed),
        }
    }

    ghost law = { option_law T.law };
}
