//! A value of one's own as SCALE bytes: a struct is the tuple of its fields.
use scale_info::{DecodeError, EncodeError, Scale};
use std::alloc::Global;

/// A measured temperature: when, and how many hundredths of a kelvin.
#[derive(Drop)]
pub struct Reading {
    /// Seconds since the device started.
    pub seconds: u32,
    /// Hundredths of a kelvin.
    pub centikelvins: u32,
}

impl Scale for Reading {
    ghost use Rattle.example_callers.specs.Temperatures.{EncodesReading};
    ghost use Rattle.example_callers.specs.ReadingLaws.{reading_law};

    ghost encodes = { EncodesReading };

    fn encode_to(&self, out: &mut Vec<u8>) -> Result<(), EncodeError> {
        (self.seconds, self.centikelvins).encode_to(out)
    }

    fn decode_from(alloc: Global, input: &[u8]) -> Result<(Reading, &[u8]), DecodeError> {
        let ((seconds, centikelvins), rest) = Scale::decode_from(alloc, input)?;
        Ok((
            Reading {
                seconds,
                centikelvins,
            },
            rest,
        ))
    }

    ghost law = { reading_law };
}
