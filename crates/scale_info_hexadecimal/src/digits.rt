//! Bytes that the digits of many texts write, one text after another, in the same buffers.
//!
//! [`decode`](crate::decode::decode) says the same of one text. Here digits are taken many at a
//! time: a proof says that nothing else is read.
ghost use Rattle.std.specs.Prelude.{◌≡◌, ◌*◌, List, ℕ, IfOk, None, Ok, Some, length};
ghost use Rattle.std.specs.Prelude.{IsFalse, IsTrue, if◌then◌else◌, unwrap_or};
ghost use Rattle.hex.specs.Hex.{decode_pairs, hex_digit_value};
ghost use Rattle.scale_info_hexadecimal.specs.Digits.{AreValues, HasNoDigit, bytes_by_digits};

use crate::decode::without_mark;
use std::alloc::{AllocError, Global};

/// What stands for the value of a byte that is no digit.
const NO_VALUE: u8 = 255;

/// Buffers that are used again for the digits of one value after another.
#[derive(Drop)]
pub struct Digits {
    /// The value of each digit.
    values: Vec<u8>,
    /// The bytes that the digits write.
    pub bytes: Vec<u8>,
}

/// The value of a digit.
fn value_of(digit: u8) -> u8
    ensures { result ≡ unwrap_or (hex_digit_value digit) 255 }
{
    match digit {
        b'0'..=b'9' => digit - b'0',
        b'a'..=b'f' => digit - b'a' + 10,
        b'A'..=b'F' => digit - b'A' + 10,
        _ => NO_VALUE,
    }
}

/// Puts the value of each digit in its place. Whether all bytes are digits.
///
/// The loop has no other way out, so that it is compiled to vector instructions.
fn put_values(digits: &[u8], values: &mut [u8]) -> bool
    requires { length digits.now ≡ length values.old }
    ensures length { length values.new ≡ length values.old }
    ensures all { IsTrue result → AreValues digits.now values.new }
    ensures none { IsFalse result → HasNoDigit digits.now }
{
    let mut greatest = 0u8;
    'digits: for index in 0..values.len() {
        let value = value_of(digits[index]);
        values[index] = value;
        greatest = greatest.max(value);
    }
    greatest < 16
}

/// Puts the byte of each pair of values in its place.
fn put_bytes(values: &[u8], bytes: &mut [u8])
    requires { length values.now ≡ 2 * length bytes.old }
    ensures length { length bytes.new ≡ length bytes.old }
    ensures pairs { (digits : List ℕ) → AreValues digits values.now
        → decode_pairs 0 digits ≡ Ok bytes.new }
{
    'bytes: for index in 0..bytes.len() {
        // The product has the first value at bit 12 and the second one at bit 8.
        let pair = u16::from_le_bytes([values[2 * index], values[2 * index + 1]]);
        bytes[index] = (pair.wrapping_mul(0x1001) >> 8) as u8;
    }
}

impl Digits {
    /// Buffers of which nothing is used yet. Does not allocate.
    pub fn new(alloc: Global) -> Digits {
        Digits {
            values: Vec::new(alloc),
            bytes: Vec::new(alloc),
        }
    }

    /// Puts the bytes that hexadecimal digits write, after `0x` or without it, in the place of
    /// those before. False, where the text is no even number of digits; what the bytes are is then
    /// not said.
    ///
    /// Errors: `AllocError`, where an allocation failed.
    pub fn decode(&mut self, text: &[u8]) -> Result<bool, AllocError>
        ensures { IfOk result (λ found. bytes_by_digits text.now
            ≡ if found then Some self.new.bytes.items else None) }
    {
        let digits = without_mark(text);
        if digits.len() % 2 == 1 {
            return Ok(false);
        }
        self.values.resize(digits.len(), 0)?;
        self.bytes.resize(digits.len() / 2, 0)?;
        if !put_values(digits, self.values.as_mut_slice()) {
            return Ok(false);
        }
        put_bytes(self.values.as_slice(), self.bytes.as_mut_slice());
        Ok(true)
    }
}
