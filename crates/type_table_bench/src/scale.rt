//! SCALE bytes that inputs are made of.
use std::alloc::AllocError;

/// Appends a compact integer.
pub fn push_compact(out: &mut Vec<u8>, number: u32) -> Result<(), AllocError> {
    if number < 64 {
        out.push((number * 4) as u8)?;
        Ok(())
    } else if number < 16384 {
        out.extend_from_slice(&(number * 4 + 1).to_le_bytes()[..2])
    } else if number < 1073741824 {
        out.extend_from_slice(&(number * 4 + 2).to_le_bytes())
    } else {
        out.push(3)?;
        out.extend_from_slice(&number.to_le_bytes())
    }
}

/// Appends the length of a list that is in memory.
pub fn push_count(out: &mut Vec<u8>, count: usize) -> Result<(), AllocError> {
    push_compact(out, (count & 0xffff_ffff) as u32)
}

/// Appends a string.
pub fn push_text(out: &mut Vec<u8>, text: &str) -> Result<(), AllocError> {
    push_count(out, text.len())?;
    out.extend_from_slice(text.as_bytes())
}

/// Appends a string that may be missing, as the empty one is.
pub fn push_optional(out: &mut Vec<u8>, text: &str) -> Result<(), AllocError> {
    if text.is_empty() {
        out.push(0)?;
        return Ok(());
    }
    out.push(1)?;
    push_text(out, text)
}

/// Appends a number of 64 bits.
pub fn push_word(out: &mut Vec<u8>, number: u64) -> Result<(), AllocError> {
    out.extend_from_slice(&number.to_le_bytes())
}

/// Appends a compact integer of 63 bits with its highest bit, which takes nine bytes.
pub fn push_compact_word(out: &mut Vec<u8>, number: u64) -> Result<(), AllocError> {
    out.push(19)?;
    push_word(out, number >> 1 | 0x4000_0000_0000_0000)
}
