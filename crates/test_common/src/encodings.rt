//! Encodings of values, of a value that is borrowed and of one that is handed over.
use scale_info::Scale;
use std::alloc::Global;
use std::test::Fail;

/// The encoding of a value.
pub fn encoding<T: Scale>(alloc: Global, value: &T) -> Result<Vec<u8>, Fail> {
    let mut bytes = Vec::new(alloc);
    value.encode_to(&mut bytes)?;
    Ok(bytes)
}

/// The encoding of a value, which is handed over: the proof of a test grows with what it drops.
pub fn into_encoding<T: Scale>(alloc: Global, value: T) -> Result<Vec<u8>, Fail> {
    encoding(alloc, &value)
}
