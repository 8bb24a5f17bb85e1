//! Outcomes that are handed on together.

/// Both values, or the first error.
///
/// It is generic, since the proof of a test grows with what the test drops where it returns early.
pub fn both<A: Drop, B: Drop, E: Drop>(
    first: Result<A, E>,
    second: Result<B, E>,
) -> Result<(A, B), E> {
    let first = first?;
    let second = second?;
    Ok((first, second))
}
