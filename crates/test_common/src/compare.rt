//! Values compared with what is made for the comparison.
//!
//! Each function is generic, so that a test never holds a description of its own: the proof of a
//! test grows with what the test has to drop.

/// Whether a value equals one that is made.
pub fn equals<T: PartialEq + Drop, E: Drop>(value: &T, made: Result<T, E>) -> Result<bool, E> {
    let made = made?;
    Ok(*value == made)
}
