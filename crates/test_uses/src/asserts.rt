//! Assertions as calls, which a proof passes faster than as macros in each test.
use std::fmt::Debug;
use std::process::Abort;

/// Asserts that the value is the one that is wanted; the message has the name.
pub fn is<T: PartialEq + Debug + Drop>(rt: &impl Abort, name: &str, value: T, wanted: T) {
    assert_eq!(rt; value, wanted, "{name}");
}

/// Asserts that the statement of this name holds.
pub fn holds(rt: &impl Abort, name: &str, statement: bool) {
    assert!(rt; statement, "{name}");
}
