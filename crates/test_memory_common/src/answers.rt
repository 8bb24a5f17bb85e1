//! What a call returned, as a text.
use crate::types::catalogue;
use scale_info::{IntoPortable, Registry, Scale};
use std::alloc::{AllocError, Global};
use std::fmt::Debug;
use test_common::held::Held;

/// What a call returned.
#[derive(Drop)]
pub enum Answer {
    /// A value, which the text shows.
    Done(String),
    /// The error with this text.
    Failed(String),
}

/// The outcome that this text shows.
pub fn done(text: Result<String, AllocError>) -> Result<Answer, AllocError> {
    Ok(Answer::Done(text?))
}

/// The outcome of this error.
pub fn failed<E: Debug>(alloc: Global, error: &E) -> Result<Answer, AllocError> {
    Ok(Answer::Failed(format!(in alloc; "{error:?}")?))
}

/// The outcome of a value that is shown by its `Debug`, or of an error.
pub fn shown<T: Debug + Drop, E: Debug + Drop>(
    alloc: Global,
    returned: Result<T, E>,
) -> Result<Answer, AllocError> {
    match returned {
        Ok(value) => done(format!(in alloc; "{value:?}")),
        Err(error) => failed(alloc, &error),
    }
}

/// The outcome of a text, or of an error.
pub fn printed<E: Debug + Drop>(
    alloc: Global,
    returned: Result<String, E>,
) -> Result<Answer, AllocError> {
    match returned {
        Ok(text) => done(Ok(text)),
        Err(error) => failed(alloc, &error),
    }
}

/// Bytes in hexadecimal.
pub fn hexadecimal(alloc: Global, bytes: &[u8]) -> Result<String, AllocError> {
    hex::encode(alloc, bytes)
}

/// The encoding of a value in hexadecimal; of a value without an encoding the error.
pub fn digits<T: Scale>(alloc: Global, value: &T) -> Result<String, AllocError> {
    let mut bytes = Vec::new(alloc);
    match value.encode_to(&mut bytes) {
        Ok(()) => hexadecimal(alloc, bytes.as_slice()),
        Err(error) => format!(in alloc; "{error:?}"),
    }
}

/// The outcome of a portable value, which is shown by its encoding, or of an error.
pub fn encoded<T: Scale, E: Debug + Drop>(
    alloc: Global,
    returned: Result<T, E>,
) -> Result<Answer, AllocError> {
    match returned {
        Ok(value) => done(digits(alloc, &value)),
        Err(error) => failed(alloc, &error),
    }
}

/// The outcome of a value that holds types, which is shown by the encoding of its portable form.
fn converted<T: IntoPortable + Drop>(alloc: Global, value: T) -> Result<Answer, AllocError>
where
    T::Output: Scale,
{
    match catalogue(alloc) {
        Ok(known) => {
            let mut registry = Held(Registry::new(alloc));
            encoded(alloc, value.into_portable(alloc, &mut registry.0, &known))
        }
        Err(error) => failed(alloc, &error),
    }
}

/// The outcome of a value that holds types, or of an error.
pub fn registered<T: IntoPortable + Drop, E: Debug + Drop>(
    alloc: Global,
    returned: Result<T, E>,
) -> Result<Answer, AllocError>
where
    T::Output: Scale,
{
    match returned {
        Ok(value) => converted(alloc, value),
        Err(error) => failed(alloc, &error),
    }
}
