//! The text of each error, as `Display` writes it.
use scale_info::export::ExportError;
use scale_info::graph::GraphError;
use scale_info::interner::InternError;
use scale_info::meta_type::{CatalogueError, InfoError};
use scale_info::metadata::MetadataError;
use scale_info::registry::RegisterError;
use scale_info::typed::{ConvertError, DecodeAsError, EncodeAsError};
use scale_info::value::{EncodeValueError, Failure, Step, ValueError, ValueJsonError, ValuePath};
use scale_info::value_text::ValueTextError;
use scale_info::visit::{VisitError, WithinError};
use scale_info::{
    DecodeError, EncodeError, Items, JsonError, JsonTextError, PathError, PruneError, RetainError,
    TypeId,
};
use std::alloc::{AllocError, Global};
use std::fmt::{Debug, Display};
use std::test::Fail;
use test_common::lists::{list_of, with};
use test_common::parts::text;
use test_memory_common::answers::printed;
use test_memory_common::marked;
use test_memory_common::outcomes::Outcome;

/// The identity that errors name.
fn named(alloc: Global) -> TypeId {
    TypeId::new("demo::A", Vec::new(alloc), Vec::new(alloc))
}

/// The error that names the path of a part.
fn mismatch(alloc: Global) -> Result<EncodeValueError, AllocError> {
    let first = list_of(alloc, Step::Field(text(alloc, "calls")?));
    let two = with(first, Ok(Step::Index(0)));
    let steps = Items::from(with(two, Ok(Step::Field(text(alloc, "dest")?)))?);
    Ok(EncodeValueError::Mismatch(ValuePath { steps }))
}

/// Whether an error is of the variant of this name, with which its `Debug` begins.
fn is_variant<T: Debug>(alloc: Global, error: &T, variant: &str) -> Result<bool, AllocError> {
    let text = format!(in alloc; "{error:?}")?;
    Ok(text.as_str().split([' ', '(']).next() == Some(variant))
}

/// Writes the one of these errors that is of the variant of this name.
fn one_of<T: Debug + Display>(
    rt: &HostRuntime,
    variant: &str,
    errors: &[T],
) -> Result<Outcome, Fail> {
    for error in errors {
        if is_variant(rt.alloc(), error, variant)? {
            let text = marked!(rt; format!(in rt.alloc(); "{error}"));
            return Outcome::of(printed(rt.alloc(), text));
        }
    }
    Err(Fail::new("no variant has this name"))
}

/// Writes the one of the errors beside the name of their enum that is of a variant.
macro_rules! of_enum {
    ($rt:expr, $name:expr, $variant:expr; $($text:literal => [$($error:expr),*]),*) => {
        match $name {
            $($text => one_of($rt, $variant, &[$($error),*]),)*
            _ => Err(Fail::new("no error has this name")),
        }
    };
}

/// Writes the error of this name: an enum, and its variant.
fn display(rt: &HostRuntime, name: &str) -> Result<Outcome, Fail> {
    let alloc = rt.alloc();
    let (error, variant) = name.split_once("::").unwrap_or((name, ""));
    of_enum!(rt, error, variant;
        "PathError" => [
            PathError::InvalidIdentifier { segment: 1 }, PathError::MissingSegments,
            PathError::Memory
        ],
        "InternError" => [InternError::Full, InternError::Memory],
        "EncodeError" => [EncodeError::TooLong, EncodeError::Memory],
        "DecodeError" => [DecodeError::Malformed, DecodeError::Memory],
        "JsonError" => [JsonError::Shape, JsonError::Memory],
        "InfoError" => [InfoError::TooLong, InfoError::Memory],
        "CatalogueError" => [
            CatalogueError::Conflict, CatalogueError::TooLong, CatalogueError::Memory
        ],
        "RegisterError" => [
            RegisterError::Undescribed(named(alloc)), RegisterError::Full, RegisterError::Memory
        ],
        "ValueError" => [
            ValueError::NoSuchType, ValueError::Unsupported, ValueError::TooDeep,
            ValueError::Malformed, ValueError::Memory
        ],
        "RetainError" => [
            RetainError::Dangling { id: 7 }, RetainError::TooManyTypes, RetainError::Memory
        ],
        "PruneError" => [
            PruneError::Malformed, PruneError::Trailing, PruneError::NoSuchType(7),
            PruneError::Dangling(7), PruneError::Memory
        ],
        "ExportError" => [
            ExportError::Undescribed(named(alloc)), ExportError::Full, ExportError::TooLong,
            ExportError::Memory
        ],
        "GraphError" => [
            GraphError::Dangling { id: 7 }, GraphError::TooManyTypes, GraphError::Memory
        ],
        "JsonTextError" => [JsonTextError::Syntax, JsonTextError::Shape, JsonTextError::Memory],
        "MetadataError" => [
            MetadataError::Version(13), MetadataError::Malformed, MetadataError::Trailing
        ],
        "ValueTextError" => [
            ValueTextError::Value(ValueError::Malformed), ValueTextError::Trailing
        ],
        "ValueJsonError" => [
            ValueJsonError::NoSuchType, ValueJsonError::Unsupported, ValueJsonError::TooDeep,
            ValueJsonError::Mismatch, ValueJsonError::Memory
        ],
        "EncodeValueError" => [
            mismatch(alloc)?, EncodeValueError::NoSuchType, EncodeValueError::Unsupported,
            EncodeValueError::TooDeep, EncodeValueError::Memory
        ],
        "Failure" => [
            Failure::NoSuchType, Failure::Unsupported, Failure::TooDeep, Failure::Malformed
        ],
        "VisitError" => [
            VisitError::<JsonError>::Failed(Failure::TooDeep),
            VisitError::Stopped(JsonError::Shape)
        ],
        "WithinError" => [
            WithinError::<JsonError>::Failed(Failure::TooDeep), WithinError::<JsonError>::TooLarge,
            WithinError::Stopped(JsonError::Shape)
        ],
        "ConvertError" => [ConvertError::Mismatch, ConvertError::Memory],
        "DecodeAsError" => [DecodeAsError::Decode(ValueError::Malformed), DecodeAsError::Mismatch],
        "EncodeAsError" => [EncodeAsError::Encode(mismatch(alloc)?), EncodeAsError::Mismatch]
    )
}

/// Makes the call of this name, which writes an error.
pub fn call(rt: &HostRuntime, name: &str, input: &str) -> Result<Outcome, Fail> {
    match name {
        "display" => display(rt, input),
        _ => Err(Fail::new("no call has this name")),
    }
}
