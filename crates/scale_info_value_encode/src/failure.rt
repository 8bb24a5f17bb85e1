//! Why the parts of a value could not be encoded.
ghost use Rattle.std.specs.Prelude.{◌≡◌, ◌∷◌, [], IfErr, OnOk};
ghost use Rattle.scale_info_value_encode.specs.declared.failure.PartError.TheVariants as failure;
ghost use Rattle.scale_info_value_encode.specs.Failures.{Fails, error_of};
ghost use Rattle.scale_info_value_encode.specs.Writers.{Written, mismatch, of_part, refused};
ghost use Rattle.scale_info_value_encode.specs.Writers.{step_to};

use crate::error::EncodeValueError;
use crate::path::{Step, ValuePath};
use scale_info_collections::failure::AllocationFailure;
use scale_info_collections::items::Items;
use scale_info_collections::text::Text;
use scale_info_collections::try_clone::TryClone;
use std::alloc::AllocError;

/// Why a value could not be encoded, without the path of a mismatch.
///
/// The steps of that path stand in a vector beside it, so that what each level of a value returns
/// is a byte or two.
#[derive(Clone, Copy)]
pub enum PartError {
    /// As [`EncodeValueError::NoSuchType`].
    NoSuchType,
    /// As [`EncodeValueError::Unsupported`].
    Unsupported,
    /// As [`EncodeValueError::TooDeep`].
    TooDeep,
    /// As [`EncodeValueError::Mismatch`], where the path is known from elsewhere.
    Mismatch,
    /// An allocation failed.
    Memory,
}

impl PartError {
    /// The error, where these steps lead to the part that is none of its type.
    pub fn with_steps(self, steps: Vec<Step>) -> EncodeValueError
        ensures { result ≡ error_of steps.items self }
    {
        match self {
            PartError::NoSuchType => EncodeValueError::NoSuchType,
            PartError::Unsupported => EncodeValueError::Unsupported,
            PartError::TooDeep => EncodeValueError::TooDeep,
            PartError::Mismatch => EncodeValueError::Mismatch(ValuePath {
                steps: Items::from(steps),
            }),
            PartError::Memory => EncodeValueError::Memory,
        }
    }

    /// The failure of a part as one of the whole, where this is the part's index, and its name, if
    /// it has one.
    #[cold]
    #[inline(never)]
    pub fn of_whole(self, name: &Option<Text>, index: usize, steps: &mut Vec<Step>) -> PartError
        ensures { (outcome : Written) → Fails outcome steps.old.items self
            → Fails (of_part (step_to index name.now) outcome) steps.new.items result }
    {
        match self {
            PartError::Mismatch => match put_first(name, index, steps) {
                Ok(()) => PartError::Mismatch,
                Err(_) => PartError::Memory,
            },
            other => other,
        }
    }
}

/// Puts the step to the part with this index, and this name, if it has one, before the others.
///
/// Errors: an allocation failed.
fn put_first(name: &Option<Text>, index: usize, steps: &mut Vec<Step>) -> Result<(), AllocError>
    ensures { OnOk result (steps.new.items ≡ step_to index name.now ∷ steps.old.items) }
{
    let step = match name {
        Some(name) => Step::Field(name.try_clone(*steps.allocator())?),
        None => Step::Index(index),
    };
    Ok(steps.insert(0, step)?)
}

/// The failure of a value that is itself none of its type: no step leads to it.
#[cold]
#[inline(never)]
pub fn mismatch(steps: &mut Vec<Step>) -> PartError
    ensures { Fails (refused mismatch) steps.new.items result }
{
    steps.clear();
    PartError::Mismatch
}

/// What came of a value without parts: where it is none of its type, no step leads to it.
#[inline(always)]
pub fn without_parts(written: Result<(), PartError>, steps: &mut Vec<Step>) -> Result<(), PartError>
    ensures same { result ≡ written }
    ensures err { (outcome : Written) → IfErr written (Fails outcome [])
        → IfErr result (Fails outcome steps.new.items) }
{
    if written.is_err() {
        steps.clear();
    }
    written
}

impl<F: AllocationFailure> From<F> for PartError {
    ghost from_gives = { λ _ e. e ≡ failure.Memory };

    fn from(_failure: F) -> PartError {
        PartError::Memory
    }
}
