//! The definitions that ids stand for.
ghost use Rattle.std.specs.Prelude.{◌≡◌, ◌≢◌, ◌≤◌, IfOk, IfErr, List};
ghost use Rattle.scale_info_value.specs.declared.value.Value.{Value};
ghost use Rattle.scale_info_value_encode.specs.declared.failure.PartError.TheVariants as failure;
ghost use Rattle.scale_info_value_encode.specs.declared.path.Step.{Step};
ghost use Rattle.scale_info_value_encode.specs.Failures.{Fails};
ghost use Rattle.scale_info_value_encode.specs.Writings.{value_within, compact_within};
ghost use Rattle.scale_info_value_encode.specs.Writings.{definition_within};
ghost use Rattle.scale_info_value_encode.specs.Writings.{compact_definition_within};

use crate::failure::PartError;
use scale_info_types::form::PortableForm;
use scale_info_types::ty::TypeDef;
use scale_info_value::definition::Definitions;

/// The definition of the type with this id, where so many levels are left for a value of it.
///
/// Errors: `TooDeep`, where none is left; `NoSuchType`, where the id is no index.
#[inline(always)]
pub fn definition_of<T: Definitions>(
    table: &T,
    id: u32,
    left: u8,
) -> Result<&TypeDef<PortableForm>, PartError>
    ensures level { IfOk result (λ _. 1 ≤ left) }
    ensures known { IfOk result (λ found. (value : Value)
        → (value_within left (T.table table.now) id value
        ≡ definition_within left (T.table table.now) found.now value)
        × (compact_within left (T.table table.now) id value
        ≡ compact_definition_within left (T.table table.now) found.now value)) }
    ensures unknown { IfErr result (λ why. (value : Value) (steps : List Step)
        → Fails (value_within left (T.table table.now) id value) steps why
        × Fails (compact_within left (T.table table.now) id value) steps why) }
    ensures not_memory { IfErr result (λ why. why ≢ failure.Memory) }
{
    if left == 0 {
        return Err(PartError::TooDeep);
    }
    match table.definition(id) {
        None => Err(PartError::NoSuchType),
        Some(definition) => Ok(definition),
    }
}
