//! Callers with contracts of their own, which rest on those of the library alone.
ghost use Rattle.std.specs.Prelude.{◌≡◌, [], ◌∷◌, Some, IfOk, IsSome, option_map, slice_get};
ghost use Rattle.std.specs.Option.{option_copied};
ghost use Rattle.scale_info.specs.Types.{TypeDefSequence};
ghost use Rattle.scale_info.specs.Types.{PortableType};
ghost use Rattle.scale_info.specs.TypeDefs as def;
ghost use Rattle.scale_info.specs.Portable as portable;
ghost use Rattle.scale_info.specs.ClosedTables.{IsClosed};

use scale_info::form::PortableForm;
use scale_info::interner::InternError;
use scale_info::laws::one_text;
use scale_info::{Field, PortableRegistry, PortableRegistryBuilder, Type, TypeDef};
use std::alloc::Global;

/// The description of a field's type.
pub fn type_of_field<'a>(
    table: &'a PortableRegistry,
    field: &Field<PortableForm>,
) -> Option<&'a Type<PortableForm>>
    ensures { option_copied result
        ≡ option_map (λ entry. entry.ty) (slice_get table.now.types field.now.ty.id) }
{
    table.resolve(field.ty.id)
}

/// The description of the items of the sequence at this index; None if there is no sequence. In a
/// closed table a sequence's items always have one.
pub fn type_of_items(table: &PortableRegistry, index: u32) -> Option<&Type<PortableForm>>
    ensures { IsClosed table.now → (entry : PortableType) (sequence : portable.TypeDefSequence)
        → slice_get table.now.types index ≡ Some entry → entry.ty.type_def ≡ def.Sequence sequence
        → IsSome result }
{
    match &table.resolve(index)?.type_def {
        TypeDef::Sequence(def) => table.resolve(def.type_param.id),
        _ => None,
    }
}

/// Registers two descriptions; each is found under the id that it got.
pub fn register_both(
    builder: &mut PortableRegistryBuilder,
    first: Type<PortableForm>,
    second: Type<PortableForm>,
) -> Result<(u32, u32), InternError>
    ensures first { IfOk result (λ ids. slice_get builder.new ids.0 ≡ Some first) }
    ensures second { IfOk result (λ ids. slice_get builder.new ids.1 ≡ Some second) }
{
    let first = builder.register_type(first)?;
    let second = builder.register_type(second)?;
    Ok((first, second))
}

/// The table of one description, which has the id 0.
pub fn table_of(alloc: Global, ty: Type<PortableForm>) -> Result<PortableRegistry, InternError>
    ensures { IfOk result (λ table. table.types ≡ record { id = 0; ty = ty } ∷ []) }
{
    let mut builder = PortableRegistryBuilder::new(alloc);
    builder.register_type(ty)?;
    Ok(builder.finish(alloc)?)
}

/// Writes a table and reads it back, which gives the same table.
pub fn written_and_read(alloc: Global, table: &PortableRegistry) -> anyhow::Result<PortableRegistry>
    ensures { IfOk result (λ read. read ≡ table.now) }
{
    one_text();
    let mut bytes = Vec::new(alloc);
    table.encode(&mut bytes)?;
    let (read, _) = PortableRegistry::decode(alloc, &bytes)?;
    Ok(read)
}
