//! Tables that a program puts together at run time.
ghost use Rattle.std.specs.Prelude.{◌≡◌, ◌++◌, [], ◌∷◌, length, IfOk, OnErr, IsErrOf, slice_get};
ghost use Rattle.std.specs.Prelude.{Some, Ok, OnOk, ◌↔◌, ◌≤◌};
ghost use Rattle.std.specs.Option.{option_copied};
ghost use Rattle.scale_info_interner.specs.Interned.{IsNew, IsIndexOf};
ghost use Rattle.scale_info_numberings.specs.Numberings.{AreDistinct};
ghost use Rattle.scale_info_table.specs.BuiltTables.{IsUnregistered, numbered_from};

use super::PortableRegistry;
use super::entries::copies_of;
use scale_info_collections::try_clone::TryClone;
use scale_info_interner::interner::{InternError, Interner};
use scale_info_types::form::PortableForm;
use scale_info_types::laws::equal_portable;
use scale_info_types::ty::{PortableType, Type};
use std::alloc::{AllocError, Global};
use std::marker::Model;

/// A table in the making: descriptions are registered one by one, and each gets an id.
///
/// Equal descriptions share one id. Contracts see a builder as the list of its descriptions, in
/// which an id is an index. References between descriptions are taken as they come: nothing checks
/// that they lead to a registered type, so that types may refer to one another in a circle, or to
/// themselves by
/// [`next_type_id`](PortableRegistryBuilder::next_type_id).
#[derive(Drop)]
pub struct PortableRegistryBuilder {
    types: Interner<Type<PortableForm>>,
}

impl Model for PortableRegistryBuilder {
    ghost use Rattle.std.specs.Prelude.{List};
    ghost use Rattle.scale_info_types.specs.Portable.{Description};

    ghost Value = { List Description };

    ghost view = { λ s. s.types };
}

impl PortableRegistryBuilder {
    /// The builder with no type; does not allocate.
    pub fn new(alloc: Global) -> PortableRegistryBuilder
        ensures { result ≡ [] }
    {
        PortableRegistryBuilder {
            types: Interner::new(alloc),
        }
    }

    /// The id of this description, which goes last if no registered one equals it.
    ///
    /// A new description gets the id that [`next_type_id`](PortableRegistryBuilder::next_type_id)
    /// returned before. A registered one changes nothing, does not allocate and succeeds.
    ///
    /// Errors: `Full`, where the description is new and there are 4294967295 of them; `Memory`,
    /// where an allocation for a new one failed. On an Err the builder is as before, and the
    /// description is dropped. The crate `scale-info` has no such errors.
    pub fn register_type(&mut self, ty: Type<PortableForm>) -> Result<u32, InternError>
        ensures known { (id : _) → slice_get self.old id ≡ Some ty
            → (result ≡ Ok id) × (self.new ≡ self.old) }
        ensures new { IsUnregistered self.old ty
            → IfOk result (λ id. (id ≡ length self.old) × (self.new ≡ self.old ++ ty ∷ [])) }
        ensures ok { IfOk result (λ id. slice_get self.new id ≡ Some ty) }
        ensures full { IsErrOf result InternError.Full
            ↔ (length self.old ≡ 4294967295) × IsUnregistered self.old ty }
        // Each id keeps its description.
        ensures kept { (id : _) (other : _) → slice_get self.old id ≡ Some other
            → slice_get self.new id ≡ Some other }
        ensures err { OnErr result (self.new ≡ self.old) }
    {
        equal_portable();
        number_in(&mut self.types, ty)
    }

    /// The number of registered descriptions, which is the id that the next new one gets. No two of
    /// them are equal.
    ///
    /// Of 4294967295 descriptions it returns 4294967295, an id that no description ever gets.
    pub fn next_type_id(&self) -> u32
        ensures length { result ≡ length self.now }
        ensures distinct { AreDistinct self.now }
    {
        equal_portable();
        self.types.elements().len() as u32
    }

    /// The description with this id; None where none has it.
    pub fn get(&self, id: u32) -> Option<&Type<PortableForm>>
        ensures { option_copied result ≡ slice_get self.now id }
    {
        self.types.elements().get(id as usize)
    }

    /// The table of the registered descriptions, in which the entry at index `i` has the id `i`.
    ///
    /// The builder stays as it is and can go on; the table has copies.
    ///
    /// Errors: `AllocError`, where an allocation for the table failed.
    pub fn finish(&self, alloc: Global) -> Result<PortableRegistry, AllocError>
        ensures { IfOk result (λ table. table.types ≡ numbered_from 0 self.now) }
    {
        Ok(PortableRegistry {
            types: copies_of(alloc, self.types.elements())?,
        })
    }
}

/// The number of a value in an interner, where it goes last if it is new.
fn number_in<T: Ord + TryClone>(values: &mut Interner<T>, value: T) -> Result<u32, InternError>
    ensures known { (id : _) → IsIndexOf T.eq values.old value id
        → (result ≡ Ok id) × (values.new ≡ values.old) }
    ensures new { IsNew T.eq values.old value
        → IfOk result (λ id. (id ≡ length values.old) × (values.new ≡ values.old ++ value ∷ [])) }
    ensures ok { IfOk result (λ id. IsIndexOf T.eq values.new value id) }
    ensures full { IsErrOf result InternError.Full
        ↔ (length values.old ≡ 4294967295) × IsNew T.eq values.old value }
    ensures err { OnErr result (values.new ≡ values.old) }
{
    let (_, symbol) = values.intern_or_get(value)?;
    Ok(symbol.id)
}
