//! Tuples by the types of their members.
ghost use Rattle.std.specs.Prelude.{◌≡◌, [], List, IfOk, map};
ghost use Rattle.std.specs.Iterator.{IsFinite};
ghost use Rattle.scale_info_types.specs.Iterators.{GivesAll};
ghost use Rattle.scale_info_types.specs.MetaDescriptions.{type_term};
ghost use Rattle.scale_info_types.specs.Phantoms.{without_phantoms};
ghost use Rattle.scale_info_types.specs.declared.meta_type.MetaType.{MetaType};

use super::phantom::IdentityForm;
use crate::form::MetaForm;
use crate::meta_type::MetaType;
use crate::ty::TypeDefTuple;
use scale_info_collections::items::Items;
use std::alloc::{AllocError, Global};

impl TypeDefTuple<MetaForm> {
    /// The tuple with members of these types, in order. A type whose identity is `PhantomData<()>`
    /// is left out.
    ///
    /// Errors: `AllocError`, if an allocation failed.
    pub fn new<I: IntoIterator<Item = MetaType>>(
        alloc: Global,
        fields: I,
    ) -> Result<TypeDefTuple, AllocError>
        requires can { (it : I.IntoIter) → I.into_iter_gives fields it → I.IntoIter.can_next it }
        requires ends { (it : I.IntoIter) → I.into_iter_gives fields it
            → IsFinite (I.IntoIter.remaining it) }
        ensures { IfOk result (λ d. (given : List MetaType)
            × GivesAll I.into_iter_gives I.IntoIter.next_gives fields given
            × (map type_term d.fields ≡ without_phantoms (map type_term given))) }
    {
        let members = without_phantom_types(Vec::from_iter(alloc, fields)?);
        Ok(TypeDefTuple::from(Items::from(members)))
    }

    /// The tuple without members.
    pub fn unit(alloc: Global) -> TypeDefTuple
        ensures { result.fields ≡ [] }
    {
        TypeDefTuple::from(Items::new(alloc))
    }
}

/// The types that are no phantoms, in order.
fn without_phantom_types(mut types: Vec<MetaType>) -> Vec<MetaType>
    ensures { map type_term result.items ≡ without_phantoms (map type_term types.items) }
{
    types.retain(|ty| !MetaForm::is_phantom(ty));
    types
}
