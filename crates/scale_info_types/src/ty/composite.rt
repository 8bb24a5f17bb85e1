//! Structs and tuples of fields.
ghost use Rattle.std.specs.Prelude.{◌≡◌, IfOk};
ghost use Rattle.std.specs.Iterator.{IsFinite};
ghost use Rattle.scale_info_types.specs.Iterators.{GivesAll};

use super::fields::Field;
use crate::form::{Form, MetaForm};
use scale_info_collections::items::Items;
use scale_info_collections::try_clone::TryClone;
use std::alloc::{AllocError, Global};

/// A composite: a struct with named fields, a tuple struct, or a unit struct.
#[derive(Drop)]
#[derive_where(PartialEq, Eq, PartialOrd, Ord)]
pub struct TypeDefComposite<T: Form = MetaForm> {
    /// The fields, in order of declaration.
    pub fields: Items<Field<T>>,
}

impl<T: Form> TypeDefComposite<T> {
    /// The composite of these fields, in order.
    ///
    /// Errors: `AllocError`, if an allocation failed.
    pub fn new<I: IntoIterator<Item = Field<T>>>(
        alloc: Global,
        fields: I,
    ) -> Result<TypeDefComposite<T>, AllocError>
        requires can { (it : I.IntoIter) → I.into_iter_gives fields it → I.IntoIter.can_next it }
        requires ends { (it : I.IntoIter) → I.into_iter_gives fields it
            → IsFinite (I.IntoIter.remaining it) }
        ensures { IfOk result
            (λ d. GivesAll I.into_iter_gives I.IntoIter.next_gives fields d.fields) }
    {
        Ok(TypeDefComposite {
            fields: Items::from_iter(alloc, fields)?,
        })
    }

    /// The fields, in order.
    pub fn fields(&self) -> &[Field<T>]
        ensures { result.now ≡ self.now.fields }
    {
        self.fields.as_slice()
    }
}

impl<T: Form> From<Vec<Field<T>>> for TypeDefComposite<T> {
    ghost from_gives = { λ fields d. d.fields ≡ fields.items };

    fn from(fields: Vec<Field<T>>) -> TypeDefComposite<T> {
        TypeDefComposite {
            fields: Items::from(fields),
        }
    }
}

impl<T: Form> TryClone for TypeDefComposite<T> {
    fn try_clone(&self, alloc: Global) -> Result<TypeDefComposite<T>, AllocError> {
        Ok(TypeDefComposite {
            fields: self.fields.try_clone(alloc)?,
        })
    }
}
