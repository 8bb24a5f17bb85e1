//! Laws of descriptions. Nothing here does any work when it runs.
ghost use Rattle.std.specs.Prelude.{◌≡◌, ◌↔◌, IsTrue, length, map};
ghost use Rattle.scale_info_types.specs.Shapes.{map_definition, content, shape};
ghost use Rattle.scale_info_types.specs.Portable as portable;
ghost use Rattle.scale_info_types.specs.References.{references};
ghost use Rattle.scale_info_types.specs.declared.ty.TypeDef.{TypeDef};
ghost use Rattle.scale_info_types.specs.declared.ty.Description.{Description};
ghost use Rattle.scale_info_types.specs.declared.ty.PortableType.{PortableType};

use crate::form::{Form, PortableForm};
use crate::ty::Type;

mod comparisons;

pub use comparisons::ordered_definitions;

/// Two definitions are equal, in any form, exactly if their contents are.
pub fn equal_definitions<T: Form>()
    ensures { (a b : TypeDef T T.Ty T.String)
        → IsTrue (⟦<crate::ty::TypeDef<T> as PartialEq>⟧.eq a b)
        ↔ (map_definition {G = Unit {0}} T.reference T.text a
        ≡ map_definition {G = Unit {0}} T.reference T.text b) }
{}

/// Two descriptions are equal, in any form, exactly if their contents are: the description with
/// each type read as what it stands for and each text as its bytes.
///
/// So a description that differs in one line of docs, in an index or in the order of two fields is
/// another one, and one that is copied to other memory is the same.
pub fn equal_contents<T: Form>()
    ensures { (a b : Description T T.Ty T.String) → IsTrue (⟦<Type<T> as PartialEq>⟧.eq a b)
        ↔ (content T.reference T.text a ≡ content T.reference T.text b) }
{
    equal_definitions::<T>()
}

/// A portable description is its shape and its references: no two share both.
///
/// So the description of a pair can be kept as the shape `(_, _)` and the list `[2, 3]` of the ids
/// that fill it.
pub fn shape_and_references()
    ensures { (a b : portable.Description) → shape (λ text. text) a ≡ shape (λ text. text) b
        → references a ≡ references b → a ≡ b }
{}

/// The content of a description, in any form, is its shape and what its references stand for, in
/// order.
///
/// So two descriptions are `==` exactly where their shapes are equal and their references stand,
/// one by one, for the same types. `(u8, u16)` and `(u16, u8)` have one shape, but their references
/// stand for the types in another order, so the two are not `==`.
pub fn shape_and_references_of<T: Form>()
    ensures { (a b : Description T T.Ty T.String)
        → (content T.reference T.text a ≡ content T.reference T.text b)
        ↔ ((shape T.text a ≡ shape T.text b)
        × (map T.reference (references a) ≡ map T.reference (references b))) }
{}

/// Descriptions of one shape have equally many references.
///
/// So the shape `(_, _)` says that two types fill it.
pub fn same_shape_same_counts<T: Form>()
    ensures { (a b : Description T T.Ty T.String) → shape T.text a ≡ shape T.text b
        → length (references a) ≡ length (references b) }
{}

/// In the portable form `==` is equality: the comparison passes over nothing that a description or
/// an entry holds.
///
/// So a table's entry that is `==` to the entry with id 3 and the description of `bool` is that
/// entry.
pub fn equal_portable()
    ensures description { (a b : portable.Description)
        → IsTrue (⟦<Type<PortableForm> as PartialEq>⟧.eq a b) ↔ (a ≡ b) }
    ensures entry { (a b : PortableType) → IsTrue (⟦<crate::ty::PortableType as PartialEq>⟧.eq a b)
        ↔ (a ≡ b) }
{
    equal_contents::<PortableForm>()
}
