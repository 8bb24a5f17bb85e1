//! Laws of references and conversions. Nothing here does any work when it runs.
ghost use Rattle.std.specs.Prelude.{◌≡◌, ℕ, List, map};
ghost use Rattle.scale_info_references.specs.Conversions.{with_ids};
ghost use Rattle.scale_info_types.specs.Portable as portable;
ghost use Rattle.scale_info_types.specs.References.{references};
ghost use Rattle.scale_info_types.specs.Shapes.{shape};
ghost use Rattle.scale_info_types.specs.declared.ty.Description.{Description};

use scale_info_types::form::Form;

/// A description with ids in place of types has the shape that it had.
///
/// So `(u8, bool)` becomes another pair, of whatever ids.
pub fn same_shape<T: Form>()
    ensures { (id_of : T.Ty → ℕ) (d : Description T T.Ty T.String)
        → shape (λ bytes. bytes) (with_ids id_of T.text d) ≡ shape T.text d }
{}

/// The references of a description with ids in place of types are the ids of its references, in
/// order.
///
/// So where `u8` has the id 3 and `bool` the id 7, `(u8, bool)` refers to 3 and 7.
pub fn ids_of_references<T: Form>()
    ensures { (id_of : T.Ty → ℕ) (d : Description T T.Ty T.String)
        → map (λ (r : portable.Id). r.id) (references (with_ids id_of T.text d))
        ≡ map id_of (references d) }
{}
