//! Which types descriptions leave out: `PhantomData<T>`, whatever `T` is.
ghost use Rattle.std.specs.Prelude.{◌≡◌, ◌↔◌, IsTrue};
ghost use Rattle.scale_info_identities.specs.TypeIds.{Term, term_of, terms_of, no_terms};
ghost use Rattle.scale_info_identities.specs.TypeIds.{more_terms};
ghost use Rattle.scale_info_types.specs.MetaDescriptions.{type_term};
ghost use Rattle.scale_info_types.specs.Phantoms.{is_phantom, phantom_term, unit_term};

use crate::form::{Form, MetaForm};
use crate::meta_type::{MetaType, TypeId};

/// A form whose types are known by their identities: [`MetaForm`] alone, in this library.
///
/// The builders of fields and of variants are written for each such form, since a closure over a
/// builder of the meta form alone is not covered by the borrow checker. A program may implement it
/// for a form of its own, and then owes the contract of `is_phantom`.
pub trait IdentityForm: Form {
    /// The term of a type's identity.
    ghost identity: { Self.Ty → Term };

    /// Whether the identity is `PhantomData<()>`.
    fn is_phantom(ty: &Self::Ty) -> bool
        ensures { result ≡ is_phantom (identity ty.now) };
}

impl IdentityForm for MetaForm {
    ghost identity = { type_term };

    fn is_phantom(ty: &MetaType) -> bool {
        ty.is_phantom()
    }
}

impl MetaType {
    /// Whether the type's identity is `PhantomData<()>`, as that of `PhantomData<T>` is for every
    /// `T`. Descriptions of tuples and of fields leave such types out.
    pub fn is_phantom(&self) -> bool
        ensures { IsTrue result ↔ (type_term self.now ≡ phantom_term) }
    {
        let id = self.type_id();
        id.head() == "PhantomData" && id.nums().is_empty() && is_unit_alone(id.args())
    }
}

/// Whether there is one identity, that of the tuple without members.
fn is_unit_alone(ids: &[TypeId]) -> bool
    ensures { IsTrue result ↔ (terms_of ids.now ≡ more_terms unit_term no_terms) }
{
    match ids.split_first() {
        Some((id, others)) => others.is_empty() && is_unit(id),
        None => false,
    }
}

/// Whether the identity is that of the tuple without members.
fn is_unit(id: &TypeId) -> bool
    ensures { IsTrue result ↔ (term_of id.now ≡ unit_term) }
{
    id.head() == "tuple" && id.nums().is_empty() && id.args().is_empty()
}
