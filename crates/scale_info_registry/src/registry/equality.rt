//! Equality of registries.
ghost use Rattle.std.specs.Ordering.{eq_of_both, on};
ghost use Rattle.std.specs.Cmp.Lexicographic.{pointwise};
ghost use Rattle.scale_info_registry.specs.Registrations.{Registered};
ghost use Rattle.scale_info_registry.specs.RegistryLaws.{registered_equiv, registered_per};

use super::Registry;
use scale_info_identities::type_id::TypeId;
use scale_info_types::form::PortableForm;
use scale_info_types::ty::Type;

/// Registries are equal where their identities and their descriptions are, in order.
impl PartialEq for Registry {
    ghost eq = { eq_of_both
        (on (λ (r : Registered). r.identities) (pointwise ⟦<TypeId as PartialEq>⟧.eq))
        (on (λ (r : Registered). r.types) (pointwise ⟦<Type<PortableForm> as PartialEq>⟧.eq)) };

    ghost laws = { registered_per };

    fn eq(&self, other: &Registry) -> bool {
        self.identities == other.identities && self.types == other.types
    }
}

impl Eq for Registry {
    ghost laws = { registered_equiv };
}
