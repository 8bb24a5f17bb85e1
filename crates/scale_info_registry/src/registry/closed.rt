//! A registry as a closed list of descriptions, of which a table can be made.
ghost use Rattle.std.specs.Prelude.{length};
ghost use Rattle.scale_info_registry.specs.Registrations.{Registered};

use super::Registry;
use scale_info_references::closed::Descriptions;
use scale_info_types::form::PortableForm;
use scale_info_types::ty::Type;

impl Descriptions for Registry {
    ghost listed = { λ (r : Registered). r.types };

    ghost count = { λ (r : Registered). length r.identities };

    fn descriptions(&self) -> &[Type<PortableForm>] {
        let _bounded = self.identities.elements();
        &self.types
    }

    fn into_descriptions(self) -> Vec<Type<PortableForm>> {
        self.into_types()
    }
}
