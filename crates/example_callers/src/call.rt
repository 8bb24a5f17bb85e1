//! A value of a program's own that leaves it with an id in place of a type.
ghost use Rattle.std.specs.Prelude.{◌≡◌, ◌∷◌, [], OnErr};
ghost use Rattle.scale_info.specs.Registrations.{IsAsBefore};
ghost use Rattle.scale_info.specs.MetaDescriptions.{type_term};

use scale_info::form::PortableForm;
use scale_info::meta_type::Catalogue;
use scale_info::registry::RegisterError;
use scale_info::{Field, IntoPortable, MetaType, Registry, TypeId, UntrackedSymbol};
use std::alloc::Global;

/// A call that a runtime offers: its name, and the type of its argument.
#[derive(Drop)]
pub struct Call {
    /// The name.
    pub name: &'static str,
    /// The argument's type.
    pub arg: MetaType,
}

/// A call whose argument's type is an id of a table.
#[derive(Drop)]
pub struct PortableCall {
    /// The name.
    pub name: &'static str,
    /// The id of the argument's type.
    pub arg: UntrackedSymbol<TypeId>,
}

impl IntoPortable for Call {
    type Output = PortableCall;

    ghost roots = { λ call. type_term call.arg ∷ [] };

    ghost replaced = { λ call ids output. (output.name ≡ call.name) × (ids ≡ output.arg.id ∷ []) };

    ghost refused = { IsAsBefore };

    fn into_portable(
        self,
        _alloc: Global,
        registry: &mut Registry,
        catalogue: &Catalogue,
    ) -> Result<PortableCall, RegisterError> {
        let arg = registry.register_type(&self.arg, catalogue)?;
        Ok(PortableCall {
            name: self.name,
            arg,
        })
    }
}

/// The portable form of a field. If it is refused, the registry is as it was, for every error.
pub fn portable_field(
    alloc: Global,
    registry: &mut Registry,
    catalogue: &Catalogue,
    field: Field,
) -> Result<Field<PortableForm>, RegisterError>
    ensures { OnErr result (registry.new ≡ registry.old) }
{
    field.into_portable(alloc, registry, catalogue)
}
