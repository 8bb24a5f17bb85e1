//! The types of a registry, each with its id.
ghost use Rattle.std.specs.Iterator.{YieldsFirstBy, item_count};

use scale_info_identities::symbol::UntrackedSymbol;
use scale_info_identities::type_id::TypeId;
use scale_info_types::form::PortableForm;
use scale_info_types::ty::Type;
use std::marker::Model;

/// The descriptions of a registry, each with its id, in ascending order of id.
///
/// It is returned by [`Registry::types`](super::Registry::types). Contracts see it as the list of
/// the items that are still to come.
#[derive(Drop)]
pub struct RegistryTypes<'a> {
    pub(super) types: &'a [Type<PortableForm>],
    pub(super) id: usize,
}

impl<'a> Model for RegistryTypes<'a> {
    ghost use Rattle.std.specs.List.{enumerate_from};
    ghost use Rattle.std.specs.Prelude.{ℕ, List, length, ◌+◌, ◌≤◌};
    ghost use Rattle.scale_info_types.specs.Portable.{Description};

    ghost Value = { List (ℕ × Description) };

    ghost view = { λ s. enumerate_from s.id s.types.now };

    ghost invariant = { λ s. s.id + length s.types.now ≤ 4294967295 };
}

impl<'a> Iterator for RegistryTypes<'a> {
    type Item = (UntrackedSymbol<TypeId>, &'a Type<PortableForm>);

    ghost next_gives = { YieldsFirstBy (λ item. (item.0.id, item.1.now)) (λ rest. rest) };

    ghost remaining = { item_count (λ rest. rest) };

    fn next(&mut self) -> Option<(UntrackedSymbol<TypeId>, &'a Type<PortableForm>)> {
        let (ty, rest) = self.types.split_first()?;
        let id = self.id as u32;
        self.types = rest;
        self.id += 1;
        Some((UntrackedSymbol::from(id), ty))
    }

    #[tactic(auto, using(crate::proofs::Enumerated::length_enumerated))]
    fn size_hint(&self) -> (usize, Option<usize>) {
        (self.types.len(), Some(self.types.len()))
    }
}
