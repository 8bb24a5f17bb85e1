//! New numbers for the references of a portable description, in place.
//!
//! All but the references is moved as it is: no string is copied, and nothing is allocated.
ghost use Rattle.std.specs.Prelude.{◌≡◌, ℕ, List, map};
ghost use Rattle.scale_info_types.specs.Portable.{Text};
ghost use Rattle.scale_info_types.specs.Shapes.{map_parameter, map_field, map_variant};
ghost use Rattle.scale_info_types.specs.Shapes.{map_definition};
ghost use Rattle.scale_info_references.specs.Conversions.{number_of, symbol, with_ids};

use scale_info_collections::items::Items;
use scale_info_identities::symbol::UntrackedSymbol;
use scale_info_identities::type_id::TypeId;
use scale_info_types::form::PortableForm;
use scale_info_types::ty::variant::Variant;
use scale_info_types::ty::{
    Field, Type, TypeDef, TypeDefArray, TypeDefBitSequence, TypeDefCompact, TypeDefComposite,
    TypeDefMap, TypeDefSequence, TypeDefTuple, TypeDefVariant, TypeParameter,
};
use std::alloc::Global;
use std::mem;

/// A part of a description whose references can be given new numbers in place.
trait Renumber: Drop {
    /// The part with the new number of each of its references.
    ghost renumbered: { List ℕ → Self → Self };

    /// Gives each reference its new number. An empty list, which does not allocate, may stand in
    /// for one that is worked on; the allocator is for that list.
    fn renumber(&mut self, alloc: Global, numbers: &[u32])
        ensures { self.new ≡ renumbered numbers.now self.old };
}

impl Renumber for UntrackedSymbol<TypeId> {
    ghost renumbered = { λ numbers r. symbol (number_of numbers r) };

    fn renumber(&mut self, _alloc: Global, numbers: &[u32]) {
        *self = renumbered_id(numbers, self);
    }
}

impl Renumber for Field<PortableForm> {
    ghost renumbered = { λ numbers.
        map_field (λ r. symbol (number_of numbers r)) (λ (text : Text). text) };

    fn renumber(&mut self, _alloc: Global, numbers: &[u32]) {
        self.ty = renumbered_id(numbers, &self.ty);
    }
}

impl Renumber for Variant<PortableForm> {
    ghost renumbered = { λ numbers.
        map_variant (λ r. symbol (number_of numbers r)) (λ (text : Text). text) };

    fn renumber(&mut self, alloc: Global, numbers: &[u32]) {
        let fields = mem::replace(&mut self.fields, Items::new(alloc));
        self.fields = renumbered_all(numbers, fields);
    }
}

impl Renumber for TypeParameter<PortableForm> {
    ghost renumbered = { λ numbers.
        map_parameter (λ r. symbol (number_of numbers r)) (λ (text : Text). text) };

    fn renumber(&mut self, _alloc: Global, numbers: &[u32]) {
        if let Some(ty) = &self.ty {
            self.ty = Some(renumbered_id(numbers, ty));
        }
    }
}

/// The new number of a reference: that at its id, or 0 where the list has none.
fn renumbered_id(numbers: &[u32], id: &UntrackedSymbol<TypeId>) -> UntrackedSymbol<TypeId>
    ensures { result ≡ symbol (number_of numbers.now id.now) }
{
    match numbers.get(id.id as usize) {
        Some(number) => UntrackedSymbol::from(*number),
        None => UntrackedSymbol::from(0),
    }
}

/// The parts with the new number of each of their references.
fn renumbered_all<R: Renumber>(numbers: &[u32], parts: Items<R>) -> Items<R>
    ensures { result ≡ map (R.renumbered numbers.now) parts }
{
    let mut all = parts.into_vec();
    let alloc = *all.allocator();
    for i in 0..all.len() {
        all[i].renumber(alloc, numbers);
    }
    Items::from(all)
}

/// The definition with the new number of each of its references.
fn renumbered_definition(numbers: &[u32], def: TypeDef<PortableForm>) -> TypeDef<PortableForm>
    ensures { result
        ≡ map_definition (λ r. symbol (number_of numbers.now r)) (λ (text : Text). text) def }
{
    match def {
        TypeDef::Composite(d) => TypeDef::Composite(TypeDefComposite {
            fields: renumbered_all(numbers, d.fields),
        }),
        TypeDef::Variant(d) => TypeDef::Variant(TypeDefVariant {
            variants: renumbered_all(numbers, d.variants),
        }),
        TypeDef::Sequence(d) => TypeDef::Sequence(TypeDefSequence::new(renumbered_id(
            numbers,
            &d.type_param,
        ))),
        TypeDef::Array(d) => TypeDef::Array(TypeDefArray::new(
            d.len,
            renumbered_id(numbers, &d.type_param),
        )),
        TypeDef::Tuple(d) => TypeDef::Tuple(TypeDefTuple::from(renumbered_all(numbers, d.fields))),
        TypeDef::Primitive(d) => TypeDef::Primitive(d),
        TypeDef::Compact(d) => TypeDef::Compact(TypeDefCompact::new(renumbered_id(
            numbers,
            &d.type_param,
        ))),
        TypeDef::BitSequence(d) => TypeDef::BitSequence(TypeDefBitSequence::new_portable(
            renumbered_id(numbers, &d.bit_store_type),
            renumbered_id(numbers, &d.bit_order_type),
        )),
        TypeDef::Map(d) => TypeDef::Map(TypeDefMap::new(
            renumbered_id(numbers, &d.key),
            renumbered_id(numbers, &d.value),
        )),
    }
}

/// The description with the new number of each of its references: that at its id, or 0 where the
/// list has none. All else stays. The parts are moved, and nothing is allocated.
///
/// ```text
/// renumbered(&[5, 2], pair)  // where pair refers to 1 and 0: to 2 and 5
/// ```
pub(crate) fn renumbered(numbers: &[u32], ty: Type<PortableForm>) -> Type<PortableForm>
    ensures { result ≡ with_ids (number_of numbers.now) (λ (text : Text). text) ty }
{
    Type {
        path: ty.path,
        type_params: renumbered_all(numbers, ty.type_params),
        type_def: renumbered_definition(numbers, ty.type_def),
        docs: ty.docs,
    }
}
