//! Standard types with type arguments, and `PhantomData`.
ghost use Rattle.scale_info_type_info.specs.StandardTypes.{b_tree_map_description, cow_description};
ghost use Rattle.scale_info_type_info.specs.StandardTypes.{list_description, option_description};
ghost use Rattle.scale_info_type_info.specs.StandardTypes.{phantom_data_description};
ghost use Rattle.scale_info_type_info.specs.StandardTypes.{range_description};
ghost use Rattle.scale_info_type_info.specs.StandardTypes.{result_description};
ghost use Rattle.scale_info_type_info.specs.StandardTypes.{kept, meta_variant, unnamed, variant};
ghost use Rattle.std.specs.Prelude.{◌≡◌, ◌++◌, ◌∷◌, [], IfOk, Some, codes, map};
ghost use Rattle.scale_info_types.specs.MetaDescriptions.{meta_content};

use super::parts::{composite, documented, enumeration, with_field, with_parameter};
use crate::type_info::{InfoError, TypeInfo};
use scale_info_type_ids::identified::{HasIdentity, Identified};
use scale_info_type_ids::impls::SliceOf;
use scale_info_types::ty::variant::Variant;
use scale_info_types::ty::{Type, TypeDef, TypeDefComposite};
use std::alloc::{AllocError, Global};
use std::borrow::Cow;
use std::collections::{BTreeMap, BTreeSet, BinaryHeap};
use std::marker::PhantomData;
use std::ops::{Range, RangeInclusive};

/// These variants and one with one field of the type `T`, or with none where `T` is a
/// `PhantomData`.
fn with_variant<T: HasIdentity>(
    mut variants: Vec<Variant>,
    name: &'static str,
    index: u8,
) -> Result<Vec<Variant>, AllocError>
    ensures { IfOk result (λ all. map meta_variant all.items
        ≡ map meta_variant variants.entry.items
        ++ variant name.now (kept (unnamed T.Identity.own)) index ∷ []) }
{
    let alloc = *variants.allocator();
    let fields = with_field::<T>(Vec::new(alloc), None, None)?;
    variants.push(Variant::new(name, fields, index, Vec::new(alloc)))?;
    Ok(variants)
}

/// The description of a list with the parameter `T`, as a composite of a sequence.
fn list_of<T: HasIdentity>(alloc: Global, name: &'static str) -> Result<Type, AllocError>
    ensures { IfOk result (λ d. Some (meta_content d)
        ≡ list_description name.now T.own T.Identity.own) }
{
    let parameters = with_parameter::<T>(Vec::new(alloc), "T")?;
    let fields = with_field::<SliceOf<T>>(Vec::new(alloc), None, None)?;
    composite(name, parameters, fields)
}

/// The description of a range of items of the type `Idx`.
fn range_of<Idx: HasIdentity>(alloc: Global, name: &'static str) -> Result<Type, AllocError>
    ensures { IfOk result (λ d. Some (meta_content d)
        ≡ range_description name.now Idx.Identity.own) }
{
    let parameters = with_parameter::<Idx>(Vec::new(alloc), "Idx")?;
    let fields = with_field::<Idx>(Vec::new(alloc), Some("start"), Some("Idx"))?;
    let fields = with_field::<Idx>(fields, Some("end"), Some("Idx"))?;
    composite(name, parameters, fields)
}

impl<T: TypeInfo> TypeInfo for Option<T> {
    ghost description = { option_description T.Identity.own };

    fn type_info(alloc: Global) -> Result<Type, InfoError> {
        let parameters = with_parameter::<T>(Vec::new(alloc), "T")?;
        let none = Variant::new("None", Vec::new(alloc), 0, Vec::new(alloc));
        let variants = with_variant::<T>(vec![in alloc; none]?, "Some", 1)?;
        Ok(enumeration("Option", parameters, variants)?)
    }
}

impl<T: TypeInfo, E: TypeInfo> TypeInfo for Result<T, E> {
    ghost description = { result_description T.Identity.own E.Identity.own };

    fn type_info(alloc: Global) -> Result<Type, InfoError> {
        let parameters = with_parameter::<T>(Vec::new(alloc), "T")?;
        let parameters = with_parameter::<E>(parameters, "E")?;
        let variants = with_variant::<T>(Vec::new(alloc), "Ok", 0)?;
        let variants = with_variant::<E>(variants, "Err", 1)?;
        Ok(enumeration("Result", parameters, variants)?)
    }
}

impl<T: TypeInfo + Clone> TypeInfo for Cow<'static, T> {
    ghost description = { cow_description T.Identity.own };

    fn type_info(alloc: Global) -> Result<Type, InfoError> {
        let parameters = with_parameter::<T>(Vec::new(alloc), "T")?;
        let fields = with_field::<T>(Vec::new(alloc), None, None)?;
        Ok(composite("Cow", parameters, fields)?)
    }
}

impl<K: TypeInfo + Ord, V: TypeInfo> TypeInfo for BTreeMap<K, V> {
    ghost description = { b_tree_map_description K.Identity.own V.Identity.own K.own V.own };

    fn type_info(alloc: Global) -> Result<Type, InfoError> {
        let parameters = with_parameter::<K>(Vec::new(alloc), "K")?;
        let parameters = with_parameter::<V>(parameters, "V")?;
        let fields = with_field::<SliceOf<(K, V)>>(Vec::new(alloc), None, None)?;
        Ok(composite("BTreeMap", parameters, fields)?)
    }
}

impl<T: TypeInfo + Ord> TypeInfo for BTreeSet<T> {
    ghost description = { list_description (codes "BTreeSet") T.own T.Identity.own };

    fn type_info(alloc: Global) -> Result<Type, InfoError> {
        Ok(list_of::<T>(alloc, "BTreeSet")?)
    }
}

impl<T: TypeInfo + Ord> TypeInfo for BinaryHeap<T> {
    ghost description = { list_description (codes "BinaryHeap") T.own T.Identity.own };

    fn type_info(alloc: Global) -> Result<Type, InfoError> {
        Ok(list_of::<T>(alloc, "BinaryHeap")?)
    }
}

impl<Idx: TypeInfo> TypeInfo for Range<Idx> {
    ghost description = { range_description (codes "Range") Idx.Identity.own };

    fn type_info(alloc: Global) -> Result<Type, InfoError> {
        Ok(range_of::<Idx>(alloc, "Range")?)
    }
}

impl<Idx: TypeInfo> TypeInfo for RangeInclusive<Idx> {
    ghost description = { range_description (codes "RangeInclusive") Idx.Identity.own };

    fn type_info(alloc: Global) -> Result<Type, InfoError> {
        Ok(range_of::<Idx>(alloc, "RangeInclusive")?)
    }
}

impl<T: TypeInfo> TypeInfo for PhantomData<T> {
    ghost description = { phantom_data_description };

    fn type_info(alloc: Global) -> Result<Type, InfoError> {
        let line = "PhantomData placeholder, this type should be filtered out";
        let docs = vec![in alloc; line]?;
        let definition = TypeDef::Composite(TypeDefComposite::from(Vec::new(alloc)));
        Ok(documented("PhantomData", Vec::new(alloc), definition, docs)?)
    }
}
