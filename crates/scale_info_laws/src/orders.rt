//! Orders, in every form: by the fields in order of declaration, and of two variants the one that
//! is declared first comes first.
//!
//! A list comes before another one by the first items in which they differ, and before each longer
//! list that it begins; an absent value comes before any other; a text is the list of its bytes.
ghost use Rattle.std.specs.Cmp.Lexicographic.{slice_cmp};
ghost use Rattle.std.specs.Option.{option_cmp};
ghost use Rattle.std.specs.Ordering.{nat_cmp, ordering_then};
ghost use Rattle.std.specs.Prelude.{◌≡◌, ◌↔◌, IsTrue};
ghost use Rattle.scale_info_identities.specs.TypeIds.{term_of};
ghost use Rattle.scale_info_types.specs.declared.meta_type.MetaType as meta_types;
ghost use Rattle.scale_info_types.specs.declared.ty.Description as descriptions;
ghost use Rattle.scale_info_types.specs.declared.ty.TypeDefArray as arrays;
ghost use Rattle.scale_info_types.specs.declared.ty.TypeDefBitSequence as bit_sequences;
ghost use Rattle.scale_info_types.specs.declared.ty.TypeDefCompact as compacts;
ghost use Rattle.scale_info_types.specs.declared.ty.TypeDefMap as maps;
ghost use Rattle.scale_info_types.specs.declared.ty.TypeDefSequence as sequences;
ghost use Rattle.scale_info_types.specs.declared.ty.TypeDefTuple as tuples;
ghost use Rattle.scale_info_types.specs.declared.ty.TypeParameter as parameters;
ghost use Rattle.scale_info_types.specs.declared.ty.composite.TypeDefComposite as composites;
ghost use Rattle.scale_info_types.specs.declared.ty.fields.Field as fields;
ghost use Rattle.scale_info_types.specs.declared.ty.path.Path as paths;
ghost use Rattle.scale_info_types.specs.declared.ty.variant.TypeDefVariant as enums;
ghost use Rattle.scale_info_types.specs.declared.ty.variant.Variant as variants;

use scale_info_identities::laws::hashed_type_ids;
use scale_info_types::form::Form;
use scale_info_types::meta_type::{MetaType, TypeId};
use scale_info_types::ty::path::Path;
use scale_info_types::ty::variant::Variant;
use scale_info_types::ty::{
    Field, Type, TypeDef, TypeDefArray, TypeDefBitSequence, TypeDefCompact, TypeDefComposite,
    TypeDefMap, TypeDefSequence, TypeDefTuple, TypeDefVariant, TypeParameter,
};

/// Types of the program are equal, and ordered, by their identities.
pub fn ordered_meta_types()
    ensures equal { (a b : meta_types.MetaType)
        → IsTrue (⟦<MetaType as PartialEq>⟧.eq a b) ↔ (term_of a.identity ≡ term_of b.identity) }
    ensures ordered { (a b : meta_types.MetaType)
        → ⟦<MetaType as Ord>⟧.cmp a b ≡ ⟦<TypeId as Ord>⟧.cmp a.identity b.identity }
{}

/// Equal types of the program are hashed alike.
pub fn hashed_meta_types()
    ensures { (a b : meta_types.MetaType) → IsTrue (⟦<MetaType as PartialEq>⟧.eq a b)
        → ⟦<MetaType as std::hash::Hash>⟧.hash_input a
        ≡ ⟦<MetaType as std::hash::Hash>⟧.hash_input b }
{
    hashed_type_ids();
}

/// Texts are ordered by their bytes, in every form.
pub fn ordered_texts<T: Form>()
    ensures { (a b : T.String)
        → T.String.cmp a b ≡ slice_cmp nat_cmp (T.text a) (T.text b) }
{}

/// Paths are ordered by their segments.
///
/// So `a::z` comes before `b`, and `a` before `a::z`.
pub fn ordered_paths<T: Form>()
    ensures { (a b : paths.Path T T.Ty T.String)
        → ⟦<Path<T> as Ord>⟧.cmp a b ≡ slice_cmp T.String.cmp a.segments b.segments }
{}

/// Parameters are ordered by their names, then by their types.
pub fn ordered_parameters<T: Form>()
    ensures { (a b : parameters.TypeParameter T T.Ty T.String)
        → ⟦<TypeParameter<T> as Ord>⟧.cmp a b
        ≡ ordering_then (T.String.cmp a.name b.name) (option_cmp T.Ty.cmp a.ty b.ty) }
{}

/// Fields are ordered by their names, their types, the names of their types, and their docs.
pub fn ordered_fields<T: Form>()
    ensures { (a b : fields.Field T T.Ty T.String) → ⟦<Field<T> as Ord>⟧.cmp a b
        ≡ ordering_then (option_cmp T.String.cmp a.name b.name)
        (ordering_then (T.Ty.cmp a.ty b.ty)
        (ordering_then (option_cmp T.String.cmp a.type_name b.type_name)
        (slice_cmp T.String.cmp a.docs b.docs))) }
{}

/// Variants are ordered by their names, their fields, their indices, and their docs.
pub fn ordered_variants<T: Form>()
    ensures { (a b : variants.Variant T T.Ty T.String) → ⟦<Variant<T> as Ord>⟧.cmp a b
        ≡ ordering_then (T.String.cmp a.name b.name)
        (ordering_then (slice_cmp ⟦<Field<T> as Ord>⟧.cmp a.fields b.fields)
        (ordering_then (nat_cmp a.index b.index) (slice_cmp T.String.cmp a.docs b.docs))) }
{}

/// Descriptions are ordered by their paths, their parameters, their definitions, and their docs.
pub fn ordered_descriptions<T: Form>()
    ensures { (a b : descriptions.Description T T.Ty T.String) → ⟦<Type<T> as Ord>⟧.cmp a b
        ≡ ordering_then (⟦<Path<T> as Ord>⟧.cmp a.path b.path)
        (ordering_then (slice_cmp ⟦<TypeParameter<T> as Ord>⟧.cmp a.type_params b.type_params)
        (ordering_then (⟦<TypeDef<T> as Ord>⟧.cmp a.type_def b.type_def)
        (slice_cmp T.String.cmp a.docs b.docs))) }
{}

/// Composites are ordered by their fields, enums by their variants, sequences and compact integers
/// by their one type, arrays by their lengths and then by their types, tuples by their members,
/// bit sequences by their stores and then by their orders, and maps by their keys and then by their
/// values.
pub fn ordered_definition_parts<T: Form>()
    ensures composites { (a b : composites.TypeDefComposite T T.Ty T.String)
        → ⟦<TypeDefComposite<T> as Ord>⟧.cmp a b
        ≡ slice_cmp ⟦<Field<T> as Ord>⟧.cmp a.fields b.fields }
    ensures enums { (a b : enums.TypeDefVariant T T.Ty T.String)
        → ⟦<TypeDefVariant<T> as Ord>⟧.cmp a b
        ≡ slice_cmp ⟦<Variant<T> as Ord>⟧.cmp a.variants b.variants }
    ensures sequences { (a b : sequences.TypeDefSequence T T.Ty T.String)
        → ⟦<TypeDefSequence<T> as Ord>⟧.cmp a b ≡ T.Ty.cmp a.type_param b.type_param }
    ensures arrays { (a b : arrays.TypeDefArray T T.Ty T.String)
        → ⟦<TypeDefArray<T> as Ord>⟧.cmp a b
        ≡ ordering_then (nat_cmp a.len b.len) (T.Ty.cmp a.type_param b.type_param) }
    ensures tuples { (a b : tuples.TypeDefTuple T T.Ty T.String)
        → ⟦<TypeDefTuple<T> as Ord>⟧.cmp a b ≡ slice_cmp T.Ty.cmp a.fields b.fields }
    ensures compacts { (a b : compacts.TypeDefCompact T T.Ty T.String)
        → ⟦<TypeDefCompact<T> as Ord>⟧.cmp a b ≡ T.Ty.cmp a.type_param b.type_param }
    ensures bit_sequences { (a b : bit_sequences.TypeDefBitSequence T T.Ty T.String)
        → ⟦<TypeDefBitSequence<T> as Ord>⟧.cmp a b
        ≡ ordering_then (T.Ty.cmp a.bit_store_type b.bit_store_type)
        (T.Ty.cmp a.bit_order_type b.bit_order_type) }
    ensures maps { (a b : maps.TypeDefMap T T.Ty T.String)
        → ⟦<TypeDefMap<T> as Ord>⟧.cmp a b
        ≡ ordering_then (T.Ty.cmp a.key b.key) (T.Ty.cmp a.value b.value) }
{}
