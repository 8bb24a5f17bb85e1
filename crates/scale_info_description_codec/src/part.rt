//! What each part of a description stands for, and its encoding.
ghost use Rattle.scale_info_bytes.specs.CompactLaws.{compact_law};
ghost use Rattle.scale_info_bytes.specs.Encodings.{IsEncoding};
ghost use Rattle.scale_info_bytes.specs.IntegerLaws.{u32_law, u8_law};
ghost use Rattle.scale_info_bytes.specs.Integers.{EncodesCompact, EncodesU32, EncodesU8};
ghost use Rattle.scale_info_bytes.specs.PartLaws.{list_law, option_law, pair_law, through_law};
ghost use Rattle.scale_info_bytes.specs.Parts.{EncodesList, EncodesOption, EncodesPair};
ghost use Rattle.scale_info_bytes.specs.StringLaws.{text_law};
ghost use Rattle.scale_info_bytes.specs.Strings.{EncodesText};
ghost use Rattle.scale_info_grammar.specs.Ty.{EncodesArray, EncodesBitSequence, EncodesCompactType};
ghost use Rattle.scale_info_grammar.specs.Ty.{EncodesComposite, EncodesDescription, EncodesField};
ghost use Rattle.scale_info_grammar.specs.Ty.{EncodesId, EncodesMap, EncodesParameter, EncodesPath};
ghost use Rattle.scale_info_grammar.specs.Ty.{EncodesPrimitive};
ghost use Rattle.scale_info_grammar.specs.Ty.{EncodesSequence, EncodesTuple, EncodesTypeDef};
ghost use Rattle.scale_info_grammar.specs.Ty.{EncodesVariant, EncodesVariants};
ghost use Rattle.scale_info_grammar.specs.TyLaws.{array_law, bit_sequence_law, compact_type_law};
ghost use Rattle.scale_info_grammar.specs.TyLaws.{composite_law, description_law, field_law};
ghost use Rattle.scale_info_grammar.specs.TyLaws.{id_law, map_law, parameter_law, path_law};
ghost use Rattle.scale_info_grammar.specs.TyLaws.{primitive_law, sequence_law};
ghost use Rattle.scale_info_grammar.specs.TyLaws.{tuple_law, type_def_law, variant_law};
ghost use Rattle.scale_info_grammar.specs.TyLaws.{variants_law};
ghost use Rattle.scale_info_types.specs.Shapes.{map_definition, map_description, map_field};
ghost use Rattle.scale_info_types.specs.Shapes.{map_parameter, map_path, map_variant};
ghost use Rattle.scale_info_types.specs.Portable.{Id};
ghost use Rattle.std.specs.Prelude.{ℕ, List, map, option_map};

use scale_info_collections::items::Items;
use scale_info_collections::text::Text;
use scale_info_identities::symbol::UntrackedSymbol;
use scale_info_identities::type_id::TypeId;
use scale_info_type_ids::impls::Compact;
use scale_info_types::form::{Form, PortableForm};
use scale_info_types::ty::path::Path;
use scale_info_types::ty::variant::Variant;
use scale_info_types::ty::{
    Description, Field, TypeDef, TypeDefArray, TypeDefBitSequence, TypeDefCompact,
    TypeDefComposite, TypeDefMap, TypeDefPrimitive, TypeDefSequence, TypeDefTuple, TypeDefVariant,
    TypeParameter,
};
use std::marker::PhantomData;

/// A part of a description in the form `F` that has an encoding. A type stands for values of its
/// own, but for [`TypeOf`] and [`StringOf`], which stand for the types and the strings of a form.
pub trait Part<F: Form> {
    /// A value of the part.
    type Value: Drop;

    /// A value of the part in the portable form.
    type Portable: Drop;

    /// The value in the portable form, where each type is the id that is given for it.
    ghost portable: { (F.Ty → Id) → Self.Value → Self.Portable };

    /// The whole list of bytes encodes the value.
    ghost encodes: { Self.Portable → List ℕ → Type 0 };

    /// A value has one encoding at most, no encoding is a proper prefix of another, and an encoding
    /// is made of bytes.
    ghost law: { IsEncoding encodes };
}

/// The types of a form.
pub struct TypeOf<F: Form> {
    of: PhantomData<F>,
}

/// The strings of a form.
pub struct StringOf<F: Form> {
    of: PhantomData<F>,
}

impl<F: Form> Part<F> for u8 {
    type Value = u8;

    type Portable = u8;

    ghost portable = { λ _ integer. integer };

    ghost encodes = { EncodesU8 };

    ghost law = { u8_law };
}

impl<F: Form> Part<F> for u32 {
    type Value = u32;

    type Portable = u32;

    ghost portable = { λ _ integer. integer };

    ghost encodes = { EncodesU32 };

    ghost law = { u32_law };
}

impl<F: Form> Part<F> for Compact<u32> {
    type Value = Compact<u32>;

    type Portable = Compact<u32>;

    ghost portable = { λ _ integer. integer };

    ghost encodes = { λ v b. EncodesCompact v.0 b };

    ghost law = { through_law (λ v. v.0) (λ v w e i. record { 0 = e i }) compact_law };
}

impl<F: Form> Part<F> for TypeOf<F> {
    type Value = F::Ty;

    type Portable = UntrackedSymbol<TypeId>;

    ghost portable = { λ id_of. id_of };

    ghost encodes = { EncodesId };

    ghost law = { id_law };
}

impl<F: Form> Part<F> for StringOf<F> {
    type Value = F::String;

    type Portable = Text;

    ghost portable = { λ _. F.text };

    ghost encodes = { EncodesText };

    ghost law = { text_law };
}

impl<F: Form, T: Part<F>> Part<F> for Option<T> {
    type Value = Option<T::Value>;

    type Portable = Option<T::Portable>;

    ghost portable = { λ id_of. option_map (T.portable id_of) };

    ghost encodes = { EncodesOption T.encodes };

    ghost law = { option_law T.law };
}

impl<F: Form, A: Part<F>, B: Part<F>> Part<F> for (A, B) {
    type Value = (A::Value, B::Value);

    type Portable = (A::Portable, B::Portable);

    ghost portable = { λ id_of pair. (A.portable id_of pair.0, B.portable id_of pair.1) };

    ghost encodes = { EncodesPair A.encodes B.encodes };

    ghost law = { pair_law A.law B.law };
}

impl<F: Form, T: Part<F>> Part<F> for Items<T> {
    type Value = Items<T::Value>;

    type Portable = Items<T::Portable>;

    ghost portable = { λ id_of. map (T.portable id_of) };

    ghost encodes = { EncodesList T.encodes };

    ghost law = { list_law T.law };
}

impl<F: Form> Part<F> for Path<F> {
    type Value = Path<F>;

    type Portable = Path<PortableForm>;

    ghost portable = { λ id_of. map_path id_of F.text };

    ghost encodes = { EncodesPath };

    ghost law = { path_law };
}

impl<F: Form> Part<F> for Field<F> {
    type Value = Field<F>;

    type Portable = Field<PortableForm>;

    ghost portable = { λ id_of. map_field id_of F.text };

    ghost encodes = { EncodesField };

    ghost law = { field_law };
}

impl<F: Form> Part<F> for TypeDefComposite<F> {
    type Value = TypeDefComposite<F>;

    type Portable = TypeDefComposite<PortableForm>;

    ghost portable = { λ id_of def. record { fields = map (map_field id_of F.text) def.fields } };

    ghost encodes = { EncodesComposite };

    ghost law = { composite_law };
}

impl<F: Form> Part<F> for TypeDefVariant<F> {
    type Value = TypeDefVariant<F>;

    type Portable = TypeDefVariant<PortableForm>;

    ghost portable = { λ id_of def. record { variants = map (map_variant id_of F.text) def.variants } };

    ghost encodes = { EncodesVariants };

    ghost law = { variants_law };
}

impl<F: Form> Part<F> for Variant<F> {
    type Value = Variant<F>;

    type Portable = Variant<PortableForm>;

    ghost portable = { λ id_of. map_variant id_of F.text };

    ghost encodes = { EncodesVariant };

    ghost law = { variant_law };
}

impl<F: Form> Part<F> for Description<F> {
    type Value = Description<F>;

    type Portable = Description<PortableForm>;

    ghost portable = { λ id_of. map_description id_of F.text };

    ghost encodes = { EncodesDescription };

    ghost law = { description_law };
}

impl<F: Form> Part<F> for TypeParameter<F> {
    type Value = TypeParameter<F>;

    type Portable = TypeParameter<PortableForm>;

    ghost portable = { λ id_of. map_parameter id_of F.text };

    ghost encodes = { EncodesParameter };

    ghost law = { parameter_law };
}

impl<F: Form> Part<F> for TypeDefSequence<F> {
    type Value = TypeDefSequence<F>;

    type Portable = TypeDefSequence<PortableForm>;

    ghost portable = { λ id_of def. record { type_param = id_of def.type_param; form = tt } };

    ghost encodes = { EncodesSequence };

    ghost law = { sequence_law };
}

impl<F: Form> Part<F> for TypeDefArray<F> {
    type Value = TypeDefArray<F>;

    type Portable = TypeDefArray<PortableForm>;

    ghost portable = { λ id_of def. record {
      len = def.len;
      type_param = id_of def.type_param;
      form = tt;
    } };

    ghost encodes = { EncodesArray };

    ghost law = { array_law };
}

impl<F: Form> Part<F> for TypeDefTuple<F> {
    type Value = TypeDefTuple<F>;

    type Portable = TypeDefTuple<PortableForm>;

    ghost portable = { λ id_of def. record { fields = map id_of def.fields; form = tt } };

    ghost encodes = { EncodesTuple };

    ghost law = { tuple_law };
}

impl<F: Form> Part<F> for TypeDefPrimitive {
    type Value = TypeDefPrimitive;

    type Portable = TypeDefPrimitive;

    ghost portable = { λ _ primitive. primitive };

    ghost encodes = { EncodesPrimitive };

    ghost law = { primitive_law };
}

impl<F: Form> Part<F> for TypeDefCompact<F> {
    type Value = TypeDefCompact<F>;

    type Portable = TypeDefCompact<PortableForm>;

    ghost portable = { λ id_of def. record { type_param = id_of def.type_param; form = tt } };

    ghost encodes = { EncodesCompactType };

    ghost law = { compact_type_law };
}

impl<F: Form> Part<F> for TypeDefBitSequence<F> {
    type Value = TypeDefBitSequence<F>;

    type Portable = TypeDefBitSequence<PortableForm>;

    ghost portable = { λ id_of def. record {
      bit_store_type = id_of def.bit_store_type;
      bit_order_type = id_of def.bit_order_type;
      form = tt;
    } };

    ghost encodes = { EncodesBitSequence };

    ghost law = { bit_sequence_law };
}

impl<F: Form> Part<F> for TypeDefMap<F> {
    type Value = TypeDefMap<F>;

    type Portable = TypeDefMap<PortableForm>;

    ghost portable = { λ id_of def. record { key = id_of def.key; value = id_of def.value; form = tt } };

    ghost encodes = { EncodesMap };

    ghost law = { map_law };
}

impl<F: Form> Part<F> for TypeDef<F> {
    type Value = TypeDef<F>;

    type Portable = TypeDef<PortableForm>;

    ghost portable = { λ id_of. map_definition id_of F.text };

    ghost encodes = { EncodesTypeDef };

    ghost law = { type_def_law };
}
