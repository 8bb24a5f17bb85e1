//! Descriptions as bytes.
ghost use Rattle.scale_info_bytes.specs.Encodings.{HasNoPrefix, HasPrefix, IfMalformed};
ghost use Rattle.scale_info_grammar.specs.Ty.{EncodesTypeDefWithIndex, IsPrimitiveByte};
ghost use Rattle.scale_info_types.specs.Shapes.{map_definition};
ghost use Rattle.std.specs.Prelude.{IfErr, IfOk};

use crate::decode::DecodePart;
use crate::encode::EncodePart;
use crate::form::{DecodeForm, EncodeForm, GivesIds};
use crate::part::{StringOf, TypeOf};
use crate::tuple::encode_with_index;
use scale_info_bytes::error::{DecodeError, EncodeError};
use scale_info_collections::items::Items;
use scale_info_grammar::{decode_primitive, description_of, field_of, variant_of};
use scale_info_types::ty::path::Path;
use scale_info_types::ty::variant::Variant;
use scale_info_types::ty::{
    Description, Field, TypeDef, TypeDefArray, TypeDefBitSequence, TypeDefCompact,
    TypeDefComposite, TypeDefMap, TypeDefPrimitive, TypeDefSequence, TypeDefTuple, TypeDefVariant,
    TypeParameter,
};
use std::alloc::Global;

/// Lines of documentation.
type Docs<F> = Items<StringOf<F>>;

/// The parts of a description, in the order in which they are encoded.
type DescriptionParts<F> = (Path<F>, (Items<TypeParameter<F>>, (TypeDef<F>, Docs<F>)));

/// The parts of a field, in the order in which they are encoded.
type FieldParts<F> = (
    Option<StringOf<F>>,
    (TypeOf<F>, (Option<StringOf<F>>, Docs<F>)),
);

/// The parts of a variant, in the order in which they are encoded.
type VariantParts<F> = (StringOf<F>, (Items<Field<F>>, (u8, Docs<F>)));

impl<'i, F: DecodeForm<'i>> DecodePart<'i, F> for Description<F> {
    fn decode_part(
        alloc: Global,
        input: &'i [u8],
    ) -> Result<(Description<F>, &'i [u8]), DecodeError> {
        let (parts, rest) = DescriptionParts::<F>::decode_part(alloc, input)?;
        Ok((description_of(parts), rest))
    }
}

impl<F: EncodeForm, N: GivesIds<F>> EncodePart<F, N> for Description<F> {
    fn encode_part(ty: &Description<F>, ids: &N, out: &mut Vec<u8>) -> Result<(), EncodeError> {
        Path::<F>::encode_part(&ty.path, ids, out)?;
        Items::<TypeParameter<F>>::encode_part(&ty.type_params, ids, out)?;
        TypeDef::<F>::encode_part(&ty.type_def, ids, out)?;
        Docs::<F>::encode_part(&ty.docs, ids, out)
    }
}

impl<'i, F: DecodeForm<'i>> DecodePart<'i, F> for TypeParameter<F> {
    fn decode_part(
        alloc: Global,
        input: &'i [u8],
    ) -> Result<(TypeParameter<F>, &'i [u8]), DecodeError> {
        let ((name, ty), rest) = <(StringOf<F>, Option<TypeOf<F>>)>::decode_part(alloc, input)?;
        Ok((TypeParameter { name, ty }, rest))
    }
}

impl<F: EncodeForm, N: GivesIds<F>> EncodePart<F, N> for TypeParameter<F> {
    fn encode_part(
        parameter: &TypeParameter<F>,
        ids: &N,
        out: &mut Vec<u8>,
    ) -> Result<(), EncodeError> {
        StringOf::<F>::encode_part(&parameter.name, ids, out)?;
        Option::<TypeOf<F>>::encode_part(&parameter.ty, ids, out)
    }
}

impl<'i, F: DecodeForm<'i>> DecodePart<'i, F> for Path<F> {
    fn decode_part(alloc: Global, input: &'i [u8]) -> Result<(Path<F>, &'i [u8]), DecodeError> {
        let (segments, rest) = Items::<StringOf<F>>::decode_part(alloc, input)?;
        Ok((Path::from(segments), rest))
    }
}

impl<F: EncodeForm, N: GivesIds<F>> EncodePart<F, N> for Path<F> {
    fn encode_part(path: &Path<F>, ids: &N, out: &mut Vec<u8>) -> Result<(), EncodeError> {
        Items::<StringOf<F>>::encode_part(&path.segments, ids, out)
    }
}

impl<'i, F: DecodeForm<'i>> DecodePart<'i, F> for Field<F> {
    fn decode_part(alloc: Global, input: &'i [u8]) -> Result<(Field<F>, &'i [u8]), DecodeError> {
        let (parts, rest) = FieldParts::<F>::decode_part(alloc, input)?;
        Ok((field_of(parts), rest))
    }
}

impl<F: EncodeForm, N: GivesIds<F>> EncodePart<F, N> for Field<F> {
    fn encode_part(field: &Field<F>, ids: &N, out: &mut Vec<u8>) -> Result<(), EncodeError> {
        Option::<StringOf<F>>::encode_part(&field.name, ids, out)?;
        TypeOf::<F>::encode_part(&field.ty, ids, out)?;
        Option::<StringOf<F>>::encode_part(&field.type_name, ids, out)?;
        Docs::<F>::encode_part(&field.docs, ids, out)
    }
}

impl<'i, F: DecodeForm<'i>> DecodePart<'i, F> for TypeDefComposite<F> {
    fn decode_part(
        alloc: Global,
        input: &'i [u8],
    ) -> Result<(TypeDefComposite<F>, &'i [u8]), DecodeError> {
        let (fields, rest) = Items::<Field<F>>::decode_part(alloc, input)?;
        Ok((TypeDefComposite { fields }, rest))
    }
}

impl<F: EncodeForm, N: GivesIds<F>> EncodePart<F, N> for TypeDefComposite<F> {
    fn encode_part(
        def: &TypeDefComposite<F>,
        ids: &N,
        out: &mut Vec<u8>,
    ) -> Result<(), EncodeError> {
        Items::<Field<F>>::encode_part(&def.fields, ids, out)
    }
}

impl<'i, F: DecodeForm<'i>> DecodePart<'i, F> for TypeDefVariant<F> {
    fn decode_part(
        alloc: Global,
        input: &'i [u8],
    ) -> Result<(TypeDefVariant<F>, &'i [u8]), DecodeError> {
        let (variants, rest) = Items::<Variant<F>>::decode_part(alloc, input)?;
        Ok((TypeDefVariant { variants }, rest))
    }
}

impl<F: EncodeForm, N: GivesIds<F>> EncodePart<F, N> for TypeDefVariant<F> {
    fn encode_part(def: &TypeDefVariant<F>, ids: &N, out: &mut Vec<u8>) -> Result<(), EncodeError> {
        Items::<Variant<F>>::encode_part(&def.variants, ids, out)
    }
}

impl<'i, F: DecodeForm<'i>> DecodePart<'i, F> for Variant<F> {
    fn decode_part(alloc: Global, input: &'i [u8]) -> Result<(Variant<F>, &'i [u8]), DecodeError> {
        let (parts, rest) = VariantParts::<F>::decode_part(alloc, input)?;
        Ok((variant_of(parts), rest))
    }
}

impl<F: EncodeForm, N: GivesIds<F>> EncodePart<F, N> for Variant<F> {
    fn encode_part(variant: &Variant<F>, ids: &N, out: &mut Vec<u8>) -> Result<(), EncodeError> {
        StringOf::<F>::encode_part(&variant.name, ids, out)?;
        Items::<Field<F>>::encode_part(&variant.fields, ids, out)?;
        <u8 as EncodePart<F, N>>::encode_part(&variant.index, ids, out)?;
        Docs::<F>::encode_part(&variant.docs, ids, out)
    }
}

impl<'i, F: DecodeForm<'i>> DecodePart<'i, F> for TypeDefSequence<F> {
    fn decode_part(
        alloc: Global,
        input: &'i [u8],
    ) -> Result<(TypeDefSequence<F>, &'i [u8]), DecodeError> {
        let (type_param, rest) = TypeOf::<F>::decode_part(alloc, input)?;
        Ok((TypeDefSequence::new(type_param), rest))
    }
}

impl<F: EncodeForm, N: GivesIds<F>> EncodePart<F, N> for TypeDefSequence<F> {
    fn encode_part(
        def: &TypeDefSequence<F>,
        ids: &N,
        out: &mut Vec<u8>,
    ) -> Result<(), EncodeError> {
        TypeOf::<F>::encode_part(&def.type_param, ids, out)
    }
}

impl<'i, F: DecodeForm<'i>> DecodePart<'i, F> for TypeDefArray<F> {
    fn decode_part(
        alloc: Global,
        input: &'i [u8],
    ) -> Result<(TypeDefArray<F>, &'i [u8]), DecodeError> {
        let ((len, type_param), rest) = <(u32, TypeOf<F>)>::decode_part(alloc, input)?;
        Ok((TypeDefArray::new(len, type_param), rest))
    }
}

impl<F: EncodeForm, N: GivesIds<F>> EncodePart<F, N> for TypeDefArray<F> {
    fn encode_part(def: &TypeDefArray<F>, ids: &N, out: &mut Vec<u8>) -> Result<(), EncodeError> {
        <u32 as EncodePart<F, N>>::encode_part(&def.len, ids, out)?;
        TypeOf::<F>::encode_part(&def.type_param, ids, out)
    }
}

impl<'i, F: DecodeForm<'i>> DecodePart<'i, F> for TypeDefTuple<F> {
    fn decode_part(
        alloc: Global,
        input: &'i [u8],
    ) -> Result<(TypeDefTuple<F>, &'i [u8]), DecodeError> {
        let (fields, rest) = Items::<TypeOf<F>>::decode_part(alloc, input)?;
        Ok((TypeDefTuple::from(fields), rest))
    }
}

impl<F: EncodeForm, N: GivesIds<F>> EncodePart<F, N> for TypeDefTuple<F> {
    fn encode_part(def: &TypeDefTuple<F>, ids: &N, out: &mut Vec<u8>) -> Result<(), EncodeError> {
        Items::<TypeOf<F>>::encode_part(&def.fields, ids, out)
    }
}

/// The byte of a primitive.
#[tactic(auto, using(scale_info_grammar::specs::Ty::primitive_bytes))]
fn byte_of(primitive: TypeDefPrimitive) -> u8
    ensures { IsPrimitiveByte result primitive }
{
    match primitive {
        TypeDefPrimitive::Bool => 0,
        TypeDefPrimitive::Char => 1,
        TypeDefPrimitive::Str => 2,
        TypeDefPrimitive::U8 => 3,
        TypeDefPrimitive::U16 => 4,
        TypeDefPrimitive::U32 => 5,
        TypeDefPrimitive::U64 => 6,
        TypeDefPrimitive::U128 => 7,
        TypeDefPrimitive::U256 => 8,
        TypeDefPrimitive::I8 => 9,
        TypeDefPrimitive::I16 => 10,
        TypeDefPrimitive::I32 => 11,
        TypeDefPrimitive::I64 => 12,
        TypeDefPrimitive::I128 => 13,
        TypeDefPrimitive::I256 => 14,
    }
}

impl<'i, F: DecodeForm<'i>> DecodePart<'i, F> for TypeDefPrimitive {
    fn decode_part(
        _alloc: Global,
        input: &'i [u8],
    ) -> Result<(TypeDefPrimitive, &'i [u8]), DecodeError> {
        decode_primitive(input).ok_or(DecodeError::Malformed)
    }
}

impl<F: EncodeForm, N: GivesIds<F>> EncodePart<F, N> for TypeDefPrimitive {
    fn encode_part(
        primitive: &TypeDefPrimitive,
        _ids: &N,
        out: &mut Vec<u8>,
    ) -> Result<(), EncodeError> {
        out.push(byte_of(*primitive))?;
        Ok(())
    }
}

impl<'i, F: DecodeForm<'i>> DecodePart<'i, F> for TypeDefCompact<F> {
    fn decode_part(
        alloc: Global,
        input: &'i [u8],
    ) -> Result<(TypeDefCompact<F>, &'i [u8]), DecodeError> {
        let (type_param, rest) = TypeOf::<F>::decode_part(alloc, input)?;
        Ok((TypeDefCompact::new(type_param), rest))
    }
}

impl<F: EncodeForm, N: GivesIds<F>> EncodePart<F, N> for TypeDefCompact<F> {
    fn encode_part(def: &TypeDefCompact<F>, ids: &N, out: &mut Vec<u8>) -> Result<(), EncodeError> {
        TypeOf::<F>::encode_part(&def.type_param, ids, out)
    }
}

impl<'i, F: DecodeForm<'i>> DecodePart<'i, F> for TypeDefBitSequence<F> {
    fn decode_part(
        alloc: Global,
        input: &'i [u8],
    ) -> Result<(TypeDefBitSequence<F>, &'i [u8]), DecodeError> {
        let ((store, order), rest) = <(TypeOf<F>, TypeOf<F>)>::decode_part(alloc, input)?;
        Ok((TypeDefBitSequence::of_types(store, order), rest))
    }
}

impl<F: EncodeForm, N: GivesIds<F>> EncodePart<F, N> for TypeDefBitSequence<F> {
    fn encode_part(
        def: &TypeDefBitSequence<F>,
        ids: &N,
        out: &mut Vec<u8>,
    ) -> Result<(), EncodeError> {
        TypeOf::<F>::encode_part(&def.bit_store_type, ids, out)?;
        TypeOf::<F>::encode_part(&def.bit_order_type, ids, out)
    }
}

impl<'i, F: DecodeForm<'i>> DecodePart<'i, F> for TypeDefMap<F> {
    fn decode_part(
        alloc: Global,
        input: &'i [u8],
    ) -> Result<(TypeDefMap<F>, &'i [u8]), DecodeError> {
        let ((key, value), rest) = <(TypeOf<F>, TypeOf<F>)>::decode_part(alloc, input)?;
        Ok((TypeDefMap::new(key, value), rest))
    }
}

impl<F: EncodeForm, N: GivesIds<F>> EncodePart<F, N> for TypeDefMap<F> {
    fn encode_part(def: &TypeDefMap<F>, ids: &N, out: &mut Vec<u8>) -> Result<(), EncodeError> {
        TypeOf::<F>::encode_part(&def.key, ids, out)?;
        TypeOf::<F>::encode_part(&def.value, ids, out)
    }
}

/// Decodes the parts of the definition with this index.
#[tactic(auto, using(scale_info_grammar::proofs::Definitions::parts_read))]
fn decode_parts<'i, F: DecodeForm<'i>>(
    alloc: Global,
    index: u8,
    input: &'i [u8],
) -> Result<(TypeDef<F>, &'i [u8]), DecodeError>
    ensures ok { IfOk result (λ found.
        HasPrefix (EncodesTypeDefWithIndex index (map_definition F.id_of F.text found.0))
        input.now found.1.now) }
    ensures malformed { IfErr result
        (IfMalformed (HasNoPrefix (EncodesTypeDefWithIndex index) input.now)) }
{
    match index {
        0 => {
            let (def, rest) = TypeDefComposite::<F>::decode_part(alloc, input)?;
            Ok((TypeDef::Composite(def), rest))
        }
        1 => {
            let (def, rest) = TypeDefVariant::<F>::decode_part(alloc, input)?;
            Ok((TypeDef::Variant(def), rest))
        }
        2 => {
            let (def, rest) = TypeDefSequence::<F>::decode_part(alloc, input)?;
            Ok((TypeDef::Sequence(def), rest))
        }
        3 => {
            let (def, rest) = TypeDefArray::<F>::decode_part(alloc, input)?;
            Ok((TypeDef::Array(def), rest))
        }
        4 => {
            let (def, rest) = TypeDefTuple::<F>::decode_part(alloc, input)?;
            Ok((TypeDef::Tuple(def), rest))
        }
        5 => {
            let (def, rest) = <TypeDefPrimitive as DecodePart<F>>::decode_part(alloc, input)?;
            Ok((TypeDef::Primitive(def), rest))
        }
        6 => {
            let (def, rest) = TypeDefCompact::<F>::decode_part(alloc, input)?;
            Ok((TypeDef::Compact(def), rest))
        }
        7 => {
            let (def, rest) = TypeDefBitSequence::<F>::decode_part(alloc, input)?;
            Ok((TypeDef::BitSequence(def), rest))
        }
        8 => {
            let (def, rest) = TypeDefMap::<F>::decode_part(alloc, input)?;
            Ok((TypeDef::Map(def), rest))
        }
        _ => Err(DecodeError::Malformed),
    }
}

impl<'i, F: DecodeForm<'i>> DecodePart<'i, F> for TypeDef<F> {
    fn decode_part(alloc: Global, input: &'i [u8]) -> Result<(TypeDef<F>, &'i [u8]), DecodeError> {
        match input {
            [] => Err(DecodeError::Malformed),
            [index, rest @ ..] => {
                let (def, rest) = decode_parts::<F>(alloc, *index, rest)?;
                Ok((def, rest))
            }
        }
    }
}

impl<F: EncodeForm, N: GivesIds<F>> EncodePart<F, N> for TypeDef<F> {
    #[tactic(auto, using(scale_info_grammar::proofs::Definitions::parts_written))]
    fn encode_part(def: &TypeDef<F>, ids: &N, out: &mut Vec<u8>) -> Result<(), EncodeError> {
        match def {
            TypeDef::Composite(def) => encode_with_index::<TypeDefComposite<F>, F, N>(
                0, def, ids, out,
            ),
            TypeDef::Variant(def) => encode_with_index::<TypeDefVariant<F>, F, N>(1, def, ids, out),
            TypeDef::Sequence(def) => encode_with_index::<TypeDefSequence<F>, F, N>(
                2, def, ids, out,
            ),
            TypeDef::Array(def) => encode_with_index::<TypeDefArray<F>, F, N>(3, def, ids, out),
            TypeDef::Tuple(def) => encode_with_index::<TypeDefTuple<F>, F, N>(4, def, ids, out),
            TypeDef::Primitive(def) => encode_with_index::<TypeDefPrimitive, F, N>(
                5, def, ids, out,
            ),
            TypeDef::Compact(def) => encode_with_index::<TypeDefCompact<F>, F, N>(6, def, ids, out),
            TypeDef::BitSequence(def) => encode_with_index::<TypeDefBitSequence<F>, F, N>(
                7, def, ids, out,
            ),
            TypeDef::Map(def) => encode_with_index::<TypeDefMap<F>, F, N>(8, def, ids, out),
        }
    }
}
