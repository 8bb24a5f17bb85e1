//! Descriptions as bytes.
ghost use Rattle.scale_info_grammar.specs.Ty.{EncodesArray, EncodesBitSequence};
ghost use Rattle.scale_info_grammar.specs.Ty.{EncodesCompactType, EncodesComposite};
ghost use Rattle.scale_info_grammar.specs.Ty.{EncodesDescription, EncodesField, EncodesMap};
ghost use Rattle.scale_info_grammar.specs.Ty.{EncodesParameter, EncodesPath};
ghost use Rattle.scale_info_grammar.specs.Ty.{EncodesPortableType, EncodesPrimitive};
ghost use Rattle.scale_info_grammar.specs.Ty.{EncodesSequence, EncodesTuple, EncodesTypeDef};
ghost use Rattle.scale_info_grammar.specs.Ty.{EncodesVariant, EncodesVariants};
ghost use Rattle.scale_info_grammar.specs.TyLaws.{array_law, bit_sequence_law, compact_type_law};
ghost use Rattle.scale_info_grammar.specs.TyLaws.{composite_law, description_law, field_law};
ghost use Rattle.scale_info_grammar.specs.TyLaws.{map_law, parameter_law, path_law};
ghost use Rattle.scale_info_grammar.specs.TyLaws.{portable_type_law, primitive_law, sequence_law};
ghost use Rattle.scale_info_grammar.specs.TyLaws.{tuple_law, type_def_law, variant_law};
ghost use Rattle.scale_info_grammar.specs.TyLaws.{variants_law};

use crate::scale::Scale;
use crate::tuple::encode_two;
use scale_info_bytes::error::{DecodeError, EncodeError};
use scale_info_description_codec::decode::DecodePart;
use scale_info_description_codec::encode::append_part;
use scale_info_description_codec::form::OwnIds;
use scale_info_type_ids::impls::Compact;
use scale_info_types::form::PortableForm;
use scale_info_types::ty::composite::TypeDefComposite;
use scale_info_types::ty::fields::Field;
use scale_info_types::ty::path::Path;
use scale_info_types::ty::variant::{TypeDefVariant, Variant};
use scale_info_types::ty::{
    Description, PortableType, TypeDef, TypeDefArray, TypeDefBitSequence, TypeDefCompact,
    TypeDefMap, TypeDefPrimitive, TypeDefSequence, TypeDefTuple, TypeParameter,
};
use std::alloc::Global;

impl Scale for Description<PortableForm> {
    ghost encodes = { EncodesDescription };

    fn encode_to(&self, out: &mut Vec<u8>) -> Result<(), EncodeError> {
        append_part::<Self, PortableForm, OwnIds>(self, &OwnIds, out)
    }

    fn decode_from(
        alloc: Global,
        input: &[u8],
    ) -> Result<(Description<PortableForm>, &[u8]), DecodeError> {
        Self::decode_part(alloc, input)
    }

    ghost law = { description_law };
}

impl Scale for Path<PortableForm> {
    ghost encodes = { EncodesPath };

    fn encode_to(&self, out: &mut Vec<u8>) -> Result<(), EncodeError> {
        append_part::<Self, PortableForm, OwnIds>(self, &OwnIds, out)
    }

    fn decode_from(
        alloc: Global,
        input: &[u8],
    ) -> Result<(Path<PortableForm>, &[u8]), DecodeError> {
        Self::decode_part(alloc, input)
    }

    ghost law = { path_law };
}

impl Scale for TypeParameter<PortableForm> {
    ghost encodes = { EncodesParameter };

    fn encode_to(&self, out: &mut Vec<u8>) -> Result<(), EncodeError> {
        append_part::<Self, PortableForm, OwnIds>(self, &OwnIds, out)
    }

    fn decode_from(
        alloc: Global,
        input: &[u8],
    ) -> Result<(TypeParameter<PortableForm>, &[u8]), DecodeError> {
        Self::decode_part(alloc, input)
    }

    ghost law = { parameter_law };
}

impl Scale for TypeDefComposite<PortableForm> {
    ghost encodes = { EncodesComposite };

    fn encode_to(&self, out: &mut Vec<u8>) -> Result<(), EncodeError> {
        append_part::<Self, PortableForm, OwnIds>(self, &OwnIds, out)
    }

    fn decode_from(
        alloc: Global,
        input: &[u8],
    ) -> Result<(TypeDefComposite<PortableForm>, &[u8]), DecodeError> {
        Self::decode_part(alloc, input)
    }

    ghost law = { composite_law };
}

impl Scale for Field<PortableForm> {
    ghost encodes = { EncodesField };

    fn encode_to(&self, out: &mut Vec<u8>) -> Result<(), EncodeError> {
        append_part::<Self, PortableForm, OwnIds>(self, &OwnIds, out)
    }

    fn decode_from(
        alloc: Global,
        input: &[u8],
    ) -> Result<(Field<PortableForm>, &[u8]), DecodeError> {
        Self::decode_part(alloc, input)
    }

    ghost law = { field_law };
}

impl Scale for TypeDefVariant<PortableForm> {
    ghost encodes = { EncodesVariants };

    fn encode_to(&self, out: &mut Vec<u8>) -> Result<(), EncodeError> {
        append_part::<Self, PortableForm, OwnIds>(self, &OwnIds, out)
    }

    fn decode_from(
        alloc: Global,
        input: &[u8],
    ) -> Result<(TypeDefVariant<PortableForm>, &[u8]), DecodeError> {
        Self::decode_part(alloc, input)
    }

    ghost law = { variants_law };
}

impl Scale for Variant<PortableForm> {
    ghost encodes = { EncodesVariant };

    fn encode_to(&self, out: &mut Vec<u8>) -> Result<(), EncodeError> {
        append_part::<Self, PortableForm, OwnIds>(self, &OwnIds, out)
    }

    fn decode_from(
        alloc: Global,
        input: &[u8],
    ) -> Result<(Variant<PortableForm>, &[u8]), DecodeError> {
        Self::decode_part(alloc, input)
    }

    ghost law = { variant_law };
}

impl Scale for TypeDefSequence<PortableForm> {
    ghost encodes = { EncodesSequence };

    fn encode_to(&self, out: &mut Vec<u8>) -> Result<(), EncodeError> {
        append_part::<Self, PortableForm, OwnIds>(self, &OwnIds, out)
    }

    fn decode_from(
        alloc: Global,
        input: &[u8],
    ) -> Result<(TypeDefSequence<PortableForm>, &[u8]), DecodeError> {
        Self::decode_part(alloc, input)
    }

    ghost law = { sequence_law };
}

impl Scale for TypeDefArray<PortableForm> {
    ghost encodes = { EncodesArray };

    fn encode_to(&self, out: &mut Vec<u8>) -> Result<(), EncodeError> {
        append_part::<Self, PortableForm, OwnIds>(self, &OwnIds, out)
    }

    fn decode_from(
        alloc: Global,
        input: &[u8],
    ) -> Result<(TypeDefArray<PortableForm>, &[u8]), DecodeError> {
        Self::decode_part(alloc, input)
    }

    ghost law = { array_law };
}

impl Scale for TypeDefTuple<PortableForm> {
    ghost encodes = { EncodesTuple };

    fn encode_to(&self, out: &mut Vec<u8>) -> Result<(), EncodeError> {
        append_part::<Self, PortableForm, OwnIds>(self, &OwnIds, out)
    }

    fn decode_from(
        alloc: Global,
        input: &[u8],
    ) -> Result<(TypeDefTuple<PortableForm>, &[u8]), DecodeError> {
        Self::decode_part(alloc, input)
    }

    ghost law = { tuple_law };
}

impl Scale for TypeDefPrimitive {
    ghost encodes = { EncodesPrimitive };

    fn encode_to(&self, out: &mut Vec<u8>) -> Result<(), EncodeError> {
        append_part::<Self, PortableForm, OwnIds>(self, &OwnIds, out)
    }

    fn decode_from(alloc: Global, input: &[u8]) -> Result<(TypeDefPrimitive, &[u8]), DecodeError> {
        <Self as DecodePart<PortableForm>>::decode_part(alloc, input)
    }

    ghost law = { primitive_law };
}

impl Scale for TypeDefCompact<PortableForm> {
    ghost encodes = { EncodesCompactType };

    fn encode_to(&self, out: &mut Vec<u8>) -> Result<(), EncodeError> {
        append_part::<Self, PortableForm, OwnIds>(self, &OwnIds, out)
    }

    fn decode_from(
        alloc: Global,
        input: &[u8],
    ) -> Result<(TypeDefCompact<PortableForm>, &[u8]), DecodeError> {
        Self::decode_part(alloc, input)
    }

    ghost law = { compact_type_law };
}

impl Scale for TypeDefBitSequence<PortableForm> {
    ghost encodes = { EncodesBitSequence };

    fn encode_to(&self, out: &mut Vec<u8>) -> Result<(), EncodeError> {
        append_part::<Self, PortableForm, OwnIds>(self, &OwnIds, out)
    }

    fn decode_from(
        alloc: Global,
        input: &[u8],
    ) -> Result<(TypeDefBitSequence<PortableForm>, &[u8]), DecodeError> {
        Self::decode_part(alloc, input)
    }

    ghost law = { bit_sequence_law };
}

impl Scale for TypeDefMap<PortableForm> {
    ghost encodes = { EncodesMap };

    fn encode_to(&self, out: &mut Vec<u8>) -> Result<(), EncodeError> {
        append_part::<Self, PortableForm, OwnIds>(self, &OwnIds, out)
    }

    fn decode_from(
        alloc: Global,
        input: &[u8],
    ) -> Result<(TypeDefMap<PortableForm>, &[u8]), DecodeError> {
        Self::decode_part(alloc, input)
    }

    ghost law = { map_law };
}

impl Scale for TypeDef<PortableForm> {
    ghost encodes = { EncodesTypeDef };

    fn encode_to(&self, out: &mut Vec<u8>) -> Result<(), EncodeError> {
        append_part::<Self, PortableForm, OwnIds>(self, &OwnIds, out)
    }

    fn decode_from(
        alloc: Global,
        input: &[u8],
    ) -> Result<(TypeDef<PortableForm>, &[u8]), DecodeError> {
        Self::decode_part(alloc, input)
    }

    ghost law = { type_def_law };
}

impl Scale for PortableType {
    ghost encodes = { EncodesPortableType };

    fn encode_to(&self, out: &mut Vec<u8>) -> Result<(), EncodeError> {
        encode_two(&Compact(self.id), &self.ty, out)
    }

    fn decode_from(alloc: Global, input: &[u8]) -> Result<(PortableType, &[u8]), DecodeError> {
        let ((integer, ty), rest) = <(Compact<u32>, Description<PortableForm>)>::decode_from(
            alloc, input,
        )?;
        let Compact(id) = integer;
        Ok((PortableType { id, ty }, rest))
    }

    ghost law = { portable_type_law };
}
