//! Descriptions, their parts and entries of a table as JSON text.
ghost use Rattle.std.specs.Prelude.{IfOk, IfErr};
ghost use Rattle.scale_info_bytes.specs.Encodings.{HasNoPrefix, IfMalformed};
ghost use Rattle.scale_info_grammar.specs.Ty.{EncodesArray, EncodesBitSequence, EncodesCompactType};
ghost use Rattle.scale_info_grammar.specs.Ty.{EncodesComposite, EncodesDescription, EncodesField};
ghost use Rattle.scale_info_grammar.specs.Ty.{EncodesMap, EncodesParameter, EncodesPortableType};
ghost use Rattle.scale_info_grammar.specs.Ty.{EncodesPrimitive, EncodesSequence, EncodesTypeDef};
ghost use Rattle.scale_info_grammar.specs.Ty.{EncodesTypeDefWithIndex, EncodesVariant};
ghost use Rattle.scale_info_grammar.specs.Ty.{EncodesVariants};
ghost use Rattle.scale_info_grammar.specs.TyLaws.{array_law, bit_sequence_law, compact_type_law};
ghost use Rattle.scale_info_grammar.specs.TyLaws.{composite_law, description_law, field_law};
ghost use Rattle.scale_info_grammar.specs.TyLaws.{map_law, parameter_law, portable_type_law};
ghost use Rattle.scale_info_grammar.specs.TyLaws.{primitive_law, sequence_law, type_def_law};
ghost use Rattle.scale_info_grammar.specs.TyLaws.{variant_law, variants_law};
ghost use Rattle.scale_info_json_trees.specs.DefinitionTrees.{array_rows, bit_sequence_rows};
ghost use Rattle.scale_info_json_trees.specs.DefinitionTrees.{compact_rows, composite_rows};
ghost use Rattle.scale_info_json_trees.specs.DefinitionTrees.{definition_row, map_rows};
ghost use Rattle.scale_info_json_trees.specs.DefinitionTrees.{primitive_tree, sequence_rows};
ghost use Rattle.scale_info_json_trees.specs.DefinitionTrees.{type_def_rows, variant_type_rows};
ghost use Rattle.scale_info_json_trees.specs.EntryTrees.{description_rows, entry_rows};
ghost use Rattle.scale_info_json_trees.specs.PartTrees.{field_rows, parameter_rows, variant_rows};
ghost use Rattle.scale_info_json_bytes.specs.Transcodings.{WritesRow};

use crate::id::decode_id;
use crate::integer::decode_u8;
use crate::members::{
    TranscodeMembers, transcode_member, transcode_two, transcode_unless_empty, write_id,
    write_number, write_optional_str, write_str,
};
use crate::skip::skip_part;
use crate::text::{decode_optional_str, decode_str};
use crate::transcode::Transcode;
use json::Writer;
use scale_info_bytes::error::DecodeError;
use scale_info_collections::items::Items;
use scale_info_collections::text::Text;
use scale_info_grammar::decode_primitive;
use scale_info_identities::symbol::UntrackedSymbol;
use scale_info_identities::type_id::TypeId;
use scale_info_type_ids::impls::Compact;
use scale_info_types::form::PortableForm;
use scale_info_types::ty::composite::TypeDefComposite;
use scale_info_types::ty::fields::Field;
use scale_info_types::ty::variant::{TypeDefVariant, Variant};
use scale_info_types::ty::{
    Description, PortableType, TypeDef, TypeDefArray, TypeDefBitSequence, TypeDefCompact,
    TypeDefMap, TypeDefPrimitive, TypeDefSequence, TypeParameter,
};

type Id = UntrackedSymbol<TypeId>;

impl TranscodeMembers for PortableType {
    ghost encodes = { EncodesPortableType };

    ghost rows = { entry_rows };

    fn transcode_members<'a>(input: &'a [u8], out: &mut Writer) -> Result<&'a [u8], DecodeError> {
        transcode_two::<Compact<u32>, Description<PortableForm>>("id", "type", input, out)
    }

    ghost law = { portable_type_law };
}

impl TranscodeMembers for Description<PortableForm> {
    ghost encodes = { EncodesDescription };

    ghost rows = { description_rows };

    /// The path and the parameters are gone over once to find what is encoded after them, and then
    /// written.
    fn transcode_members<'a>(input: &'a [u8], out: &mut Writer) -> Result<&'a [u8], DecodeError> {
        let params = skip_part::<Items<Text>>(input)?;
        let def = skip_part::<Items<TypeParameter<PortableForm>>>(params)?;
        let docs = transcode_member::<TypeDef<PortableForm>>("def", def, out)?;
        let rest = transcode_unless_empty::<Text>("docs", docs, out)?;
        let _ = transcode_unless_empty::<TypeParameter<PortableForm>>("params", params, out)?;
        let _ = transcode_unless_empty::<Text>("path", input, out)?;
        Ok(rest)
    }

    ghost law = { description_law };
}

impl TranscodeMembers for TypeParameter<PortableForm> {
    ghost encodes = { EncodesParameter };

    ghost rows = { parameter_rows };

    fn transcode_members<'a>(input: &'a [u8], out: &mut Writer) -> Result<&'a [u8], DecodeError> {
        transcode_two::<Text, Option<Id>>("name", "type", input, out)
    }

    ghost law = { parameter_law };
}

/// Writes the key of the definitions with this index, and the parts that the input begins with.
/// Returns the rest.
///
/// Errors: `Malformed`, if no prefix of the input encodes the parts of a definition with this
/// index; `Memory`, if an allocation failed.
#[tactic(auto, using(crate::proofs::Definitions::parts_transcoded))]
fn transcode_parts<'a>(
    index: u8,
    input: &'a [u8],
    out: &mut Writer,
) -> Result<&'a [u8], DecodeError>
    ensures ok { IfOk result (λ rest. WritesRow (EncodesTypeDefWithIndex index) definition_row
        input.now rest.now out.old out.new) }
    ensures malformed { IfErr result
        (IfMalformed (HasNoPrefix (EncodesTypeDefWithIndex index) input.now)) }
{
    match index {
        0 => transcode_member::<TypeDefComposite<PortableForm>>("composite", input, out),
        1 => transcode_member::<TypeDefVariant<PortableForm>>("variant", input, out),
        2 => transcode_member::<TypeDefSequence<PortableForm>>("sequence", input, out),
        3 => transcode_member::<TypeDefArray<PortableForm>>("array", input, out),
        4 => transcode_member::<Items<Id>>("tuple", input, out),
        5 => transcode_member::<TypeDefPrimitive>("primitive", input, out),
        6 => transcode_member::<TypeDefCompact<PortableForm>>("compact", input, out),
        7 => transcode_member::<TypeDefBitSequence<PortableForm>>("bitsequence", input, out),
        8 => transcode_member::<TypeDefMap<PortableForm>>("map", input, out),
        _ => Err(DecodeError::Malformed),
    }
}

impl TranscodeMembers for TypeDef<PortableForm> {
    ghost encodes = { EncodesTypeDef };

    ghost rows = { type_def_rows };

    fn transcode_members<'a>(input: &'a [u8], out: &mut Writer) -> Result<&'a [u8], DecodeError> {
        match input {
            [] => Err(DecodeError::Malformed),
            [index, parts @ ..] => transcode_parts(*index, parts, out),
        }
    }

    ghost law = { type_def_law };
}

impl TranscodeMembers for TypeDefComposite<PortableForm> {
    ghost encodes = { EncodesComposite };

    ghost rows = { composite_rows };

    fn transcode_members<'a>(input: &'a [u8], out: &mut Writer) -> Result<&'a [u8], DecodeError> {
        transcode_unless_empty::<Field<PortableForm>>("fields", input, out)
    }

    ghost law = { composite_law };
}

impl TranscodeMembers for TypeDefVariant<PortableForm> {
    ghost encodes = { EncodesVariants };

    ghost rows = { variant_type_rows };

    fn transcode_members<'a>(input: &'a [u8], out: &mut Writer) -> Result<&'a [u8], DecodeError> {
        transcode_unless_empty::<Variant<PortableForm>>("variants", input, out)
    }

    ghost law = { variants_law };
}

impl TranscodeMembers for TypeDefSequence<PortableForm> {
    ghost encodes = { EncodesSequence };

    ghost rows = { sequence_rows };

    fn transcode_members<'a>(input: &'a [u8], out: &mut Writer) -> Result<&'a [u8], DecodeError> {
        transcode_member::<Id>("type", input, out)
    }

    ghost law = { sequence_law };
}

impl TranscodeMembers for TypeDefArray<PortableForm> {
    ghost encodes = { EncodesArray };

    ghost rows = { array_rows };

    fn transcode_members<'a>(input: &'a [u8], out: &mut Writer) -> Result<&'a [u8], DecodeError> {
        transcode_two::<u32, Id>("len", "type", input, out)
    }

    ghost law = { array_law };
}

impl Transcode for TypeDefPrimitive {
    ghost encodes = { EncodesPrimitive };

    ghost written = { primitive_tree };

    fn transcode<'a>(input: &'a [u8], out: &mut Writer) -> Result<&'a [u8], DecodeError> {
        let (primitive, rest) = decode_primitive(input).ok_or(DecodeError::Malformed)?;
        out.string(primitive.name())?;
        Ok(rest)
    }

    ghost law = { primitive_law };
}

impl TranscodeMembers for TypeDefCompact<PortableForm> {
    ghost encodes = { EncodesCompactType };

    ghost rows = { compact_rows };

    fn transcode_members<'a>(input: &'a [u8], out: &mut Writer) -> Result<&'a [u8], DecodeError> {
        transcode_member::<Id>("type", input, out)
    }

    ghost law = { compact_type_law };
}

impl TranscodeMembers for TypeDefBitSequence<PortableForm> {
    ghost encodes = { EncodesBitSequence };

    ghost rows = { bit_sequence_rows };

    /// The store is encoded first, and its key is the last.
    #[tactic(auto, using(crate::proofs::Parts::no_first_part))]
    fn transcode_members<'a>(input: &'a [u8], out: &mut Writer) -> Result<&'a [u8], DecodeError> {
        let (store, order) = decode_id(input)?;
        let rest = transcode_member::<Id>("bit_order_type", order, out)?;
        write_id("bit_store_type", &store, out)?;
        Ok(rest)
    }

    ghost law = { bit_sequence_law };
}

impl TranscodeMembers for TypeDefMap<PortableForm> {
    ghost encodes = { EncodesMap };

    ghost rows = { map_rows };

    fn transcode_members<'a>(input: &'a [u8], out: &mut Writer) -> Result<&'a [u8], DecodeError> {
        transcode_two::<Id, Id>("key", "value", input, out)
    }

    ghost law = { map_law };
}

impl TranscodeMembers for Field<PortableForm> {
    ghost encodes = { EncodesField };

    ghost rows = { field_rows };

    /// The documentation is encoded last, and its key is the first.
    #[tactic(auto, using(crate::proofs::Parts::no_first_part))]
    fn transcode_members<'a>(input: &'a [u8], out: &mut Writer) -> Result<&'a [u8], DecodeError> {
        let (name, after_name) = decode_optional_str(input)?;
        let (ty, after_type) = decode_id(after_name)?;
        let (type_name, docs) = decode_optional_str(after_type)?;
        let rest = transcode_unless_empty::<Text>("docs", docs, out)?;
        write_optional_str("name", name, out)?;
        write_id("type", &ty, out)?;
        write_optional_str("typeName", type_name, out)?;
        Ok(rest)
    }

    ghost law = { field_law };
}

impl TranscodeMembers for Variant<PortableForm> {
    ghost encodes = { EncodesVariant };

    ghost rows = { variant_rows };

    /// The fields are gone over once to find what is encoded after them, and then written.
    #[tactic(auto, using(crate::proofs::Parts::no_first_part))]
    fn transcode_members<'a>(input: &'a [u8], out: &mut Writer) -> Result<&'a [u8], DecodeError> {
        let (name, fields) = decode_str(input)?;
        let after_fields = skip_part::<Items<Field<PortableForm>>>(fields)?;
        let (index, docs) = decode_u8(after_fields)?;
        let rest = transcode_unless_empty::<Text>("docs", docs, out)?;
        let _ = transcode_unless_empty::<Field<PortableForm>>("fields", fields, out)?;
        write_number("index", index as u32, out)?;
        write_str("name", name, out)?;
        Ok(rest)
    }

    ghost law = { variant_law };
}
