//! Parts of a table, written again without docs.
ghost use Rattle.std.specs.Prelude.{[]};
ghost use Rattle.scale_info_bytes.specs.PartLaws.{list_law};
ghost use Rattle.scale_info_bytes.specs.Parts.{EncodesList};
ghost use Rattle.scale_info_bytes.specs.StringLaws.{text_law};
ghost use Rattle.scale_info_bytes.specs.Strings.{EncodesText};
ghost use Rattle.scale_info_table_docs.specs.WithoutDocs.{definition_without_docs};
ghost use Rattle.scale_info_table_docs.specs.WithoutDocs.{description_without_docs};
ghost use Rattle.scale_info_table_docs.specs.WithoutDocs.{entry_without_docs, field_without_docs};
ghost use Rattle.scale_info_table_docs.specs.WithoutDocs.{variant_without_docs};
ghost use Rattle.scale_info_grammar.specs.Ty.{EncodesDescription, EncodesField};
ghost use Rattle.scale_info_grammar.specs.Ty.{EncodesParameter, EncodesPortableType};
ghost use Rattle.scale_info_grammar.specs.Ty.{EncodesTypeDef, EncodesVariant};
ghost use Rattle.scale_info_grammar.specs.TyLaws.{description_law, field_law, parameter_law};
ghost use Rattle.scale_info_grammar.specs.TyLaws.{portable_type_law};
ghost use Rattle.scale_info_grammar.specs.TyLaws.{type_def_law, variant_law};

use crate::list::HasDocs;
use crate::part::{HasNoDocs, WithoutDocs, append_copy};
use scale_info_bytes::error::DecodeError;
use scale_info_collections::items::Items;
use scale_info_collections::text::Text;
use scale_info_identities::symbol::UntrackedSymbol;
use scale_info_identities::type_id::TypeId;
use scale_info_passes::ty::DescriptionParts;
use scale_info_passes::visitors::skip;
use scale_info_type_ids::impls::Compact;
use scale_info_types::form::PortableForm;
use scale_info_types::ty::fields::Field;
use scale_info_types::ty::path::Path;
use scale_info_types::ty::variant::Variant;
use scale_info_types::ty::{Description, PortableType, TypeDef, TypeParameter};

type Id = UntrackedSymbol<TypeId>;

impl HasNoDocs for u8 {}

impl HasNoDocs for Text {}

impl HasNoDocs for Option<Text> {}

impl HasNoDocs for Id {}

impl HasNoDocs for Compact<u32> {}

impl HasNoDocs for Path<PortableForm> {}

impl HasDocs for Field<PortableForm> {}

impl HasDocs for Variant<PortableForm> {}

impl HasDocs for PortableType {}

impl WithoutDocs for Items<TypeParameter<PortableForm>> {
    ghost encodes = { EncodesList EncodesParameter };

    ghost without_docs = { λ v. v };

    fn append<'a>(input: &'a [u8], out: &mut Vec<u8>) -> Result<&'a [u8], DecodeError> {
        append_copy::<Items<TypeParameter<PortableForm>>>(input, out)
    }

    ghost law = { list_law parameter_law };
}

/// Lines of docs, of which none is left.
impl WithoutDocs for Items<Text> {
    ghost encodes = { EncodesList EncodesText };

    ghost without_docs = { λ _. [] };

    fn append<'a>(input: &'a [u8], out: &mut Vec<u8>) -> Result<&'a [u8], DecodeError> {
        match skip::<Items<Text>>(input) {
            Some(rest) => {
                out.push(0)?;
                Ok(rest)
            }
            None => Err(DecodeError::Malformed),
        }
    }

    ghost law = { list_law text_law };
}

impl WithoutDocs for Field<PortableForm> {
    ghost encodes = { EncodesField };

    ghost without_docs = { field_without_docs };

    fn append<'a>(input: &'a [u8], out: &mut Vec<u8>) -> Result<&'a [u8], DecodeError> {
        <(Option<Text>, (Id, (Option<Text>, Items<Text>)))>::append(input, out)
    }

    ghost law = { field_law };
}

impl WithoutDocs for Variant<PortableForm> {
    ghost encodes = { EncodesVariant };

    ghost without_docs = { variant_without_docs };

    fn append<'a>(input: &'a [u8], out: &mut Vec<u8>) -> Result<&'a [u8], DecodeError> {
        <(Text, (Items<Field<PortableForm>>, (u8, Items<Text>)))>::append(input, out)
    }

    ghost law = { variant_law };
}

/// A composite's fields and an enum's variants lose their docs; the other kinds have none.
impl WithoutDocs for TypeDef<PortableForm> {
    ghost encodes = { EncodesTypeDef };

    ghost without_docs = { definition_without_docs };

    fn append<'a>(input: &'a [u8], out: &mut Vec<u8>) -> Result<&'a [u8], DecodeError> {
        match input {
            [0, fields @ ..] => {
                out.push(0)?;
                Items::<Field<PortableForm>>::append(fields, out)
            }
            [1, variants @ ..] => {
                out.push(1)?;
                Items::<Variant<PortableForm>>::append(variants, out)
            }
            _ => append_copy::<TypeDef<PortableForm>>(input, out),
        }
    }

    ghost law = { type_def_law };
}

impl WithoutDocs for Description<PortableForm> {
    ghost encodes = { EncodesDescription };

    ghost without_docs = { description_without_docs };

    fn append<'a>(input: &'a [u8], out: &mut Vec<u8>) -> Result<&'a [u8], DecodeError> {
        DescriptionParts::append(input, out)
    }

    ghost law = { description_law };
}

impl WithoutDocs for PortableType {
    ghost encodes = { EncodesPortableType };

    ghost without_docs = { entry_without_docs };

    fn append<'a>(input: &'a [u8], out: &mut Vec<u8>) -> Result<&'a [u8], DecodeError> {
        <(Compact<u32>, Description<PortableForm>)>::append(input, out)
    }

    ghost law = { portable_type_law };
}
