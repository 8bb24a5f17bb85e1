//! Passes over descriptions.
ghost use Rattle.std.specs.Prelude.{[], ◌∷◌, IfSome, IfNone, option_to_list};
ghost use Rattle.scale_info_types.specs.Shapes.{map_path, map_parameter, map_field, map_variant};
ghost use Rattle.scale_info_types.specs.Shapes.{map_definition, map_description};
ghost use Rattle.scale_info_types.specs.References.{references, definition_references};
ghost use Rattle.scale_info_types.specs.References.{field_references};
ghost use Rattle.scale_info_bytes.specs.Encodings.{HasNoPrefix};
ghost use Rattle.scale_info_grammar.specs.Ty.{EncodesDescription, EncodesField, EncodesParameter};
ghost use Rattle.scale_info_grammar.specs.Ty.{EncodesPath, EncodesPortableType, EncodesPrimitive};
ghost use Rattle.scale_info_grammar.specs.Ty.{EncodesTypeDef, EncodesTypeDefWithIndex};
ghost use Rattle.scale_info_grammar.specs.Ty.{EncodesVariant};
ghost use Rattle.scale_info_grammar.specs.TyLaws.{description_law, field_law, parameter_law};
ghost use Rattle.scale_info_grammar.specs.TyLaws.{path_law, portable_type_law, primitive_law};
ghost use Rattle.scale_info_grammar.specs.TyLaws.{type_def_law, variant_law};
ghost use Rattle.scale_info_passes.specs.Pieces.{HasVisitedSome};

use crate::pass::{Pass, Verbatim, Visitor, visit_verbatim};
use scale_info_collections::items::Items;
use scale_info_collections::text::Text;
use scale_info_grammar::decode_primitive;
use scale_info_identities::symbol::UntrackedSymbol;
use scale_info_identities::type_id::TypeId;
use scale_info_type_ids::impls::Compact;
use scale_info_types::form::PortableForm;
use scale_info_types::ty::fields::Field;
use scale_info_types::ty::path::Path;
use scale_info_types::ty::variant::Variant;
use scale_info_types::ty::{Description, PortableType, TypeDef, TypeDefPrimitive, TypeParameter};

type Id = UntrackedSymbol<TypeId>;

impl Pass for Path<PortableForm> {
    ghost encodes = { EncodesPath };

    ghost references_of = { λ _. [] };

    ghost map_references = { λ f v. map_path f (λ s. s) v };

    fn pass<'a, V: Visitor>(input: &'a [u8], visitor: &mut V) -> Option<&'a [u8]> {
        Items::<Text>::pass(input, visitor)
    }

    ghost law = { path_law };
}

impl Pass for TypeParameter<PortableForm> {
    ghost encodes = { EncodesParameter };

    ghost references_of = { λ v. option_to_list v.ty };

    ghost map_references = { λ f v. map_parameter f (λ s. s) v };

    fn pass<'a, V: Visitor>(input: &'a [u8], visitor: &mut V) -> Option<&'a [u8]> {
        <(Text, Option<Id>)>::pass(input, visitor)
    }

    ghost law = { parameter_law };
}

impl Pass for Field<PortableForm> {
    ghost encodes = { EncodesField };

    ghost references_of = { λ v. v.ty ∷ [] };

    ghost map_references = { λ f v. map_field f (λ s. s) v };

    fn pass<'a, V: Visitor>(input: &'a [u8], visitor: &mut V) -> Option<&'a [u8]> {
        <(Option<Text>, (Id, (Option<Text>, Items<Text>)))>::pass(input, visitor)
    }

    ghost law = { field_law };
}

impl Pass for Variant<PortableForm> {
    ghost encodes = { EncodesVariant };

    ghost references_of = { λ v. field_references v.fields };

    ghost map_references = { λ f v. map_variant f (λ s. s) v };

    fn pass<'a, V: Visitor>(input: &'a [u8], visitor: &mut V) -> Option<&'a [u8]> {
        <(Text, (Items<Field<PortableForm>>, (u8, Items<Text>)))>::pass(input, visitor)
    }

    ghost law = { variant_law };
}

impl Verbatim for TypeDefPrimitive {
    ghost encodes = { EncodesPrimitive };

    fn decode(input: &[u8]) -> Option<(TypeDefPrimitive, &[u8])> {
        decode_primitive(input)
    }

    ghost law = { primitive_law };
}

/// Goes over the parts of the definition with this index.
#[tactic(auto, using(crate::proofs::Definitions::gone_over))]
fn pass_parts<'a, V: Visitor>(index: u8, input: &'a [u8], visitor: &mut V) -> Option<&'a [u8]>
    ensures some { IfSome result (λ rest.
        HasVisitedSome (EncodesTypeDefWithIndex index)
        definition_references (λ f v. map_definition f (λ s. s) v) V.visited
        input.now rest.now visitor.old visitor.new) }
    ensures none { IfNone result (HasNoPrefix (EncodesTypeDefWithIndex index) input.now) }
{
    match index {
        0 => Items::<Field<PortableForm>>::pass(input, visitor),
        1 => Items::<Variant<PortableForm>>::pass(input, visitor),
        2 => Id::pass(input, visitor),
        3 => <(u32, Id)>::pass(input, visitor),
        4 => Items::<Id>::pass(input, visitor),
        5 => TypeDefPrimitive::pass(input, visitor),
        6 => Id::pass(input, visitor),
        7 => <(Id, Id)>::pass(input, visitor),
        8 => <(Id, Id)>::pass(input, visitor),
        _ => None,
    }
}

impl Pass for TypeDef<PortableForm> {
    ghost encodes = { EncodesTypeDef };

    ghost references_of = { definition_references };

    ghost map_references = { λ f v. map_definition f (λ s. s) v };

    fn pass<'a, V: Visitor>(input: &'a [u8], visitor: &mut V) -> Option<&'a [u8]> {
        match input {
            [] => None,
            [index, rest @ ..] => {
                visit_verbatim(input, rest, visitor);
                pass_parts(*index, rest, visitor)
            }
        }
    }

    ghost law = { type_def_law };
}

/// The parts of a description, in the order of its encoding.
pub type DescriptionParts = (
    Path<PortableForm>,
    (
        Items<TypeParameter<PortableForm>>,
        (TypeDef<PortableForm>, Items<Text>),
    ),
);

impl Pass for Description<PortableForm> {
    ghost encodes = { EncodesDescription };

    ghost references_of = { references };

    ghost map_references = { λ f v. map_description f (λ s. s) v };

    fn pass<'a, V: Visitor>(input: &'a [u8], visitor: &mut V) -> Option<&'a [u8]> {
        DescriptionParts::pass(input, visitor)
    }

    ghost law = { description_law };
}

impl Pass for PortableType {
    ghost encodes = { EncodesPortableType };

    ghost references_of = { λ v. references v.ty };

    ghost map_references = { λ f v. record { id = v.id; ty = map_description f (λ s. s) v.ty } };

    fn pass<'a, V: Visitor>(input: &'a [u8], visitor: &mut V) -> Option<&'a [u8]> {
        <(Compact<u32>, Description<PortableForm>)>::pass(input, visitor)
    }

    ghost law = { portable_type_law };
}
