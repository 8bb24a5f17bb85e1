//! Equalities: what `==` passes over, in the parts of descriptions and in errors, is nothing.
//!
//! The content of a value is the value with each type read as what it stands for and each text as
//! its bytes, in whatever memory they lie.
ghost use Rattle.std.specs.Prelude.{◌≡◌, ◌↔◌, IsTrue};
ghost use Rattle.scale_info_bytes.specs.declared.error.DecodeError as decode_errors;
ghost use Rattle.scale_info_bytes.specs.declared.error.EncodeError as encode_errors;
ghost use Rattle.scale_info_types.specs.Shapes.{
  map_definition,
  map_field,
  map_parameter,
  map_path,
  map_variant,
};
ghost use Rattle.scale_info_types.specs.declared.ty.TypeDef.TheVariants as def;
ghost use Rattle.scale_info_types.specs.declared.ty.TypeDefArray as arrays;
ghost use Rattle.scale_info_types.specs.declared.ty.TypeDefBitSequence as bit_sequences;
ghost use Rattle.scale_info_types.specs.declared.ty.TypeDefCompact as compacts;
ghost use Rattle.scale_info_types.specs.declared.ty.TypeDefMap as maps;
ghost use Rattle.scale_info_types.specs.declared.ty.TypeDefSequence as sequences;
ghost use Rattle.scale_info_types.specs.declared.ty.TypeDefTuple as tuples;
ghost use Rattle.scale_info_types.specs.declared.ty.TypeParameter as parameters;
ghost use Rattle.scale_info_types.specs.declared.ty.composite.TypeDefComposite as composites;
ghost use Rattle.scale_info_types.specs.declared.ty.fields.Field as fields;
ghost use Rattle.scale_info_types.specs.declared.ty.path.Path as paths;
ghost use Rattle.scale_info_types.specs.declared.ty.variant.TypeDefVariant as enums;
ghost use Rattle.scale_info_types.specs.declared.ty.variant.Variant as variants;

use scale_info_bytes::error::{DecodeError, EncodeError};
use scale_info_types::form::Form;
use scale_info_types::laws::equal_definitions;
use scale_info_types::ty::path::Path;
use scale_info_types::ty::variant::Variant;
use scale_info_types::ty::{
    Field, TypeDefArray, TypeDefBitSequence, TypeDefCompact, TypeDefComposite, TypeDefMap,
    TypeDefSequence, TypeDefTuple, TypeDefVariant, TypeParameter,
};

/// Paths are equal exactly where their contents are.
pub fn equal_paths<T: Form>()
    ensures { (a b : paths.Path T T.Ty T.String)
        → IsTrue (⟦<Path<T> as PartialEq>⟧.eq a b)
        ↔ (map_path {G = Unit {0}} T.reference T.text a
        ≡ map_path {G = Unit {0}} T.reference T.text b) }
{}

/// Parameters are equal exactly where their contents are.
pub fn equal_parameters<T: Form>()
    ensures { (a b : parameters.TypeParameter T T.Ty T.String)
        → IsTrue (⟦<TypeParameter<T> as PartialEq>⟧.eq a b)
        ↔ (map_parameter {G = Unit {0}} T.reference T.text a
        ≡ map_parameter {G = Unit {0}} T.reference T.text b) }
{}

/// Fields are equal exactly where their contents are.
pub fn equal_fields<T: Form>()
    ensures { (a b : fields.Field T T.Ty T.String)
        → IsTrue (⟦<Field<T> as PartialEq>⟧.eq a b)
        ↔ (map_field {G = Unit {0}} T.reference T.text a
        ≡ map_field {G = Unit {0}} T.reference T.text b) }
{}

/// Variants are equal exactly where their contents are.
pub fn equal_variants<T: Form>()
    ensures { (a b : variants.Variant T T.Ty T.String)
        → IsTrue (⟦<Variant<T> as PartialEq>⟧.eq a b)
        ↔ (map_variant {G = Unit {0}} T.reference T.text a
        ≡ map_variant {G = Unit {0}} T.reference T.text b) }
{}

/// What two definitions of one variant hold is equal exactly where the contents of the definitions
/// are.
pub fn equal_definition_parts<T: Form>()
    ensures composites { (a b : composites.TypeDefComposite T T.Ty T.String)
        → IsTrue (⟦<TypeDefComposite<T> as PartialEq>⟧.eq a b)
        ↔ (map_definition {G = Unit {0}} T.reference T.text (def.Composite a)
        ≡ map_definition {G = Unit {0}} T.reference T.text (def.Composite b)) }
    ensures enums { (a b : enums.TypeDefVariant T T.Ty T.String)
        → IsTrue (⟦<TypeDefVariant<T> as PartialEq>⟧.eq a b)
        ↔ (map_definition {G = Unit {0}} T.reference T.text (def.Variant a)
        ≡ map_definition {G = Unit {0}} T.reference T.text (def.Variant b)) }
    ensures sequences { (a b : sequences.TypeDefSequence T T.Ty T.String)
        → IsTrue (⟦<TypeDefSequence<T> as PartialEq>⟧.eq a b)
        ↔ (map_definition {G = Unit {0}} T.reference T.text (def.Sequence a)
        ≡ map_definition {G = Unit {0}} T.reference T.text (def.Sequence b)) }
    ensures arrays { (a b : arrays.TypeDefArray T T.Ty T.String)
        → IsTrue (⟦<TypeDefArray<T> as PartialEq>⟧.eq a b)
        ↔ (map_definition {G = Unit {0}} T.reference T.text (def.Array a)
        ≡ map_definition {G = Unit {0}} T.reference T.text (def.Array b)) }
    ensures tuples { (a b : tuples.TypeDefTuple T T.Ty T.String)
        → IsTrue (⟦<TypeDefTuple<T> as PartialEq>⟧.eq a b)
        ↔ (map_definition {G = Unit {0}} T.reference T.text (def.Tuple a)
        ≡ map_definition {G = Unit {0}} T.reference T.text (def.Tuple b)) }
    ensures compacts { (a b : compacts.TypeDefCompact T T.Ty T.String)
        → IsTrue (⟦<TypeDefCompact<T> as PartialEq>⟧.eq a b)
        ↔ (map_definition {G = Unit {0}} T.reference T.text (def.Compact a)
        ≡ map_definition {G = Unit {0}} T.reference T.text (def.Compact b)) }
    ensures bit_sequences { (a b : bit_sequences.TypeDefBitSequence T T.Ty T.String)
        → IsTrue (⟦<TypeDefBitSequence<T> as PartialEq>⟧.eq a b)
        ↔ (map_definition {G = Unit {0}} T.reference T.text (def.BitSequence a)
        ≡ map_definition {G = Unit {0}} T.reference T.text (def.BitSequence b)) }
    ensures maps { (a b : maps.TypeDefMap T T.Ty T.String)
        → IsTrue (⟦<TypeDefMap<T> as PartialEq>⟧.eq a b)
        ↔ (map_definition {G = Unit {0}} T.reference T.text (def.Map a)
        ≡ map_definition {G = Unit {0}} T.reference T.text (def.Map b)) }
{
    equal_definitions::<T>()
}

/// Errors of encoding and of decoding are equal exactly where they are one value.
pub fn equal_codec_errors()
    ensures encode { (a b : encode_errors.EncodeError)
        → IsTrue (⟦<EncodeError as PartialEq>⟧.eq a b) ↔ (a ≡ b) }
    ensures decode { (a b : decode_errors.DecodeError)
        → IsTrue (⟦<DecodeError as PartialEq>⟧.eq a b) ↔ (a ≡ b) }
{}
