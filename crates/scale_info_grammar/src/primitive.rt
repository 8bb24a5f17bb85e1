//! Primitives at the start of bytes.
ghost use Rattle.std.specs.Prelude.{IfNone, IfSome};
ghost use Rattle.scale_info_bytes.specs.Encodings.{HasNoPrefix, HasPrefix};
ghost use Rattle.scale_info_grammar.specs.Ty.{EncodesPrimitive, IsPrimitiveByte};
ghost use Rattle.scale_info_primitives.specs.declared.primitive.TypeDefPrimitive.{TypeDefPrimitive};

use scale_info_primitives::primitive::TypeDefPrimitive;

/// The primitive of a byte.
#[tactic(auto, using(crate::specs::Ty::primitive_bytes))]
pub fn primitive_of(byte: u8) -> Option<TypeDefPrimitive>
    ensures some { IfSome result (λ primitive. IsPrimitiveByte byte primitive) }
    ensures none { IfNone result
        ((primitive : TypeDefPrimitive) → IsPrimitiveByte byte primitive → ⊥) }
{
    match byte {
        0 => Some(TypeDefPrimitive::Bool),
        1 => Some(TypeDefPrimitive::Char),
        2 => Some(TypeDefPrimitive::Str),
        3 => Some(TypeDefPrimitive::U8),
        4 => Some(TypeDefPrimitive::U16),
        5 => Some(TypeDefPrimitive::U32),
        6 => Some(TypeDefPrimitive::U64),
        7 => Some(TypeDefPrimitive::U128),
        8 => Some(TypeDefPrimitive::U256),
        9 => Some(TypeDefPrimitive::I8),
        10 => Some(TypeDefPrimitive::I16),
        11 => Some(TypeDefPrimitive::I32),
        12 => Some(TypeDefPrimitive::I64),
        13 => Some(TypeDefPrimitive::I128),
        14 => Some(TypeDefPrimitive::I256),
        _ => None,
    }
}

/// The primitive at the start of the input, and the rest.
///
/// None, if no prefix of the input encodes a primitive.
pub fn decode_primitive(input: &[u8]) -> Option<(TypeDefPrimitive, &[u8])>
    ensures some { IfSome result (λ found.
        HasPrefix (EncodesPrimitive found.0) input.now found.1.now) }
    ensures none { IfNone result (HasNoPrefix EncodesPrimitive input.now) }
{
    match input {
        [] => None,
        [byte, rest @ ..] => match primitive_of(*byte) {
            Some(primitive) => Some((primitive, rest)),
            None => None,
        },
    }
}
