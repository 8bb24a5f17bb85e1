//! The definition of what is decoded, tried on small tables by computation. A function here does
//! nothing when it runs.
ghost use Rattle.std.specs.Prelude.{◌≡◌, ◌∷◌, [], Some, codes, negsuc, true};
ghost use Rattle.scale_info_types.specs.declared.ty.TypeDef.TheVariants as def;
ghost use Rattle.scale_info_primitives.specs.declared.primitive.TypeDefPrimitive.TheVariants as kind;
ghost use Rattle.scale_info_value.specs.declared.value.Value.TheVariants as Values;
ghost use Rattle.scale_info_value.specs.ValueExamples.{table_of, list_of_u32, own_field};
ghost use Rattle.scale_info_value.specs.ValueExamples.{compact_of};
ghost use Rattle.scale_info_value.specs.ValueExamples.{array_of_missing, map_of_u32_to_bool};
ghost use Rattle.scale_info_value.specs.ValueExamples.{named_fields, equal_indices};
ghost use Rattle.scale_info_value.specs.ValueExamples.{compact_of_wrapped, map_of_maps};
ghost use Rattle.scale_info_value.specs.Outcomes.{decoded, failed, malformed, too_deep};
ghost use Rattle.scale_info_value.specs.Outcomes.{no_such_type, unsupported};
ghost use Rattle.scale_info_value.specs.Readings.{reading};

/// A list of `u32` of two items, with one byte after it; cut short; and at an id that is no index.
/// The item type of an empty array may be missing.
pub fn lists()
    ensures two { reading list_of_u32 0 1 (8 ∷ 1 ∷ 0 ∷ 0 ∷ 0 ∷ 2 ∷ 0 ∷ 0 ∷ 0 ∷ 255 ∷ [])
        ≡ decoded (Values.List (Values.Unsigned 1 ∷ Values.Unsigned 2 ∷ [])) (255 ∷ []) }
    ensures short { reading list_of_u32 0 1 (8 ∷ 1 ∷ 0 ∷ 0 ∷ 0 ∷ 2 ∷ []) ≡ failed malformed }
    ensures outside { reading list_of_u32 2 1 (8 ∷ []) ≡ failed no_such_type }
    ensures missing { reading (array_of_missing 0) 0 1 (8 ∷ [])
        ≡ decoded (Values.List []) (8 ∷ []) }
    ensures one_missing { reading (array_of_missing 1) 0 1 (8 ∷ []) ≡ failed no_such_type }
{}

/// A composite of itself is too deep at any input. At depth 128 an empty list is decoded, and one
/// item is too deep.
pub fn depths()
    ensures own { reading own_field 0 1 [] ≡ failed too_deep }
    ensures deepest { reading list_of_u32 0 128 (0 ∷ []) ≡ decoded (Values.List []) [] }
    ensures items { reading list_of_u32 0 128 (4 ∷ 0 ∷ 0 ∷ 0 ∷ 0 ∷ []) ≡ failed too_deep }
    ensures past { reading list_of_u32 0 129 (0 ∷ []) ≡ failed too_deep }
{}

/// Compact integers, also of a type that two composites of one field hold, and integers with a sign.
pub fn integers()
    ensures one { reading (compact_of kind.U64) 0 1 (4 ∷ []) ≡ decoded (Values.Unsigned 1) [] }
    ensures four_bytes { reading (compact_of kind.U64) 0 1 (3 ∷ 0 ∷ 0 ∷ 0 ∷ 64 ∷ [])
        ≡ decoded (Values.Unsigned 1073741824) [] }
    ensures eight_bytes { reading (compact_of kind.U64) 0 1
        (19 ∷ 255 ∷ 255 ∷ 255 ∷ 255 ∷ 255 ∷ 255 ∷ 255 ∷ 255 ∷ [])
        ≡ decoded (Values.Unsigned 18446744073709551615) [] }
    ensures longer { reading (compact_of kind.U64) 0 1 (7 ∷ 0 ∷ 0 ∷ 0 ∷ 64 ∷ 0 ∷ [])
        ≡ failed malformed }
    ensures wide { reading (compact_of kind.U8) 0 1 (1 ∷ 4 ∷ []) ≡ failed malformed }
    ensures signed { reading (compact_of kind.I32) 0 1 (4 ∷ []) ≡ failed unsupported }
    ensures wrapped { reading compact_of_wrapped 0 1 (253 ∷ 3 ∷ 9 ∷ [])
        ≡ decoded (Values.Unsigned 255) (9 ∷ []) }
    ensures wrapped_wide { reading compact_of_wrapped 0 1 (1 ∷ 4 ∷ []) ≡ failed malformed }
    ensures minus_one { reading (table_of (def.Primitive kind.I8 ∷ [])) 0 1 (255 ∷ [])
        ≡ decoded (Values.Signed (negsuc 0)) [] }
    ensures least { reading (table_of (def.Primitive kind.I16 ∷ [])) 0 1 (0 ∷ 128 ∷ [])
        ≡ decoded (Values.Signed (negsuc 32767)) [] }
{}

/// Fields stand under their names, and of two variants with one index the first is taken.
pub fn fields()
    ensures named { reading named_fields 0 1 (7 ∷ 1 ∷ [])
        ≡ decoded (Values.Record
        ((Some (codes "a"), Values.Unsigned 7) ∷ (Some (codes "b"), Values.Bool true) ∷ [])) [] }
    ensures first { reading equal_indices 0 1 (3 ∷ 1 ∷ [])
        ≡ decoded (Values.Variant (codes "A") 3 []) (1 ∷ []) }
    ensures none { reading equal_indices 0 1 (2 ∷ 1 ∷ []) ≡ failed malformed }
{}

/// A map is a list of lists of two, each one deeper than the map, and key and value one deeper than
/// that; a value may be a map in turn.
pub fn maps()
    ensures one { reading map_of_u32_to_bool 0 1 (4 ∷ 7 ∷ 0 ∷ 0 ∷ 0 ∷ 1 ∷ [])
        ≡ decoded (Values.List (Values.List (Values.Unsigned 7 ∷ Values.Bool true ∷ []) ∷ [])) [] }
    ensures deepest { reading map_of_u32_to_bool 0 126 (4 ∷ 7 ∷ 0 ∷ 0 ∷ 0 ∷ 1 ∷ [])
        ≡ decoded (Values.List (Values.List (Values.Unsigned 7 ∷ Values.Bool true ∷ []) ∷ [])) [] }
    ensures deeper { reading map_of_u32_to_bool 0 127 (4 ∷ 7 ∷ 0 ∷ 0 ∷ 0 ∷ 1 ∷ [])
        ≡ failed too_deep }
    ensures empty { reading map_of_u32_to_bool 0 128 (0 ∷ []) ≡ decoded (Values.List []) [] }
    ensures nested { reading map_of_maps 0 1 (4 ∷ 5 ∷ 4 ∷ 6 ∷ 1 ∷ [])
        ≡ decoded (Values.List (Values.List (Values.Unsigned 5
        ∷ Values.List (Values.List (Values.Unsigned 6 ∷ Values.Bool true ∷ []) ∷ []) ∷ []) ∷ []))
        [] }
{}
