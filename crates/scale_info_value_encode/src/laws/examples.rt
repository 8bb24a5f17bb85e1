//! The definition of what is encoded, tried on small tables by computation. A function here does
//! nothing when it runs.
ghost use Rattle.std.specs.Prelude.{◌≡◌, ◌∷◌, [], Some, None, codes, negsuc, pos, true};
ghost use Rattle.scale_info_types.specs.declared.ty.TypeDef.TheVariants as def;
ghost use Rattle.scale_info_primitives.specs.declared.primitive.TypeDefPrimitive.TheVariants as kind;
ghost use Rattle.scale_info_value.specs.declared.value.Value.TheVariants as Values;
ghost use Rattle.scale_info_value.specs.ValueExamples.{table_of, list_of_u32, own_field};
ghost use Rattle.scale_info_value.specs.ValueExamples.{compact_of, compact_of_wrapped};
ghost use Rattle.scale_info_value.specs.ValueExamples.{array_of_missing, map_of_u32_to_bool};
ghost use Rattle.scale_info_value.specs.ValueExamples.{named_fields, equal_indices, map_of_maps};
ghost use Rattle.scale_info_value_encode.specs.declared.path.Step.TheVariants as step;
ghost use Rattle.scale_info_value_encode.specs.Writers.{written, refused, mismatch, mismatch_at};
ghost use Rattle.scale_info_value_encode.specs.Writers.{no_such_type, unsupported, too_deep};
ghost use Rattle.scale_info_value_encode.specs.Writings.{writing};

/// A list of `u32` of two items; of one item that is no `u32`; a value that is no list; and an id
/// that is no index. The item type of an empty array may be missing, and an array has as many items
/// as its type says.
pub fn lists()
    ensures two { writing list_of_u32 0 1 (Values.List (Values.Unsigned 1 ∷ Values.Unsigned 2 ∷ []))
        ≡ written (8 ∷ 1 ∷ 0 ∷ 0 ∷ 0 ∷ 2 ∷ 0 ∷ 0 ∷ 0 ∷ []) }
    ensures wide { writing list_of_u32 0 1 (Values.List (Values.Unsigned 4294967296 ∷ []))
        ≡ refused (mismatch_at (step.Index 0 ∷ [])) }
    ensures other_kind { writing list_of_u32 0 1 (Values.Unsigned 1) ≡ refused mismatch }
    ensures outside { writing list_of_u32 2 1 (Values.List []) ≡ refused no_such_type }
    ensures missing { writing (array_of_missing 0) 0 1 (Values.List []) ≡ written [] }
    ensures one_missing { writing (array_of_missing 1) 0 1 (Values.List (Values.Unsigned 1 ∷ []))
        ≡ refused no_such_type }
    ensures too_many { writing (array_of_missing 0) 0 1 (Values.List (Values.Unsigned 1 ∷ []))
        ≡ refused mismatch }
{}

/// A composite of itself is too deep. At depth 128 an empty list is encoded, and one item is too
/// deep.
pub fn depths()
    ensures own { writing own_field 0 128 (Values.Record ((None, Values.Record []) ∷ []))
        ≡ refused too_deep }
    ensures deepest { writing list_of_u32 0 128 (Values.List []) ≡ written (0 ∷ []) }
    ensures items { writing list_of_u32 0 128 (Values.List (Values.Unsigned 0 ∷ []))
        ≡ refused too_deep }
    ensures past { writing list_of_u32 0 129 (Values.List []) ≡ refused too_deep }
{}

/// Compact integers, also of a type that two composites of one field hold, and integers with a
/// sign. A type whose values are not encoded is named as that also where the value is none of it.
pub fn integers()
    ensures one { writing (compact_of kind.U64) 0 1 (Values.Unsigned 1) ≡ written (4 ∷ []) }
    ensures two_bytes { writing (compact_of kind.U64) 0 1 (Values.Unsigned 64)
        ≡ written (1 ∷ 1 ∷ []) }
    ensures three_bytes { writing (compact_of kind.U64) 0 1 (Values.Unsigned 16384)
        ≡ written (2 ∷ 0 ∷ 1 ∷ 0 ∷ []) }
    ensures four_bytes { writing (compact_of kind.U64) 0 1 (Values.Unsigned 1073741824)
        ≡ written (3 ∷ 0 ∷ 0 ∷ 0 ∷ 64 ∷ []) }
    ensures five_bytes { writing (compact_of kind.U64) 0 1 (Values.Unsigned 4294967296)
        ≡ written (7 ∷ 0 ∷ 0 ∷ 0 ∷ 0 ∷ 1 ∷ []) }
    ensures eight_bytes { writing (compact_of kind.U64) 0 1 (Values.Unsigned 18446744073709551615)
        ≡ written (19 ∷ 255 ∷ 255 ∷ 255 ∷ 255 ∷ 255 ∷ 255 ∷ 255 ∷ 255 ∷ []) }
    ensures wide { writing (compact_of kind.U8) 0 1 (Values.Unsigned 256) ≡ refused mismatch }
    ensures signed { writing (compact_of kind.I32) 0 1 (Values.Bool true) ≡ refused unsupported }
    ensures wrapped { writing compact_of_wrapped 0 1 (Values.Unsigned 255)
        ≡ written (253 ∷ 3 ∷ []) }
    ensures minus_one { writing (table_of (def.Primitive kind.I8 ∷ [])) 0 1
        (Values.Signed (negsuc 0))
        ≡ written (255 ∷ []) }
    ensures least { writing (table_of (def.Primitive kind.I16 ∷ [])) 0 1
        (Values.Signed (negsuc 32767))
        ≡ written (0 ∷ 128 ∷ []) }
    ensures less { writing (table_of (def.Primitive kind.I16 ∷ [])) 0 1
        (Values.Signed (negsuc 32768))
        ≡ refused mismatch }
    ensures more { writing (table_of (def.Primitive kind.I16 ∷ [])) 0 1 (Values.Signed (pos 32768))
        ≡ refused mismatch }
{}

/// Fields stand under the names of their types, the first that does not is refused by its name, and
/// of two variants with one index the first is taken.
pub fn fields()
    ensures named { writing named_fields 0 1 (Values.Record
        ((Some (codes "a"), Values.Unsigned 7) ∷ (Some (codes "b"), Values.Bool true) ∷ []))
        ≡ written (7 ∷ 1 ∷ []) }
    ensures other_name { writing named_fields 0 1 (Values.Record
        ((Some (codes "a"), Values.Unsigned 7) ∷ (Some (codes "c"), Values.Bool true) ∷ []))
        ≡ refused (mismatch_at (step.Field (codes "c") ∷ [])) }
    ensures first_mismatch { writing named_fields 0 1 (Values.Record
        ((Some (codes "a"), Values.Bool true) ∷ (Some (codes "b"), Values.Unsigned 7) ∷ []))
        ≡ refused (mismatch_at (step.Field (codes "a") ∷ [])) }
    ensures too_few { writing named_fields 0 1 (Values.Record
        ((Some (codes "a"), Values.Unsigned 7) ∷ [])) ≡ refused mismatch }
    ensures first { writing equal_indices 0 1 (Values.Variant (codes "A") 3 []) ≡ written (3 ∷ []) }
    ensures second { writing equal_indices 0 1
        (Values.Variant (codes "B") 3 ((None, Values.Bool true) ∷ [])) ≡ refused mismatch }
    ensures none { writing equal_indices 0 1 (Values.Variant (codes "A") 2 []) ≡ refused mismatch }
{}

/// A text is the count of its bytes and then its bytes, which are UTF-8.
pub fn texts()
    ensures text { writing (table_of (def.Primitive kind.Str ∷ [])) 0 1 (Values.Text (codes "hi"))
        ≡ written (8 ∷ 104 ∷ 105 ∷ []) }
    ensures no_text { writing (table_of (def.Primitive kind.Str ∷ [])) 0 1 (Values.Text (255 ∷ []))
        ≡ refused mismatch }
{}

/// A map is a list of lists of two, each one deeper than the map, and key and value one deeper than
/// that; a value may be a map in turn.
pub fn maps()
    ensures one { writing map_of_u32_to_bool 0 1
        (Values.List (Values.List (Values.Unsigned 7 ∷ Values.Bool true ∷ []) ∷ []))
        ≡ written (4 ∷ 7 ∷ 0 ∷ 0 ∷ 0 ∷ 1 ∷ []) }
    ensures deepest { writing map_of_u32_to_bool 0 126
        (Values.List (Values.List (Values.Unsigned 7 ∷ Values.Bool true ∷ []) ∷ []))
        ≡ written (4 ∷ 7 ∷ 0 ∷ 0 ∷ 0 ∷ 1 ∷ []) }
    ensures deeper { writing map_of_u32_to_bool 0 127
        (Values.List (Values.List (Values.Unsigned 7 ∷ Values.Bool true ∷ []) ∷ []))
        ≡ refused too_deep }
    ensures no_pair { writing map_of_u32_to_bool 0 1
        (Values.List (Values.List (Values.Unsigned 7 ∷ []) ∷ []))
        ≡ refused (mismatch_at (step.Index 0 ∷ [])) }
    ensures empty { writing map_of_u32_to_bool 0 128 (Values.List []) ≡ written (0 ∷ []) }
    ensures nested { writing map_of_maps 0 1 (Values.List (Values.List (Values.Unsigned 5
        ∷ Values.List (Values.List (Values.Unsigned 6 ∷ Values.Bool true ∷ []) ∷ []) ∷ []) ∷ []))
        ≡ written (4 ∷ 5 ∷ 4 ∷ 6 ∷ 1 ∷ []) }
    ensures nested_mismatch { writing map_of_maps 0 1 (Values.List (Values.List (Values.Unsigned 5
        ∷ Values.List (Values.List (Values.Bool true ∷ Values.Bool true ∷ []) ∷ []) ∷ []) ∷ []))
        ≡ refused (mismatch_at
        (step.Index 0 ∷ step.Index 1 ∷ step.Index 0 ∷ step.Index 0 ∷ [])) }
{}
