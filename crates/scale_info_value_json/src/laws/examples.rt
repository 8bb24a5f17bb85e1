//! The definition of what is taken, tried on small tables by computation. A function here does
//! nothing when it runs.
ghost use Rattle.std.specs.Prelude.{◌≡◌, ◌∷◌, [], Some, codes, negsuc, pos, true};
ghost use Rattle.serde_json.specs.Data.{array, boolean, string, object, number, negative, null};
ghost use Rattle.serde_json.specs.Data.{no_members, member};
ghost use Rattle.scale_info_types.specs.declared.ty.TypeDef.TheVariants as def;
ghost use Rattle.scale_info_primitives.specs.declared.primitive.TypeDefPrimitive.TheVariants as kind;
ghost use Rattle.scale_info_value.specs.declared.value.Value.TheVariants as Values;
ghost use Rattle.scale_info_value.specs.ValueExamples.{table_of, list_of_u32, compact_of};
ghost use Rattle.scale_info_value.specs.ValueExamples.{array_of_missing, map_of_u32_to_bool};
ghost use Rattle.scale_info_value.specs.ValueExamples.{named_fields, equal_indices};
ghost use Rattle.scale_info_value_json.specs.Takers.{taken, refused, mismatch, too_deep};
ghost use Rattle.scale_info_value_json.specs.Takers.{no_such_type, unsupported};
ghost use Rattle.scale_info_value_json.specs.Takings.{taking};
ghost use Rattle.scale_info_value_json.specs.TreeExamples.{list_of_u8, shared_names, plain};
ghost use Rattle.scale_info_value_json.specs.TreeExamples.{array_of, one_member, one_name_twice};

/// A list of `u32` of two items, one of them in a string; of one that is no `u32`; a tree that is
/// no array; and an id that is no index. At depth 128 an empty list is taken, and one item is too
/// deep. The item type of an empty array may be missing.
pub fn lists()
    ensures two { taking list_of_u32 0 1 (array_of (plain 1 ∷ string (codes "2") ∷ []))
        ≡ taken (Values.List (Values.Unsigned 1 ∷ Values.Unsigned 2 ∷ [])) }
    ensures wide { taking list_of_u32 0 1 (array_of (plain 4294967296 ∷ [])) ≡ refused mismatch }
    ensures other_kind { taking list_of_u32 0 1 (plain 1) ≡ refused mismatch }
    ensures text { taking list_of_u32 0 1 (string (codes "0x01000000")) ≡ refused mismatch }
    ensures outside { taking list_of_u32 2 1 (array_of []) ≡ refused no_such_type }
    ensures deepest { taking list_of_u32 0 128 (array_of []) ≡ taken (Values.List []) }
    ensures items { taking list_of_u32 0 128 (array_of (plain 1 ∷ [])) ≡ refused too_deep }
    ensures missing { taking (array_of_missing 0) 0 1 (array_of []) ≡ taken (Values.List []) }
    ensures too_many { taking (array_of_missing 0) 0 1 (array_of (plain 1 ∷ []))
        ≡ refused mismatch }
{}

/// A list of bytes: hexadecimal digits in either case, with `0x` before them or without it, and an
/// array. An odd digit is none, and another prefix is none.
pub fn bytes()
    ensures prefixed { taking list_of_u8 0 1 (string (codes "0x01fF"))
        ≡ taken (Values.List (Values.Unsigned 1 ∷ Values.Unsigned 255 ∷ [])) }
    ensures plain { taking list_of_u8 0 1 (string (codes "01ff"))
        ≡ taken (Values.List (Values.Unsigned 1 ∷ Values.Unsigned 255 ∷ [])) }
    ensures digits { taking list_of_u8 0 1 (string (codes "10"))
        ≡ taken (Values.List (Values.Unsigned 16 ∷ [])) }
    ensures numbers { taking list_of_u8 0 1 (array_of (plain 1 ∷ string (codes "255") ∷ []))
        ≡ taken (Values.List (Values.Unsigned 1 ∷ Values.Unsigned 255 ∷ [])) }
    ensures none { taking list_of_u8 0 1 (string []) ≡ taken (Values.List []) }
    ensures odd { taking list_of_u8 0 1 (string (codes "0x1")) ≡ refused mismatch }
    ensures capital { taking list_of_u8 0 1 (string (codes "0X01")) ≡ refused mismatch }
    ensures too_deep { taking list_of_u8 0 128 (string (codes "01")) ≡ refused too_deep }
{}

/// Integers: within their types, as numbers and as strings, of which zeros may lead.
pub fn integers()
    ensures zeros { taking (table_of (def.Primitive kind.U8 ∷ [])) 0 1 (string (codes "007"))
        ≡ taken (Values.Unsigned 7) }
    ensures plus { taking (table_of (def.Primitive kind.U8 ∷ [])) 0 1 (string (codes "+7"))
        ≡ refused mismatch }
    ensures none { taking (table_of (def.Primitive kind.U8 ∷ [])) 0 1 (string [])
        ≡ refused mismatch }
    ensures most { taking (table_of (def.Primitive kind.U8 ∷ [])) 0 1 (plain 255)
        ≡ taken (Values.Unsigned 255) }
    ensures over { taking (table_of (def.Primitive kind.U8 ∷ [])) 0 1 (string (codes "256"))
        ≡ refused mismatch }
    ensures least { taking (table_of (def.Primitive kind.I8 ∷ [])) 0 1 (string (codes "-128"))
        ≡ taken (Values.Signed (negsuc 127)) }
    ensures under { taking (table_of (def.Primitive kind.I8 ∷ [])) 0 1
        (number (negative (negsuc 128))) ≡ refused mismatch }
    ensures positive { taking (table_of (def.Primitive kind.I8 ∷ [])) 0 1 (plain 5)
        ≡ taken (Values.Signed (pos 5)) }
    ensures large { taking (compact_of kind.U128) 0 1 (string (codes "18446744073709551616"))
        ≡ taken (Values.Unsigned 18446744073709551616) }
    ensures signed { taking (compact_of kind.I32) 0 1 (plain 1) ≡ refused unsupported }
    ensures nothing { taking (table_of (def.Primitive kind.Bool ∷ [])) 0 1 null ≡ refused mismatch }
{}

/// Fields of a struct: an object with just these keys. Where a name comes twice, an array.
pub fn fields()
    ensures named { taking named_fields 0 1
        (object (member (codes "a") (plain 7) (member (codes "b") (boolean true) no_members)))
        ≡ taken (Values.Record
        ((Some (codes "a"), Values.Unsigned 7) ∷ (Some (codes "b"), Values.Bool true) ∷ [])) }
    ensures missing { taking named_fields 0 1 (one_member (codes "a") (plain 7))
        ≡ refused mismatch }
    ensures unknown { taking named_fields 0 1
        (object (member (codes "a") (plain 7) (member (codes "c") (boolean true) no_members)))
        ≡ refused mismatch }
    ensures array { taking named_fields 0 1 (array_of (plain 7 ∷ boolean true ∷ []))
        ≡ refused mismatch }
    ensures twice { taking one_name_twice 0 1 (array_of (plain 7 ∷ plain 8 ∷ []))
        ≡ taken (Values.Record
        ((Some (codes "a"), Values.Unsigned 7) ∷ (Some (codes "a"), Values.Unsigned 8) ∷ [])) }
    ensures once { taking one_name_twice 0 1 (one_member (codes "a") (plain 7))
        ≡ refused mismatch }
{}

/// Variants by their names. Of two variants with one index the first alone is taken, and where
/// variants share a name, the index says which one is meant.
pub fn variants()
    ensures name { taking equal_indices 0 1 (string (codes "A"))
        ≡ taken (Values.Variant (codes "A") 3 []) }
    ensures empty { taking equal_indices 0 1 (one_member (codes "A") (array_of []))
        ≡ taken (Values.Variant (codes "A") 3 []) }
    ensures filled { taking equal_indices 0 1
        (one_member (codes "A") (array_of (boolean true ∷ []))) ≡ refused mismatch }
    ensures hidden { taking equal_indices 0 1
        (one_member (codes "B") (array_of (boolean true ∷ []))) ≡ refused mismatch }
    ensures none { taking equal_indices 0 1 (string (codes "C")) ≡ refused mismatch }
    ensures shared { taking shared_names 0 1 (one_member (codes "A") (array_of (plain 3 ∷ [])))
        ≡ taken (Values.Variant (codes "A") 3 []) }
    ensures with_fields { taking shared_names 0 1 (one_member (codes "A")
        (array_of (plain 4 ∷ one_member (codes "n") (boolean true) ∷ [])))
        ≡ taken (Values.Variant (codes "A") 4 ((Some (codes "n"), Values.Bool true) ∷ [])) }
    ensures ambiguous { taking shared_names 0 1 (string (codes "A")) ≡ refused mismatch }
    ensures without_index { taking shared_names 0 1
        (one_member (codes "A") (one_member (codes "n") (boolean true))) ≡ refused mismatch }
{}

/// A map is an array of arrays of two.
pub fn maps()
    ensures one { taking map_of_u32_to_bool 0 1
        (array_of (array_of (plain 7 ∷ boolean true ∷ []) ∷ []))
        ≡ taken (Values.List (Values.List (Values.Unsigned 7 ∷ Values.Bool true ∷ []) ∷ [])) }
    ensures object { taking map_of_u32_to_bool 0 1 (one_member (codes "7") (boolean true))
        ≡ refused mismatch }
    ensures key_alone { taking map_of_u32_to_bool 0 1 (array_of (array_of (plain 7 ∷ []) ∷ []))
        ≡ refused mismatch }
    ensures deeper { taking map_of_u32_to_bool 0 127
        (array_of (array_of (plain 7 ∷ boolean true ∷ []) ∷ [])) ≡ refused too_deep }
{}
