//! The definition of what is read, tried on small tables by computation. A function here does
//! nothing when it runs.
ghost use Rattle.std.specs.Prelude.{◌≡◌, ◌∷◌, [], codes, true};
ghost use Rattle.scale_info_types.specs.TypeExamples.{example_field};
ghost use Rattle.scale_info_value.specs.ValueExamples.{list_of_u32, array_of_missing};
ghost use Rattle.scale_info_value.specs.ValueExamples.{named_fields, equal_indices};
ghost use Rattle.scale_info_value.specs.ValueExamples.{map_of_u32_to_bool};
ghost use Rattle.scale_info_value.specs.Outcomes.{no_such_type, malformed};
ghost use Rattle.scale_info_value_visit.specs.Events.{truth, unsigned, begin_list, end_list};
ghost use Rattle.scale_info_value_visit.specs.Events.{begin_fields, field_of};
ghost use Rattle.scale_info_value_visit.specs.Reads.{read_of, events_read, shows, fails};

/// A list of `u32`, with one byte after it; cut short in its second item; and at an id that is no
/// index. The item type of an empty list may be missing, and else no event is shown.
pub fn lists_read()
    ensures two { read_of list_of_u32 0 (8 ∷ 1 ∷ 0 ∷ 0 ∷ 0 ∷ 2 ∷ 0 ∷ 0 ∷ 0 ∷ 255 ∷ [])
        ≡ shows (begin_list 2 ∷ unsigned 1 ∷ unsigned 2 ∷ end_list ∷ []) (255 ∷ []) }
    ensures short { events_read list_of_u32 0 (8 ∷ 1 ∷ 0 ∷ 0 ∷ 0 ∷ 2 ∷ [])
        ≡ begin_list 2 ∷ unsigned 1 ∷ [] }
    ensures outside { read_of list_of_u32 2 (8 ∷ []) ≡ fails no_such_type }
    ensures missing { read_of (array_of_missing 0) 0 []
        ≡ shows (begin_list 0 ∷ end_list ∷ []) [] }
    ensures one_missing { read_of (array_of_missing 1) 0 [] ≡ fails no_such_type }
{}

/// Fields are shown as the table has them, up to one whose bytes are no value. No event is shown of
/// an index that no variant has.
pub fn fields_read()
    ensures second { events_read named_fields 0 (7 ∷ 2 ∷ [])
        ≡ begin_fields (example_field (codes "a") 1 ∷ example_field (codes "b") 2 ∷ [])
        ∷ field_of true (example_field (codes "a") 1) ∷ unsigned 7
        ∷ field_of true (example_field (codes "b") 2) ∷ [] }
    ensures none { read_of equal_indices 0 (2 ∷ 1 ∷ []) ≡ fails malformed }
{}

/// A map of no pairs; and one of two, of which the second is cut short after its key.
pub fn maps_read()
    ensures empty { read_of map_of_u32_to_bool 0 (0 ∷ [])
        ≡ shows (begin_list 0 ∷ end_list ∷ []) [] }
    ensures second { events_read map_of_u32_to_bool 0
        (8 ∷ 7 ∷ 0 ∷ 0 ∷ 0 ∷ 1 ∷ 9 ∷ 0 ∷ 0 ∷ 0 ∷ [])
        ≡ begin_list 2 ∷ begin_list 2 ∷ unsigned 7 ∷ truth true ∷ end_list
        ∷ begin_list 2 ∷ unsigned 9 ∷ [] }
{}
