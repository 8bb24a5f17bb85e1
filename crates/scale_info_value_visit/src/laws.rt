//! Laws of the events of values. A law does nothing when it runs: its contract is the law.
ghost use Rattle.std.specs.Prelude.{◌≡◌, ℕ, List, map};
ghost use Rattle.std.specs.List.{flat_map};
ghost use Rattle.scale_info_table.specs.declared.portable.PortableRegistry.{PortableRegistry};
ghost use Rattle.scale_info_value.specs.declared.value.Value as value_type;
ghost use Rattle.scale_info_value.specs.declared.value.Failure as failures;
ghost use Rattle.scale_info_value.specs.Outcomes.{decoded, failed};
ghost use Rattle.scale_info_value.specs.Readings.{reading};
ghost use Rattle.scale_info_value_visit.specs.Events.{events, events_of, one_by_one, untyped};
ghost use Rattle.scale_info_value_visit.specs.Reads.{read_of, events_read};
ghost use Rattle.scale_info_value_visit.specs.Visits.{HasRest};

pub mod examples;

/// What a type says of a value's events is which lists are bytes, which variants share their name,
/// and what the table has of records, variants and fields, and nothing else. Where bytes are shown
/// one by one, no name counts as shared and the table's part is left out, the events of a value of
/// any type are those of the value alone.
///
/// The bytes `[1, 2]` are one event, and one by one they are the beginning of a list of two, 1, 2
/// and the end of the list.
pub fn events_one_by_one()
    ensures { (table : PortableRegistry) (id : ℕ) (value : value_type.Value)
        → flat_map one_by_one (map untyped (events table id value)) ≡ events_of value }
{}

/// What is read of bytes is what is decoded of them. Where they begin with a value, its events are
/// read, and the rest is left; where they do not, some events are read, and the failure is the
/// same; and so the other way round.
pub fn read_is_decoded()
    ensures events { (table : PortableRegistry) (id : ℕ) (input : List ℕ) (value : value_type.Value)
        (rest : List ℕ) → reading table id 1 input ≡ decoded value rest
        → events_read table id input ≡ events table id value }
    ensures rest { (table : PortableRegistry) (id : ℕ) (input : List ℕ) (value : value_type.Value)
        (rest : List ℕ) → reading table id 1 input ≡ decoded value rest
        → (read_of table id input).end ≡ decoded tt rest }
    ensures failure { (table : PortableRegistry) (id : ℕ) (input : List ℕ) (why : failures.Failure)
        → reading table id 1 input ≡ failed why → (read_of table id input).end ≡ failed why }
    ensures value { (table : PortableRegistry) (id : ℕ) (input rest : List ℕ)
        → (read_of table id input).end ≡ decoded tt rest
        → HasRest (reading table id 1 input) rest }
    ensures none { (table : PortableRegistry) (id : ℕ) (input : List ℕ) (why : failures.Failure)
        → (read_of table id input).end ≡ failed why → reading table id 1 input ≡ failed why }
{}
