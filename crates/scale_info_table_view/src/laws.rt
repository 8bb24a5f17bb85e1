//! The law of views. A law does nothing when it runs: its contract is the law.
ghost use Rattle.std.specs.Prelude.{◌≡◌, List, ℕ};
ghost use Rattle.scale_info_bytes.specs.Encodings.{HasNoPrefix, HasPrefix};
ghost use Rattle.scale_info_table.specs.TableEncoding.{EncodesRegistry};
ghost use Rattle.scale_info_table.specs.declared.portable.PortableRegistry as tables;

/// What is viewed is what is decoded: where an input begins with a table, no view refuses it, and
/// whatever table a view of it shows, and whatever rest it returns, are those that
/// [`PortableRegistry::decode`](scale_info_table::portable::PortableRegistry::decode) returns.
pub fn viewed_is_decoded()
    ensures shown { (input rest : List ℕ) (table : tables.PortableRegistry)
        → HasPrefix (EncodesRegistry table) input rest → ¬ (HasNoPrefix EncodesRegistry input) }
    ensures same { (input rest other_rest : List ℕ) (table viewed : tables.PortableRegistry)
        → HasPrefix (EncodesRegistry table) input rest
        → HasPrefix (EncodesRegistry viewed) input other_rest
        → (viewed ≡ table) × (other_rest ≡ rest) }
{}
