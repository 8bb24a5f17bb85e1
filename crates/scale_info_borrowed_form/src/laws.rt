//! The law of borrowed descriptions. A law does nothing when it runs: its contract is the law.
ghost use Rattle.scale_info_bytes.specs.Encodings.{HasNoPrefix, HasPrefix};
ghost use Rattle.scale_info_grammar.specs.Ty.{EncodesDescription};
ghost use Rattle.scale_info_types.specs.Portable.{Description};
ghost use Rattle.std.specs.Prelude.{◌≡◌, ℕ, List};

/// A description that is borrowed is the one that is owned: where an input begins with a
/// description, no decoding refuses it as malformed, and whatever description and rest one decoding
/// returns are those that any other does, whether its strings are borrowed or owned.
pub fn borrowed_description_is_owned()
    ensures decoded { (input rest : List ℕ) (ty : Description)
        → HasPrefix (EncodesDescription ty) input rest
        → ¬ (HasNoPrefix EncodesDescription input) }
    ensures same { (input rest other_rest : List ℕ) (borrowed owned : Description)
        → HasPrefix (EncodesDescription borrowed) input rest
        → HasPrefix (EncodesDescription owned) input other_rest
        → (borrowed ≡ owned) × (rest ≡ other_rest) }
{}
