//! References and shapes tried on small descriptions, so that a definition which is met by another
//! order or by another shape is caught. A function here does nothing when it runs; its clauses are
//! proved.
ghost use Rattle.scale_info_types.specs.TypeExamples.{
  array,
  bit_sequence,
  example_pair,
  id,
  key_values,
  with_parameters,
  with_variants,
};
ghost use Rattle.scale_info_types.specs.References.{references};
ghost use Rattle.scale_info_types.specs.Shapes.{shape};
ghost use Rattle.std.specs.Prelude.{◌≡◌, ◌≢◌, ◌∷◌, []};

/// The references of `struct P<S, T> { a: u8, b: T }` at a skipped `S` and the type `bool` are
/// `bool`, `u8`, `bool`: the parameters that aren't skipped come before the fields. An enum refers
/// variant by variant, a bit sequence to its store and then to its order, and a map to its keys and
/// then to its values.
pub fn order_of_references()
    ensures parameters { references with_parameters ≡ id 0 ∷ id 1 ∷ id 0 ∷ [] }
    ensures variants { references with_variants ≡ id 3 ∷ id 4 ∷ id 2 ∷ [] }
    ensures bit_sequence { references (bit_sequence 5 6) ≡ id 5 ∷ id 6 ∷ [] }
    ensures map { references (key_values 5 6) ≡ id 5 ∷ id 6 ∷ [] }
{}

/// `(u8, u16)` and `(u16, u8)` have one shape and other references. Arrays of two lengths have two
/// shapes, and so have a bit sequence and a map with the same references.
pub fn shapes()
    ensures same { shape (λ text. text) (example_pair 1 2)
        ≡ shape (λ text. text) (example_pair 2 1) }
    ensures other_references { references (example_pair 1 2) ≢ references (example_pair 2 1) }
    ensures other_lengths { shape (λ text. text) (array 3 1) ≢ shape (λ text. text) (array 4 1) }
    ensures other_variants { shape (λ text. text) (bit_sequence 1 2)
        ≢ shape (λ text. text) (key_values 1 2) }
{}
