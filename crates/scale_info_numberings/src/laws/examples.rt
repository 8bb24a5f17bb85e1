//! The definitions tried on small systems, so that one which nothing meets, or which too much
//! meets, is caught. A function here does nothing when it runs; its clauses are proved.
//!
//! The composites are `struct C {}`, `struct A { b: B, c: C }`, `struct B { d: D }` and
//! `struct D { a: A }`.

ghost use Rattle.scale_info_numberings.specs.NumberingExamples.{
  A,
  B,
  C,
  Composite,
  D,
  composites,
  cycle_of_three,
  cycle_of_two,
  leads_inside,
  leads_outside,
  registration_of_c,
  registration_of_d,
  self_reference,
  table_as_declared,
  table_from_a,
};
ghost use Rattle.scale_info_numberings.specs.Extensions.{IsExtension};
ghost use Rattle.scale_info_numberings.specs.Matches.{IsMatch};
ghost use Rattle.scale_info_numberings.specs.Numberings.{IsNumbering, IsNumberingWith};
ghost use Rattle.scale_info_numberings.specs.Paths.{IsPath};
ghost use Rattle.scale_info_numberings.specs.RegistrationLists.{AreRegistrations};
ghost use Rattle.scale_info_numberings.specs.Systems.{Entry, IsFirstOutside, IsReached};
ghost use Rattle.scale_info_numberings.specs.Systems.{IsReachedPast, looks};
ghost use Rattle.scale_info_numberings.specs.Tables.{IsTable, table_system};
ghost use Rattle.scale_info_numberings.specs.Unfoldings.{cut, missing, no_trees, node, tree};
ghost use Rattle.scale_info_numberings.specs.Unfoldings.{unfold_to};
ghost use Rattle.std.specs.Prelude.{◌≡◌, ◌∷◌, [], List, None, codes, ℕ};

/// From A the composites number A, B, D, C: from A on to B, from B to D, which refers back to A,
/// and then to C. What is discovered from A and from C ends at 4, what is discovered from B and
/// from D at 3. Neither the breadth-first order nor the order of their declarations is a numbering.
/// Four references are looked at.
pub fn four_composites()
    ensures numbering { IsNumberingWith composites (A ∷ []) (A ∷ B ∷ D ∷ C ∷ [])
        (4 ∷ 3 ∷ 3 ∷ 4 ∷ []) }
    ensures no_other { (L : List Composite)
        → IsNumbering composites (A ∷ []) L → L ≡ A ∷ B ∷ D ∷ C ∷ [] }
    ensures breadth_first { ¬ (IsNumbering composites (A ∷ []) (A ∷ B ∷ C ∷ D ∷ [])) }
    ensures as_declared { ¬ (IsNumbering composites (A ∷ []) (C ∷ A ∷ B ∷ D ∷ [])) }
    ensures table { IsTable composites (A ∷ B ∷ D ∷ C ∷ []) table_from_a }
    ensures no_other_table { (T : List (Entry (List ℕ) ℕ))
        → IsTable composites (A ∷ B ∷ D ∷ C ∷ []) T → T ≡ table_from_a }
    ensures count { looks composites (A ∷ B ∷ D ∷ C ∷ []) ≡ 4 }
{}

/// The order of the roots counts. From A and then C the composites number A, B, D, C, and from C
/// and then A they number C, A, B, D.
pub fn order_of_roots()
    ensures a_before_c { IsNumberingWith composites (A ∷ C ∷ []) (A ∷ B ∷ D ∷ C ∷ [])
        (4 ∷ 3 ∷ 3 ∷ 4 ∷ []) }
    ensures c_before_a { IsNumberingWith composites (C ∷ A ∷ []) (C ∷ A ∷ B ∷ D ∷ [])
        (1 ∷ 4 ∷ 4 ∷ 4 ∷ []) }
    ensures not_exchanged { ¬ (IsNumbering composites (C ∷ A ∷ []) (A ∷ B ∷ D ∷ C ∷ [])) }
{}

/// A, B, D is a path from A to D. A, D is none, since A does not refer to D. Where B is known, C is
/// still reached from A, and D is not.
pub fn paths()
    ensures to_d { IsPath composites (A ∷ []) (A ∷ B ∷ D ∷ []) D }
    ensures no_path { ¬ (IsPath composites (A ∷ []) (A ∷ D ∷ []) D) }
    ensures past_b { IsReachedPast composites (B ∷ []) (A ∷ []) C }
    ensures not_past_b { ¬ (IsReachedPast composites (B ∷ []) (A ∷ []) D) }
{}

/// Where C is registered and then D, the numbered composites are C, D, A, B, as if both had been
/// registered in one go; the order C, A, B, D is none that D brings. To register B where A, B, D, C
/// are numbered changes nothing.
pub fn two_registrations()
    ensures extension { IsExtension composites (C ∷ []) (D ∷ []) (C ∷ D ∷ A ∷ B ∷ []) }
    ensures another_order { ¬ (IsExtension composites (C ∷ []) (D ∷ []) (C ∷ A ∷ B ∷ D ∷ [])) }
    ensures one_after_another { AreRegistrations registration_of_c (registration_of_d ∷ []) }
    ensures in_one_go { IsNumbering composites (C ∷ D ∷ []) (C ∷ D ∷ A ∷ B ∷ []) }
    ensures known { IsExtension composites (A ∷ B ∷ D ∷ C ∷ []) (B ∷ []) (A ∷ B ∷ D ∷ C ∷ []) }
{}

/// In the table of A, B, D, C, where D is 2, the numbering from 2 is 2, 0, 1, 3: D, A, B, C.
pub fn pruned_table()
    ensures { IsNumberingWith (table_system table_from_a) (2 ∷ []) (2 ∷ 0 ∷ 1 ∷ 3 ∷ [])
        (4 ∷ 4 ∷ 3 ∷ 4 ∷ []) }
{}

/// Where 0 refers to 1, 1 to 2 and 2 to 0, the numbering from 2 is 2, 0, 1. The ascending order is
/// none.
pub fn cycle()
    ensures numbering { IsNumberingWith cycle_of_three (2 ∷ []) (2 ∷ 0 ∷ 1 ∷ []) (3 ∷ 3 ∷ 3 ∷ []) }
    ensures ascending { ¬ (IsNumbering cycle_of_three (2 ∷ []) (0 ∷ 1 ∷ 2 ∷ [])) }
{}

/// A node that refers to itself is numbered once, also where it is a root twice, and not at all
/// where it is no root.
pub fn loop_at_itself()
    ensures once { IsNumberingWith self_reference (0 ∷ []) (0 ∷ []) (1 ∷ []) }
    ensures twice_a_root { IsNumberingWith self_reference (0 ∷ 0 ∷ []) (0 ∷ []) (1 ∷ []) }
    ensures no_roots { IsNumberingWith self_reference [] [] [] }
    ensures unreached { ¬ (IsNumbering self_reference [] (0 ∷ [])) }
{}

/// Where 0 refers to 2 and 2 lies outside, 2 is reached from 0, and there is no numbering from 0. It
/// is the first outside from 1 and 0. There is a numbering from 1, which does not reach 2. The system matches itself, with 2 taken to 2, and
/// matches none that has a node in the place of 2.
pub fn outside()
    ensures is_outside { leads_outside 2 ≡ None }
    ensures reached { IsReached leads_outside (0 ∷ []) 2 }
    ensures first { IsFirstOutside leads_outside [] (1 ∷ 0 ∷ []) 2 }
    ensures no_numbering { (L : List ℕ) → ¬ (IsNumbering leads_outside (0 ∷ []) L) }
    ensures another_root { IsNumberingWith leads_outside (1 ∷ []) (1 ∷ []) (1 ∷ []) }
    ensures matches_itself { IsMatch leads_outside (0 ∷ []) leads_outside (0 ∷ [])
        ((0, 0) ∷ (2, 2) ∷ []) }
    ensures no_match { ¬ ((pairs : List (ℕ × ℕ))
        × IsMatch leads_outside (0 ∷ []) leads_inside (0 ∷ []) pairs) }
{}

/// The composites match a table of them in another order, in which A is 1. They match none in which
/// the shape of C is another one.
pub fn matches()
    ensures same { (pairs : List (Composite × ℕ))
        × IsMatch composites (A ∷ []) (table_system (table_as_declared (codes "C {}")))
        (1 ∷ []) pairs }
    ensures another_shape { ¬ ((pairs : List (Composite × ℕ))
        × IsMatch composites (A ∷ []) (table_system (table_as_declared (codes "E {}")))
        (1 ∷ []) pairs) }
{}

/// A down to depth 2 is its shape over the shapes of B and C, with a cut in the place of D. What
/// lies outside is missing. A node that refers to itself and two that refer to each other unfold
/// alike to every depth, and yet do not match.
pub fn unfoldings()
    ensures to_two { unfold_to 2 composites A
        ≡ node (codes "A { b, c }")
        (tree (node (codes "B { d }") (tree cut no_trees))
        (tree (node (codes "C {}") no_trees) no_trees)) }
    ensures outside { unfold_to 2 leads_outside 0 ≡ node 7 (tree missing no_trees) }
    ensures loops_unfold_alike { (depth : ℕ)
        → unfold_to depth self_reference 0 ≡ unfold_to depth cycle_of_two 0 }
    ensures loops_do_not_match { ¬ ((pairs : List (ℕ × ℕ))
        × IsMatch self_reference (0 ∷ []) cycle_of_two (0 ∷ []) pairs) }
{}
