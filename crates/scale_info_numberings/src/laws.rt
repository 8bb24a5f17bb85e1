//! Laws of numberings, over systems of any type of shapes and any type of nodes.
//!
//! A law does nothing when it runs: its contract is the law, and a caller whose own proof needs it
//! calls it.
//!
//! The examples below speak of `struct C {}`, `struct A { b: B, c: C }`, `struct B { d: D }` and
//! `struct D { a: A }`. In depth-first order of discovery they are A, B, D, C from A on, with the
//! numbers 0, 1, 2, 3.

ghost use Rattle.scale_info_numberings.specs.Extensions.{IsExtension, IsExtensionByOne};
ghost use Rattle.scale_info_numberings.specs.Matches.{IsMatch, Pairs};
ghost use Rattle.scale_info_numberings.specs.Numberings.{IsNumbering};
ghost use Rattle.scale_info_numberings.specs.Paths.{IsPath, IsPathPast};
ghost use Rattle.scale_info_numberings.specs.RegistrationLists.{
  AreRegistrations,
  Registration,
  all_roots,
  last_registration,
};
ghost use Rattle.scale_info_numberings.specs.Systems.{Entry, Grows, IsReached, IsReachedPast};
ghost use Rattle.scale_info_numberings.specs.Systems.{IsFirstOutside, System};
ghost use Rattle.scale_info_numberings.specs.Tables.{ArePlaces, IsTable, all_places, table_system};
ghost use Rattle.scale_info_numberings.specs.Unfoldings.{unfold_to};
ghost use Rattle.std.specs.List.{AllZip};
ghost use Rattle.std.specs.Prelude.{
  ◌≡◌,
  ◌<◌,
  ◌++◌,
  ◌∷◌,
  ◌↔◌,
  ◌⊎◌,
  [],
  Contains,
  List,
  None,
  Some,
  length,
  slice_get,
  ℕ,
};

pub mod examples;

/// A node is reached exactly where a path leads to it: a list of names that begins with a root and
/// ends with the node, in which each name but the last is in the system and each next one is among
/// the references of the one before. It is reached past known nodes exactly where there is such a
/// list with no known name in it.
///
/// From A the path A, B, D leads to D. Past B no path leads there, and C is still reached, by A, C.
pub fn reached_by_path<Shape, Node>()
    ensures reached { (S : System Shape Node) (roots : List Node) (n : Node)
        → IsReached S roots n ↔ ((names : List Node) × IsPath S roots names n) }
    ensures past { (S : System Shape Node) (known roots : List Node) (n : Node)
        → IsReachedPast S known roots n ↔ ((names : List Node) × IsPathPast S known roots names n) }
{}

/// The first name outside the system that is met from the roots is reached past what is known, lies
/// outside, and is one.
///
/// Where D is missing, it is the first from A, after B; where B and C are missing, it is B.
pub fn first_outside<Shape, Node>()
    ensures reached { (S : System Shape Node) (known roots : List Node) (n : Node)
        → IsFirstOutside S known roots n → IsReachedPast S known roots n }
    ensures outside { (S : System Shape Node) (known roots : List Node) (n : Node)
        → IsFirstOutside S known roots n → S n ≡ None }
    ensures one { (S : System Shape Node) (known roots : List Node) (n m : Node)
        → IsFirstOutside S known roots n → IsFirstOutside S known roots m → n ≡ m }
{}

/// Two numberings of one system from one list of roots are equal, with cycles too: the references
/// and their order leave no choice.
///
/// From A there is the numbering A, B, D, C and no other, though A is reached again from D.
pub fn one_numbering<Shape, Node>()
    ensures { (S : System Shape Node) (roots L M : List Node)
        → IsNumbering S roots L → IsNumbering S roots M → L ≡ M }
{}

/// Two extensions of one list by one list of roots are equal.
///
/// C extended by D is C, D, A, B, and nothing else.
pub fn one_extension<Shape, Node>()
    ensures { (S : System Shape Node) (K roots L M : List Node)
        → IsExtension S K roots L → IsExtension S K roots M → L ≡ M }
{}

/// A numbering is an extension of the empty list, and an extension of the empty list is a
/// numbering.
///
/// A, B, D, C extends the empty list by A.
pub fn numbering_extends_nothing<Shape, Node>()
    ensures { (S : System Shape Node) (roots L : List Node)
        → IsNumbering S roots L ↔ IsExtension S [] roots L }
{}

/// What extends a numbering from some roots by more of them is a numbering from both lists joined;
/// an extension of an extension is one by both lists joined.
///
/// C is the numbering from C, and C, D, A, B extends it by D. So C, D, A, B is the numbering from
/// C, D.
pub fn extension_composes<Shape, Node>()
    ensures numbering { (S : System Shape Node) (roots L more M : List Node)
        → IsNumbering S roots L → IsExtension S L more M → IsNumbering S (roots ++ more) M }
    ensures extension { (S : System Shape Node) (K roots L more M : List Node)
        → IsExtension S K roots L → IsExtension S L more M → IsExtension S K (roots ++ more) M }
{}

/// A list M extends L by n and more roots exactly in two cases. Either n stands in L, and M extends
/// L by the others; or n is a node of the system that does not stand in L, and M extends L followed
/// by n, by the references of n and then the others.
///
/// To extend C by D is to extend C, D by A; to extend C, D, A by C is to change nothing.
pub fn extension_unfolds<Shape, Node>()
    ensures { (S : System Shape Node) (L : List Node) (n : Node) (more M : List Node)
        → IsExtension S L (n ∷ more) M ↔ IsExtensionByOne S L n more M }
{}

/// A numbering under one system is a numbering under every system that holds the first one's nodes
/// unchanged, and so is an extension.
///
/// A type added to the catalogue leaves A, B, D, C the numbering from A.
pub fn growth_keeps<Shape, Node>()
    ensures numbering { (S T : System Shape Node) (roots L : List Node)
        → Grows S T → IsNumbering S roots L → IsNumbering T roots L }
    ensures extension { (S T : System Shape Node) (K roots L : List Node)
        → Grows S T → IsExtension S K roots L → IsExtension T K roots L }
{}

/// After one registration or more under a catalogue that only grew, the numbered nodes are the
/// numbering of the last catalogue from all roots, joined in the order of the registrations.
///
/// C registered and then A gives what C, A in one go gives: C, A, B, D.
pub fn any_registrations<Shape, Node>()
    ensures { (first : Registration Shape Node) (later : List (Registration Shape Node))
        → IsExtension first.catalogue [] first.roots first.numbered → AreRegistrations first later
        → IsNumbering (last_registration first later).catalogue (all_roots (first ∷ later))
        (last_registration first later).numbered }
{}

/// A numbering holds what is reached from its roots, no more and no less. An extension holds what
/// was there and what is reached past that.
///
/// From B all four are reached, so the numbering from B holds all four. C extended by D holds C,
/// and D, A and B, which are reached past C.
pub fn reached_exactly<Shape, Node>()
    ensures numbering { (S : System Shape Node) (roots L : List Node)
        → IsNumbering S roots L → (n : Node) → Contains L n ↔ IsReached S roots n }
    ensures extension { (S : System Shape Node) (K roots L : List Node)
        → IsExtension S K roots L
        → (n : Node) → Contains L n ↔ (Contains K n ⊎ IsReachedPast S K roots n) }
{}

/// Where there is a numbering, each name that is reached is a node of the system; where there is an
/// extension, each name that is reached past what it extends.
///
/// Without D in the catalogue there is no numbering from A.
pub fn reached_inside<Shape, Node>()
    ensures numbering { (S : System Shape Node) (roots L : List Node)
        → IsNumbering S roots L
        → (n : Node) → IsReached S roots n → (d : Entry Shape Node) × (S n ≡ Some d) }
    ensures extension { (S : System Shape Node) (K roots L : List Node)
        → IsExtension S K roots L
        → (n : Node) → IsReachedPast S K roots n → (d : Entry Shape Node) × (S n ≡ Some d) }
{}

/// A numbering has a table, and only one.
///
/// The table of A, B, D, C has the shapes of these four with the references 1, 3 of A, 2 of B, 0 of
/// D and none of C.
pub fn one_table<Shape, Node>()
    ensures some { (S : System Shape Node) (roots L : List Node)
        → IsNumbering S roots L → (T : List (Entry Shape ℕ)) × IsTable S L T }
    ensures one { (S : System Shape Node) (roots L : List Node) (T U : List (Entry Shape ℕ))
        → IsNumbering S roots L → IsTable S L T → IsTable S L U → T ≡ U }
{}

/// The roots of a numbering have places in it, and only one list of places.
///
/// In the numbering from A, D, which is A, B, D, C, the roots have the places 0, 2.
pub fn one_list_of_places<Shape, Node>()
    ensures some { (S : System Shape Node) (roots L : List Node)
        → IsNumbering S roots L → (places : List ℕ) × ArePlaces L roots places }
    ensures one { (S : System Shape Node) (roots L : List Node) (places others : List ℕ)
        → IsNumbering S roots L → ArePlaces L roots places → ArePlaces L roots others
        → places ≡ others }
{}

/// Each reference in a table is one of the table's places.
///
/// The table of A, B, D, C refers to 0, 1, 2 and 3 alone.
pub fn closed<Shape, Node>()
    ensures { (S : System Shape Node) (L : List Node) (T : List (Entry Shape ℕ))
        → IsTable S L T → (i : ℕ) (t : Entry Shape ℕ) → slice_get T i ≡ Some t
        → (p : ℕ) → Contains t.refs p → p < length T }
{}

/// An extension, under a system that may have grown, leaves each entry of the table as it was.
///
/// Where D extends C to C, D, A, B, entry 0 of the table is still that of C, and three entries are
/// new.
pub fn old_entries_stay<Shape, Node>()
    ensures { (S U : System Shape Node) (L roots M : List Node) (T V : List (Entry Shape ℕ))
        → Grows S U → IsExtension U L roots M → IsTable S L T → IsTable U M V
        → (i : ℕ) (t : Entry Shape ℕ) → slice_get T i ≡ Some t → slice_get V i ≡ Some t }
{}

/// On the table of a numbering, the numbering from all places in order is all places in order, and
/// its table is that table: to keep everything changes nothing.
///
/// On the table of A, B, D, C the numbering from 0, 1, 2, 3 is 0, 1, 2, 3.
pub fn keep_all_is_identity<Shape, Node>()
    ensures numbering { (S : System Shape Node) (roots L : List Node) (T : List (Entry Shape ℕ))
        → IsNumbering S roots L → IsTable S L T
        → (K : List ℕ) → IsNumbering (table_system T) (all_places T) K ↔ (K ≡ all_places T) }
    ensures table { (S : System Shape Node) (roots L : List Node) (T : List (Entry Shape ℕ))
        → IsNumbering S roots L → IsTable S L T → IsTable (table_system T) (all_places T) T }
{}

/// To prune a table is to number afresh. Take a table of a numbering of a system, and a numbering
/// of the table from chosen places, in any order. Each of these places is the place of a node; read
/// so, the second numbering is one of the system, from the chosen nodes, and both have the same
/// table.
///
/// In the table of A, B, D, C the numbering from 2 is 2, 0, 1, 3. Read as nodes it is D, A, B, C,
/// the numbering from D.
pub fn fresh_equals_pruned<Shape, Node>()
    ensures reading { (S : System Shape Node) (roots L : List Node) (T : List (Entry Shape ℕ))
        (chosen K : List ℕ)
        → IsNumbering S roots L → IsTable S L T → IsNumbering (table_system T) chosen K
        → (tops M : List Node) × ArePlaces L tops chosen × ArePlaces L M K }
    ensures numbering { (S : System Shape Node) (roots L : List Node) (T : List (Entry Shape ℕ))
        (chosen K : List ℕ)
        → IsNumbering S roots L → IsTable S L T → IsNumbering (table_system T) chosen K
        → (tops M : List Node) → ArePlaces L tops chosen → ArePlaces L M K → IsNumbering S tops M }
    ensures table { (S : System Shape Node) (roots L : List Node) (T : List (Entry Shape ℕ))
        (chosen K : List ℕ)
        → IsNumbering S roots L → IsTable S L T → IsNumbering (table_system T) chosen K
        → (tops M : List Node) → ArePlaces L tops chosen → ArePlaces L M K
        → (U : List (Entry Shape ℕ)) → IsTable (table_system T) K U ↔ IsTable S M U }
{}

/// A node and its place in the table unfold to the same tree, at every depth.
///
/// A down to depth 2 is its own shape over the shapes of B and C, with a cut under B; place 0 of
/// the table of A, B, D, C shows the same.
pub fn unfolds_alike<Shape, Node>()
    ensures { (S : System Shape Node) (L : List Node) (T : List (Entry Shape ℕ))
        → IsTable S L T → (depth i : ℕ) (n : Node) → slice_get L i ≡ Some n
        → unfold_to depth S n ≡ unfold_to depth (table_system T) i }
{}

/// A match takes the numbering of the one side to the numbering of the other, with the same table
/// and the same places of the roots.
///
/// Rename A, B, C, D to other names and leave the rest: the other names number in the same order,
/// to the same table.
pub fn match_carries<Shape, Node, Other>()
    ensures image { (S : System Shape Node) (roots : List Node) (U : System Shape Other)
        (tops : List Other) (pairs : List (Node × Other)) (L : List Node)
        → IsMatch S roots U tops pairs → IsNumbering S roots L
        → (M : List Other) × AllZip (λ n p. Pairs pairs n p) L M }
    ensures numbering { (S : System Shape Node) (roots : List Node) (U : System Shape Other)
        (tops : List Other) (pairs : List (Node × Other)) (L : List Node) (M : List Other)
        → IsMatch S roots U tops pairs → IsNumbering S roots L → AllZip (λ n p. Pairs pairs n p) L M
        → IsNumbering U tops M }
    ensures table { (S : System Shape Node) (roots : List Node) (U : System Shape Other)
        (tops : List Other) (pairs : List (Node × Other)) (L : List Node) (M : List Other)
        → IsMatch S roots U tops pairs → IsNumbering S roots L → AllZip (λ n p. Pairs pairs n p) L M
        → (T : List (Entry Shape ℕ)) → IsTable S L T ↔ IsTable U M T }
    ensures places { (S : System Shape Node) (roots : List Node) (U : System Shape Other)
        (tops : List Other) (pairs : List (Node × Other)) (L : List Node) (M : List Other)
        → IsMatch S roots U tops pairs → IsNumbering S roots L → AllZip (λ n p. Pairs pairs n p) L M
        → (places : List ℕ) → ArePlaces L roots places ↔ ArePlaces M tops places }
{}

/// Where two numberings have one table, and their roots the same places in order, a match exists.
///
/// Two programs may name the four types by numbers of their own: where both come to the same table
/// and the same number for A, a match takes the names of the one to those of the other.
pub fn match_found<Shape, Node, Other>()
    ensures { (S : System Shape Node) (roots L : List Node) (U : System Shape Other)
        (tops M : List Other) (T : List (Entry Shape ℕ)) (places : List ℕ)
        → IsNumbering S roots L → IsNumbering U tops M → IsTable S L T → IsTable U M T
        → ArePlaces L roots places → ArePlaces M tops places
        → (pairs : List (Node × Other)) × IsMatch S roots U tops pairs }
{}

/// The tables of two numberings are equal, and the places of their roots agree in order, exactly
/// where a match exists.
///
/// A single node that refers to itself and two nodes that refer to each other unfold alike to every
/// depth, yet have tables of one entry and of two: no match exists.
pub fn match_exactly<Shape, Node, Other>()
    ensures { (S : System Shape Node) (roots L : List Node) (U : System Shape Other)
        (tops M : List Other) (T V : List (Entry Shape ℕ)) (places others : List ℕ)
        → IsNumbering S roots L → IsNumbering U tops M → IsTable S L T → IsTable U M V
        → ArePlaces L roots places → ArePlaces M tops others
        → ((T ≡ V) × (places ≡ others))
        ↔ ((pairs : List (Node × Other)) × IsMatch S roots U tops pairs) }
{}
