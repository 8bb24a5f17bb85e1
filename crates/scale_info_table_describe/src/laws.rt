//! What the tests of searches by paths mean. Nothing here does any work when it runs.
ghost use Rattle.std.specs.Prelude.{◌≡◌, ◌↔◌, IsTrue, List};
ghost use Rattle.scale_info_types.specs.Portable.{Text};
ghost use Rattle.scale_info_table_describe.specs.PathSearches.{StandInARow, is_path, stands_in};

/// A search for a whole path finds it exactly where the segments are the same, and one for segments
/// in a row exactly where the path is some segments, these, and some others.
pub fn found_paths()
    ensures whole { (segments path : List Text)
        → IsTrue (is_path segments path) ↔ (path ≡ segments) }
    ensures in_a_row { (segments path : List Text)
        → IsTrue (stands_in segments path) ↔ StandInARow segments path }
{}
