//! Laws of metadata. Nothing here does any work when it runs.
ghost use Rattle.std.specs.Prelude.{◌≡◌, ◌↔◌, IsTrue, List, ℕ};
ghost use Rattle.scale_info_table_metadata.specs.declared.metadata.MetadataError as metadata_errors;
ghost use Rattle.scale_info_table_metadata.specs.declared.metadata.Source as sources;
ghost use Rattle.scale_info_table_metadata.specs.Metadata.{IsMetadata};

use crate::metadata::{MetadataError, Source};

/// An input is metadata in one way at most: alone, in a byte string or in an option of one.
pub fn one_metadata()
    ensures { (input after other : List ℕ)
        → IsMetadata after input → IsMetadata other input → after ≡ other }
{}

/// Sources are equal exactly where they are one value.
///
/// So metadata of version 14 is another source than metadata of version 15 or a table.
pub fn equal_sources()
    ensures { (a b : sources.Source) → IsTrue (⟦<Source as PartialEq>⟧.eq a b) ↔ (a ≡ b) }
{}

/// Errors of finding a table are equal exactly where they are one value.
///
/// So metadata of version 13 is refused otherwise than metadata of version 17.
pub fn equal_metadata_errors()
    ensures { (a b : metadata_errors.MetadataError)
        → IsTrue (⟦<MetadataError as PartialEq>⟧.eq a b) ↔ (a ≡ b) }
{}
