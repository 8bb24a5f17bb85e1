//! What became of a path.

use scale_info_collections::text::Text;

/// What became of a path between two tables.
#[derive(Debug, Drop, PartialEq, Eq)]
pub enum Change {
    /// Types of the old table have the path, and none of the new one.
    Removed(Text),
    /// Types of the new table have the path, and none of the old one.
    Added(Text),
    /// Types of both tables have the path, and they are not the same.
    Changed(Text),
}
