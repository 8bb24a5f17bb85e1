//! The definitions tried on small examples. The functions do nothing when they run.

pub use scale_info_laws::examples::{order_of_references, shapes};
pub use scale_info_numberings::laws::examples::{
    cycle, four_composites, loop_at_itself, matches, order_of_roots, outside, paths, pruned_table,
    two_registrations, unfoldings,
};
pub use scale_info_table::laws::examples::indices_are_nodes;
pub use scale_info_value::laws::examples::{depths, fields, integers, lists, maps};
pub use scale_info_value_visit::laws::examples::{fields_read, lists_read, maps_read};
