//! Types of a table as a graph.

pub use scale_info_table_dot::error::GraphError;
pub use scale_info_table_dot::graph::append_graph;
