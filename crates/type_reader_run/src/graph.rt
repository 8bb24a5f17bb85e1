//! Graphs.
ghost use Rattle.std.specs.Prelude.{[], IfOk, IfErr, List, ℕ};
ghost use Rattle.scale_info_table_dot.specs.GraphTexts.{AppendsGraph, IsGraphError};
ghost use Rattle.scale_info_table.specs.declared.portable.PortableRegistry as registries;
ghost use Rattle.type_reader_run.specs.Refusals.{IsLeadingError};

use scale_info_table::portable::PortableRegistry;
use scale_info_table_dot::error::GraphError;
use scale_info_table_dot::graph::append_graph;
use std::alloc::Global;
use type_reader_io::error::ReaderError;

/// The program's error for one of a graph. That of a table with more entries than bytes encode is
/// as that of an allocation.
fn error_of(error: GraphError) -> ReaderError
    ensures { (table : registries.PortableRegistry) → (ids : List ℕ) → IsGraphError table ids error
        → IsLeadingError table.types ids result }
{
    match error {
        GraphError::Dangling { id } => ReaderError::Dangling(id),
        _ => ReaderError::Memory,
    }
}

/// The graph of what the ids reach, which are all indices of the table.
///
/// Errors: `Dangling`, where an id is reached that is no index; `Memory`, if an allocation failed.
pub fn graph_of(
    alloc: Global,
    table: &PortableRegistry,
    ids: &[u32],
) -> Result<Vec<u8>, ReaderError>
    ensures ok { IfOk result (λ output. AppendsGraph table.now ids.now [] output.items) }
    ensures err { IfErr result (IsLeadingError table.now.types ids.now) }
{
    let mut out = String::new(alloc);
    match append_graph(alloc, table, ids, &mut out) {
        Ok(()) => Ok(out.into_bytes()),
        Err(error) => Err(error_of(error)),
    }
}
