//! What some types of a table reach, as a graph.
ghost use Rattle.std.specs.Prelude.{◌≡◌, ◌<◌, ℕ, IfOk, IfErr, OnOk, OnErr, length, string_bytes};
ghost use Rattle.scale_info_table_describe.specs.TypeNames.{Appends};
ghost use Rattle.scale_info_table_dot.specs.GraphTexts.{AppendsGraph, GoesOn, IsGraphError};
ghost use Rattle.scale_info_table_dot.specs.GraphTexts.{graph_text};
ghost use Rattle.scale_info_numberings.specs.Numberings.{IsNumbering};
ghost use Rattle.scale_info_numberings.specs.Systems.{IsReached};
ghost use Rattle.scale_info_walk.specs.TypeSystems.{types_system};

use crate::error::GraphError;
use crate::lines::append_type;
use crate::pieces::append_pieces;
use scale_info_table::portable::PortableRegistry;
use scale_info_walk::walk::{RetainError, number};
use std::alloc::{AllocError, Global};

/// Appends the part of a table that the chosen types reach as a graph in the DOT language, which
/// Graphviz draws.
///
/// Each type that is reached has a node, whose name is the type's id and whose label is the id and
/// the type's name, as `name_of` writes it. After the node come the type's edges, one for each of
/// its references, in order: a type that refers to another one twice has two edges to it. The types
/// come in depth-first order of discovery from the chosen ids, in which each stands once. An id is
/// an index of the table.
///
/// Takes time for what is written and a number for each entry of the table. A name can be much
/// longer than the table is, as those that `describe` writes.
///
/// Errors: `Dangling`, where an id is reached that is no index; `TooManyTypes`, where there are
/// more than 4294967295 entries; `Memory`, where an allocation failed. On an Err the output is as
/// before.
///
/// ```text
/// append_graph(alloc, &table, &[0], &mut out)?  // of Vec<u32> at index 0, and u32 at index 1:
/// // digraph types {
/// //     0 [label="0 Vec<u32>"];
/// //     0 -> 1;
/// //     1 [label="1 u32"];
/// // }
/// ```
pub fn append_graph(
    alloc: Global,
    table: &PortableRegistry,
    chosen: &[u32],
    out: &mut String,
) -> Result<(), GraphError>
    ensures ok { OnOk result (AppendsGraph table.now chosen.now
        (string_bytes out.old) (string_bytes out.new)) }
    ensures inside { OnOk result ((id : ℕ) → IsReached (types_system table.now.types) chosen.now id
        → id < length table.now.types) }
    ensures err { OnErr result (string_bytes out.new ≡ string_bytes out.old) }
    ensures cause { IfErr result (IsGraphError table.now chosen.now) }
{
    let order = reached_ids(alloc, table, chosen)?;
    let start = out.len();
    let appended = append_graph_of(alloc, out, table, &order);
    if appended.is_err() {
        out.truncate(start);
    }
    Ok(appended?)
}

/// The ids that are reached from the chosen ones, in depth-first order of discovery.
///
/// Errors: as those of [`append_graph`].
fn reached_ids(
    alloc: Global,
    table: &PortableRegistry,
    chosen: &[u32],
) -> Result<Vec<u32>, GraphError>
    ensures ok { IfOk result (λ order.
        IsNumbering (types_system table.now.types) chosen.now order.items) }
    ensures cause { IfErr result (IsGraphError table.now chosen.now) }
{
    match number(alloc, table.types(), chosen) {
        Ok(found) => Ok(found.order),
        Err(RetainError::Dangling { id }) => Err(GraphError::Dangling { id }),
        Err(RetainError::TooManyTypes) => Err(GraphError::TooManyTypes),
        Err(RetainError::Memory) => Err(GraphError::Memory),
    }
}

/// Appends the graph of the types with these ids. On an error a part may have been appended.
fn append_graph_of(
    alloc: Global,
    out: &mut String,
    table: &PortableRegistry,
    ids: &[u32],
) -> Result<(), AllocError>
    ensures ok { Appends result out.old out.new (graph_text table.now ids.now) }
    ensures keeps { GoesOn (string_bytes out.old) (string_bytes out.new) }
{
    append_pieces(out, &["digraph types {\n"])?;
    for id in ids {
        append_type(alloc, out, table, *id)?;
    }
    append_pieces(out, &["}\n"])
}
