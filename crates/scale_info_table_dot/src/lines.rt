//! The lines of a graph.
ghost use Rattle.std.specs.List.{flat_map};
ghost use Rattle.std.specs.Prelude.{◌≡◌, decimal, string_bytes};
ghost use Rattle.scale_info_table_describe.specs.TypeNames.{Appends, name_at};
ghost use Rattle.scale_info_numberings.specs.Systems.{refs_in};
ghost use Rattle.scale_info_references.specs.Gathered.{targets};
ghost use Rattle.scale_info_table_dot.specs.GraphTexts.{GoesOn, edge_line, node_line, type_lines};
ghost use Rattle.scale_info_walk.specs.TypeSystems.{types_system};

use crate::pieces::{append_label, append_pieces};
use itoa::Buffer;
use scale_info_identities::symbol::UntrackedSymbol;
use scale_info_identities::type_id::TypeId;
use scale_info_references::references::references_of;
use scale_info_table::portable::PortableRegistry;
use scale_info_table_describe::names::name_of;
use std::alloc::{AllocError, Global};

/// Appends the lines of a type. On an error a part may have been appended.
pub(crate) fn append_type(
    alloc: Global,
    out: &mut String,
    table: &PortableRegistry,
    id: u32,
) -> Result<(), AllocError>
    ensures ok { Appends result out.old out.new (type_lines table.now id) }
    ensures keeps { GoesOn (string_bytes out.old) (string_bytes out.new) }
{
    let mut buffer = Buffer::new();
    let digits = buffer.format(id);
    let name = name_of(alloc, table, id)?;
    append_node(out, digits, name.as_str())?;
    append_references(alloc, out, table, digits, id)
}

/// Appends the line of the node of a type, given the digits of its id. On an error a part may have
/// been appended.
fn append_node(out: &mut String, digits: &str, name: &str) -> Result<(), AllocError>
    ensures ok { Appends result out.old out.new (node_line digits.now name.now) }
    ensures keeps { GoesOn (string_bytes out.old) (string_bytes out.new) }
{
    append_pieces(out, &["    ", digits, " [label=\"", digits, " "])?;
    append_label(out, name)?;
    append_pieces(out, &["\"];\n"])
}

/// Appends the lines of the edges of a type, given the digits of its id. On an error a part may
/// have been appended.
fn append_references(
    alloc: Global,
    out: &mut String,
    table: &PortableRegistry,
    digits: &str,
    id: u32,
) -> Result<(), AllocError>
    ensures ok { Appends result out.old out.new
        (flat_map (edge_line digits.now) (refs_in (types_system table.now.types id))) }
    ensures keeps { GoesOn (string_bytes out.old) (string_bytes out.new) }
{
    match table.resolve(id) {
        None => Ok(()),
        Some(ty) => append_edges(out, digits, references_of(alloc, ty)?),
    }
}

/// Appends the lines of the edges from a type, given the digits of its id, to these types. On an
/// error a part may have been appended.
fn append_edges(
    out: &mut String,
    digits: &str,
    references: Vec<&UntrackedSymbol<TypeId>>,
) -> Result<(), AllocError>
    ensures ok { Appends result out.old out.new
        (flat_map (λ reference. edge_line digits.now reference.id)
        (targets references.entry.items)) }
    ensures keeps { GoesOn (string_bytes out.old) (string_bytes out.new) }
{
    for reference in references {
        append_edge(out, digits, reference.id)?;
    }
    Ok(())
}

/// Appends the line of an edge from a type, given the digits of its id. On an error a part may have
/// been appended.
fn append_edge(out: &mut String, digits: &str, id: u32) -> Result<(), AllocError>
    ensures ok { Appends result out.old out.new (edge_line digits.now id) }
    ensures keeps { GoesOn (string_bytes out.old) (string_bytes out.new) }
{
    let mut buffer = Buffer::new();
    append_pieces(out, &["    ", digits, " -> ", buffer.format(id), ";\n"])
}
