//! A caller that reads values by a few types of a table that stays bytes.
ghost use Rattle.std.specs.Prelude.{◌≡◌, IfOk};
ghost use Rattle.scale_info.specs.Outcomes.{decoded};
ghost use Rattle.scale_info.specs.Readings.{reading};
ghost use Rattle.scale_info.specs.ValueTexts.{AppendsText};

use scale_info::loaded::LoadedTypes;
use scale_info::value::{Value, decode_value};
use scale_info::value_text::append_value_json;
use scale_info::view::TableView;
use std::alloc::Global;

/// Decodes a value of a type of a view, with no other type in memory than those that it refers to.
/// The value and the rest are those that the whole table gives.
pub fn decode_by_view<'a>(
    alloc: Global,
    view: &TableView<'_>,
    id: u32,
    input: &'a [u8],
) -> anyhow::Result<(Value, &'a [u8])>
    ensures { IfOk result
        (λ found. reading view.now id 1 input.now ≡ decoded found.0 found.1.now) }
{
    let types = LoadedTypes::load(alloc, view, &[id])?;
    let found = decode_value(alloc, &types, id, input)?;
    Ok(found)
}

/// Appends the JSON text of a value of a type of a view, and returns the rest. Both are those that
/// the whole table gives.
pub fn append_text_by_view<'a>(
    alloc: Global,
    view: &TableView<'_>,
    id: u32,
    input: &'a [u8],
    out: &mut Vec<u8>,
) -> anyhow::Result<&'a [u8]>
    ensures { IfOk result (λ rest. AppendsText view.now id
        (reading view.now id 1 input.now) rest.now out.old.items out.new.items) }
{
    let types = LoadedTypes::load(alloc, view, &[id])?;
    let rest = append_value_json(alloc, &types, id, input, out)?;
    Ok(rest)
}

/// Appends the JSON texts of values of one type of a view, each on a line: the type and what it
/// refers to are decoded once for all of them.
pub fn append_texts_by_view(
    alloc: Global,
    view: &TableView<'_>,
    id: u32,
    inputs: &[&[u8]],
    out: &mut Vec<u8>,
) -> anyhow::Result<()> {
    let types = LoadedTypes::load(alloc, view, &[id])?;
    for input in inputs {
        append_value_json(alloc, &types, id, input, out)?;
        out.push(b'\n')?;
    }
    Ok(())
}
