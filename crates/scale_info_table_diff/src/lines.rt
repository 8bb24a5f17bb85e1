//! The lines of texts.
ghost use Rattle.std.specs.Prelude.{◌≡◌, IfOk, MatchOption, option_map, string_bytes};
ghost use Rattle.std.specs.Str.Lines.{lines};
ghost use Rattle.scale_info_segments.specs.TypePaths.{texts};
ghost use Rattle.scale_info_table_diff.specs.Declarations.{AreLinesAlike, IsChangeOf, IsIndented};
ghost use Rattle.scale_info_table_diff.specs.Declarations.{IsLineChange, line_at};

use std::alloc::{AllocError, Global};

/// The lines of a text.
pub(crate) fn lines_of(alloc: Global, text: &str) -> Result<Vec<&str>, AllocError>
    ensures { IfOk result (λ all. texts all.items ≡ lines text.now) }
{
    text.lines().collect(alloc)
}

/// The line at a place; past the last one it is empty.
fn line_at<'a>(lines: &[&'a str], place: usize) -> &'a str
    ensures { result.now ≡ line_at (texts lines.now) place }
{
    match lines.get(place) {
        Some(line) => line,
        None => "",
    }
}

/// What stands in a line after its indentation.
fn without_indentation(line: &str) -> &str
    ensures { IsIndented line.now result.now }
{
    line.trim_start_matches("    ")
}

/// The line, an arrow and the other line, both without their indentation.
fn change_of(alloc: Global, line: &str, other: &str) -> Result<String, AllocError>
    ensures { IfOk result (λ change. IsChangeOf line.now other.now (string_bytes change)) }
{
    let mut change = String::new(alloc);
    change.push_str(without_indentation(line))?;
    change.push_str(" -> ")?;
    change.push_str(without_indentation(other))?;
    Ok(change)
}

/// The change of the first line that differs: the line, an arrow and the other line; None, where
/// all lines are equal. Past the last line of a text come empty ones.
pub(crate) fn first_change(
    alloc: Global,
    lines: &[&str],
    others: &[&str],
) -> Result<Option<String>, AllocError>
    ensures { IfOk result (λ found. MatchOption (option_map string_bytes found)
        (AreLinesAlike (texts lines.now) (texts others.now))
        (IsLineChange (texts lines.now) (texts others.now))) }
{
    for place in 0..lines.len().max(others.len()) {
        let line = line_at(lines, place);
        let other = line_at(others, place);
        if line != other {
            return Ok(Some(change_of(alloc, line, other)?));
        }
    }
    Ok(None)
}
