//! The path from a value to one of its parts.
ghost use Rattle.std.specs.Prelude.{Some};
ghost use Rattle.scale_info_value_encode.specs.Paths.{step_text, path_text};

use scale_info_collections::items::Items;
use scale_info_collections::text::Text;
use std::fmt;

/// A step from a value to one of its parts.
#[derive(Debug, Drop, PartialEq, Eq)]
pub enum Step {
    /// To the field with this name, of a record or a variant.
    Field(Text),
    /// To the part at this index, counted from 0: an item of a list, or a field without a name.
    Index(usize),
}

/// Prints the name, or the index in decimal digits.
impl fmt::Display for Step {
    ghost output = { λ step. Some (step_text step) };

    fn fmt<W: fmt::Write>(&self, f: &mut fmt::Formatter<W>) -> fmt::Result {
        match self {
            Step::Field(name) => fmt::Display::fmt(name, f),
            Step::Index(index) => fmt::Display::fmt(index, f),
        }
    }
}

/// The path from a value to one of its parts.
///
/// Each step goes one part deeper, so a path has at most 127. A variant takes no step of its own:
/// its parts are its fields. The pair of a map is an item of the map, with the key at index 0 and
/// the value at index 1.
///
/// It is printed with its steps joined by dots, and as `value` where it has none:
///
/// ```text
/// calls.0.dest   // the field `dest` of the first item of the field `calls`
/// ```
#[derive(Debug, Drop, PartialEq, Eq)]
pub struct ValuePath {
    /// The steps, from the whole value to the part.
    pub steps: Items<Step>,
}

impl fmt::Display for ValuePath {
    ghost output = { λ path. Some (path_text path.steps) };

    fn fmt<W: fmt::Write>(&self, f: &mut fmt::Formatter<W>) -> fmt::Result {
        match self.steps.as_slice().split_first() {
            None => f.write_str("value"),
            Some((first, others)) => {
                fmt::Display::fmt(first, f)?;
                for step in others {
                    f.write_str(".")?;
                    fmt::Display::fmt(step, f)?;
                }
                Ok(())
            }
        }
    }
}
