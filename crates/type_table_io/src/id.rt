//! Ids in the arguments.
ghost use Rattle.std.specs.Prelude.{◌≡◌, All, IfNone, IfOk, IfSome, map};
ghost use Rattle.type_table_io.specs.Ids.{IsIdText, id_in};

use scale_info_collections::text::Text;
use std::alloc::{AllocError, Global};

/// The id that the text is: one ASCII digit or more, of a number up to 4294967295. Zeros may lead.
/// None, where the text is no id.
pub fn id_of(text: &Text) -> Option<u32>
    ensures some { IfSome result (λ id. IsIdText text.now × (id ≡ id_in text.now)) }
    ensures none { IfNone result (¬ IsIdText text.now) }
{
    let digits = text.as_str();
    // A plus is no digit, though `parse` takes one.
    if digits.starts_with('+') {
        return None;
    }
    digits.parse().ok()
}

/// The ids that the texts are.
///
/// Errors: `AllocError`, if an allocation failed.
pub fn ids_of(alloc: Global, texts: &[Text]) -> Result<Vec<u32>, AllocError>
    requires { All IsIdText texts.now }
    ensures { IfOk result (λ ids. ids.items ≡ map id_in texts.now) }
{
    let mut ids = Vec::with_capacity(alloc, texts.len())?;
    for text in texts {
        let id = id_of(text).unwrap();
        if ids.push(id).is_err() {
            return Err(AllocError);
        }
    }
    Ok(ids)
}
