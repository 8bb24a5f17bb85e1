//! Commands, and the arguments that name them.
ghost use Rattle.std.specs.Prelude.{◌≡◌, [], ◌∷◌, All, IfSome, IfNone, codes};
ghost use Rattle.std.specs.Bool.{Decides};
ghost use Rattle.type_table_io.specs.Commands.{Names, IsCommand};
ghost use Rattle.type_table_io.specs.Ids.{AreIdTexts, IsIdText};

use crate::id::id_of;
use scale_info_collections::text::Text;

/// What the program is asked to do.
#[derive(Drop)]
pub enum Command<'a> {
    /// Read one table, and write its bytes again.
    Check,
    /// Read one table, and write the table of what these ids reach. Each text is an id.
    Prune(&'a [Text]),
    /// Read one table, and write its JSON text and a line feed.
    Json,
}

/// Whether the arguments are this one, alone.
fn is_alone(arguments: &[Text], argument: &str) -> bool
    ensures { Decides result (arguments.now ≡ argument.now ∷ []) }
{
    match arguments {
        [only] => only.as_str() == argument,
        _ => false,
    }
}

/// Whether each text is an id, and there is one.
fn are_ids(texts: &[Text]) -> bool
    ensures { Decides result (AreIdTexts texts.now) }
{
    !texts.is_empty() && texts.iter().all(|text| id_of(text).is_some())
}

/// The ids after the argument `prune`, where there is one or more, and nothing else.
fn ids_to_prune(arguments: &[Text]) -> Option<&[Text]>
    ensures some { IfSome result
        (λ ids. (arguments.now ≡ codes "prune" ∷ ids.now) × AreIdTexts ids.now) }
    ensures none { IfNone result
        ((ids : _) → arguments.now ≡ codes "prune" ∷ ids → AreIdTexts ids → ⊥) }
{
    match arguments.split_first() {
        Some((first, ids)) if first.as_str() == "prune" && are_ids(ids) => Some(ids),
        _ => None,
    }
}

/// The command that the arguments name; None where they name none. Does not allocate.
pub fn command_of(arguments: &[Text]) -> Option<Command<'_>>
    ensures some { IfSome result (Names arguments.now) }
    ensures none { IfNone result (IsCommand arguments.now → ⊥) }
{
    if is_alone(arguments, "check") {
        Some(Command::Check)
    } else if is_alone(arguments, "json") {
        Some(Command::Json)
    } else {
        ids_to_prune(arguments).map(Command::Prune)
    }
}
