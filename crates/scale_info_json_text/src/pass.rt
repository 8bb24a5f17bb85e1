//! Passing over a value.
ghost use Rattle.std.specs.Prelude.{◌≡◌, ◌<◌, ◌≤◌, ◌∷◌, length, OnOk, IfErr, ⊤};
ghost use Rattle.json.specs.Json.{items, members, value};
ghost use Rattle.json.specs.Reads.{token_of};
ghost use Rattle.scale_info_json_text.specs.Readings.{IfSyntax, Reads, HasNoTree};
ghost use Rattle.scale_info_json_text.specs.Readings.{ReadsItems, HasNoItems, ReadsMembers};
ghost use Rattle.scale_info_json_text.specs.Readings.{HasNoMembers};

use crate::number;
use crate::stop::Stop;
use json::{Reader, Token};

/// Passes over a value, of which the first token is taken. Arrays and objects nest as deep as
/// `depth` says.
///
/// Errors: `Syntax`, where no value begins so.
#[cycle(pass)]
pub fn pass_rest(token: Token<'_>, reader: &mut Reader<'_>, depth: usize) -> Result<(), Stop>
    ensures ok { OnOk result (Reads (λ _. ⊤) depth (token_of token.entry ∷ reader.old) reader.new) }
    ensures syntax { IfErr result (IfSyntax (HasNoTree depth (token_of token.entry ∷ reader.old))) }
{
    match token {
        Token::String(_) | Token::Bool(_) | Token::Null => Ok(()),
        Token::Number(text) => {
            number::unsigned(text)?;
            Ok(())
        }
        Token::EndObject | Token::EndArray | Token::Key(_) | Token::Bad => Err(Stop::Syntax),
        Token::BeginArray => if depth == 0 {
            Err(Stop::Syntax)
        } else {
            pass_items(reader, depth - 1)
        },
        Token::BeginObject => if depth == 0 {
            Err(Stop::Syntax)
        } else {
            pass_members(reader, depth - 1)
        },
    }
}

/// Passes over a value.
///
/// Errors: `Syntax`, where none comes next.
#[cycle(pass)]
pub fn pass_value(reader: &mut Reader<'_>, depth: usize) -> Result<(), Stop>
    ensures ok { OnOk result (Reads (λ _. ⊤) depth reader.old reader.new) }
    ensures syntax { IfErr result (IfSyntax (HasNoTree depth reader.old)) }
{
    let token = reader.next().ok_or(Stop::Syntax)?;
    pass_rest(token, reader, depth)
}

/// Passes over the items of an array and its closing bracket.
///
/// Errors: `Syntax`, where something else comes next.
#[cycle(pass)]
fn pass_items(reader: &mut Reader<'_>, depth: usize) -> Result<(), Stop>
    ensures ok { OnOk result (ReadsItems (λ _. ⊤) depth reader.old reader.new) }
    ensures syntax { IfErr result (IfSyntax (HasNoItems depth reader.old)) }
{
    'items: while !reader.take_end_array() {
        pass_value(reader, depth)?;
    }
    Ok(())
}

/// Passes over the members of an object and its closing brace.
///
/// Errors: `Syntax`, where something else comes next.
#[cycle(pass)]
fn pass_members(reader: &mut Reader<'_>, depth: usize) -> Result<(), Stop>
    ensures ok { OnOk result (ReadsMembers (λ _. ⊤) depth reader.old reader.new) }
    ensures syntax { IfErr result (IfSyntax (HasNoMembers depth reader.old)) }
{
    'members: while let Some(_) = reader.next_key()? {
        pass_value(reader, depth)?;
    }
    Ok(())
}
