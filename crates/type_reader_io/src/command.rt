//! Commands, and the arguments that name them.
ghost use Rattle.std.specs.Prelude.{◌≡◌, ◌∷◌, [], IfSome, IfNone};
ghost use Rattle.type_reader_io.specs.Commands.{AreOperands, IsCommand, IsComparison, IsOfWord};
ghost use Rattle.type_reader_io.specs.Commands.{IsRequest, Names, conversion_word};
ghost use Rattle.type_reader_io.specs.declared.command.Command.{Command as CommandValue};
ghost use Rattle.type_reader_io.specs.declared.command.Comparison.{Comparison as ComparisonValue};
ghost use Rattle.type_reader_io.specs.declared.command.Conversion.{Conversion as ConversionValue};
ghost use Rattle.type_reader_io.specs.declared.command.Request.{Request as RequestValue};

use scale_info_collections::text::Text;

/// Which way a value is converted.
#[derive(Clone, Copy, Drop)]
pub enum Conversion {
    /// From the hexadecimal digits of its encoding to JSON text.
    Decode,
    /// From JSON text to the hexadecimal digits of its encoding.
    Encode,
}

/// What the program is asked to do.
#[derive(Drop)]
pub enum Command<'a> {
    /// Write something of a table.
    Once(Request<'a>),
    /// Convert values of a type, which is given by its id or its path: each line of the second
    /// input is one.
    Lines(Conversion, &'a Text),
    /// Write what changed between two tables.
    Diff(Comparison<'a>),
}

/// Whether docs count where tables are compared.
#[derive(Clone, Copy, Drop)]
pub enum Docs {
    /// They are left out.
    LeftOut,
    /// They are compared.
    Compared,
}

/// Two tables that are compared.
#[derive(Drop)]
pub struct Comparison<'a> {
    /// Whether docs count.
    pub docs: Docs,
    /// The name of the old table: that of a file, or `-`.
    pub old: &'a Text,
    /// The name of the new table: that of a file, or `-`.
    pub new: &'a Text,
    /// The paths of which changes are written; of all, where none is given.
    pub paths: &'a [Text],
}

/// What the program is asked to write of a table.
#[derive(Drop)]
pub enum Request<'a> {
    /// Write its bytes.
    Table,
    /// Write it with all docs left out.
    Strip,
    /// Write these types as Rust declares them; all, where none is given. Each is given by its id
    /// or its path.
    List(&'a [Text]),
    /// Write the ids and the paths of the types whose path contains these segments.
    Find(&'a Text),
    /// Write the table of what these types reach. Each is given by its id or its path.
    Prune(&'a [Text]),
    /// Write what these types reach as a graph. Each is given by its id or its path.
    Graph(&'a [Text]),
    /// Convert a value of a type, which is given by its id or its path. The value is the last text.
    Convert(Conversion, &'a Text, &'a Text),
}

/// The request that has this word, and these arguments after the table; None where there is none.
fn request_by<'a>(word: &str, more: &'a [Text]) -> Option<Request<'a>>
    ensures some { IfSome result (IsRequest word.now more.now) }
    ensures none { IfNone result
        ((request : RequestValue) → IsRequest word.now more.now request → ⊥) }
{
    match (word, more) {
        ("table", []) => Some(Request::Table),
        ("strip", []) => Some(Request::Strip),
        ("list", _) => Some(Request::List(more)),
        ("find", [pattern]) => Some(Request::Find(pattern)),
        ("prune", [_, ..]) => Some(Request::Prune(more)),
        ("graph", [_, ..]) => Some(Request::Graph(more)),
        ("value", [ty, digits]) => Some(Request::Convert(Conversion::Decode, ty, digits)),
        ("encode", [ty, json]) => Some(Request::Convert(Conversion::Encode, ty, json)),
        _ => None,
    }
}

/// The conversion that has this word, and the type that is the one argument after the table; None
/// where there is none.
fn lines_by<'a>(word: &str, more: &'a [Text]) -> Option<(Conversion, &'a Text)>
    ensures some { IfSome result (λ found.
        (word.now ≡ conversion_word found.0) × (more.now ≡ found.1.now ∷ [])) }
    ensures none { IfNone result ((conversion : ConversionValue) → (ty : _)
        → word.now ≡ conversion_word conversion → more.now ≡ ty ∷ [] → ⊥) }
{
    match (word, more) {
        ("value", [ty]) => Some((Conversion::Decode, ty)),
        ("encode", [ty]) => Some((Conversion::Encode, ty)),
        _ => None,
    }
}

/// The comparison for which these are the first argument after `diff` and those after it, where the
/// old table and the new one may both be read from the standard input; None where there is none.
fn operands_by<'a>(first: &'a Text, more: &'a [Text]) -> Option<Comparison<'a>>
    ensures some { IfSome result (AreOperands first.now more.now) }
    ensures none { IfNone result
        ((comparison : ComparisonValue) → AreOperands first.now more.now comparison → ⊥) }
{
    if first.as_str() == "--docs" {
        let [old, new, paths @ ..] = more else {
            return None;
        };
        return Some(Comparison {
            docs: Docs::Compared,
            old,
            new,
            paths,
        });
    }
    let [new, paths @ ..] = more else {
        return None;
    };
    Some(Comparison {
        docs: Docs::LeftOut,
        old: first,
        new,
        paths,
    })
}

/// The comparison for which these are the first argument after `diff` and those after it; None
/// where there is none.
fn comparison_by<'a>(first: &'a Text, more: &'a [Text]) -> Option<Comparison<'a>>
    ensures some { IfSome result (IsComparison first.now more.now) }
    ensures none { IfNone result
        ((comparison : ComparisonValue) → IsComparison first.now more.now comparison → ⊥) }
{
    let comparison = operands_by(first, more)?;
    if comparison.old.as_str() == "-" && comparison.new.as_str() == "-" {
        return None;
    }
    Some(comparison)
}

/// The command that has this word, this argument after it and these further ones; None where there
/// is none.
fn command_by<'a>(word: &str, table: &'a Text, more: &'a [Text]) -> Option<Command<'a>>
    ensures some { IfSome result (IsOfWord word.now table.now more.now) }
    ensures none { IfNone result
        ((command : CommandValue) → IsOfWord word.now table.now more.now command → ⊥) }
{
    if word == "diff" {
        return match comparison_by(table, more) {
            Some(comparison) => Some(Command::Diff(comparison)),
            None => None,
        };
    }
    if let Some(request) = request_by(word, more) {
        return Some(Command::Once(request));
    }
    if table.as_str() == "-" {
        return None;
    }
    match lines_by(word, more) {
        Some((conversion, ty)) => Some(Command::Lines(conversion, ty)),
        None => None,
    }
}

/// The command that the arguments name; None where they name none. Does not allocate.
///
/// The first argument is the command's word, and the second names the table. For example, `strip`
/// and `table.scale` name `Command::Once(Request::Strip)`. Where lines of the standard input are
/// read, the table is not `-`. After `diff`, and after `--docs` if that follows it, come the names
/// of two tables, of which one at most is `-`.
pub fn command_of(arguments: &[Text]) -> Option<Command<'_>>
    ensures some { IfSome result (Names arguments.now) }
    ensures none { IfNone result (IsCommand arguments.now → ⊥) }
{
    match arguments {
        [word, table, more @ ..] => command_by(word.as_str(), table, more),
        _ => None,
    }
}
