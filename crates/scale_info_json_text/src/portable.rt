//! Tables of a text.
ghost use Rattle.std.specs.Prelude.{◌≡◌, codes, Some, None, IfOk, IfErr};
ghost use Rattle.serde_json.specs.Data.{Data};
ghost use Rattle.serde_json.specs.Read.{read};
ghost use Rattle.scale_info_json_tree.specs.JsonTables.{MeansTable};
ghost use Rattle.scale_info_json_trees.specs.EntryTrees.{MeansEntry};
ghost use Rattle.scale_info_json_trees.specs.Meaning.{MeansList};
ghost use Rattle.scale_info_json_text.specs.Members.{HoldsOne};
ghost use Rattle.scale_info_json_text.specs.Readings.{IfSyntax, IsMeant};
ghost use Rattle.scale_info_json_text.specs.TextTables.{TextMeans, IsErrorOf};

use crate::error::JsonTextError;
use crate::json_text::{JsonText, read_value};
use crate::member::{Member, required};
use crate::object::{JsonObject, read_object};
use crate::source::{Reading, TextSource};
use crate::stop::Stop;
use json::{Reader, Scratch, Token};
use scale_info_collections::items::Items;
use scale_info_table::portable::PortableRegistry;
use scale_info_types::ty::PortableType;
use std::alloc::Global;

/// How deep arrays and objects may nest in a text, as in one that `serde_json` reads.
const MAX_DEPTH: usize = 127;

impl JsonObject<Member<Items<PortableType>>> for PortableRegistry {
    ghost meant = { MeansTable };

    ghost holds = { HoldsOne (codes "types") (MeansList MeansEntry) };

    ghost only_objects = { λ tree v m. m.object };

    fn finish(found: Member<Items<PortableType>>, _alloc: Global) -> Option<PortableRegistry> {
        let types = required(found)?;
        Some(PortableRegistry { types })
    }
}

impl JsonText for PortableRegistry {
    ghost meant = { MeansTable };

    fn from_token(token: Token<'_>, source: &mut TextSource<'_>, depth: usize) -> Reading<Self> {
        read_object::<Member<Items<PortableType>>, Self>("types", token, source, depth)
    }
}

/// Reads the table that a whole text means; None where its tree means none.
///
/// Errors: `Syntax`, where the text is no JSON; `Memory`, if an allocation failed.
fn read_whole(alloc: Global, text: &str, scratch: &mut Scratch) -> Reading<PortableRegistry>
    ensures ok { IfOk result (λ found. (tree : Data) × (read text.now ≡ Some tree)
        × IsMeant (MeansTable tree) found) }
    ensures syntax { IfErr result (IfSyntax (read text.now ≡ None)) }
{
    let reader = Reader::new(text, scratch)?;
    let mut source = TextSource { reader, alloc };
    let found = read_value(&mut source, MAX_DEPTH)?;
    match source.reader.next() {
        Some(_) => Err(Stop::Syntax),
        None => Ok(found),
    }
}

/// The table that a JSON text means: what `from_json` says of the tree that `serde_json` makes of
/// the text, and no tree is made.
///
/// Members may come in any order. Where a key comes twice, its last value counts. Keys that a value
/// doesn't have are passed over, except in `def`, which has one key.
///
/// Errors: `Syntax`, where `serde_json` refuses the text: it is no JSON, nests deeper than 127 or
/// has a number that is too large for a float. `Shape`, where the text means no table. `Memory`, if
/// an allocation failed.
///
/// ```text
/// let table = from_json_text(alloc, "{\"types\":[]}")?; // the empty table
/// ```
pub fn from_json_text(alloc: Global, text: &str) -> Result<PortableRegistry, JsonTextError>
    ensures ok { IfOk result (TextMeans text.now) }
    ensures err { IfErr result (IsErrorOf text.now) }
{
    let mut scratch = Scratch::new(alloc);
    match read_whole(alloc, text, &mut scratch)? {
        Some(table) => Ok(table),
        None => Err(JsonTextError::Shape),
    }
}
