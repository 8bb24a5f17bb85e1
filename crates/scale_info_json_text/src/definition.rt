//! Definitions of a text: an object with one key, which names the kind.
ghost use Rattle.std.specs.Prelude.{◌≡◌, IfOk, IfErr, IfSome, IfNone};
ghost use Rattle.serde_json.specs.Data.{Data, Members, put};
ghost use Rattle.scale_info_json_trees.specs.DefinitionTrees.{MeansTypeDef, MeansUnder};
ghost use Rattle.scale_info_json_text.specs.Definitions.{HoldsDefinition, IsUnknown, MeansFrom};
ghost use Rattle.scale_info_json_text.specs.Definitions.{only_object_is_definition};
ghost use Rattle.scale_info_json_text.specs.Readings.{IfSyntax, IsMeant, Reads, HasNoTree};

use crate::found::Found;
use crate::json_text::{JsonText, read_value};
use crate::object::{JsonObject, read_object};
use crate::pass::pass_value;
use crate::source::{Reading, TextSource};
use crate::stop::Stop;
use json::Token;
use scale_info_types::form::PortableForm;
use scale_info_types::ty::composite::TypeDefComposite;
use scale_info_types::ty::variant::TypeDefVariant;
use scale_info_types::ty::{
    TypeDef, TypeDefArray, TypeDefBitSequence, TypeDefCompact, TypeDefMap, TypeDefPrimitive,
    TypeDefSequence, TypeDefTuple,
};
use std::alloc::Global;

/// What was read of a definition.
#[derive(Drop)]
pub enum FoundDefinition {
    /// No key came.
    Nothing,
    /// Only this key came, perhaps more than once, and what it means with its last tree.
    One(&'static str, Option<TypeDef<PortableForm>>),
    /// Keys came that no definition has together.
    Refused,
}

/// The key, where it names a kind of definitions.
fn known_key(key: &str) -> Option<&'static str>
    ensures some { IfSome result (λ known. known.now ≡ key.now) }
    ensures none { IfNone result (IsUnknown key.now) }
{
    match key {
        "composite" => Some("composite"),
        "variant" => Some("variant"),
        "sequence" => Some("sequence"),
        "array" => Some("array"),
        "tuple" => Some("tuple"),
        "primitive" => Some("primitive"),
        "compact" => Some("compact"),
        "bitsequence" => Some("bitsequence"),
        "map" => Some("map"),
        _ => None,
    }
}

/// Reads the definition that is made of the part which comes next; None where the tree means none.
///
/// Errors: `Syntax`, where no tree's text comes next; `Memory`, if an allocation failed.
fn read_kind<T: JsonText + Into<TypeDef<PortableForm>>>(
    source: &mut TextSource<'_>,
    depth: usize,
) -> Reading<TypeDef<PortableForm>>
    ensures ok { IfOk result (λ found. Reads
        (λ tree. IsMeant (MeansFrom T.meant T.converts tree) found) depth
        source.old.reader source.new.reader) }
    ensures syntax { IfErr result (IfSyntax (HasNoTree depth source.old.reader)) }
{
    match read_value::<T>(source, depth)? {
        Some(part) => Ok(Some(part.into())),
        None => Ok(None),
    }
}

/// Reads the definition that a key and the tree which comes next mean; None where they mean none.
///
/// Errors: `Syntax`, where no tree's text comes next; `Memory`, if an allocation failed.
fn read_definition(
    key: &str,
    source: &mut TextSource<'_>,
    depth: usize,
) -> Reading<TypeDef<PortableForm>>
    ensures ok { IfOk result (λ found. Reads (λ tree. IsMeant (MeansUnder key.now tree) found) depth
        source.old.reader source.new.reader) }
    ensures syntax { IfErr result (IfSyntax (HasNoTree depth source.old.reader)) }
{
    match key {
        "composite" => read_kind::<TypeDefComposite<PortableForm>>(source, depth),
        "variant" => read_kind::<TypeDefVariant<PortableForm>>(source, depth),
        "sequence" => read_kind::<TypeDefSequence<PortableForm>>(source, depth),
        "array" => read_kind::<TypeDefArray<PortableForm>>(source, depth),
        "tuple" => read_kind::<TypeDefTuple<PortableForm>>(source, depth),
        "primitive" => read_kind::<TypeDefPrimitive>(source, depth),
        "compact" => read_kind::<TypeDefCompact<PortableForm>>(source, depth),
        "bitsequence" => read_kind::<TypeDefBitSequence<PortableForm>>(source, depth),
        "map" => read_kind::<TypeDefMap<PortableForm>>(source, depth),
        _ => {
            pass_value(&mut source.reader, depth)?;
            Ok(None)
        }
    }
}

/// What was found, with one more member: its key, and what it means with its tree.
fn with_member(
    found: &FoundDefinition,
    known: &'static str,
    value: Option<TypeDef<PortableForm>>,
) -> FoundDefinition
    ensures { (tree : Data) (ms : Members) → IsMeant (MeansUnder known.now tree) value
        → HoldsDefinition found.now ms → HoldsDefinition result (put known.now tree ms) }
{
    match found {
        FoundDefinition::Nothing => FoundDefinition::One(known, value),
        FoundDefinition::One(first, _) => if *first == known {
            FoundDefinition::One(known, value)
        } else {
            FoundDefinition::Refused
        },
        FoundDefinition::Refused => FoundDefinition::Refused,
    }
}

impl Found for FoundDefinition {
    type Keys = ();

    ghost has = { λ _ _. Unit {0} };

    ghost distinct = { λ _. Unit {0} };

    ghost holds = { λ _. HoldsDefinition };

    fn nothing() -> FoundDefinition {
        FoundDefinition::Nothing
    }

    fn read_member(
        &mut self,
        _keys: (),
        key: &str,
        source: &mut TextSource<'_>,
        depth: usize,
    ) -> Result<bool, Stop> {
        match known_key(key) {
            Some(known) => {
                let value = read_definition(known, source, depth)?;
                *self = with_member(self, known, value);
            }
            None => {
                pass_value(&mut source.reader, depth)?;
                *self = FoundDefinition::Refused;
            }
        }
        Ok(true)
    }

    ghost others = { λ keys found ms key tree other h. absurd (other tt) };
}

impl JsonObject<FoundDefinition> for TypeDef<PortableForm> {
    ghost meant = { MeansTypeDef };

    ghost holds = { HoldsDefinition };

    ghost only_objects = { only_object_is_definition };

    fn finish(found: FoundDefinition, _alloc: Global) -> Option<TypeDef<PortableForm>> {
        match found {
            FoundDefinition::One(_, value) => value,
            FoundDefinition::Nothing | FoundDefinition::Refused => None,
        }
    }
}

impl JsonText for TypeDef<PortableForm> {
    ghost meant = { MeansTypeDef };

    fn from_token(token: Token<'_>, source: &mut TextSource<'_>, depth: usize) -> Reading<Self> {
        read_object::<FoundDefinition, Self>((), token, source, depth)
    }
}
