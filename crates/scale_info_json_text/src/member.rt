//! What is read under one key of an object.
ghost use Rattle.std.specs.Prelude.{◌≡◌, Option, Some, OnOk, IfErr};
ghost use Rattle.std.proofs.Common.{sym};
ghost use Rattle.serde_json.specs.Data.{Data};
ghost use Rattle.scale_info_json_trees.specs.Meaning.{MeansList, MeansOrEmpty, MeansOrNone};
ghost use Rattle.scale_info_json_trees.specs.Meaning.{MeansOrNull, MeansRequired};
ghost use Rattle.scale_info_json_text.specs.Readings.{IfSyntax, IsMeant, Reads, HasNoTree};
ghost use Rattle.scale_info_json_text.specs.Members.{HoldsAt, HoldsOne};
ghost use Rattle.scale_info_json_text.specs.MemberLaws.{put_elsewhere};

use crate::found::Found;
use crate::json_text::{JsonText, read_value};
use crate::source::TextSource;
use crate::stop::Stop;
use scale_info_collections::items::Items;
use std::alloc::Global;

/// What was read under one key of an object. Where a key comes twice, the last counts.
#[derive(Drop)]
pub enum Member<T> {
    /// The key did not come.
    Missing,
    /// The tree under the key means no value.
    Meaningless,
    /// The tree under the key means this value.
    Value(T),
}

/// Reads the value of a key, in place of what was read under it before.
///
/// Errors: `Syntax`, where no tree's text comes next; `Memory`, if an allocation failed.
fn read_under<T: JsonText>(
    found: &mut Member<T>,
    source: &mut TextSource<'_>,
    depth: usize,
) -> Result<(), Stop>
    ensures ok { OnOk result (Reads (λ tree. HoldsAt T.meant found.new (Some tree)) depth
        source.old.reader source.new.reader) }
    ensures syntax { IfErr result (IfSyntax (HasNoTree depth source.old.reader)) }
{
    *found = match read_value(source, depth)? {
        Some(value) => Member::Value(value),
        None => Member::Meaningless,
    };
    Ok(())
}

impl<T: JsonText> Found for Member<T> {
    type Keys = &'static str;

    ghost has = { λ wanted key. key ≡ wanted.now };

    ghost distinct = { λ _. Unit {0} };

    ghost holds = { λ wanted. HoldsOne wanted.now T.meant };

    fn nothing() -> Member<T> {
        Member::Missing
    }

    #[inline(always)]
    fn read_member(
        &mut self,
        wanted: &'static str,
        key: &str,
        source: &mut TextSource<'_>,
        depth: usize,
    ) -> Result<bool, Stop> {
        if key == wanted {
            read_under(self, source, depth)?;
            return Ok(true);
        }
        Ok(false)
    }

    ghost others = { λ wanted found ms key tree other.
        put_elsewhere T.meant wanted.now key tree ms found (λ e. other (sym e)) };
}

/// The value of a required key; None where the key is missing or its tree means no value.
pub fn required<T: JsonText>(found: Member<T>) -> Option<T>
    ensures { (o : Option Data) → HoldsAt T.meant found o
        → IsMeant (MeansRequired T.meant o) result }
{
    match found {
        Member::Value(value) => Some(value),
        Member::Missing | Member::Meaningless => None,
    }
}

/// The list of a key, empty where the key is missing; None where its tree means no list.
pub fn list_or_empty<T: JsonText>(alloc: Global, found: Member<Items<T>>) -> Option<Items<T>>
    ensures { (o : Option Data) → HoldsAt (MeansList T.meant) found o
        → IsMeant (MeansOrEmpty T.meant o) result }
{
    match found {
        Member::Value(values) => Some(values),
        Member::Missing => Some(Items::new(alloc)),
        Member::Meaningless => None,
    }
}

/// The value of a key, none where the key is missing or has null; None where its tree is not null
/// and means no value.
pub fn value_or_none<T: JsonText>(found: Member<Option<T>>) -> Option<Option<T>>
    ensures { (o : Option Data) → HoldsAt (MeansOrNull T.meant) found o
        → IsMeant (MeansOrNone T.meant o) result }
{
    match found {
        Member::Value(value) => Some(value),
        Member::Missing => Some(None),
        Member::Meaningless => None,
    }
}
