//! What is read of the members of an object, in the order of the text.
ghost use Rattle.std.proofs.Common.{inl, inr};
ghost use Rattle.std.specs.Prelude.{◌≡◌, ◌⊎◌, List, ℕ, OnOk, IfOk, IfErr, true, false};
ghost use Rattle.serde_json.specs.Data.{Data, Members, no_members, put};
ghost use Rattle.scale_info_json_text.specs.Members.{AreApart, HoldsBoth, ReadsInto};
ghost use Rattle.scale_info_json_text.specs.Readings.{IfSyntax, HasNoTree};
ghost use Rattle.scale_info_json_text.specs.Readings.{ReadsMembers, HasNoMembers};

use crate::pass::pass_value;
use crate::source::TextSource;
use crate::stop::Stop;

/// What is read of the members of an object: under one key, or under all keys of a pair. Where a
/// key comes twice, the last counts.
pub trait Found: Drop {
    /// The keys that are looked for.
    type Keys: Copy;

    /// The key is one of these.
    ghost has: { Self.Keys → List ℕ → Type 0 };

    /// No key is looked for twice.
    ghost distinct: { Self.Keys → Type 0 };

    /// What was read is what the keys have.
    ghost holds: { Self.Keys → Self → Members → Type 0 };

    /// What is found before a member is read.
    fn nothing() -> Self
        ensures { (keys : Self.Keys) → holds keys result no_members };

    /// Reads the value of a key that came, if the key is one of these, and says whether it is. The
    /// value takes the place of an earlier one of that key.
    ///
    /// Errors: `Syntax`, where no tree's text comes next; `Memory`, if an allocation failed.
    fn read_member(
        &mut self,
        keys: Self::Keys,
        key: &str,
        source: &mut TextSource<'_>,
        depth: usize,
    ) -> Result<bool, Stop>
        requires { distinct keys }
        ensures read { IfOk result (λ is_read. is_read ≡ true → has keys key.now
            × ReadsInto key.now (holds keys self.old) (holds keys self.new) depth
            source.old.reader source.new.reader) }
        ensures left { IfOk result (λ is_read. is_read ≡ false → (has keys key.now → ⊥)
            × (self.new ≡ self.old) × (source.new.reader ≡ source.old.reader)) }
        ensures syntax { IfErr result (IfSyntax (HasNoTree depth source.old.reader)) };

    /// The member of another key changes nothing.
    ghost others: { (keys : Self.Keys) (found : Self) (ms : Members) (key : List ℕ) (tree : Data)
        → (has keys key → ⊥) → holds keys found ms → holds keys found (put key tree ms) };
}

impl<A: Found, B: Found> Found for (A, B) {
    type Keys = (A::Keys, B::Keys);

    ghost has = { λ keys key. A.has keys.0 key ⊎ B.has keys.1 key };

    ghost distinct = { λ keys.
        A.distinct keys.0 × B.distinct keys.1 × AreApart (A.has keys.0) (B.has keys.1) };

    ghost holds = { λ keys. HoldsBoth (A.holds keys.0) (B.holds keys.1) };

    fn nothing() -> (A, B) {
        (A::nothing(), B::nothing())
    }

    #[inline(always)]
    fn read_member(
        &mut self,
        keys: (A::Keys, B::Keys),
        key: &str,
        source: &mut TextSource<'_>,
        depth: usize,
    ) -> Result<bool, Stop> {
        if self.0.read_member(keys.0, key, source, depth)? {
            return Ok(true);
        }
        self.1.read_member(keys.1, key, source, depth)
    }

    ghost others = { λ keys found ms key tree other h. (
      A.others keys.0 found.0 ms key tree (λ p. other (inl p)) h.0,
      B.others keys.1 found.1 ms key tree (λ p. other (inr p)) h.1,
    ) };
}

/// Reads the value of a key that came into what was found, or passes over it where the key is
/// another.
///
/// Errors: `Syntax`, where no tree's text comes next; `Memory`, if an allocation failed.
#[inline(always)]
fn read_or_pass<F: Found>(
    found: &mut F,
    keys: F::Keys,
    key: &str,
    source: &mut TextSource<'_>,
    depth: usize,
) -> Result<(), Stop>
    requires { F.distinct keys }
    ensures ok { OnOk result (ReadsInto key.now (F.holds keys found.old) (F.holds keys found.new)
        depth source.old.reader source.new.reader) }
    ensures syntax { IfErr result (IfSyntax (HasNoTree depth source.old.reader)) }
{
    if found.read_member(keys, key, source, depth)? {
        return Ok(());
    }
    pass_value(&mut source.reader, depth)
}

/// Reads the members of an object, and its closing brace.
///
/// Errors: `Syntax`, where something else comes next; `Memory`, if an allocation failed.
pub fn read_members<F: Found>(
    keys: F::Keys,
    source: &mut TextSource<'_>,
    depth: usize,
) -> Result<F, Stop>
    requires { F.distinct keys }
    ensures ok { IfOk result (λ found. ReadsMembers (λ ms. F.holds keys found ms) depth
        source.old.reader source.new.reader) }
    ensures syntax { IfErr result (IfSyntax (HasNoMembers depth source.old.reader)) }
{
    let mut found = F::nothing();
    'members: while let Some(key) = source.reader.next_key()? {
        read_or_pass(&mut found, keys, key, source, depth)?;
    }
    Ok(found)
}
