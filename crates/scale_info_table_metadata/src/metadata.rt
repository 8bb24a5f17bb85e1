//! Where the table is in a node's metadata.
ghost use Rattle.std.specs.Prelude.{◌≡◌, ◌++◌, ◌∷◌, [], List, ℕ, IfOk, IfErr, IfSome, IfNone};
ghost use Rattle.scale_info_bytes.specs.Encodings.{HasNoPrefix};
ghost use Rattle.scale_info_grammar.specs.Ty.{EncodesTypes};
ghost use Rattle.scale_info_table_metadata.specs.Metadata.{EncodesBytes, EncodesSomeBytes};
ghost use Rattle.scale_info_table_metadata.specs.Metadata.{IsMetadata, IsNoMetadata, word};
ghost use Rattle.scale_info_table_metadata.specs.TablesFound.{BeginsWith, IsErrorOf, IsTableOf};

use scale_info_bytes::integer::decode_compact;
use scale_info_collections::items::Items;
use scale_info_passes::visitors::skip;
use scale_info_types::ty::PortableType;
use thiserror::Error;

/// What an input is that has a table.
#[derive(Clone, Copy, Debug, PartialEq, Eq)]
pub enum Source {
    /// The bytes of a table, and nothing else.
    Table,
    /// A node's metadata of this version.
    Metadata(u8),
}

/// Why no table is found in an input.
#[derive(Clone, Copy, Debug, PartialEq, Eq, Error)]
pub enum MetadataError {
    /// Metadata of this version, which is none of 14, 15 and 16.
    #[error("metadata of version {0} is not known")]
    Version(u8),
    /// The input is no metadata and begins with no table; or it is metadata that ends too early, or
    /// in which no table comes after the version.
    #[error("the bytes are no table, and no metadata with one")]
    Malformed,
    /// The input is no metadata, and bytes come after its table.
    #[error("there are bytes after the table")]
    Trailing,
}

/// What comes after the word `meta`; None where the input does not begin with it.
fn after_word(input: &[u8]) -> Option<&[u8]>
    ensures some { IfSome result (λ after. input.now ≡ word ++ after.now) }
    ensures none { IfNone result ((after : List ℕ) → input.now ≡ word ++ after → ⊥) }
{
    match input {
        [109, 101, 116, 97, after @ ..] => Some(after),
        _ => None,
    }
}

/// The bytes of the byte string that the whole input encodes; None where it encodes none.
fn bytes_of_string(input: &[u8]) -> Option<&[u8]>
    ensures some { IfSome result (λ bytes. EncodesBytes bytes.now input.now) }
    ensures none { IfNone result ((bytes : List ℕ) → EncodesBytes bytes input.now → ⊥) }
{
    match decode_compact(input) {
        Some((count, bytes)) => {
            if bytes.len() == count as usize {
                Some(bytes)
            } else {
                None
            }
        }
        None => None,
    }
}

/// What comes after the word `meta` in the byte string that the whole input encodes.
fn after_word_in_string(input: &[u8]) -> Option<&[u8]>
    ensures some { IfSome result (λ after. EncodesBytes (word ++ after.now) input.now) }
    ensures none { IfNone result ((after : List ℕ) → EncodesBytes (word ++ after) input.now → ⊥) }
{
    after_word(bytes_of_string(input)?)
}

/// What comes after the byte of an option that has a value; None where there is no such byte.
fn after_some(input: &[u8]) -> Option<&[u8]>
    ensures some { IfSome result (λ string. input.now ≡ 1 ∷ string.now) }
    ensures none { IfNone result ((string : List ℕ) → input.now ≡ 1 ∷ string → ⊥) }
{
    match input {
        [1, string @ ..] => Some(string),
        _ => None,
    }
}

/// What comes after the word `meta` in the option of a byte string that the whole input encodes.
fn after_word_in_option(input: &[u8]) -> Option<&[u8]>
    ensures some { IfSome result (λ after. EncodesSomeBytes (word ++ after.now) input.now) }
    ensures none { IfNone result
        ((after : List ℕ) → EncodesSomeBytes (word ++ after) input.now → ⊥) }
{
    after_word_in_string(after_some(input)?)
}

/// What comes after the word `meta` in metadata: alone, in a byte string, or in an option of one.
fn after_word_of_metadata(input: &[u8]) -> Option<&[u8]>
    ensures some { IfSome result (λ after. IsMetadata after.now input.now) }
    ensures none { IfNone result (IsNoMetadata input.now) }
{
    if let Some(after) = after_word(input) {
        return Some(after);
    }
    if let Some(after) = after_word_in_string(input) {
        return Some(after);
    }
    match after_word_in_option(input) {
        Some(after) => Some(after),
        None => None,
    }
}

/// The byte of the version, and what comes after it; None where there is none.
fn split_version(after: &[u8]) -> Option<(u8, &[u8])>
    ensures some { IfSome result (λ found. after.now ≡ found.0 ∷ found.1.now) }
    ensures none { IfNone result (after.now ≡ []) }
{
    match after {
        [] => None,
        [version, rest @ ..] => Some((*version, rest)),
    }
}

/// The table at the start of the input, and what comes after it; None where there is none.
fn split_table(input: &[u8]) -> Option<(&[u8], &[u8])>
    ensures some { IfSome result (λ found. BeginsWith found.0.now input.now found.1.now) }
    ensures none { IfNone result (HasNoPrefix EncodesTypes input.now) }
{
    match skip::<Items<PortableType>>(input) {
        Some(rest) => {
            let (table, rest) = input.split_at(input.len().saturating_sub(rest.len()));
            Some((table, rest))
        }
        None => None,
    }
}

/// What the input is, and the bytes of its table. Nothing is allocated.
///
/// The input is a table and nothing else, or a node's metadata: the word `meta`, a byte for the
/// version, which is 14, 15 or 16, the table, and more that is not read. Metadata may also stand in
/// a byte string that is the whole input, or in an option of one, as runtimes return it. An input
/// that is metadata is never taken for a table; see `FORMATS.md` for the tables that so can't be
/// read.
///
/// Errors: `Version`, where the input is metadata of another version; `Trailing`, where it is no
/// metadata and bytes come after its table; `Malformed`, where there is no table in it.
///
/// The layout is that of `RuntimeMetadataPrefixed` of the crate `frame-metadata`.
///
/// ```text
/// table_of(&[109, 101, 116, 97, 14, 0, 4, 4])   // (Source::Metadata(14), [0]), the empty table
/// table_of(&[0])                                // (Source::Table, [0])
/// ```
pub fn table_of(input: &[u8]) -> Result<(Source, &[u8]), MetadataError>
    ensures ok { IfOk result (λ found. IsTableOf input.now found.0 found.1.now) }
    ensures err { IfErr result (IsErrorOf input.now) }
{
    match after_word_of_metadata(input) {
        Some(after) => {
            let Some((version, rest)) = split_version(after) else {
                return Err(MetadataError::Malformed);
            };
            if version < 14 || version > 16 {
                return Err(MetadataError::Version(version));
            }
            match split_table(rest) {
                Some((table, _)) => Ok((Source::Metadata(version), table)),
                None => Err(MetadataError::Malformed),
            }
        }
        None => match split_table(input) {
            Some((table, rest)) => {
                if rest.is_empty() {
                    Ok((Source::Table, table))
                } else {
                    Err(MetadataError::Trailing)
                }
            }
            None => Err(MetadataError::Malformed),
        },
    }
}
