//! Tables of descriptions that can leave the program.
ghost use Rattle.std.specs.Prelude.{◌≡◌, ◌↔◌, ◌≤◌, [], IsTrue, IfOk, IfErr, OnOk, OnErr, length};
ghost use Rattle.std.specs.Prelude.{option_map, slice_get, take, List, ℕ};
ghost use Rattle.std.specs.Option.{option_copied};
ghost use Rattle.scale_info_grammar.specs.Limits.{AreEntriesWithinLimits};
ghost use Rattle.scale_info_bytes.specs.Encodings.{AppendsEncoding, HasPrefix, HasNoPrefix};
ghost use Rattle.scale_info_bytes.specs.Encodings.{HasNoEncoding, IfTooLong, IfMalformed};
ghost use Rattle.scale_info_table.specs.BuiltTables.{numbered_from};
ghost use Rattle.scale_info_table.specs.ClosedTables.{IsClosed};
ghost use Rattle.scale_info_table.specs.IndexedEntries.{indexed_from};
ghost use Rattle.scale_info_table.specs.TableEncoding.{EncodesRegistry};
ghost use Rattle.scale_info_table.specs.TableEncodingLaws.{registry_law};
ghost use Rattle.scale_info_table.specs.Pruned.{IsChosen, IsPruned, IsRetainError};

use crate::retain::retain_types;
use scale_info_codec::{DecodeError, EncodeError, Scale};
use scale_info_collections::items::Items;
use scale_info_collections::try_clone::TryClone;
use scale_info_references::closed::Descriptions;
use scale_info_types::form::PortableForm;
use scale_info_types::ty::{PortableType, Type};
use std::alloc::{AllocError, Global};
use std::collections::BTreeMap;

mod builder;
mod closed;
mod entries;

pub use builder::PortableRegistryBuilder;
pub use entries::Entries;
pub use scale_info_walk::walk::RetainError;

/// A table of descriptions, in which an id is an index.
///
/// This is what a node's metadata carries: a client finds the description of an id by
/// [`resolve`](PortableRegistry::resolve), and reads a value by it.
#[derive(Drop, PartialEq, Eq)]
pub struct PortableRegistry {
    /// The entries, in order. Their `id` fields are written and read, and nothing goes by them.
    pub types: Items<PortableType>,
}

impl PortableRegistry {
    /// The table of a registry: its descriptions in order, each with its index as `id`.
    ///
    /// It is closed, as the registry is. The registry stays as it is and can go on; the table has
    /// copies. Whatever else has a closed list of descriptions will do too. The crate `scale-info`
    /// makes it by `From<Registry>`.
    ///
    /// Errors: `AllocError`, where an allocation for the table failed.
    ///
    /// ```text
    /// let mut registry = Registry::new(alloc);
    /// registry.register_type(&MetaType::new::<Vec<u32>>(alloc)?, &catalogue)?;
    /// PortableRegistry::from_registry(alloc, &registry)?  // a sequence of the type 1, and `u32`
    /// ```
    pub fn from_registry<R: Descriptions>(
        alloc: Global,
        registry: &R,
    ) -> Result<PortableRegistry, AllocError>
        ensures entries { IfOk result
            (λ table. table.types ≡ numbered_from 0 (R.listed registry.now)) }
        ensures long { IfOk result (λ table. length table.types ≡ R.count registry.now) }
        ensures closed { IfOk result (λ table. IsClosed table) }
        ensures few { IfOk result (λ table. length table.types ≤ 4294967295) }
    {
        let types = entries::copies_of(alloc, registry.descriptions())?;
        Ok(PortableRegistry { types })
    }

    /// The table of a registry that is not needed any more: its descriptions in order, each with
    /// its index as `id`.
    ///
    /// The same as [`from_registry`](PortableRegistry::from_registry), but the descriptions are
    /// moved into the table, and none is copied.
    ///
    /// Errors: `AllocError`, where an allocation for the list of entries failed.
    pub fn from_finished<R: Descriptions>(
        alloc: Global,
        registry: R,
    ) -> Result<PortableRegistry, AllocError>
        ensures entries { IfOk result
            (λ table. table.types ≡ numbered_from 0 (R.listed registry)) }
        ensures long { IfOk result (λ table. length table.types ≡ R.count registry) }
        ensures closed { IfOk result (λ table. IsClosed table) }
        ensures few { IfOk result (λ table. length table.types ≤ 4294967295) }
    {
        Ok(PortableRegistry {
            types: entries::of_descriptions(alloc, registry.into_descriptions())?,
        })
    }

    /// The description at index `id`, counted from 0; None past the end.
    ///
    /// An id is an index, not the `id` field of a table that was read, which may be any number. The
    /// references of a description, such as a field's type, are such indices. So ask
    /// [`entries`](PortableRegistry::entries) for the index of an entry, or test
    /// [`is_closed`](PortableRegistry::is_closed) first, after which the two are equal.
    pub fn resolve(&self, id: u32) -> Option<&Type<PortableForm>>
        ensures { option_copied result
            ≡ option_map (λ entry. entry.ty) (slice_get self.now.types id) }
    {
        self.types().get(id as usize).map(|entry| &entry.ty)
    }

    /// The number of entries.
    pub fn len(&self) -> usize
        ensures { result ≡ length self.now.types }
    {
        self.types().len()
    }

    /// Whether there is no entry.
    pub fn is_empty(&self) -> bool
        ensures { IsTrue result ↔ (self.now.types ≡ []) }
    {
        self.types().is_empty()
    }

    /// The descriptions in order, each with its index: the number by which references and
    /// [`resolve`](PortableRegistry::resolve) go.
    ///
    /// Entries from index 4294967296 on are left out, since no reference can have such a number. A
    /// table that was read has none.
    ///
    /// ```text
    /// for (index, ty) in table.entries() { .. }
    /// ```
    pub fn entries(&self) -> Entries<'_>
        ensures { result ≡ indexed_from 0 (take 4294967296 self.now.types) }
    {
        let types = self.types();
        Entries {
            types: &types[..types.len().min(4294967296)],
            index: 0,
        }
    }

    /// Whether the table is whole: the `id` of each entry is its index, and each reference of each
    /// entry is the index of an entry. Does not allocate.
    ///
    /// Ask this of a table from outside. Reading follows no reference, so input may have references
    /// that lead nowhere, for which [`resolve`](PortableRegistry::resolve) returns None.
    pub fn is_closed(&self) -> bool
        ensures { IsTrue result ↔ IsClosed self.now }
    {
        closed::has_indices_as_ids(self.types())
            && closed::has_references_below(self.len(), self.types())
    }

    /// The entries, in order.
    pub fn types(&self) -> &[PortableType]
        ensures { result.now ≡ self.now.types }
    {
        self.types.as_slice()
    }

    /// Keeps the entries that the filter chooses and all that their references reach, and returns
    /// the new id of each old one that is kept.
    ///
    /// The filter is asked once for each id, from 0 up, before the walk begins; an id is the index
    /// of an entry, whatever its `id` field says. What is kept comes in depth-first order of
    /// discovery from the chosen ids: each entry's references right after it, in order, as far as
    /// they are new. Each kept entry gets its new index as `id`, and its references are replaced.
    /// References that lead nowhere do no harm in entries that are not reached.
    ///
    /// ```text
    /// table.retain(alloc, |id| id == 1)?  // of bool, Vec<u32>, String, u32: the ids {1: 0, 3: 1}
    /// ```
    ///
    /// Errors: `Dangling`, where an id is reached from the chosen ones that is no index;
    /// `TooManyTypes`, where there are more than 4294967295 entries, and then the filter is not
    /// asked; `Memory`, where an allocation failed. On an Err the table is as before.
    pub fn retain<F: FnMut(u32) -> bool>(
        &mut self,
        alloc: Global,
        filter: F,
    ) -> Result<BTreeMap<u32, u32>, RetainError>
        requires { F.IsAlwaysCallable filter }
        ensures ok { IfOk result (λ new_ids. (chosen : List ℕ) × (last : F)
            × IsChosen F.step filter (length self.old.types) chosen last
            × IsPruned self.old.types chosen self.new.types new_ids) }
        ensures err { OnErr result (self.new ≡ self.old) }
        ensures cause { IfErr result (IsRetainError F.step filter self.old.types) }
    {
        retain_types(alloc, &mut self.types, filter)
    }

    /// Appends the table's SCALE encoding to the output. A table has at most one encoding.
    ///
    /// Errors: `TooLong`, where nothing encodes the table, since a list or a text of it has more
    /// than 4294967295 items or bytes; `Memory`, where an allocation failed. On an Err the output
    /// is as before.
    pub fn encode(&self, out: &mut Vec<u8>) -> Result<(), EncodeError>
        ensures ok { OnOk result
            (AppendsEncoding (EncodesRegistry self.now) out.old.items out.new.items) }
        ensures err { OnErr result (out.new.items ≡ out.old.items) }
        ensures too_long { IfErr result (IfTooLong (HasNoEncoding (EncodesRegistry self.now))) }
        ensures past_limits { IfErr result (IfTooLong (¬ (AreEntriesWithinLimits self.now.types))) }
    {
        self.encode_to(out)
    }

    /// Decodes one table from the start of the input and returns the rest.
    ///
    /// References aren't followed, and `id` fields aren't compared with indices. Allocates for
    /// items already read, never for an announced count.
    ///
    /// Errors: `Malformed`, where no prefix of the input encodes a table; `Memory`, where an
    /// allocation failed.
    pub fn decode(alloc: Global, input: &[u8]) -> Result<(PortableRegistry, &[u8]), DecodeError>
        ensures ok { IfOk result
            (λ found. HasPrefix (EncodesRegistry found.0) input.now found.1.now) }
        ensures malformed { IfErr result (IfMalformed (HasNoPrefix EncodesRegistry input.now)) }
    {
        PortableRegistry::decode_from(alloc, input)
    }
}

impl Scale for PortableRegistry {
    ghost encodes = { EncodesRegistry };

    fn encode_to(&self, out: &mut Vec<u8>) -> Result<(), EncodeError> {
        self.types.encode_to(out)
    }

    fn decode_from(alloc: Global, input: &[u8]) -> Result<(PortableRegistry, &[u8]), DecodeError> {
        let (types, rest) = Scale::decode_from(alloc, input)?;
        Ok((PortableRegistry { types }, rest))
    }

    ghost law = { registry_law };
}

impl TryClone for PortableRegistry {
    fn try_clone(&self, alloc: Global) -> Result<PortableRegistry, AllocError> {
        Ok(PortableRegistry {
            types: self.types.try_clone(alloc)?,
        })
    }
}
