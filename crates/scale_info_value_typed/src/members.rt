//! The members of tuples, as pairs of a member and the members after it.
ghost use Rattle.std.specs.Prelude.{◌≡◌, ◌∷◌, ◌+◌, ℕ, [], Option, Some, List, drop, length};
ghost use Rattle.std.specs.Prelude.{option_and_then, IfOk, IfErr, OnOk};
ghost use Rattle.scale_info_table.specs.declared.portable.PortableRegistry as tables;
ghost use Rattle.scale_info_value.specs.declared.value.Value.{Value};
ghost use Rattle.scale_info_value_borrowed.specs.BorrowedValues.{owned_value};
ghost use Rattle.scale_info_value_borrowed.specs.ValueParts.{items_in};
ghost use Rattle.scale_info_value_typed.specs.declared.place.Place as places;
ghost use Rattle.scale_info_value_typed.specs.ConvertErrors.{IsMissing};
ghost use Rattle.scale_info_value_typed.specs.Meanings.{all_of, no_members, member_and, tuple};
ghost use Rattle.scale_info_value_typed.specs.Places.{part_at};
ghost use Rattle.scale_info_value_typed.specs.StandingValues.{AppendsValues, tuple_at};

use crate::decode::DecodeAs;
use crate::encode::EncodeAs;
use crate::error::ConvertError;
use crate::place::Place;
use scale_info_collections::items::Items;
use scale_info_value::definition::Definitions;
use scale_info_value::value::Value;
use scale_info_value_borrowed::borrowed::ValueRef;
use std::alloc::Global;

/// Members of a tuple: none, or a member and others.
pub(crate) trait Members: Drop {
    /// What contracts see of the members.
    ghost Seen: { Type 0 };

    /// The members, as contracts see them.
    ghost seen: { Self → Seen };

    /// What decoded values are as members.
    ghost meant: { List Value → Option Seen };

    /// The items of a list from this index on, as members.
    fn from_items(
        alloc: Global,
        value: &ValueRef<'_, '_>,
        index: usize,
    ) -> Result<Self, ConvertError>
        ensures ok { IfOk result (λ own.
            option_and_then (λ all. meant (drop index all)) (items_in (owned_value value.now))
            ≡ Some (seen own)) }
        ensures err { IfErr result (IsMissing
            (option_and_then (λ all. meant (drop index all)) (items_in (owned_value value.now)))) };
}

impl Members for () {
    ghost Seen = { Unit {0} };

    ghost seen = { λ none. none };

    ghost meant = { no_members };

    fn from_items(
        _alloc: Global,
        value: &ValueRef<'_, '_>,
        index: usize,
    ) -> Result<(), ConvertError> {
        let Some(count) = value.len() else {
            return Err(ConvertError::Mismatch);
        };
        if index < count {
            return Err(ConvertError::Mismatch);
        }
        Ok(())
    }
}

impl<A: DecodeAs, B: Members> Members for (A, B) {
    ghost Seen = { A.Seen × B.Seen };

    ghost seen = { λ all. (A.seen all.0, B.seen all.1) };

    ghost meant = { member_and A.meant B.meant };

    fn from_items(
        alloc: Global,
        value: &ValueRef<'_, '_>,
        index: usize,
    ) -> Result<(A, B), ConvertError> {
        let Some(count) = value.len() else {
            return Err(ConvertError::Mismatch);
        };
        if index >= count {
            return Err(ConvertError::Mismatch);
        }
        let Some(item) = value.at(index) else {
            return Err(ConvertError::Mismatch);
        };
        let first = A::from_value(alloc, item.value())?;
        Ok((first, B::from_items(alloc, value, index + 1)?))
    }
}

/// The members of a tuple, which are all items of a list.
pub(crate) fn tuple_of<M: Members>(
    alloc: Global,
    value: &ValueRef<'_, '_>,
) -> Result<M, ConvertError>
    ensures ok { IfOk result (λ all. tuple M.meant (owned_value value.now) ≡ Some (M.seen all)) }
    ensures err { IfErr result (IsMissing (tuple M.meant (owned_value value.now))) }
{
    M::from_items(alloc, value, 0)
}

/// Members of a tuple that are encoded: none, or a member that is borrowed and others.
pub(crate) trait MemberValues {
    /// What contracts see of the members.
    ghost Seen: { Type 0 };

    /// The members, as contracts see them.
    ghost seen: { Self → Seen };

    /// What decoded values are as members.
    ghost meant: { List Value → Option Seen };

    /// What stands for each of the members of a tuple at a place, where the first has this index.
    ghost values_at: { tables.PortableRegistry → places.Place → ℕ → Self → List (Option Value) };

    /// Appends what stands for the members, where the first has as its index how many values there
    /// are.
    fn append_values<D: Definitions>(
        &self,
        alloc: Global,
        table: &D,
        place: Place,
        values: &mut Items<Value>,
    ) -> Result<(), ConvertError>
        ensures ok { OnOk result (AppendsValues
            (λ own. all_of (values_at (D.table table.now) place (length values.old) self.now)
            ≡ Some own)
            values.old values.new) }
        ensures shown { OnOk result (AppendsValues (λ own. meant own ≡ Some (seen self.now))
            values.old values.new) }
        ensures err { IfErr result (IsMissing
            (all_of (values_at (D.table table.now) place (length values.old) self.now))) };
}

impl MemberValues for () {
    ghost Seen = { Unit {0} };

    ghost seen = { λ none. none };

    ghost meant = { no_members };

    ghost values_at = { λ _ _ _ _. [] };

    fn append_values<D: Definitions>(
        &self,
        _alloc: Global,
        _table: &D,
        _place: Place,
        _values: &mut Items<Value>,
    ) -> Result<(), ConvertError> {
        Ok(())
    }
}

impl<A: EncodeAs, B: MemberValues> MemberValues for (&A, B) {
    ghost Seen = { A.Seen × B.Seen };

    ghost seen = { λ all. (A.seen all.0.now, B.seen all.1) };

    ghost meant = { member_and A.meant B.meant };

    ghost values_at = { λ table place index all.
        A.value_at table (part_at table place index) all.0.now
        ∷ B.values_at table place (index + 1) all.1 };

    fn append_values<D: Definitions>(
        &self,
        alloc: Global,
        table: &D,
        place: Place,
        values: &mut Items<Value>,
    ) -> Result<(), ConvertError> {
        let first = self
            .0
            .to_value(alloc, table, place.part(table, values.len()))?;
        values.push(first)?;
        self.1.append_values(alloc, table, place, values)
    }
}

/// The list of the values that stand for the members of a tuple.
pub(crate) fn tuple_value<M: MemberValues, D: Definitions>(
    alloc: Global,
    table: &D,
    place: Place,
    members: &M,
) -> Result<Value, ConvertError>
    ensures ok { IfOk result
        (λ value. tuple_at (M.values_at (D.table table.now) place 0 members.now) ≡ Some value) }
    ensures shown { IfOk result (λ value. tuple M.meant value ≡ Some (M.seen members.now)) }
    ensures err { IfErr result
        (IsMissing (tuple_at (M.values_at (D.table table.now) place 0 members.now))) }
{
    let mut values = Items::new(alloc);
    members.append_values(alloc, table, place, &mut values)?;
    Ok(Value::List(values))
}
