//! Lists of any length, and arrays.
ghost use Rattle.std.specs.Prelude.{◌≡◌, List, Some, IfOk, IfErr, map};
ghost use Rattle.scale_info_value_borrowed.specs.BorrowedValues.{owned_value};
ghost use Rattle.scale_info_value_typed.specs.ConvertErrors.{IsMissing};
ghost use Rattle.scale_info_value_typed.specs.Meanings.{list, array};
ghost use Rattle.scale_info_value_typed.specs.StandingValues.{list_at};

use crate::decode::DecodeAs;
use crate::encode::EncodeAs;
use crate::error::ConvertError;
use crate::place::Place;
use crate::shown::Shown;
use scale_info_collections::items::Items;
use scale_info_value::definition::Definitions;
use scale_info_value::value::Value;
use scale_info_value_borrowed::borrowed::ValueRef;
use std::alloc::Global;

/// The items of a list, each as a value of the type `T`.
fn items<T: DecodeAs>(alloc: Global, value: &ValueRef<'_, '_>) -> Result<Items<T>, ConvertError>
    ensures ok { IfOk result (λ all. list T.meant (owned_value value.now) ≡ Some (map T.seen all)) }
    ensures err { IfErr result (IsMissing (list T.meant (owned_value value.now))) }
{
    let Some(count) = value.len() else {
        return Err(ConvertError::Mismatch);
    };
    let mut all = Items::new(alloc);
    for index in 0..count {
        let Some(item) = value.at(index) else {
            return Err(ConvertError::Mismatch);
        };
        all.push_towards(count, T::from_value(alloc, item.value())?)?;
    }
    Ok(all)
}

/// The list of the values that stand for the items.
fn list_value<T: EncodeAs, D: Definitions>(
    alloc: Global,
    table: &D,
    place: Place,
    all: &[T],
) -> Result<Value, ConvertError>
    ensures ok { IfOk result
        (λ value. list_at T.value_at (D.table table.now) place all.now ≡ Some value) }
    ensures shown { IfOk result (λ value. list T.meant value ≡ Some (map T.seen all.now)) }
    ensures err { IfErr result (IsMissing (list_at T.value_at (D.table table.now) place all.now)) }
{
    let mut values = Items::with_capacity(alloc, all.len())?;
    for (index, item) in all.iter().enumerate() {
        values.push(item.to_value(alloc, table, place.part(table, index))?)?;
    }
    Ok(Value::List(values))
}

impl<T: Shown> Shown for Items<T> {
    ghost Seen = { List T.Seen };

    ghost seen = { map T.seen };

    ghost meant = { list T.meant };
}

impl<T: DecodeAs> DecodeAs for Items<T> {
    fn from_value(alloc: Global, value: &ValueRef<'_, '_>) -> Result<Items<T>, ConvertError> {
        items(alloc, value)
    }
}

impl<T: Shown> Shown for Vec<T> {
    ghost Seen = { List T.Seen };

    ghost seen = { λ all. map T.seen all.items };

    ghost meant = { list T.meant };
}

impl<T: DecodeAs> DecodeAs for Vec<T> {
    fn from_value(alloc: Global, value: &ValueRef<'_, '_>) -> Result<Vec<T>, ConvertError> {
        Ok(items(alloc, value)?.into_vec())
    }
}

impl<T: Shown, const N: usize> Shown for [T; N] {
    ghost Seen = { List T.Seen };

    ghost seen = { map T.seen };

    ghost meant = { array N T.meant };
}

impl<T: DecodeAs, const N: usize> DecodeAs for [T; N] {
    fn from_value(alloc: Global, value: &ValueRef<'_, '_>) -> Result<[T; N], ConvertError> {
        let all: Vec<T> = items(alloc, value)?.into_vec();
        match <[T; N]>::try_from(all) {
            Ok(all) => Ok(all),
            Err(_) => Err(ConvertError::Mismatch),
        }
    }
}

impl<T: Shown> Shown for &[T] {
    ghost Seen = { List T.Seen };

    ghost seen = { λ all. map T.seen all.now };

    ghost meant = { list T.meant };
}

impl<T: EncodeAs> EncodeAs for Items<T> {
    ghost value_at = { list_at T.value_at };

    fn to_value<D: Definitions>(
        &self,
        alloc: Global,
        table: &D,
        place: Place,
    ) -> Result<Value, ConvertError> {
        list_value(alloc, table, place, self.as_slice())
    }
}

impl<T: EncodeAs> EncodeAs for Vec<T> {
    ghost value_at = { λ table place all. list_at T.value_at table place all.items };

    fn to_value<D: Definitions>(
        &self,
        alloc: Global,
        table: &D,
        place: Place,
    ) -> Result<Value, ConvertError> {
        list_value(alloc, table, place, self)
    }
}

impl<T: EncodeAs, const N: usize> EncodeAs for [T; N] {
    ghost value_at = { list_at T.value_at };

    fn to_value<D: Definitions>(
        &self,
        alloc: Global,
        table: &D,
        place: Place,
    ) -> Result<Value, ConvertError> {
        list_value(alloc, table, place, self)
    }
}

impl<T: EncodeAs> EncodeAs for &[T] {
    ghost value_at = { λ table place all. list_at T.value_at table place all.now };

    fn to_value<D: Definitions>(
        &self,
        alloc: Global,
        table: &D,
        place: Place,
    ) -> Result<Value, ConvertError> {
        list_value(alloc, table, place, self)
    }
}
