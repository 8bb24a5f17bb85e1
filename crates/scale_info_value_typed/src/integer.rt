//! Integers.
ghost use Rattle.std.specs.Prelude.{◌≡◌, ◌≤◌, ◌+◌, ◌^◌, ℕ, ℤ, Some, IfOk, IfErr, pos, negsuc, ◌≤ℤ◌};
ghost use Rattle.scale_info_value.specs.declared.value.Value.TheVariants as Values;
ghost use Rattle.scale_info_value_borrowed.specs.BorrowedValues.{owned_value};
ghost use Rattle.scale_info_value_typed.specs.ConvertErrors.{IsMissing};
ghost use Rattle.scale_info_value_typed.specs.Meanings.{unsigned, signed};

use crate::decode::DecodeAs;
use crate::encode::EncodeAs;
use crate::error::ConvertError;
use crate::place::Place;
use crate::shown::Shown;
use scale_info_value::definition::Definitions;
use scale_info_value::value::Value;
use scale_info_value_borrowed::borrowed::ValueRef;
use std::alloc::Global;

/// The integer of an unsigned type, where it is at most this one.
fn unsigned_up_to(most: u128, value: &ValueRef<'_, '_>) -> Result<u128, ConvertError>
    ensures ok { IfOk result (λ n. unsigned (most + 1) (owned_value value.now) ≡ Some n) }
    ensures bound { IfOk result (λ n. n ≤ most) }
    ensures err { IfErr result (IsMissing (unsigned (most + 1) (owned_value value.now))) }
{
    match value.as_u128() {
        Some(n) if n <= most => Ok(n),
        _ => Err(ConvertError::Mismatch),
    }
}

/// The integer of a signed type, where it is in this range.
fn signed_between(least: i128, most: i128, value: &ValueRef<'_, '_>) -> Result<i128, ConvertError>
    ensures ok { IfOk result (λ n. signed least most (owned_value value.now) ≡ Some n) }
    ensures least { IfOk result (λ n. least ≤ℤ n) }
    ensures most { IfOk result (λ n. n ≤ℤ most) }
    ensures err { IfErr result (IsMissing (signed least most (owned_value value.now))) }
{
    match value.as_i128() {
        Some(n) => {
            if n < least || most < n {
                return Err(ConvertError::Mismatch);
            }
            Ok(n)
        }
        None => Err(ConvertError::Mismatch),
    }
}

/// The integer as a value of an unsigned type.
fn unsigned_value(most: u128, n: u128) -> Value
    requires { n ≤ most }
    ensures value { result ≡ Values.Unsigned n }
    ensures shown { unsigned (most + 1) result ≡ Some n }
{
    Value::Unsigned(n)
}

/// The integer as a value of a signed type.
fn signed_value(least: i128, most: i128, n: i128) -> Value
    requires least { least ≤ℤ n }
    requires most { n ≤ℤ most }
    ensures value { result ≡ Values.Signed n }
    ensures shown { signed least most result ≡ Some n }
{
    Value::Signed(n)
}

impl Shown for u8 {
    ghost Seen = { ℕ };

    ghost seen = { λ n. n };

    ghost meant = { unsigned (2 ^ 8) };
}

impl DecodeAs for u8 {
    fn from_value(_alloc: Global, value: &ValueRef<'_, '_>) -> Result<u8, ConvertError> {
        let n = unsigned_up_to(u8::MAX as u128, value)?;
        Ok(n as u8)
    }
}

impl Shown for u16 {
    ghost Seen = { ℕ };

    ghost seen = { λ n. n };

    ghost meant = { unsigned (2 ^ 16) };
}

impl DecodeAs for u16 {
    fn from_value(_alloc: Global, value: &ValueRef<'_, '_>) -> Result<u16, ConvertError> {
        let n = unsigned_up_to(u16::MAX as u128, value)?;
        Ok(n as u16)
    }
}

impl Shown for u32 {
    ghost Seen = { ℕ };

    ghost seen = { λ n. n };

    ghost meant = { unsigned (2 ^ 32) };
}

impl DecodeAs for u32 {
    fn from_value(_alloc: Global, value: &ValueRef<'_, '_>) -> Result<u32, ConvertError> {
        let n = unsigned_up_to(u32::MAX as u128, value)?;
        Ok(n as u32)
    }
}

impl Shown for u64 {
    ghost Seen = { ℕ };

    ghost seen = { λ n. n };

    ghost meant = { unsigned (2 ^ 64) };
}

impl DecodeAs for u64 {
    fn from_value(_alloc: Global, value: &ValueRef<'_, '_>) -> Result<u64, ConvertError> {
        let n = unsigned_up_to(u64::MAX as u128, value)?;
        Ok(n as u64)
    }
}

impl Shown for u128 {
    ghost Seen = { ℕ };

    ghost seen = { λ n. n };

    ghost meant = { unsigned (2 ^ 128) };
}

impl DecodeAs for u128 {
    fn from_value(_alloc: Global, value: &ValueRef<'_, '_>) -> Result<u128, ConvertError> {
        let n = unsigned_up_to(u128::MAX, value)?;
        Ok(n)
    }
}

impl Shown for i8 {
    ghost Seen = { ℤ };

    ghost seen = { λ n. n };

    ghost meant = { signed (negsuc 127) (pos 127) };
}

impl DecodeAs for i8 {
    fn from_value(_alloc: Global, value: &ValueRef<'_, '_>) -> Result<i8, ConvertError> {
        let n = signed_between(i8::MIN as i128, i8::MAX as i128, value)?;
        Ok(n as i8)
    }
}

impl Shown for i16 {
    ghost Seen = { ℤ };

    ghost seen = { λ n. n };

    ghost meant = { signed (negsuc 32767) (pos 32767) };
}

impl DecodeAs for i16 {
    fn from_value(_alloc: Global, value: &ValueRef<'_, '_>) -> Result<i16, ConvertError> {
        let n = signed_between(i16::MIN as i128, i16::MAX as i128, value)?;
        Ok(n as i16)
    }
}

impl Shown for i32 {
    ghost Seen = { ℤ };

    ghost seen = { λ n. n };

    ghost meant = { signed (negsuc 2147483647) (pos 2147483647) };
}

impl DecodeAs for i32 {
    fn from_value(_alloc: Global, value: &ValueRef<'_, '_>) -> Result<i32, ConvertError> {
        let n = signed_between(i32::MIN as i128, i32::MAX as i128, value)?;
        Ok(n as i32)
    }
}

impl Shown for i64 {
    ghost Seen = { ℤ };

    ghost seen = { λ n. n };

    ghost meant = { signed (negsuc 9223372036854775807) (pos 9223372036854775807) };
}

impl DecodeAs for i64 {
    fn from_value(_alloc: Global, value: &ValueRef<'_, '_>) -> Result<i64, ConvertError> {
        let n = signed_between(i64::MIN as i128, i64::MAX as i128, value)?;
        Ok(n as i64)
    }
}

impl Shown for i128 {
    ghost Seen = { ℤ };

    ghost seen = { λ n. n };

    ghost meant = { signed (negsuc 170141183460469231731687303715884105727)
        (pos 170141183460469231731687303715884105727) };
}

impl DecodeAs for i128 {
    fn from_value(_alloc: Global, value: &ValueRef<'_, '_>) -> Result<i128, ConvertError> {
        let n = signed_between(i128::MIN, i128::MAX, value)?;
        Ok(n)
    }
}

impl EncodeAs for u8 {
    ghost value_at = { λ _ _ n. Some (Values.Unsigned n) };

    fn to_value<D: Definitions>(
        &self,
        _alloc: Global,
        _table: &D,
        _place: Place,
    ) -> Result<Value, ConvertError> {
        Ok(unsigned_value(u8::MAX as u128, *self as u128))
    }
}

impl EncodeAs for u16 {
    ghost value_at = { λ _ _ n. Some (Values.Unsigned n) };

    fn to_value<D: Definitions>(
        &self,
        _alloc: Global,
        _table: &D,
        _place: Place,
    ) -> Result<Value, ConvertError> {
        Ok(unsigned_value(u16::MAX as u128, *self as u128))
    }
}

impl EncodeAs for u32 {
    ghost value_at = { λ _ _ n. Some (Values.Unsigned n) };

    fn to_value<D: Definitions>(
        &self,
        _alloc: Global,
        _table: &D,
        _place: Place,
    ) -> Result<Value, ConvertError> {
        Ok(unsigned_value(u32::MAX as u128, *self as u128))
    }
}

impl EncodeAs for u64 {
    ghost value_at = { λ _ _ n. Some (Values.Unsigned n) };

    fn to_value<D: Definitions>(
        &self,
        _alloc: Global,
        _table: &D,
        _place: Place,
    ) -> Result<Value, ConvertError> {
        Ok(unsigned_value(u64::MAX as u128, *self as u128))
    }
}

impl EncodeAs for u128 {
    ghost value_at = { λ _ _ n. Some (Values.Unsigned n) };

    fn to_value<D: Definitions>(
        &self,
        _alloc: Global,
        _table: &D,
        _place: Place,
    ) -> Result<Value, ConvertError> {
        Ok(unsigned_value(u128::MAX, *self))
    }
}

impl EncodeAs for i8 {
    ghost value_at = { λ _ _ n. Some (Values.Signed n) };

    fn to_value<D: Definitions>(
        &self,
        _alloc: Global,
        _table: &D,
        _place: Place,
    ) -> Result<Value, ConvertError> {
        Ok(signed_value(i8::MIN as i128, i8::MAX as i128, *self as i128))
    }
}

impl EncodeAs for i16 {
    ghost value_at = { λ _ _ n. Some (Values.Signed n) };

    fn to_value<D: Definitions>(
        &self,
        _alloc: Global,
        _table: &D,
        _place: Place,
    ) -> Result<Value, ConvertError> {
        Ok(signed_value(i16::MIN as i128, i16::MAX as i128, *self as i128))
    }
}

impl EncodeAs for i32 {
    ghost value_at = { λ _ _ n. Some (Values.Signed n) };

    fn to_value<D: Definitions>(
        &self,
        _alloc: Global,
        _table: &D,
        _place: Place,
    ) -> Result<Value, ConvertError> {
        Ok(signed_value(i32::MIN as i128, i32::MAX as i128, *self as i128))
    }
}

impl EncodeAs for i64 {
    ghost value_at = { λ _ _ n. Some (Values.Signed n) };

    fn to_value<D: Definitions>(
        &self,
        _alloc: Global,
        _table: &D,
        _place: Place,
    ) -> Result<Value, ConvertError> {
        Ok(signed_value(i64::MIN as i128, i64::MAX as i128, *self as i128))
    }
}

impl EncodeAs for i128 {
    ghost value_at = { λ _ _ n. Some (Values.Signed n) };

    fn to_value<D: Definitions>(
        &self,
        _alloc: Global,
        _table: &D,
        _place: Place,
    ) -> Result<Value, ConvertError> {
        Ok(signed_value(i128::MIN, i128::MAX, *self))
    }
}
