//! Truth values and texts.
ghost use Rattle.std.specs.Prelude.{◌≡◌, List, ℕ, Bool, Some, IfOk, IfErr, string_bytes};
ghost use Rattle.scale_info_value.specs.declared.value.Value.TheVariants as Values;
ghost use Rattle.scale_info_value_borrowed.specs.ValueParts.{truth_in, text_in};
ghost use Rattle.scale_info_value_typed.specs.declared.error.ConvertError.TheVariants as convert;

use crate::decode::DecodeAs;
use crate::encode::EncodeAs;
use crate::error::ConvertError;
use crate::place::Place;
use crate::shown::Shown;
use scale_info_collections::text::Text;
use scale_info_value::definition::Definitions;
use scale_info_value::value::Value;
use scale_info_value_borrowed::borrowed::ValueRef;
use std::alloc::Global;

/// The text as a value.
fn text_value(alloc: Global, chars: &str) -> Result<Value, ConvertError>
    ensures value { IfOk result (λ value. value ≡ Values.Text chars.now) }
    ensures shown { IfOk result (λ value. text_in value ≡ Some chars.now) }
    ensures err { IfErr result (λ e. e ≡ convert.Memory) }
{
    Ok(Value::Text(Text::from_str(alloc, chars)?))
}

impl Shown for bool {
    ghost Seen = { Bool };

    ghost seen = { λ b. b };

    ghost meant = { truth_in };
}

impl DecodeAs for bool {
    fn from_value(_alloc: Global, value: &ValueRef<'_, '_>) -> Result<bool, ConvertError> {
        match value.as_bool() {
            Some(truth) => Ok(truth),
            None => Err(ConvertError::Mismatch),
        }
    }
}

impl Shown for Text {
    ghost Seen = { List ℕ };

    ghost seen = { λ t. t };

    ghost meant = { text_in };
}

impl DecodeAs for Text {
    fn from_value(alloc: Global, value: &ValueRef<'_, '_>) -> Result<Text, ConvertError> {
        match value.as_str() {
            Some(chars) => Ok(Text::from_str(alloc, chars)?),
            None => Err(ConvertError::Mismatch),
        }
    }
}

impl Shown for String {
    ghost Seen = { List ℕ };

    ghost seen = { string_bytes };

    ghost meant = { text_in };
}

impl DecodeAs for String {
    fn from_value(alloc: Global, value: &ValueRef<'_, '_>) -> Result<String, ConvertError> {
        Ok(Text::from_value(alloc, value)?.into_string())
    }
}

impl Shown for &str {
    ghost Seen = { List ℕ };

    ghost seen = { λ t. t.now };

    ghost meant = { text_in };
}

impl EncodeAs for bool {
    ghost value_at = { λ _ _ b. Some (Values.Bool b) };

    fn to_value<D: Definitions>(
        &self,
        _alloc: Global,
        _table: &D,
        _place: Place,
    ) -> Result<Value, ConvertError> {
        Ok(Value::Bool(*self))
    }
}

impl EncodeAs for Text {
    ghost value_at = { λ _ _ t. Some (Values.Text t) };

    fn to_value<D: Definitions>(
        &self,
        alloc: Global,
        _table: &D,
        _place: Place,
    ) -> Result<Value, ConvertError> {
        text_value(alloc, self.as_str())
    }
}

impl EncodeAs for String {
    ghost value_at = { λ _ _ t. Some (Values.Text (string_bytes t)) };

    fn to_value<D: Definitions>(
        &self,
        alloc: Global,
        _table: &D,
        _place: Place,
    ) -> Result<Value, ConvertError> {
        text_value(alloc, self)
    }
}

impl EncodeAs for &str {
    ghost value_at = { λ _ _ t. Some (Values.Text t.now) };

    fn to_value<D: Definitions>(
        &self,
        alloc: Global,
        _table: &D,
        _place: Place,
    ) -> Result<Value, ConvertError> {
        text_value(alloc, self)
    }
}
