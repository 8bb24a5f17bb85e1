//! Values that may be missing.
ghost use Rattle.std.specs.Prelude.{◌≡◌, ◌∷◌, [], Option, Some, None, option_map, map, codes};
ghost use Rattle.std.specs.Prelude.{IfOk, IfErr};
ghost use Rattle.scale_info_value.specs.declared.value.Value.TheVariants as Values;
ghost use Rattle.scale_info_value_borrowed.specs.BorrowedValues.{owned_value, field_of};
ghost use Rattle.scale_info_value_typed.specs.Meanings.{optional, option_in, held_by};
ghost use Rattle.scale_info_value_typed.specs.declared.error.ConvertError.TheVariants as convert;
ghost use Rattle.scale_info_value_typed.specs.ConvertErrors.{IsMissing};
ghost use Rattle.scale_info_value_typed.specs.StandingValues.{optional_at, with_first, alone};

use crate::decode::DecodeAs;
use crate::encode::EncodeAs;
use crate::error::ConvertError;
use crate::place::Place;
use crate::shown::Shown;
use scale_info_collections::items::Items;
use scale_info_collections::try_clone::TryClone;
use scale_info_types::form::PortableForm;
use scale_info_types::ty::Field;
use scale_info_types::ty::variant::Variant;
use scale_info_value::definition::Definitions;
use scale_info_value::value::Value;
use scale_info_value_borrowed::borrowed::ValueRef;
use std::alloc::{AllocError, Global};

/// What the variant of this name holds, by its fields, if it is one of an option.
fn held_by<'v, 't, 'i>(
    name: &str,
    fields: &'v [(Option<&'t str>, ValueRef<'t, 'i>)],
) -> Option<Option<&'v ValueRef<'t, 'i>>>
    ensures { option_map (option_map (λ v. owned_value v.now)) result
        ≡ held_by name.now (map field_of fields.now) }
{
    match fields {
        [] => {
            if name == "None" {
                return Some(None);
            }
            None
        }
        [field] => {
            if name == "Some" {
                return Some(Some(&field.1));
            }
            None
        }
        _ => None,
    }
}

/// What an option holds: None where the value is no option, and `Some(None)` where it holds none.
fn held<'v, 't, 'i>(value: &'v ValueRef<'t, 'i>) -> Option<Option<&'v ValueRef<'t, 'i>>>
    ensures { option_map (option_map (λ v. owned_value v.now)) result
        ≡ option_in (owned_value value.now) }
{
    match value {
        ValueRef::Variant { name, fields, .. } => held_by(name, fields.as_slice()),
        _ => None,
    }
}

/// The variant `None` with no field.
fn nothing<T: EncodeAs>(
    alloc: Global,
    variant: &Variant<PortableForm>,
) -> Result<Value, ConvertError>
    requires { variant.now.name ≡ codes "None" }
    ensures ok { IfOk result (λ value. value ≡ alone variant.now) }
    ensures shown { IfOk result (λ value. optional T.meant value ≡ Some None) }
    ensures err { IfErr result (λ e. e ≡ convert.Memory) }
{
    Ok(Value::Variant {
        name: variant.name.try_clone(alloc)?,
        index: variant.index,
        fields: Items::new(alloc),
    })
}

/// The variant with this value for its first field.
fn with_field(
    alloc: Global,
    variant: &Variant<PortableForm>,
    field: &Field<PortableForm>,
    value: Value,
) -> Result<Value, AllocError>
    ensures { IfOk result (λ whole. whole
        ≡ Values.Variant variant.now.name variant.now.index ((field.now.name, value) ∷ [])) }
{
    let name = field.name.try_clone(alloc)?;
    let mut fields = Items::with_capacity(alloc, 1)?;
    fields.push((name, value))?;
    Ok(Value::Variant {
        name: variant.name.try_clone(alloc)?,
        index: variant.index,
        fields,
    })
}

/// The variant `Some` with what stands for this value for its first field.
fn something<T: EncodeAs, D: Definitions>(
    alloc: Global,
    table: &D,
    variant: &Variant<PortableForm>,
    inner: &T,
) -> Result<Value, ConvertError>
    requires { variant.now.name ≡ codes "Some" }
    ensures ok { IfOk result (λ value.
        with_first T.value_at (D.table table.now) inner.now variant.now variant.now.fields
        ≡ Some value) }
    ensures shown { IfOk result
        (λ value. optional T.meant value ≡ Some (Some (T.seen inner.now))) }
    ensures err { IfErr result (IsMissing
        (with_first T.value_at (D.table table.now) inner.now variant.now variant.now.fields)) }
{
    match variant.fields.as_slice() {
        [] => Err(ConvertError::Mismatch),
        [field, ..] => {
            let value = inner.to_value(alloc, table, Place::Type(field.ty.id))?;
            Ok(with_field(alloc, variant, field, value)?)
        }
    }
}

impl<T: Shown> Shown for Option<T> {
    ghost Seen = { Option T.Seen };

    ghost seen = { option_map T.seen };

    ghost meant = { optional T.meant };
}

impl<T: DecodeAs> DecodeAs for Option<T> {
    fn from_value(alloc: Global, value: &ValueRef<'_, '_>) -> Result<Option<T>, ConvertError> {
        match held(value) {
            Some(Some(inner)) => Ok(Some(T::from_value(alloc, inner)?)),
            Some(None) => Ok(None),
            None => Err(ConvertError::Mismatch),
        }
    }
}

impl<T: EncodeAs> EncodeAs for Option<T> {
    ghost value_at = { optional_at T.value_at };

    fn to_value<D: Definitions>(
        &self,
        alloc: Global,
        table: &D,
        place: Place,
    ) -> Result<Value, ConvertError> {
        match self {
            None => match place.variant(table, "None") {
                Some(variant) => nothing::<T>(alloc, variant),
                None => Err(ConvertError::Mismatch),
            },
            Some(inner) => match place.variant(table, "Some") {
                Some(variant) => something(alloc, table, variant, inner),
                None => Err(ConvertError::Mismatch),
            },
        }
    }
}
