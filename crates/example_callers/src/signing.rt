//! Changes the amount of a call that is to be signed, and encodes the call again.
ghost use Rattle.std.specs.Prelude.{◌≡◌, Contains, IfOk, map};
ghost use Rattle.example_callers.specs.Signing.{HasAmount, IsCallWith, with_amount};
ghost use Rattle.example_callers.specs.Transfers.{is_amount};

use anyhow::{Result, bail};
use scale_info::laws::read_back;
use scale_info::loaded::LoadedTypes;
use scale_info::value::{Definitions, Value, decode_value, encode_value};
use scale_info::view::TableView;
use scale_info::{Items, Text};
use std::alloc::{AllocError, Global};

/// Whether this is the name of an amount.
fn is_amount(name: &Option<Text>) -> bool
    ensures { result ≡ is_amount name.now }
{
    match name {
        Some(name) => name.as_str() == "amount",
        None => false,
    }
}

/// The field, with this amount if it is one.
fn field_with(field: (Option<Text>, Value), amount: u128) -> (Option<Text>, Value)
    ensures { result ≡ with_amount amount field }
{
    let (name, value) = field;
    if is_amount(&name) {
        return (name, Value::Unsigned(amount));
    }
    (name, value)
}

/// The fields, each amount among them this one.
fn fields_with(
    alloc: Global,
    fields: Vec<(Option<Text>, Value)>,
    amount: u128,
) -> Result<Items<(Option<Text>, Value)>, AllocError>
    ensures { IfOk result (λ changed. changed ≡ map (with_amount amount) fields.items) }
{
    let mut changed = Items::with_capacity(alloc, fields.len())?;
    for field in fields {
        changed.push(field_with(field, amount))?;
    }
    Ok(changed)
}

/// The call, each amount among its fields this one.
fn changed(alloc: Global, call: Value, amount: u128) -> Result<Value>
    ensures { IfOk result (λ new. HasAmount amount call new) }
{
    let Value::Variant {
        name,
        index,
        fields,
    } = call
    else {
        bail!("a call is a variant");
    };
    Ok(Value::Variant {
        name,
        index,
        fields: fields_with(alloc, fields.into_vec(), amount)?,
    })
}

/// The bytes of a call whose field `amount` is this one, and which is in all else the call that the
/// input encodes. The id is that of the type of calls. A table serves, or what was loaded of one.
pub fn call_with_amount<T: Definitions>(
    alloc: Global,
    table: &T,
    id: u32,
    input: &[u8],
    amount: u128,
) -> Result<Vec<u8>>
    ensures { IfOk result
        (λ bytes. IsCallWith (T.table table.now) id amount input.now bytes.items) }
{
    read_back();
    let (call, rest) = decode_value(alloc, table, id, input)?;
    if !rest.is_empty() {
        bail!("there are bytes after the call");
    }
    let call = changed(alloc, call, amount)?;
    let mut bytes = Vec::new(alloc);
    encode_value(table, id, &call, &mut bytes)?;
    Ok(bytes)
}

/// [`call_with_amount`] with no types in memory but those that some ids of a view reach, of which
/// that of calls is one. Both calls are those that the whole table decodes.
pub fn call_with_amount_by_view(
    alloc: Global,
    view: &TableView<'_>,
    ids: &[u32],
    id: u32,
    input: &[u8],
    amount: u128,
) -> Result<Vec<u8>>
    ensures { Contains ids.now id
        → IfOk result (λ bytes. IsCallWith view.now id amount input.now bytes.items) }
{
    let types = LoadedTypes::load(alloc, view, ids)?;
    call_with_amount(alloc, &types, id, input, amount)
}
