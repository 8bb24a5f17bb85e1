//! Names of fields.
ghost use Rattle.std.specs.Prelude.{◌≡◌, ◌&&◌, List, Option, ℕ, IfOk, map};
ghost use Rattle.scale_info_value_visit.specs.Events.{all_named, names};
ghost use Rattle.scale_info_value_json.specs.TreeParts.{has_name, are_distinct, is_object_of};
ghost use Rattle.scale_info_value_json.specs.TreesOfTexts.{own_names, has_own_names, all_hold};
ghost use Rattle.scale_info_value_json.specs.TreesOfTexts.{fields_hold};

use scale_info_collections::text::Text;
use scale_info_types::form::PortableForm;
use scale_info_types::ty::Field;
use scale_info_value::value::Value;
use std::alloc::{AllocError, Global};
use std::collections::BTreeMap;

/// What may have a name among others.
pub trait Named {
    /// The name, if there is one.
    ghost named: { Self → Option (List ℕ) };

    /// The name, if there is one.
    fn name(&self) -> &Option<Text>
        ensures { result.now ≡ named self.now };
}

/// A field of a table.
impl Named for Field<PortableForm> {
    ghost named = { λ field. field.name };

    fn name(&self) -> &Option<Text> {
        &self.name
    }
}

/// A field of a value.
impl Named for (Option<Text>, Value) {
    ghost named = { λ field. field.0 };

    fn name(&self) -> &Option<Text> {
        &self.0
    }
}

/// Whether each of these has a name.
fn all_named<N: Named>(fields: &[N]) -> bool
    ensures { result ≡ all_named (map N.named fields.now) }
{
    for field in fields {
        if field.name().is_none() {
            return false;
        }
    }
    true
}

/// Whether one of these has this name.
fn has_name<N: Named>(name: &Option<Text>, fields: &[N]) -> bool
    ensures { result ≡ has_name name.now (map N.named fields.now) }
{
    for field in fields {
        if field.name() == name {
            return true;
        }
    }
    false
}

/// Whether no two of these have the same name.
fn are_distinct<N: Named>(fields: &[N]) -> bool
    ensures { result ≡ are_distinct (map N.named fields.now) }
{
    let mut rest = fields;
    while let [field, more @ ..] = rest {
        if has_name(field.name(), more) {
            return false;
        }
        rest = more;
    }
    true
}

/// Whether each of these has a name of its own, by a map of the names: what [`is_object_of`]
/// returns, without comparing each two names.
///
/// Errors: an allocation failed.
fn is_object_by_map<N: Named>(alloc: Global, fields: &[N]) -> Result<bool, AllocError>
    ensures { IfOk result (λ is. is ≡ is_object_of (map N.named fields.now)) }
{
    let mut later: BTreeMap<&str, ()> = BTreeMap::new(alloc);
    let mut rest = fields;
    while let [before @ .., field] = rest {
        let Some(name) = field.name() else {
            return Ok(false);
        };
        if later.insert(name.as_str(), ())?.is_some() {
            return Ok(false);
        }
        rest = before;
    }
    Ok(true)
}

/// Whether each of these has a name of its own.
///
/// A few names are compared two by two, and nothing is allocated for them; more are put into a map,
/// so that the time for a type from outside goes by its length and no faster. Where there is no
/// memory for the map they are compared two by two as well.
fn each_has_its_name<N: Named>(alloc: Global, fields: &[N]) -> bool
    ensures { result ≡ is_object_of (map N.named fields.now) }
{
    if fields.len() > 16 {
        if let Ok(by_map) = is_object_by_map(alloc, fields) {
            return by_map;
        }
    }
    all_named(fields) && are_distinct(fields)
}

/// Whether fields are the members of an object: each has a name of its own.
pub fn is_object_of(alloc: Global, fields: &[Field<PortableForm>]) -> bool
    ensures { result ≡ is_object_of (names fields.now) }
{
    each_has_its_name(alloc, fields)
}

/// Whether no name comes twice among the fields of a value, where all have names.
fn own_names(alloc: Global, fields: &[(Option<Text>, Value)]) -> bool
    ensures { result ≡ own_names (map (λ f. f.0) fields.now) }
{
    !all_named(fields) || each_has_its_name(alloc, fields)
}

/// Whether each name comes once among the fields of each record and of each variant in the value,
/// as far as these are written by name.
///
/// The Rust compiler writes no other type, but a table may come from elsewhere. Of such a value the
/// text holds a name twice, and a reader of JSON keeps one of the two. So where this is true of a
/// value that was decoded, its text is read back as it (`laws::json_and_bytes`).
///
/// ```text
/// has_own_names(alloc, &value)  // of { x: 1, y: 2 }: true; of { x: 1, x: 2 }: false
/// ```
#[cycle(own_names)]
pub fn has_own_names(alloc: Global, value: &Value) -> bool
    ensures { result ≡ has_own_names value.now }
{
    match value {
        Value::List(items) => all_own(alloc, items.as_slice()),
        Value::Record(fields) => fields_own(alloc, fields.as_slice()),
        Value::Variant { fields, .. } => fields_own(alloc, fields.as_slice()),
        Value::Bool(_) | Value::Unsigned(_) | Value::Signed(_) | Value::Text(_) => true,
    }
}

/// Whether each of these values has names that come once.
#[cycle(own_names)]
fn all_own(alloc: Global, values: &[Value]) -> bool
    ensures { result ≡ all_hold (map has_own_names values.now) }
{
    for value in values {
        if !has_own_names(alloc, value) {
            return false;
        }
    }
    true
}

/// Whether names come once among these fields, and in the value of each.
#[cycle(own_names)]
fn fields_own(alloc: Global, fields: &[(Option<Text>, Value)]) -> bool
    ensures { result ≡ (own_names (map (λ f. f.0) fields.now)
        && fields_hold (map (λ f. (f.0, has_own_names f.1)) fields.now)) }
{
    if !own_names(alloc, fields) {
        return false;
    }
    for (_, value) in fields {
        if !has_own_names(alloc, value) {
            return false;
        }
    }
    true
}
