//! The variants of an enum: which one an index stands for, and which index a name has.
ghost use Rattle.std.specs.Prelude.{◌≡◌, ◌==◌, find, option_map};
ghost use Rattle.std.specs.Option.{option_copied};
ghost use Rattle.std.specs.Str.{bytes_eq};
ghost use Rattle.scale_info_value.specs.BuiltValues.{variant_index};

use crate::definition::Definitions;
use scale_info_types::form::PortableForm;
use scale_info_types::ty::TypeDef;
use scale_info_types::ty::variant::Variant;

/// The first variant with this index; None where none has it.
pub fn variant_with_index(
    variants: &[Variant<PortableForm>],
    index: u8,
) -> Option<&Variant<PortableForm>>
    ensures { option_copied result ≡ find (λ v. v.index == index) variants.now }
{
    variants.iter().find(|variant| variant.index == index)
}

/// The first variant with this name; None where none has it.
fn variant_with_name<'a>(
    variants: &'a [Variant<PortableForm>],
    name: &str,
) -> Option<&'a Variant<PortableForm>>
    ensures { option_copied result ≡ find (λ v. bytes_eq v.name name.now) variants.now }
{
    variants
        .iter()
        .find(|variant| variant.name.as_str() == name)
}

/// The index of the first variant with this name; None where none has it.
fn index_with_name(variants: &[Variant<PortableForm>], name: &str) -> Option<u8>
    ensures { result
        ≡ option_map (λ v. v.index) (find (λ v. bytes_eq v.name name.now) variants.now) }
{
    let variant = variant_with_name(variants, name)?;
    Some(variant.index)
}

/// The index of the first variant with this name of the enum with this id; None where the enum has
/// no variant of the name, and where the id is that of no enum.
///
/// `types` is a table, or what is loaded of one: see
/// [`Definitions`](crate::definition::Definitions). In an enum of which two variants share an
/// index, a value of the second has no encoding.
///
/// ```text
/// let Some(index) = variant_index(&table, calls, "transfer") else { .. };
/// let call = Value::variant("transfer", index, vec![in alloc; ("amount", 5u128.into())]?)?;
/// ```
pub fn variant_index<T: Definitions>(types: &T, id: u32, name: &str) -> Option<u8>
    ensures { result ≡ variant_index (T.table types.now) id name.now }
{
    match types.definition(id) {
        Some(TypeDef::Variant(choice)) => index_with_name(choice.variants.as_slice(), name),
        _ => None,
    }
}
