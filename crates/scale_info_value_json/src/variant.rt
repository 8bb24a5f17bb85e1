//! The variant of an enum that a tree means.
ghost use Rattle.std.specs.Prelude.{◌≡◌, option_map, find};
ghost use Rattle.std.specs.Option.{option_copied};
ghost use Rattle.std.specs.Str.{bytes_eq};
ghost use Rattle.scale_info_value_json.specs.DefinitionTakers.{chosen};
ghost use Rattle.scale_info_value_json.specs.Takings.{seen};

use crate::tree::index_and_fields;
use scale_info_types::form::PortableForm;
use scale_info_types::ty::variant::Variant;
use scale_info_value_visit::visit::shares_name;

/// The first variant with this name; None where none has it.
fn variant_named<'v>(
    choice: &'v [Variant<PortableForm>],
    name: &str,
) -> Option<&'v Variant<PortableForm>>
    ensures { option_copied result ≡ find (λ v. bytes_eq v.name name.now) choice.now }
{
    choice.iter().find(|variant| variant.name.as_str() == name)
}

/// The index of the variant that is meant, and what stands for its fields; None where no variant is
/// meant.
pub fn chosen<'t>(
    choice: &[Variant<PortableForm>],
    name: &str,
    content: Option<&'t serde_json::Value>,
) -> Option<(u8, Option<&'t serde_json::Value>)>
    ensures { option_map (λ found. (found.0, seen found.1)) result
        ≡ chosen choice.now name.now (seen content.entry) }
{
    match variant_named(choice, name) {
        None => None,
        Some(variant) if shares_name(choice, variant) => match content {
            Some(tree) => index_and_fields(tree),
            None => None,
        },
        Some(variant) => Some((variant.index, content)),
    }
}
