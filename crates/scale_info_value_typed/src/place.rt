//! Where a value stands in a table, and where its parts stand.
ghost use Rattle.std.specs.Prelude.{◌≡◌, IfSome};
ghost use Rattle.std.specs.Option.{option_copied};
ghost use Rattle.scale_info_value_typed.specs.declared.place.Place.TheVariants as place;
ghost use Rattle.scale_info_value_typed.specs.Places.{part_at, part_of, variant_named, variants_at};

use scale_info_types::form::PortableForm;
use scale_info_types::ty::TypeDef;
use scale_info_types::ty::variant::Variant;
use scale_info_value::definition::Definitions;

/// Where a value stands in a table.
#[derive(Clone, Copy)]
pub enum Place {
    /// At the type with this id.
    Type(u32),
    /// As an entry of a map, whose keys and whose values are of the types with these ids.
    Entry(u32, u32),
    /// At no type that the table has.
    Nowhere,
}

impl Place {
    /// Where the part with this index stands, counted from 0: an item of a sequence or an array, an
    /// entry of a map, a member of a tuple, a field of a composite, or the key and the value of an
    /// entry.
    pub fn part<D: Definitions>(self, table: &D, index: usize) -> Place
        ensures { result ≡ part_at (D.table table.now) self index }
    {
        match self {
            Place::Type(id) => match table.definition(id) {
                Some(definition) => part_of(definition, index),
                None => Place::Nowhere,
            },
            Place::Entry(key, value) => match index {
                0 => Place::Type(key),
                _ => Place::Type(value),
            },
            Place::Nowhere => Place::Nowhere,
        }
    }

    /// The first variant with this name that a value here may be; None where there is none.
    pub fn variant<'t, D: Definitions>(
        self,
        table: &'t D,
        name: &str,
    ) -> Option<&'t Variant<PortableForm>>
        ensures first { option_copied result ≡ variant_named name.now (D.table table.now) self }
        ensures named { IfSome result (λ variant. variant.now.name ≡ name.now) }
    {
        self.variants(table)
            .iter()
            .find(|variant| variant.name.as_str() == name)
    }

    /// The variants that a value here may be.
    fn variants<'t, D: Definitions>(self, table: &'t D) -> &'t [Variant<PortableForm>]
        ensures { result.now ≡ variants_at (D.table table.now) self }
    {
        let Place::Type(id) = self else {
            return &[];
        };
        match table.definition(id) {
            Some(TypeDef::Variant(choice)) => choice.variants.as_slice(),
            _ => &[],
        }
    }
}

/// Where the part with this index stands, of a value by this definition.
fn part_of(definition: &TypeDef<PortableForm>, index: usize) -> Place
    ensures { result ≡ part_of definition.now index }
{
    match definition {
        TypeDef::Composite(composite) => match composite.fields.as_slice().get(index) {
            Some(field) => Place::Type(field.ty.id),
            None => Place::Nowhere,
        },
        TypeDef::Sequence(sequence) => Place::Type(sequence.type_param.id),
        TypeDef::Array(array) => Place::Type(array.type_param.id),
        TypeDef::Tuple(tuple) => match tuple.fields.as_slice().get(index) {
            Some(member) => Place::Type(member.id),
            None => Place::Nowhere,
        },
        TypeDef::Map(map) => Place::Entry(map.key.id, map.value.id),
        _ => Place::Nowhere,
    }
}
