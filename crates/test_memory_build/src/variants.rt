//! Variants by their builders.
use scale_info::build::{Fields, IndexNotAssigned, VariantBuilder, Variants};
use scale_info::form::{MetaForm, PortableForm};
use scale_info::{Items, TypeDefComposite, TypeDefVariant};
use std::alloc::AllocError;
use std::test::Fail;
use test_common::parts::text;
use test_memory_common::answers::{digits, done, registered};
use test_memory_common::marked;
use test_memory_common::outcomes::Outcome;

/// The enum of a builder's variants.
fn enumeration(returned: Result<Variants, AllocError>) -> Result<TypeDefVariant, AllocError> {
    match returned {
        Ok(variants) => Ok(TypeDefVariant::from(variants)),
        Err(error) => Err(error),
    }
}

/// Adds a variant with a field.
fn variant(rt: &HostRuntime) -> Result<Outcome, Fail> {
    let alloc = rt.alloc();
    let variants = Variants::new(alloc);
    let returned = marked!(rt; variants.variant(alloc, "Some", |v| {
        let fields = Fields::unnamed::<MetaForm>(alloc);
        Ok(
            v.index(1)
                .fields(fields.field(alloc, |f| f.ty::<Vec<u32>>(alloc))?),
        )
    }));
    Outcome::of(registered(alloc, enumeration(returned)))
}

/// Adds a variant without fields.
fn variant_unit(rt: &HostRuntime) -> Result<Outcome, Fail> {
    let variants = Variants::new(rt.alloc());
    let returned = marked!(rt; variants.variant_unit(rt.alloc(), "None", 0));
    Outcome::of(registered(rt.alloc(), enumeration(returned)))
}

/// Gives a variant its index and its fields.
fn moved(rt: &HostRuntime) -> Result<Outcome, Fail> {
    let fields = Fields::unnamed::<PortableForm>(rt.alloc());
    let fields = fields.field_portable(rt.alloc(), |f| Ok(f.ty(3)))?;
    let builder = VariantBuilder::<PortableForm, IndexNotAssigned> {
        name: text(rt.alloc(), "V")?,
        index: IndexNotAssigned,
        fields: Items::new(rt.alloc()),
    };
    let built = marked!(rt; builder.index(7).fields(fields));
    let fields = TypeDefComposite::<PortableForm> {
        fields: built.fields,
    };
    Outcome::of(done(digits(rt.alloc(), &fields)))
}

/// Makes the call of this name, which builds a variant.
pub fn call(rt: &HostRuntime, name: &str, _input: &str) -> Result<Outcome, Fail> {
    match name {
        "variant" => variant(rt),
        "variant_unit" => variant_unit(rt),
        "moved" => moved(rt),
        _ => Err(Fail::new("no call has this name")),
    }
}
