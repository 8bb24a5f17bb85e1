//! Fields by their builders.
use scale_info::build::{Fields, FieldsBuilder, NamedFields, UnnamedFields};
use scale_info::form::{Form, MetaForm, PortableForm};
use scale_info::meta_type::HasIdentity;
use scale_info::{Field, TypeDef, TypeDefComposite};
use std::alloc::{AllocError, Global};
use std::test::Fail;
use test_common::held::Held;
use test_common::lists::list_of;
use test_common::parts::text;
use test_common::rows::parted;
use test_common::shown::text_of;
use test_memory_common::answers::{digits, done, encoded, printed};
use test_memory_common::by_name::{Known, for_known_type, found};
use test_memory_common::marked;
use test_memory_common::marks::{begin, end};
use test_memory_common::outcomes::Outcome;

/// The composite of a builder's fields.
fn composite<F: Form, K>(
    returned: Result<FieldsBuilder<F, K>, AllocError>,
) -> Result<TypeDefComposite<F>, AllocError> {
    match returned {
        Ok(fields) => Ok(TypeDefComposite::from(fields)),
        Err(error) => Err(error),
    }
}

/// The struct of a builder's fields, as a text.
fn struct_of<K>(
    rt: &HostRuntime,
    returned: Result<FieldsBuilder<MetaForm, K>, AllocError>,
) -> Result<Outcome, Fail> {
    let definition = match composite(returned) {
        Ok(fields) => Ok(TypeDef::from(fields)),
        Err(error) => Err(error),
    };
    Outcome::of(printed(rt.alloc(), text_of(rt.alloc(), definition)))
}

/// The field `a` of `u8`.
fn named_of_u8(alloc: Global) -> Result<FieldsBuilder<MetaForm, NamedFields>, AllocError> {
    Fields::named::<MetaForm>(alloc).field(alloc, |f| f.name("a").ty::<u8>(alloc))
}

/// One field of `u8`, without a name.
fn unnamed_of_u8(alloc: Global) -> Result<FieldsBuilder<MetaForm, UnnamedFields>, AllocError> {
    Fields::unnamed::<MetaForm>(alloc).field(alloc, |f| f.ty::<u8>(alloc))
}

/// Adds the field that a closure makes to these fields: the struct of them.
macro_rules! added {
    ($rt:expr, $alloc:ident; $fields:expr, $field:expr) => {{
        let $alloc = $rt.alloc();
        let fields = $fields?;
        let returned = marked!($rt; fields.field($alloc, $field));
        struct_of($rt, returned)
    }};
}

/// Adds the field `m` of a type; the builder gets the name before the type.
fn named<T: HasIdentity>(rt: &HostRuntime) -> Result<Outcome, Fail> {
    added!(rt, alloc; named_of_u8(alloc), |f| f.name("m").ty::<T>(alloc))
}

/// Adds the field `m` of a type; the builder gets the type before the name.
fn typed<T: HasIdentity>(rt: &HostRuntime) -> Result<Outcome, Fail> {
    added!(rt, alloc; named_of_u8(alloc), |f| Ok(f.ty::<T>(alloc)?.name("m")))
}

/// Adds a field without a name, whose type has a name.
fn unnamed<T: HasIdentity>(rt: &HostRuntime) -> Result<Outcome, Fail> {
    added!(rt, alloc; unnamed_of_u8(alloc), |f| f.type_name("Vec<T>").ty::<T>(alloc))
}

/// Makes a field by its own builder, and the struct of it.
fn built<T: HasIdentity>(rt: &HostRuntime) -> Result<Outcome, Fail> {
    let alloc = rt.alloc();
    let returned = marked!(rt; Field::<MetaForm>::builder()
        .type_name("T")
        .name("x")
        .ty::<T>(alloc));
    let definition = match returned {
        Ok(built) => alone(alloc, built.finalize(alloc)),
        Err(error) => Err(error),
    };
    Outcome::of(printed(alloc, text_of(alloc, definition)))
}

/// The struct of one field.
fn alone(alloc: Global, field: Field) -> Result<TypeDef, AllocError> {
    Ok(TypeDefComposite::from(list_of(alloc, field)?).into())
}

/// Adds or makes a field of a type, of the kind of this name.
#[derive(Drop)]
struct FieldOf<'a>(&'a HostRuntime, &'a str);

impl Known for FieldOf<'_> {
    type Returned = Result<Outcome, Fail>;

    fn of<T: HasIdentity>(self) -> Result<Outcome, Fail> {
        let FieldOf(rt, kind) = self;
        match kind {
            "named" => named::<T>(rt),
            "typed" => typed::<T>(rt),
            "unnamed" => unnamed::<T>(rt),
            _ => built::<T>(rt),
        }
    }
}

/// Adds or makes a field of a kind for the type after it.
fn field(rt: &HostRuntime, input: &str) -> Result<Outcome, Fail> {
    let (kind, name) = parted(input, ' ')?;
    found(for_known_type(FieldOf(rt, kind), name))
}

/// Adds a field with a name and an id.
fn portable_named(rt: &HostRuntime) -> Result<Outcome, Fail> {
    let fields = Fields::named::<PortableForm>(rt.alloc());
    let name = text(rt.alloc(), "data")?;
    let returned = marked!(rt; fields.field_portable(rt.alloc(), |f| Ok(f.name(name).ty(3))));
    Outcome::of(encoded(rt.alloc(), composite(returned)))
}

/// Adds a field with an id and without a name.
fn portable_unnamed(rt: &HostRuntime) -> Result<Outcome, Fail> {
    let fields = Fields::unnamed::<PortableForm>(rt.alloc());
    let returned = marked!(rt; fields.field_portable(rt.alloc(), |f| Ok(f.ty(3))));
    Outcome::of(encoded(rt.alloc(), composite(returned)))
}

/// Gives a field its parts by moves alone.
fn moved(rt: &HostRuntime) -> Result<Outcome, Fail> {
    let (name, type_name) = (text(rt.alloc(), "n")?, text(rt.alloc(), "N")?);
    let field = marked!(rt; Field::<PortableForm>::builder()
        .type_name(type_name)
        .ty(7)
        .name(name)
        .finalize(rt.alloc()));
    Outcome::of(done(digits(rt.alloc(), &field)))
}

/// Begins lists of fields, and ends one.
fn empty(rt: &HostRuntime) -> Result<Outcome, Fail> {
    begin(rt);
    let named = Held(Fields::named::<PortableForm>(rt.alloc()).finalize());
    let unnamed = Held(Fields::unnamed::<PortableForm>(rt.alloc()).finalize());
    let unit = Held(Fields::unit::<PortableForm>(rt.alloc()).finalize());
    end(rt);
    let (named, unnamed) = (
        digits(rt.alloc(), &named.0)?,
        digits(rt.alloc(), &unnamed.0)?,
    );
    let unit = digits(rt.alloc(), &unit.0)?;
    Outcome::of(done(format!(in rt.alloc(); "{named} {unnamed} {unit}")))
}

/// Makes the call of this name, which builds fields.
pub fn call(rt: &HostRuntime, name: &str, input: &str) -> Result<Outcome, Fail> {
    match name {
        "field" => field(rt, input),
        "portable_named" => portable_named(rt),
        "portable_unnamed" => portable_unnamed(rt),
        "moved" => moved(rt),
        "empty" => empty(rt),
        _ => Err(Fail::new("no call has this name")),
    }
}
