//! Constructors that move what they are given, or make something empty. None allocates.
use scale_info::form::PortableForm;
use scale_info::interner::Interner;
use scale_info::meta_type::Catalogue;
use scale_info::walk::Refs;
use scale_info::{
    Field, Items, Path, PortableRegistryBuilder, PortableType, Registry, Text, Type, TypeDef,
    TypeDefArray, TypeDefBitSequence, TypeDefCompact, TypeDefComposite, TypeDefMap,
    TypeDefPrimitive, TypeDefSequence, TypeDefTuple, TypeDefVariant, TypeId, TypeParameter,
    UntrackedSymbol, Variant,
};
use std::alloc::{AllocError, Global};
use std::test::Fail;
use test_common::held::Held;
use test_common::lists::with;
use test_common::parts;
use test_common::results::both;
use test_memory_common::answers::{digits, done};
use test_memory_common::marked;
use test_memory_common::marks::{begin, end};
use test_memory_common::outcomes::Outcome;

/// Makes a field.
fn field(rt: &HostRuntime) -> Result<Outcome, Fail> {
    let (name, docs) = (
        parts::text(rt.alloc(), "n")?,
        parts::texts(rt.alloc(), &["d"])?,
    );
    let made = marked!(rt; Field::<PortableForm>::new(Some(name), parts::id(3), None, docs));
    Outcome::of(done(digits(rt.alloc(), &made)))
}

/// Makes a variant.
fn variant(rt: &HostRuntime) -> Result<Outcome, Fail> {
    let (name, docs) = (
        parts::text(rt.alloc(), "V")?,
        parts::texts(rt.alloc(), &["v"])?,
    );
    let fields = parts::unnamed_fields(rt.alloc(), &[1, 2])?;
    let made = marked!(rt; Variant::<PortableForm>::new(name, fields, 7, docs));
    Outcome::of(done(digits(rt.alloc(), &made)))
}

/// Makes a parameter and an entry.
fn parameter(rt: &HostRuntime) -> Result<Outcome, Fail> {
    let name = parts::text(rt.alloc(), "T")?;
    let made = marked!(rt; TypeParameter::new_portable(name, Some(parts::id(7))));
    Outcome::of(done(digits(rt.alloc(), &made)))
}

/// Makes an entry whose description has a definition alone.
fn entry(rt: &HostRuntime) -> Result<Outcome, Fail> {
    let made = marked!(rt; PortableType::new(9, Type::from_def(rt.alloc(), parts::sequence(2))));
    Outcome::of(done(digits(rt.alloc(), &made)))
}

/// Definitions of the six kinds that hold no list.
fn six_definitions() -> [TypeDef<PortableForm>; 6] {
    [
        TypeDef::from(TypeDefArray::new(32, parts::id(1))),
        TypeDef::from(TypeDefCompact::new(parts::id(1))),
        TypeDef::from(TypeDefMap::new(parts::id(1), parts::id(2))),
        TypeDef::from(TypeDefPrimitive::U8),
        TypeDef::from(TypeDefSequence::new(UntrackedSymbol::from(1))),
        TypeDef::from(TypeDefBitSequence::new_portable(parts::id(1), parts::id(2))),
    ]
}

/// The encodings of definitions, in order, with a comma between two.
fn all_digits(alloc: Global, definitions: &[TypeDef<PortableForm>]) -> Result<String, AllocError> {
    let mut text = String::new(alloc);
    for definition in definitions {
        if !text.is_empty() {
            text.push_str(", ")?;
        }
        text.push_str(digits(alloc, definition)?.as_str())?;
    }
    Ok(text)
}

/// Makes definitions.
fn definitions(rt: &HostRuntime) -> Result<Outcome, Fail> {
    let made = marked!(rt; six_definitions());
    Outcome::of(done(all_digits(rt.alloc(), &made)))
}

/// Makes the definitions that hold lists.
fn definitions_of_lists(rt: &HostRuntime) -> Result<Outcome, Fail> {
    let one = parts::variant(rt.alloc(), "W", &[1], 2, &[]);
    let variants = with(Ok(Vec::new(rt.alloc())), one);
    let lists = both(parts::unnamed_fields(rt.alloc(), &[1, 2]), variants);
    let members = TypeDefTuple::new_portable(rt.alloc(), [parts::id(3), parts::id(0)]);
    let ((fields, variants), members) = both(lists, members)?;
    let made = marked!(rt; [
        TypeDef::from(TypeDefComposite::from(fields)),
        TypeDef::from(TypeDefVariant::from(variants)),
        TypeDef::from(members),
    ]);
    Outcome::of(done(all_digits(rt.alloc(), &made)))
}

/// Turns four parts into a description, and a pair into a parameter.
fn description(rt: &HostRuntime) -> Result<Outcome, Fail> {
    let path = Held(parts::path(rt.alloc(), &["p"])?);
    let name = parts::text(rt.alloc(), "T")?;
    let docs = parts::texts(rt.alloc(), &["d"])?;
    let path = path.into_inner();
    begin(rt);
    let param = TypeParameter::<PortableForm>::from((name, Some(parts::id(7))));
    let params = Vec::new(rt.alloc());
    let made = Type::<PortableForm>::from((path, params, parts::sequence(2), docs));
    end(rt);
    let (param, made) = (Held(param), Held(made));
    let (param, made) = (digits(rt.alloc(), &param.0)?, digits(rt.alloc(), &made.0)?);
    Outcome::of(done(format!(in rt.alloc(); "{param} {made}")))
}

/// Turns a list and a text into those of this library, and back.
fn lists(rt: &HostRuntime) -> Result<Outcome, Fail> {
    let (list, text) = (
        vec![in rt.alloc(); 7u32, 8]?,
        String::from_str(rt.alloc(), "a text")?,
    );
    begin(rt);
    let list = Vec::from(Items::from(Items::from(list).into_vec()));
    let text = String::from(Text::from(Text::from(text).into_string()));
    end(rt);
    Outcome::of(done(format!(in rt.alloc(); "{list:?} {text}")))
}

/// Makes an identity.
fn identity(rt: &HostRuntime) -> Result<Outcome, Fail> {
    let nums = vec![in rt.alloc(); 4usize]?;
    let made = marked!(rt; TypeId::new("array", nums, Vec::new(rt.alloc())));
    Outcome::of(done(format!(in rt.alloc(); "{made:?}")))
}

/// Makes empty lists, an empty path and a list of references.
fn empty_parts(rt: &HostRuntime) -> Result<Outcome, Fail> {
    begin(rt);
    let path = Path::<PortableForm>::empty(rt.alloc());
    let items = Items::<u32>::new(rt.alloc());
    let mut refs = Refs::new(rt.alloc());
    let mut steps = 0;
    let first = refs.next(&mut steps);
    end(rt);
    let (is_empty, len) = (path.is_empty(), items.len());
    Outcome::of(done(format!(in rt.alloc(); "{is_empty} {len} {first:?}")))
}

/// Makes an empty registry, catalogue, interner and builder of a table.
fn empty_collections(rt: &HostRuntime) -> Result<Outcome, Fail> {
    begin(rt);
    let registry = Held(Registry::new(rt.alloc()));
    let catalogue = Held(Catalogue::new(rt.alloc()));
    let interner = Interner::<u32>::new(rt.alloc());
    let builder = Held(PortableRegistryBuilder::new(rt.alloc()));
    end(rt);
    let (types, described) = (registry.0.types().size_hint().0, catalogue.0.len());
    let (elements, next) = (interner.elements().len(), builder.0.next_type_id());
    Outcome::of(done(format!(in rt.alloc(); "{types} {described} {elements} {next}")))
}

/// Makes the call of this name, which moves what it is given.
pub fn call(rt: &HostRuntime, name: &str, _input: &str) -> Result<Outcome, Fail> {
    match name {
        "field" => field(rt),
        "variant" => variant(rt),
        "parameter" => parameter(rt),
        "entry" => entry(rt),
        "definitions" => definitions(rt),
        "definitions_of_lists" => definitions_of_lists(rt),
        "description" => description(rt),
        "lists" => lists(rt),
        "identity" => identity(rt),
        "empty_parts" => empty_parts(rt),
        "empty_collections" => empty_collections(rt),
        _ => Err(Fail::new("no call has this name")),
    }
}
