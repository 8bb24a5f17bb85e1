//! Getters, comparisons and hashes, which do not allocate.
use crate::asked::{Asked, ask};
use scale_info::form::PortableForm;
use scale_info::utils::is_rust_identifier;
use scale_info::{Field, Path, PortableType, Scale, Text, Type, TypeDef, TypeParameter, Variant};
use std::alloc::{AllocError, Global};
use std::hash::{FoldHasher, Hash, Hasher};
use std::test::Fail;
use test_common::held::Held;
use test_common::parts;
use test_common::rows::row_named;
use test_memory_common::answers::done;
use test_memory_common::marked;
use test_memory_common::marks::{begin, end};
use test_memory_common::outcomes::Outcome;
use test_memory_common::texts::bracketed;
use test_memory_common::types::{description_named, type_named};

impl Asked for Field<PortableForm> {
    fn push_parts(&self, text: &mut String) -> Result<(), AllocError> {
        let (name, type_name) = (self.name(), self.type_name());
        let (ty, docs) = (self.ty().id(), self.docs());
        write!(text, "{name:?} {ty} {type_name:?} {docs:?}")
    }
}

impl Asked for Variant<PortableForm> {
    fn push_parts(&self, text: &mut String) -> Result<(), AllocError> {
        let (name, index) = (self.name(), self.index());
        let (fields, docs) = (self.fields().len(), self.docs());
        write!(text, "{name:?} {fields} {index} {docs:?}")
    }
}

impl Asked for Path<PortableForm> {
    fn push_parts(&self, text: &mut String) -> Result<(), AllocError> {
        let (segments, modules) = (self.segments(), self.namespace());
        let is_empty = self.is_empty();
        write!(
            text,
            "{segments:?} {modules:?} {is_empty} {self} {self:*>40} {self:5.2}"
        )
    }
}

impl Asked for TypeParameter<PortableForm> {
    fn push_parts(&self, text: &mut String) -> Result<(), AllocError> {
        let (name, ty) = (self.name(), self.ty().map(|ty| ty.id()));
        write!(text, "{name:?} {ty:?}")
    }
}

impl Asked for PortableType {
    fn push_parts(&self, text: &mut String) -> Result<(), AllocError> {
        let id = self.id();
        write!(text, "{id}: ")?;
        self.ty().push_parts(text)
    }
}

/// The numbers that a definition holds, or how many parts it has.
fn numbers(definition: &TypeDef<PortableForm>) -> (usize, usize) {
    let (first, second) = match definition {
        TypeDef::Composite(it) => return (it.fields().len(), 0),
        TypeDef::Variant(it) => return (it.variants().len(), 0),
        TypeDef::Tuple(it) => return (it.fields().len(), 0),
        TypeDef::Primitive(_) => (0, 0),
        TypeDef::Sequence(it) => (it.type_param().id(), 0),
        TypeDef::Compact(it) => (it.type_param().id(), 0),
        TypeDef::Array(it) => (it.len(), it.type_param().id()),
        TypeDef::BitSequence(it) => (it.bit_store_type().id(), it.bit_order_type().id()),
        TypeDef::Map(it) => (it.key().id(), it.value().id()),
    };
    (first as usize, second as usize)
}

impl Asked for TypeDef<PortableForm> {
    fn push_parts(&self, text: &mut String) -> Result<(), AllocError> {
        let (first, second) = numbers(self);
        write!(text, "{first} {second}")
    }
}

impl Asked for Type<PortableForm> {
    fn push_parts(&self, text: &mut String) -> Result<(), AllocError> {
        let (segments, docs) = (self.path().segments(), self.docs());
        let params = self.type_params().len();
        write!(text, "{segments:?} {params} {docs:?} ")?;
        self.type_def().push_parts(text)
    }
}

impl Asked for Type {
    fn push_parts(&self, text: &mut String) -> Result<(), AllocError> {
        let (segments, docs) = (self.path().segments(), self.docs());
        let params = self.type_params().len();
        write!(text, "{segments:?} {params} {docs:?}")
    }
}

impl Asked for Text {
    fn push_parts(&self, text: &mut String) -> Result<(), AllocError> {
        let (len, is_empty) = (self.len(), self.is_empty());
        write!(text, "{len} {is_empty} {self} {self:?}")
    }
}

/// Asks the description of this name for its parts.
fn description(rt: &HostRuntime, name: &str) -> Result<Outcome, Fail> {
    ask(rt, description_named(rt.alloc(), name))
}

/// The path of the texts between brackets.
fn path(alloc: Global, row: &str) -> Result<Path<PortableForm>, AllocError> {
    parts::path(alloc, bracketed(alloc, row)?.as_slice())
}

/// A description with a path, a parameter and docs.
fn described_in_full(alloc: Global) -> Result<Type<PortableForm>, AllocError> {
    let definition = parts::sequence(2);
    parts::description(alloc, &["p", "q"], &["S"], definition, &["d", "", "e"])
}

/// The value that a value of parts is.
fn made<T>(value: Result<T, AllocError>) -> Result<T, Fail> {
    Ok(value?)
}

/// Asks a part of this kind for its parts: the texts of a path, of a parameter and of a text come
/// after the kind.
fn part(rt: &HostRuntime, input: &str) -> Result<Outcome, Fail> {
    let alloc = rt.alloc();
    let (kind, given) = input.split_once(' ').unwrap_or((input, ""));
    match kind {
        "field" => ask(
            rt,
            made(parts::field(alloc, Some("n"), 3, Some("N"), &["d", ""])),
        ),
        "unnamed_field" => ask(rt, made(parts::field(alloc, None, 3, None, &[]))),
        "variant" => ask(rt, made(parts::variant(alloc, "V", &[1, 2], 255, &["v"]))),
        "path" => ask(rt, made(path(alloc, given))),
        "skipped_parameter" => ask(rt, made(parts::parameter(alloc, given, None))),
        "parameter" => ask(rt, made(parts::parameter(alloc, given, Some(7)))),
        "entry" => ask(
            rt,
            Ok(PortableType::new(9, Type::from_def(alloc, parts::sequence(2)))),
        ),
        "text" => ask(rt, made(parts::text(alloc, given))),
        "description" => ask(rt, made(described_in_full(alloc))),
        "definition_alone" => ask(rt, Ok(Type::from_def(alloc, parts::sequence(2)))),
        _ => Err(Fail::new("no kind has this name")),
    }
}

/// The definition of each kind: a row is a name, a colon and the encoding.
const DEFINITIONS: &str = "\
composite: 00 04 00040000
enum: 01 08 0456000000 0457000100
sequence: 0204
array: 0320000000 08
tuple: 0408 0800
primitive: 0505
compact: 060c
bit sequence: 07 0c10
map: 08 1014
";

/// The definition of the row of this name.
fn definition_of(alloc: Global, name: &str) -> Result<TypeDef<PortableForm>, Fail> {
    let row = row_named(alloc, DEFINITIONS, name)?;
    let (definition, _) = TypeDef::decode_from(alloc, &row.bytes)?;
    Ok(definition)
}

/// Asks the definition of this kind for its parts.
fn definition(rt: &HostRuntime, kind: &str) -> Result<Outcome, Fail> {
    ask(rt, definition_of(rt.alloc(), kind))
}

/// Descriptions of the types of these names, in order.
fn described(alloc: Global, names: &[&str]) -> Result<Vec<Type>, Fail> {
    let mut all = Vec::new(alloc);
    for name in names {
        all.push(description_named(alloc, name)?)?;
    }
    Ok(all)
}

/// Compares descriptions.
fn compare(rt: &HostRuntime, name: &str) -> Result<Outcome, Fail> {
    let all = Held(described(rt.alloc(), &[name, name, "(u32, bool)"])?);
    let [left, right, other] = all.0.as_slice() else {
        return Err(Fail::new("three names have three descriptions"));
    };
    begin(rt);
    let (same, order) = (left == right, left.cmp(other));
    end(rt);
    Outcome::of(done(format!(in rt.alloc(); "{same} {order:?}")))
}

/// Compares and hashes types.
fn types(rt: &HostRuntime, name: &str) -> Result<Outcome, Fail> {
    let (left, right) = (
        type_named(rt.alloc(), name)?,
        type_named(rt.alloc(), "u32")?,
    );
    let mut hasher = FoldHasher::default();
    begin(rt);
    let (same, order) = (left == right, left.type_id().cmp(right.type_id()));
    left.hash(&mut hasher);
    left.type_id().hash(&mut hasher);
    let hash = hasher.finish();
    end(rt);
    Outcome::of(done(format!(in rt.alloc(); "{same} {order:?} {hash}")))
}

/// Asks whether a text is an identifier.
fn identifier(rt: &HostRuntime, text: &str) -> Result<Outcome, Fail> {
    let is_identifier = marked!(rt; is_rust_identifier(text));
    Outcome::of(done(format!(in rt.alloc(); "{is_identifier}")))
}

/// Makes the call of this name, which does not allocate.
pub fn call(rt: &HostRuntime, name: &str, input: &str) -> Result<Outcome, Fail> {
    match name {
        "part" => part(rt, input),
        "definition" => definition(rt, input),
        "description" => description(rt, input),
        "compare_descriptions" => compare(rt, input),
        "compare_types" => types(rt, input),
        "is_rust_identifier" => identifier(rt, input),
        _ => Err(Fail::new("no call has this name")),
    }
}
