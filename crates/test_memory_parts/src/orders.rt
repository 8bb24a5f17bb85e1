//! Values in order, of which each is compared with all. Rows give encodings, each after a name.
//!
//! Fields are compared in the order of their declaration: lists lexicographically, None before
//! Some, variants of an enum as declared, texts by their bytes.
use scale_info::form::PortableForm;
use scale_info::impls::Compact;
use scale_info::{
    Field, Path, Scale, Type, TypeDef, TypeId, TypeParameter, UntrackedSymbol, Variant,
};
use std::alloc::{AllocError, Global};
use std::cmp::Ordering;
use std::test::Fail;
use test_common::rows::{parted, row_bytes};
use test_memory_common::answers::done;
use test_memory_common::marked;
use test_memory_common::outcomes::Outcome;
use test_memory_common::texts::all_of_program;

/// How a value compares with another by `<`, `==` and `cmp`; a question mark where these differ.
fn sign<T: Ord>(left: &T, right: &T) -> char {
    match (left < right, left == right, left.cmp(right)) {
        (true, false, Ordering::Less) => '<',
        (false, true, Ordering::Equal) => '=',
        (false, false, Ordering::Greater) => '>',
        _ => '?',
    }
}

/// Appends how each value compares with all, a word for each.
fn push_signs<T: Ord>(signs: &mut String, values: &[T]) -> Result<(), AllocError> {
    for left in values {
        for right in values {
            signs.push(sign(left, right))?;
        }
        signs.push(' ')?;
    }
    Ok(())
}

/// Compares each value with all.
fn compare<T: Ord + Drop>(rt: &HostRuntime, values: Result<Vec<T>, Fail>) -> Result<Outcome, Fail> {
    let values = values?;
    let words = values.len().saturating_mul(values.len().saturating_add(1));
    let mut signs = String::with_capacity(rt.alloc(), words)?;
    let returned = marked!(rt; push_signs(&mut signs, values.as_slice()));
    returned?;
    Outcome::of(done(Ok(signs)))
}

/// The values of these encodings, each after a name and a colon, with ` | ` between two.
fn values<T: Scale>(alloc: Global, row: &str) -> Result<Vec<T>, Fail> {
    let mut all = Vec::new(alloc);
    for value in row.split(" | ") {
        let (_, digits) = value.rsplit_once(':').unwrap_or(("", value));
        let bytes = row_bytes(alloc, digits)?;
        let (value, _) = T::decode_from(alloc, &bytes)?;
        all.push(value)?;
    }
    Ok(all)
}

/// The numbers among words.
fn numbers(alloc: Global, words: &str) -> Result<Vec<usize>, AllocError> {
    let mut numbers = Vec::new(alloc);
    for word in words.split(' ') {
        if let Ok(number) = word.parse::<usize>() {
            numbers.push(number)?;
        }
    }
    Ok(numbers)
}

/// The identity of a head, numbers, and arguments that are heads alone, as of `[array] 4 [a]`.
fn identity(alloc: Global, row: &str) -> Result<TypeId, Fail> {
    let mut args = Vec::new(alloc);
    let texts = all_of_program(alloc, row)?;
    for arg in texts.iter().skip(1) {
        args.push(TypeId::new(*arg, Vec::new(alloc), Vec::new(alloc)))?;
    }
    match texts.first() {
        Some(head) => Ok(TypeId::new(*head, numbers(alloc, row)?, args)),
        None => Err(Fail::new("an identity has a head")),
    }
}

/// The identities of a row.
fn identities(alloc: Global, row: &str) -> Result<Vec<TypeId>, Fail> {
    let mut all = Vec::new(alloc);
    for parts in row.split(" | ") {
        all.push(identity(alloc, parts)?)?;
    }
    Ok(all)
}

/// Compares each value of this kind with all.
fn compare_all(rt: &HostRuntime, input: &str) -> Result<Outcome, Fail> {
    let alloc = rt.alloc();
    let (kind, row) = parted(input, ' ')?;
    match kind {
        "fields" => compare(rt, values::<Field<PortableForm>>(alloc, row)),
        "variants" => compare(rt, values::<Variant<PortableForm>>(alloc, row)),
        "parameters" => compare(rt, values::<TypeParameter<PortableForm>>(alloc, row)),
        "descriptions" => compare(rt, values::<Type<PortableForm>>(alloc, row)),
        "paths" => compare(rt, values::<Path<PortableForm>>(alloc, row)),
        "definitions" => compare(rt, values::<TypeDef<PortableForm>>(alloc, row)),
        "symbols" => compare(rt, values::<UntrackedSymbol<TypeId>>(alloc, row)),
        "compact_numbers" => compare(rt, values::<Compact<u32>>(alloc, row)),
        _ => compare(rt, identities(alloc, row)),
    }
}

/// Makes the call of this name, which compares values.
pub fn call(rt: &HostRuntime, name: &str, input: &str) -> Result<Outcome, Fail> {
    match name {
        "compare" => compare_all(rt, input),
        _ => Err(Fail::new("no call has this name")),
    }
}
