//! Paths, whose texts stand between brackets in rows.
use scale_info::meta_type::Catalogue;
use scale_info::{IntoPortable, Path, PathError, Registry};
use std::alloc::{AllocError, Global};
use std::test::Fail;
use test_common::held::Held;
use test_common::parts;
use test_memory_common::answers::{Answer, digits, done, encoded, failed, shown};
use test_memory_common::marked;
use test_memory_common::outcomes::Outcome;
use test_memory_common::texts::{all_of_program, bracketed};

/// The encoding of a path's portable form, and that form as it is displayed.
fn portable(alloc: Global, path: Path) -> Result<String, AllocError> {
    let mut registry = Held(Registry::new(alloc));
    match path.into_portable(alloc, &mut registry.0, &Catalogue::new(alloc)) {
        Ok(path) => {
            let digits = digits(alloc, &path)?;
            format!(in alloc; "{digits} {path}")
        }
        Err(error) => format!(in alloc; "{error:?}"),
    }
}

/// What a path returns: its segments, its modules, its name, and whether it is empty.
fn parts_of(alloc: Global, path: &Path) -> Result<String, AllocError> {
    let name = path.ident(alloc)?;
    let (segments, modules, is_empty) = (path.segments(), path.namespace(), path.is_empty());
    format!(in alloc; "{segments:?} {modules:?} {name:?} {is_empty}")
}

/// What a path returns, and its portable form.
fn text_of(alloc: Global, path: Path) -> Result<String, AllocError> {
    let parts = parts_of(alloc, &path)?;
    let portable = portable(alloc, path)?;
    format!(in alloc; "{parts} {portable}")
}

/// The outcome of a path.
fn answer(alloc: Global, returned: Result<Path, PathError>) -> Result<Answer, AllocError> {
    match returned {
        Ok(path) => done(text_of(alloc, path)),
        Err(error) => failed(alloc, &error),
    }
}

/// Makes the path of a module and a name.
fn new(rt: &HostRuntime, row: &str) -> Result<Outcome, Fail> {
    let texts = all_of_program(rt.alloc(), row)?;
    let [module_path, ident] = texts.as_slice() else {
        return Err(Fail::new("a row has a module and a name"));
    };
    let returned = marked!(rt; Path::new(rt.alloc(), *ident, *module_path));
    Outcome::of(answer(rt.alloc(), returned))
}

/// Pairs of texts in order.
fn pairs(
    alloc: Global,
    texts: &[&'static str],
) -> Result<Vec<(&'static str, &'static str)>, AllocError> {
    let mut pairs = Vec::new(alloc);
    for pair in texts.chunks(2) {
        if let [segment, other] = pair {
            pairs.push((*segment, *other))?;
        }
    }
    Ok(pairs)
}

/// Makes the path of a module and a name, with segments replaced by the pairs after them.
fn new_with_replace(rt: &HostRuntime, row: &str) -> Result<Outcome, Fail> {
    let texts = all_of_program(rt.alloc(), row)?;
    let [module_path, ident, rest @ ..] = texts.as_slice() else {
        return Err(Fail::new("a row has a module and a name"));
    };
    let pairs = pairs(rt.alloc(), rest)?;
    let pairs = pairs.as_slice();
    let returned = marked!(rt; Path::new_with_replace(rt.alloc(), *ident, *module_path, pairs));
    Outcome::of(answer(rt.alloc(), returned))
}

/// Makes a path of segments, each of which must be an identifier.
fn from_segments(rt: &HostRuntime, row: &str) -> Result<Outcome, Fail> {
    let segments = all_of_program(rt.alloc(), row)?;
    let returned = marked!(rt; Path::from_segments(rt.alloc(), segments));
    Outcome::of(answer(rt.alloc(), returned))
}

/// Makes a path of segments that are not looked at.
fn from_segments_unchecked(rt: &HostRuntime, row: &str) -> Result<Outcome, Fail> {
    let segments = bracketed(rt.alloc(), row)?;
    let texts = parts::texts(rt.alloc(), segments.as_slice())?;
    let returned = marked!(rt; Path::from_segments_unchecked(rt.alloc(), texts));
    Outcome::of(encoded(rt.alloc(), returned))
}

/// Asks a portable path for its last segment.
fn ident(rt: &HostRuntime, row: &str) -> Result<Outcome, Fail> {
    let segments = bracketed(rt.alloc(), row)?;
    let path = parts::path(rt.alloc(), segments.as_slice())?;
    let returned = marked!(rt; path.ident(rt.alloc()));
    Outcome::of(shown(rt.alloc(), returned))
}

/// Makes the call of this name, which makes a path or asks one.
pub fn call(rt: &HostRuntime, name: &str, input: &str) -> Result<Outcome, Fail> {
    match name {
        "new" => new(rt, input),
        "new_with_replace" => new_with_replace(rt, input),
        "from_segments" => from_segments(rt, input),
        "from_segments_unchecked" => from_segments_unchecked(rt, input),
        "ident" => ident(rt, input),
        _ => Err(Fail::new("no call has this name")),
    }
}
