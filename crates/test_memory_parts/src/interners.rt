//! Interners of texts, which rows give between brackets, and of the digits of many numbers, whose
//! order has chunks that are split and joined.
use crate::asked::{Asked, ask};
use scale_info::interner::{InternError, Interner, UntrackedSymbol};
use scale_info::{Text, TryClone};
use std::alloc::{AllocError, Global};
use std::test::Fail;
use test_common::held::Held;
use test_common::parts::text;
use test_common::rows::parted;
use test_memory_common::answers::{done, printed, shown};
use test_memory_common::marked;
use test_memory_common::marks::{begin, end};
use test_memory_common::outcomes::Outcome;
use test_memory_common::texts::bracketed;

/// Four texts.
const FOUR: &str = "[Hello] [, World!] [] [1 2 3]";

/// Interns texts in order, and appends of each whether it is new, and its number.
fn intern_all(alloc: Global, texts: &mut Interner<Text>, row: &str) -> Result<String, InternError> {
    let mut numbers = String::new(alloc);
    for chars in bracketed(alloc, row)? {
        let (is_new, symbol) = texts.intern_or_get(text(alloc, chars)?)?;
        let number = symbol.id();
        numbers.push_str(format!(in alloc; "{is_new} {number} ")?.as_str())?;
    }
    Ok(numbers)
}

/// The interner of these texts.
fn interner(alloc: Global, row: &str) -> Result<Interner<Text>, InternError> {
    let mut texts = Held(Interner::new(alloc));
    intern_all(alloc, &mut texts.0, row)?;
    Ok(texts.into_inner())
}

/// The elements of an interner.
fn state(alloc: Global, texts: &Interner<Text>) -> Result<String, AllocError> {
    let elements = texts.elements();
    format!(in alloc; "{elements:?}")
}

/// Whether the element is new, and its number.
fn numbered(
    returned: Result<(bool, UntrackedSymbol<Text>), InternError>,
) -> Result<(bool, u32), InternError> {
    match returned {
        Ok((is_new, symbol)) => Ok((is_new, symbol.id())),
        Err(error) => Err(error),
    }
}

/// Interns a text after four.
fn intern_or_get(rt: &HostRuntime, chars: &str) -> Result<Outcome, Fail> {
    let mut texts = Held(interner(rt.alloc(), FOUR)?);
    let value = text(rt.alloc(), chars)?;
    let before = state(rt.alloc(), &texts.0);
    let returned = marked!(rt; texts.0.intern_or_get(value));
    let after = state(rt.alloc(), &texts.0);
    Outcome::lending(before, after, shown(rt.alloc(), numbered(returned)))
}

/// Interns a text after four, which is borrowed.
fn intern_copy(rt: &HostRuntime, chars: &str) -> Result<Outcome, Fail> {
    let mut texts = Held(interner(rt.alloc(), FOUR)?);
    let value = Held(text(rt.alloc(), chars)?);
    let before = state(rt.alloc(), &texts.0);
    let returned = marked!(rt; texts.0.intern_copy(&value.0));
    let after = state(rt.alloc(), &texts.0);
    Outcome::lending(before, after, shown(rt.alloc(), numbered(returned)))
}

/// Interns texts, each of which is new or has a number.
fn intern(rt: &HostRuntime, row: &str) -> Result<Outcome, Fail> {
    let mut texts = Held(Interner::new(rt.alloc()));
    let returned = marked!(rt; intern_all(rt.alloc(), &mut texts.0, row));
    Outcome::of(printed(rt.alloc(), returned))
}

/// An interner with a text to look up, and another interner.
#[derive(Drop)]
struct Lookup {
    texts: Held<Interner<Text>>,
    other: Held<Interner<Text>>,
    value: Text,
}

impl Lookup {
    /// What the symbol of the text stands for in the other interner, after its number.
    fn push_symbol(&self, text: &mut String) -> Result<(), AllocError> {
        match self.texts.0.get(&self.value) {
            Some(symbol) => {
                let resolved = self.other.0.resolve(symbol);
                write!(text, "{resolved:?}")
            }
            None => text.push_str("no symbol"),
        }
    }
}

impl Asked for Lookup {
    fn push_parts(&self, text: &mut String) -> Result<(), AllocError> {
        let alloc = *text.allocator();
        if let Some(symbol) = self.texts.0.get(&self.value) {
            let copy = symbol.try_clone(alloc)?.into_untracked().id();
            write!(text, "{copy} ")?;
        }
        let (len, same) = (self.texts.0.elements().len(), self.texts.0 == self.other.0);
        self.push_symbol(text)?;
        write!(text, " {len} {same}")
    }
}

/// The look-up of a text among these and then, by its symbol, among others.
fn lookup_of(alloc: Global, chars: &str, row: &str, other: &str) -> Result<Lookup, Fail> {
    let value = text(alloc, chars)?;
    let texts = Held(interner(alloc, row)?);
    let other = Held(interner(alloc, other)?);
    Ok(Lookup {
        texts,
        other,
        value,
    })
}

/// Looks a text up among four, and what its symbol stands for.
fn look(rt: &HostRuntime, chars: &str) -> Result<Outcome, Fail> {
    ask(rt, lookup_of(rt.alloc(), chars, FOUR, FOUR))
}

/// Looks the first text up among all of them, and what its symbol stands for among others, which
/// come after a slash.
fn compare(rt: &HostRuntime, row: &str) -> Result<Outcome, Fail> {
    let (chars, lists) = parted(row, ':')?;
    let (row, other) = parted(lists, '/')?;
    ask(rt, lookup_of(rt.alloc(), chars, row, other))
}

/// Whether an interner is the one of these texts.
fn is_of(alloc: Global, texts: &Interner<Text>, row: &str) -> Result<bool, InternError> {
    let anew = Held(interner(alloc, row)?);
    Ok(*texts == anew.0)
}

/// What shows an interner that was truncated: whether it is the one of the texts that are left, and
/// the numbers of those that were there.
fn truncated(
    alloc: Global,
    mut texts: Interner<Text>,
    left: &str,
    gone: &str,
) -> Result<String, InternError> {
    let same = is_of(alloc, &texts, left)?;
    let numbers = intern_all(alloc, &mut texts, gone)?;
    Ok(format!(in alloc; "{same} {numbers}")?)
}

/// Keeps the texts before a slash, of all.
fn truncate(rt: &HostRuntime, row: &str) -> Result<Outcome, Fail> {
    let (left, gone) = parted(row, '/')?;
    let mut texts = Held(interner(rt.alloc(), row)?);
    let before = state(rt.alloc(), &texts.0);
    let len = bracketed(rt.alloc(), left)?.len();
    begin(rt);
    texts.0.truncate(len);
    end(rt);
    let after = state(rt.alloc(), &texts.0);
    let answer = truncated(rt.alloc(), texts.into_inner(), left, gone);
    Outcome::lending(before, after, printed(rt.alloc(), answer))
}

/// The digits of a number.
fn digits_of(alloc: Global, number: usize) -> Result<Text, AllocError> {
    Ok(Text::from(format!(in alloc; "{number}")?))
}

/// The interner of the digits of the first so many numbers.
fn first_numbers(alloc: Global, count: usize) -> Result<Interner<Text>, InternError> {
    let mut texts = Held(Interner::new(alloc));
    for number in 0..count {
        texts.0.intern_or_get(digits_of(alloc, number)?)?;
    }
    Ok(texts.into_inner())
}

/// How many elements an interner has, and how many of them are the digits of their index.
fn state_of_numbers(alloc: Global, texts: &Interner<Text>) -> Result<String, AllocError> {
    let elements = texts.elements();
    let mut same = 0usize;
    for (index, element) in elements.iter().enumerate() {
        same = same.saturating_add((digits_of(alloc, index)? == *element) as usize);
    }
    format!(in alloc; "{} {same}", elements.len())
}

/// Cuts the interner of the digits of so many numbers back to so many: two numbers in a text.
fn truncate_numbers(rt: &HostRuntime, counts: &str) -> Result<Outcome, Fail> {
    let (count, kept) = counts.split_once(' ').unwrap_or((counts, "0"));
    let (count, kept): (usize, usize) = (count.parse()?, kept.parse()?);
    let mut texts = Held(first_numbers(rt.alloc(), count)?);
    let before = state_of_numbers(rt.alloc(), &texts.0);
    begin(rt);
    texts.0.truncate(kept);
    end(rt);
    let after = state_of_numbers(rt.alloc(), &texts.0);
    Outcome::lending(before, after, done(format!(in rt.alloc(); "truncated")))
}

/// Interns one more number's digits after those of so many.
fn intern_or_get_after(rt: &HostRuntime, count: &str) -> Result<Outcome, Fail> {
    let count: usize = count.parse()?;
    let mut texts = Held(first_numbers(rt.alloc(), count)?);
    let value = digits_of(rt.alloc(), count)?;
    let before = state_of_numbers(rt.alloc(), &texts.0);
    let returned = marked!(rt; texts.0.intern_or_get(value));
    let after = state_of_numbers(rt.alloc(), &texts.0);
    let numbered = returned.map(|(is_new, symbol)| (is_new, symbol.id()));
    Outcome::lending(before, after, shown(rt.alloc(), numbered))
}

/// Makes the call of this name on an interner.
pub fn call(rt: &HostRuntime, name: &str, input: &str) -> Result<Outcome, Fail> {
    match name {
        "intern" => intern(rt, input),
        "intern_or_get" | "intern_or_get_known" => intern_or_get(rt, input),
        "intern_copy" | "intern_copy_known" => intern_copy(rt, input),
        "look" => look(rt, input),
        "compare" => compare(rt, input),
        "truncate" => truncate(rt, input),
        "truncate_numbers" => truncate_numbers(rt, input),
        "intern_or_get_after" => intern_or_get_after(rt, input),
        _ => Err(Fail::new("no call has this name")),
    }
}
