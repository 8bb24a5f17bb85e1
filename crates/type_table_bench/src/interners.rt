//! Interners of numbers, of strings and of identities: filled, and each element looked up.
use crate::digest::Digest;
use crate::random::Random;
use anyhow::{Result, bail};
use scale_info::interner::Interner;
use scale_info::{TryClone, TypeId};
use std::alloc::{AllocError, Global};
use std::str;

/// What the strings have before their numbers.
const HEAD: &str = "example_runtime::pallets::accounts::Ac";

/// How many bytes a string has: the head and seven digits.
const TEXT_LEN: usize = 45;

/// How many elements of a large interner are looked up.
const LOOKED_UP: usize = 200_000;

/// Does so many rounds: each fills three interners of 1,000 elements, and in every second round one
/// of 100,000, or of 1,000,000 in one of eight.
pub fn run(alloc: Global, seed: u32, rounds: u32) -> Result<Digest> {
    let mut digest = Digest::new();
    let mut random = Random::new(seed, 9);
    for round in 0..rounds {
        put_numbers(alloc, 1_000, 20, &mut random, &mut digest)?;
        put_texts(alloc, 1_000, 20, &mut random, &mut digest)?;
        put_identities(alloc, 1_000, 20, &mut random, &mut digest)?;
        match round % 8 {
            1 => put_numbers(alloc, 100_000, 8, &mut random, &mut digest)?,
            3 => put_texts(alloc, 100_000, 1, &mut random, &mut digest)?,
            5 => put_identities(alloc, 100_000, 1, &mut random, &mut digest)?,
            7 => put_numbers(alloc, 1_000_000, 1, &mut random, &mut digest)?,
            _ => (),
        }
    }
    Ok(digest)
}

/// Fills an interner, looks some elements up so often, in another order, and interns them again.
fn put_interner<T: Ord + TryClone>(
    alloc: Global,
    keys: Vec<T>,
    again: Vec<T>,
    passes: u32,
    digest: &mut Digest,
) -> Result<()> {
    let mut interner = Interner::new(alloc);
    for key in keys {
        let (_, symbol) = interner.intern_or_get(key)?;
        digest.put(symbol.id() as u64);
    }
    for _ in 0..passes {
        for key in &again {
            if let Some(symbol) = interner.get(key) {
                digest.put(symbol.into_untracked().id() as u64);
            }
        }
    }
    for key in again {
        let (is_new, symbol) = interner.intern_or_get(key)?;
        digest.put(if is_new { 1 } else { 0 });
        digest.put(symbol.id() as u64);
    }
    digest.put(interner.elements().len() as u64);
    Ok(())
}

/// Puts a list in another order.
fn shuffle<T>(list: &mut [T], random: &mut Random) {
    for last in (1..list.len()).rev() {
        let other = (random.word() % (last as u64 + 1)) as usize;
        list.swap(last, other);
    }
}

/// So many numbers.
fn numbers(alloc: Global, count: u32, random: &mut Random) -> Result<Vec<usize>, AllocError> {
    let mut numbers = Vec::new(alloc);
    for _ in 0..count {
        numbers.push(random.word() as usize)?;
    }
    Ok(numbers)
}

/// An interner of so many numbers.
fn put_numbers(
    alloc: Global,
    count: u32,
    passes: u32,
    random: &mut Random,
    digest: &mut Digest,
) -> Result<()> {
    let keys = numbers(alloc, count, random)?;
    let mut again = Vec::from_slice(alloc, &keys)?;
    shuffle(&mut again, random);
    again.truncate(LOOKED_UP);
    put_interner(alloc, keys, again, passes, digest)
}

/// So many strings that differ in their last seven digits, one after another.
fn text(alloc: Global, count: u32) -> Result<Vec<u8>, AllocError> {
    let mut text = Vec::new(alloc);
    for index in 0..count {
        let number = index as u64 * 7919 % 10_000_000;
        text.extend_from_slice(HEAD.as_bytes())?;
        text.extend_from_slice(format!(in alloc; "{number:07}")?.as_bytes())?;
    }
    Ok(text)
}

/// An interner of so many strings, which all begin alike.
fn put_texts(
    alloc: Global,
    count: u32,
    passes: u32,
    random: &mut Random,
    digest: &mut Digest,
) -> Result<()> {
    let whole: &'static [u8] = Vec::leak(text(alloc, count)?);
    let mut keys = Vec::new(alloc);
    for bytes in whole.chunks(TEXT_LEN) {
        match str::from_utf8(bytes) {
            Ok(part) => keys.push(part)?,
            Err(_) => bail!("a string is not UTF-8"),
        }
    }
    shuffle(&mut keys, random);
    let mut again = Vec::from_slice(alloc, &keys)?;
    shuffle(&mut again, random);
    put_interner(alloc, keys, again, passes, digest)
}

/// The identity of a type with a number and one parameter.
fn identity(alloc: Global, number: usize) -> Result<TypeId, AllocError> {
    let parameter = TypeId::new("u32", Vec::new(alloc), Vec::new(alloc));
    Ok(TypeId::new(
        "example_runtime::pallets::accounts::Account",
        vec![in alloc; number]?,
        vec![in alloc; parameter]?,
    ))
}

/// The identities with these numbers.
fn identities(alloc: Global, numbers: &[usize]) -> Result<Vec<TypeId>, AllocError> {
    let mut identities = Vec::new(alloc);
    for number in numbers {
        identities.push(identity(alloc, *number)?)?;
    }
    Ok(identities)
}

/// An interner of so many identities.
fn put_identities(
    alloc: Global,
    count: u32,
    passes: u32,
    random: &mut Random,
    digest: &mut Digest,
) -> Result<()> {
    let mut numbers = numbers(alloc, count, random)?;
    let keys = identities(alloc, &numbers)?;
    shuffle(&mut numbers, random);
    let again = identities(alloc, &numbers)?;
    put_interner(alloc, keys, again, passes, digest)
}
