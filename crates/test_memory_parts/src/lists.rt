//! Lists: what is pushed, and for how many elements they have room.
use scale_info::{Items, TryClone};
use std::alloc::{AllocError, Global};
use std::fmt::Debug;
use std::test::Fail;
use test_common::parts::text;
use test_common::rows::{numbers, parted};
use test_memory_common::answers::{Answer, done, failed};
use test_memory_common::outcomes::Outcome;
use test_memory_common::{answered, marked};

/// Pushes numbers.
fn pushed(alloc: Global, numbers: &[u32]) -> Result<Items<u32>, AllocError> {
    let mut items = Items::new(alloc);
    for number in numbers {
        items.push(*number)?;
    }
    Ok(items)
}

/// The sum of the numbers of a list, by its iterator.
fn sum(items: &Items<u32>) -> u32 {
    let mut sum = 0u32;
    for item in items {
        sum = sum.saturating_add(*item);
    }
    sum
}

/// A list, its length, whether it is empty, how many it goes over, and its sum.
fn text_of(alloc: Global, items: Items<u32>) -> Result<String, AllocError> {
    let (len, is_empty) = (items.len(), items.is_empty());
    let (count, sum) = (items.iter().count(), sum(&items));
    let list = Vec::from(items);
    format!(in alloc; "{list:?} {len} {is_empty} {count} {sum}")
}

/// Pushes the numbers of a row.
fn push(rt: &HostRuntime, row: &str) -> Result<Outcome, Fail> {
    let numbers = numbers(rt.alloc(), row)?;
    answered!(
        rt;
        pushed(rt.alloc(), &numbers);
        items => done(text_of(rt.alloc(), items))
    )
}

/// The list of a value so often, grown towards a count that is announced.
fn grown<T: TryClone>(
    alloc: Global,
    value: &T,
    count: u32,
    announced: u32,
) -> Result<Vec<T>, AllocError> {
    let mut items = Items::new(alloc);
    for _ in 0..count {
        items.push_towards(announced as usize, value.try_clone(alloc)?)?;
    }
    Ok(items.into_vec())
}

/// A list, and for how many elements it has room.
fn roomy<T: Debug + Drop>(
    alloc: Global,
    returned: Result<Vec<T>, AllocError>,
) -> Result<Answer, AllocError> {
    match returned {
        Ok(list) => {
            let room = list.capacity();
            done(format!(in alloc; "{list:?} with room for {room}"))
        }
        Err(error) => failed(alloc, &error),
    }
}

/// Grows a list of a value.
fn grow<T: TryClone + Debug + Drop>(
    rt: &HostRuntime,
    value: T,
    row: &str,
) -> Result<Outcome, Fail> {
    let numbers = numbers(rt.alloc(), row)?;
    let [count, announced] = numbers.as_slice() else {
        return Err(Fail::new("a row has a count and an announced count"));
    };
    let returned = marked!(rt; grown(rt.alloc(), &value, *count, *announced));
    Outcome::of(roomy(rt.alloc(), returned))
}

/// Grows a list of numbers or of texts so often, towards a count that is announced.
fn push_towards(rt: &HostRuntime, input: &str) -> Result<Outcome, Fail> {
    let (kind, row) = parted(input, ' ')?;
    match kind {
        "numbers" => grow(rt, 7u32, row),
        _ => grow(rt, text(rt.alloc(), "Ä")?, row),
    }
}

/// A list of one number, with room for three.
fn with_room(alloc: Global) -> Result<Vec<u32>, AllocError> {
    let mut items = Items::with_capacity(alloc, 3)?;
    items.push(1)?;
    Ok(items.into_vec())
}

/// Makes a list with room for three.
fn with_capacity(rt: &HostRuntime) -> Result<Outcome, Fail> {
    let returned = marked!(rt; with_room(rt.alloc()));
    Outcome::of(roomy(rt.alloc(), returned))
}

/// Makes the call of this name on a list.
pub fn call(rt: &HostRuntime, name: &str, input: &str) -> Result<Outcome, Fail> {
    match name {
        "push" => push(rt, input),
        "push_towards" => push_towards(rt, input),
        "with_capacity" => with_capacity(rt),
        _ => Err(Fail::new("no call has this name")),
    }
}
