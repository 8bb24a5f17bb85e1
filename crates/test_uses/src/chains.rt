//! Chains of 100000 types, in which each type but the last is a sequence of the next.
use crate::asserts::{holds, is};
use crate::runs::{expected, run_over};
use scale_info::form::PortableForm;
use scale_info::walk::{number, number_recursive};
use scale_info::{
    PortableRegistry, PortableRegistryBuilder, PruneError, RetainError, Type, TypeDef,
    TypeDefPrimitive, prune,
};
use std::alloc::Global;
use std::collections::BTreeMap;
use std::process::Abort;
use std::test::Fail;
use test_common::chains::chain;
use test_common::encodings::into_encoding;
use test_common::parts::sequence;

/// The last definition of a chain: a sequence of the type with this id, or `bool`.
fn last(end: Option<u32>) -> TypeDef<PortableForm> {
    match end {
        Some(id) => sequence(id),
        None => TypeDef::from(TypeDefPrimitive::Bool),
    }
}

/// The encoding of a chain of so many types.
fn chain_bytes(alloc: Global, count: u32, end: Option<u32>) -> Result<Vec<u8>, Fail> {
    into_encoding(alloc, chain(alloc, count, last(end))?)
}

/// What is kept of a chain of 100000 types.
#[derive(Drop)]
struct KeptChain {
    /// What the last type refers to; None where it is `bool`.
    end: Option<u32>,
    /// The id that is chosen.
    root: u32,
    /// How many types it reaches.
    count: u32,
    /// The last of them.
    last: u32,
}

const KEPT: [KeptChain; 6] = [
    KeptChain {
        end: None,
        root: 0,
        count: 100000,
        last: 99999,
    },
    KeptChain {
        end: None,
        root: 50000,
        count: 50000,
        last: 99999,
    },
    KeptChain {
        end: None,
        root: 99999,
        count: 1,
        last: 99999,
    },
    KeptChain {
        end: Some(0),
        root: 0,
        count: 100000,
        last: 99999,
    },
    KeptChain {
        end: Some(0),
        root: 50000,
        count: 100000,
        last: 49999,
    },
    KeptChain {
        end: Some(0),
        root: 99999,
        count: 100000,
        last: 99998,
    },
];

/// Asserts that the walk takes so many types, and a step for each reference.
fn takes(rt: &impl Abort, alloc: Global, kept: &KeptChain) -> Result<(), Fail> {
    let table = chain(alloc, 100000, last(kept.end))?;
    let found = number(alloc, table.types(), &[kept.root])?;
    let steps = match kept.end {
        Some(_) => kept.count,
        None => kept.count.saturating_sub(1),
    };
    is(rt, "types", found.order.len(), kept.count as usize);
    is(rt, "steps", found.steps, steps as u128);
    Ok(())
}

/// Asserts that so many ids begin at the chosen one, and end at the last one.
fn are_new_ids(rt: &impl Abort, new_ids: &BTreeMap<u32, u32>, kept: &KeptChain) {
    is(rt, "ids", new_ids.len(), kept.count as usize);
    is(rt, "root", new_ids.get(&kept.root), Some(&0));
    let end = kept.count.saturating_sub(1);
    is(rt, "last", new_ids.get(&kept.last), Some(&end));
}

/// Asserts that `prune` appends the chain of what is kept.
fn prunes(rt: &impl Abort, alloc: Global, kept: &KeptChain) -> Result<(), Fail> {
    let bytes = chain_bytes(alloc, 100000, kept.end)?;
    let mut output = Vec::new(alloc);
    let new_ids = prune(alloc, &bytes, &[kept.root], &mut output)?;
    are_new_ids(rt, &new_ids, kept);
    holds(
        rt,
        "pruned",
        output == chain_bytes(alloc, kept.count, kept.end)?,
    );
    Ok(())
}

/// Asserts that `retain` leaves the chain of what is kept.
fn retains(rt: &impl Abort, alloc: Global, kept: &KeptChain) -> Result<(), Fail> {
    let mut table = chain(alloc, 100000, last(kept.end))?;
    let new_ids = table.retain(alloc, |id| id == kept.root)?;
    are_new_ids(rt, &new_ids, kept);
    let wanted = chain_bytes(alloc, kept.count, kept.end)?;
    holds(rt, "retained", into_encoding(alloc, table)? == wanted);
    Ok(())
}

#[test]
fn a_chain_is_walked_and_kept_from_each_root(rt: HostRuntime) -> Result<(), Fail> {
    for kept in &KEPT {
        takes(&rt, rt.alloc(), kept)?;
        prunes(&rt, rt.alloc(), kept)?;
        retains(&rt, rt.alloc(), kept)?;
    }
    Ok(())
}

/// Ends of chains that lead nowhere, each with a root.
const NOWHERE: [(u32, u32); 2] = [(100000, 0), (4294967295, 99999)];

/// Asserts that `number` and `prune` find that an id is missing, and that the output is as before.
fn leads_nowhere(rt: &impl Abort, alloc: Global, id: u32, root: u32) -> Result<(), Fail> {
    let table = chain(alloc, 100000, sequence(id))?;
    let error = number(alloc, table.types(), &[root]).err();
    is(rt, "number", error, Some(RetainError::Dangling { id }));
    let mut output = vec![in alloc; 0xaa]?;
    let bytes = into_encoding(alloc, table)?;
    let error = prune(alloc, &bytes, &[root], &mut output).err();
    is(rt, "prune", error, Some(PruneError::Dangling(id)));
    is(rt, "output", output.as_slice(), [0xaa].as_slice());
    Ok(())
}

/// Asserts that `retain` finds so too, asks the filter for each id once in order, and leaves the
/// table.
fn is_left(rt: &impl Abort, alloc: Global, id: u32, root: u32) -> Result<(), Fail> {
    let mut table = chain(alloc, 100000, sequence(id))?;
    let mut asked = 0u32;
    let noted = &mut asked;
    let error = table.retain(alloc, move |_| {
        let next = *noted;
        *noted = next.saturating_add(1);
        next == root
    });
    is(
        rt,
        "retain",
        error.err(),
        Some(RetainError::Dangling { id }),
    );
    is(rt, "asked", asked, 100000);
    let before = chain_bytes(alloc, 100000, Some(id))?;
    holds(rt, "as before", into_encoding(alloc, table)? == before);
    Ok(())
}

#[test]
fn a_chain_that_leads_nowhere_is_refused(rt: HostRuntime) -> Result<(), Fail> {
    for (id, root) in NOWHERE {
        leads_nowhere(&rt, rt.alloc(), id, root)?;
        is_left(&rt, rt.alloc(), id, root)?;
    }
    Ok(())
}

/// To `bool`, round a cycle, and nowhere.
const ENDS: [Option<u32>; 3] = [None, Some(0), Some(1000)];

#[test]
fn the_recursive_walk_agrees_on_chains_of_1000_types(rt: HostRuntime) -> Result<(), Fail> {
    for end in ENDS {
        let table = chain(rt.alloc(), 1000, last(end))?;
        for root in [0, 500] {
            let found = number_recursive(rt.alloc(), table.types(), &[root]);
            let again = number(rt.alloc(), table.types(), &[root]);
            holds(&rt, "alike", found == again);
        }
    }
    Ok(())
}

/// What the program is run with, a line for each run.
const RUNS: &str = "\
check
json
prune 0
prune 50000
prune 99999
prune 99999 0
prune 100000
";

/// Asserts that the program does with a chain what decoding does.
fn is_read(rt: &impl Abort, alloc: Global, end: Option<u32>) -> Result<(), Fail> {
    let input = chain_bytes(alloc, 100000, end)?;
    for words in RUNS.lines() {
        let run = run_over(alloc, words, &input)?;
        holds(rt, words, run == expected(alloc, words, &input)?);
    }
    Ok(())
}

#[test]
fn the_program_reads_chains_to_bool_in_a_cycle_and_to_nowhere(rt: HostRuntime) -> Result<(), Fail> {
    is_read(&rt, rt.alloc(), None)?;
    is_read(&rt, rt.alloc(), Some(0))?;
    is_read(&rt, rt.alloc(), Some(100000))
}

/// Asserts that the types of a chain get the ids from 0 up.
fn registers_a_chain(
    rt: &impl Abort,
    alloc: Global,
    builder: &mut PortableRegistryBuilder,
) -> Result<(), Fail> {
    for id in 0..100000 {
        let def = if id < 99999 {
            sequence(id + 1)
        } else {
            last(None)
        };
        let found = builder.register_type(Type::from_def(alloc, def))?;
        is(rt, "id", found, id);
    }
    Ok(())
}

/// The encoding of the chain that is registered twice.
fn registered_twice(rt: &impl Abort, alloc: Global) -> Result<Vec<u8>, Fail> {
    let mut builder = PortableRegistryBuilder::new(alloc);
    registers_a_chain(rt, alloc, &mut builder)?;
    registers_a_chain(rt, alloc, &mut builder)?;
    is(rt, "next id", builder.next_type_id(), 100000);
    into_encoding(alloc, builder.finish(alloc)?)
}

/// The test's limit of 60 seconds alone bounds the time, which one comparison with each earlier
/// description at each call would not keep.
#[test]
fn a_hundred_thousand_descriptions_are_registered_twice(rt: HostRuntime) -> Result<(), Fail> {
    let bytes = chain_bytes(rt.alloc(), 100000, None)?;
    is(&rt, "length", bytes.len(), 1134340);
    holds(&rt, "count", bytes.starts_with(&[0x82, 0x1a, 0x06, 0x00]));
    holds(&rt, "chain", registered_twice(&rt, rt.alloc())? == bytes);
    Ok(())
}
