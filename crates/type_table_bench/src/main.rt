//! The workloads of `bench/workloads.txt`.
//!
//! `NAME SEED ROUNDS` runs one of them, or each in turn where the name is `all`, and prints a
//! digest of all results. A seed gives the inputs, which the program makes itself; no call is made
//! twice on one input.
#![tactic(auto)]

mod commands;
mod digest;
mod events;
mod interners;
mod lent_values;
mod lists;
mod loads;
mod own;
mod payloads;
mod pool;
mod random;
mod readings;
mod records;
mod registrations;
mod runtime;
mod scale;
mod signing;
mod table_bytes;
mod table_texts;
mod tables;
mod texts;
mod value_texts;
mod visits;

use crate::digest::Digest;
use crate::lent_values::Loans;
use crate::loads::{ByTable, ByView};
use crate::readings::{read_payloads, read_records};
use crate::signing::Signing;
use crate::table_texts::{ByTree, Straight};
use crate::value_texts::Texts;
use crate::visits::Visits;
use anyhow::{Result, bail};
use std::alloc::Global;
use std::env;

/// The workloads.
const NAMES: [&str; 20] = [
    "records",
    "payloads",
    "tables",
    "texts",
    "registrations",
    "commands",
    "interners",
    "visits",
    "payload_visits",
    "lent_values",
    "lent_payloads",
    "value_texts",
    "payload_texts",
    "signing",
    "payload_signing",
    "views",
    "whole_tables",
    "reads_text",
    "reads_tree",
    "lists",
];

/// Runs a workload.
fn run(alloc: Global, name: &str, seed: u32, rounds: u32) -> Result<Digest> {
    match name {
        "records" => records::run(alloc, seed, rounds),
        "payloads" => payloads::run(alloc, seed, rounds),
        "tables" => tables::run(alloc, seed, rounds),
        "texts" => texts::run(alloc, seed, rounds),
        "registrations" => registrations::run(alloc, seed, rounds),
        "commands" => commands::run(alloc, seed, rounds),
        "interners" => interners::run(alloc, seed, rounds),
        "visits" => read_records::<Visits>(alloc, seed, rounds),
        "payload_visits" => read_payloads::<Visits>(alloc, seed, rounds),
        "lent_values" => read_records::<Loans>(alloc, seed, rounds),
        "lent_payloads" => read_payloads::<Loans>(alloc, seed, rounds),
        "value_texts" => read_records::<Texts>(alloc, seed, rounds),
        "payload_texts" => read_payloads::<Texts>(alloc, seed, rounds),
        "signing" => read_records::<Signing>(alloc, seed, rounds),
        "payload_signing" => read_payloads::<Signing>(alloc, seed, rounds),
        "views" => loads::run::<ByView>(alloc, seed, rounds),
        "whole_tables" => loads::run::<ByTable>(alloc, seed, rounds),
        "reads_text" => table_texts::run::<Straight>(alloc, seed, rounds),
        "reads_tree" => table_texts::run::<ByTree>(alloc, seed, rounds),
        "lists" => lists::run(alloc, seed, rounds),
        _ => bail!("no workload has this name"),
    }
}

/// Runs a workload, and prints its digest.
fn print_digest(rt: &HostRuntime, name: &str, seed: u32, rounds: u32) -> Result<()> {
    let digest = run(rt.alloc(), name, seed, rounds)?.value();
    println!(rt; "{name} {digest:016x}")?;
    Ok(())
}

fn main(rt: HostRuntime) -> Result<()> {
    let mut words = env::args(&rt)?.skip(1);
    let (Some(name), Some(seed), Some(rounds)) = (words.next(), words.next(), words.next()) else {
        bail!("the words are a workload's name, a seed and a number of rounds");
    };
    let (seed, rounds) = (seed.parse::<u32>()?, rounds.parse::<u32>()?);
    if name.as_str() != "all" {
        return print_digest(&rt, name.as_str(), seed, rounds);
    }
    for name in NAMES {
        print_digest(&rt, name, seed, rounds)?;
    }
    Ok(())
}
