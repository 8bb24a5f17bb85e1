//! A program that makes calls of `scale_info` between marks, and prints what each did.
//!
//! Each line of the standard input is a row: the call of a module, and its input.
#![tactic(auto)]

mod calls;
mod metadata;
mod passes;
mod people;
mod print;
mod runs;
mod typed;
mod value_texts;
mod values;
mod views;

use std::test::Fail;
use test_memory_common::outcomes::print;

/// Makes the call of each line of the standard input, and prints what it did.
fn main(rt: HostRuntime) -> Result<(), Fail> {
    for line in rt.lines(rt.alloc()) {
        let line = line?;
        println!(rt; "{line}")?;
        print(&rt, &calls::call(&rt, line.as_str())?)?;
    }
    Ok(())
}
