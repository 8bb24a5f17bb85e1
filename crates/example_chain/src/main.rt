//! Reads a node's metadata, and by it a type, a value and a call; and changes the call.
#![tactic(auto)]

use anyhow::{Context, Result, ensure};
use scale_info::PortableRegistry;
use scale_info::describe::{describe, find_by_path};
use scale_info::metadata::{bytes_of_text, table_of};
use scale_info::value::{encode_value, from_json};
use scale_info::value_text::value_json;
use std::alloc::Global;
use std::io::Read;

/// The id of the one type with this path.
fn id_of(alloc: Global, table: &PortableRegistry, path: &str) -> Result<u32> {
    let ids = find_by_path(alloc, table, path)?;
    ensure!(ids.len() == 1, "{} types have the path {path}", ids.len());
    Ok(ids[0])
}

fn main(rt: HostRuntime) -> Result<()> {
    let alloc = rt.alloc();

    // From metadata, as a node returns it over HTTP, to the table of its types.
    let mut text = Vec::new(alloc);
    rt.stdin().read_to_end(&mut text)?;
    let metadata = bytes_of_text(alloc, &text)?.context("no hexadecimal digits")?;
    let (_, bytes) = table_of(&metadata)?;
    let (table, _) = PortableRegistry::decode(alloc, bytes)?;
    ensure!(table.is_closed(), "a reference of the table leads nowhere");

    // A type, as Rust declares it, and a value of it, as a node stores it.
    let account = id_of(alloc, &table, "demo::Account")?;
    let declared = describe(alloc, &table, account)?.context("no such type")?;
    println!(rt; "{declared}")?;
    let mut stored = vec![in alloc; 7, 0, 0, 0, 232, 3]?;
    stored.resize(20, 0)?;
    println!(rt; "{}", value_json(alloc, &table, account, &stored)?)?;

    // A call, as it is to be signed, from its JSON text.
    let calls = id_of(alloc, &table, "demo::Call")?;
    let call = serde_json::from_str(alloc, r#"{"transfer":{"to":["0x01020304"],"amount":1000}}"#)?;
    let call = from_json(alloc, &table, calls, &call)?;
    let mut bytes = Vec::new(alloc);
    encode_value(&table, calls, &call, &mut bytes)?;
    let call = value_json(alloc, &table, calls, &bytes)?;
    println!(rt; "{bytes:?} is {call}")?;
    Ok(())
}
