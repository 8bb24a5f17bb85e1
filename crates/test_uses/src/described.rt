//! Types of a table, found by their paths and written as Rust declares them.
use crate::asserts::is;
use scale_info::PortableRegistry;
use scale_info::describe::{append_description, describe, find_by_path, find_containing, name_of};
use std::alloc::Global;
use std::test::Fail;
use test_common::rows::row_bytes;

/// Nineteen types, each kind of definition among them.
const TABLE: &str = "\
    4c00083c70616c6c65745f62616c616e636573205472616e736665720000080110646573740401244163\
    636f756e74496404345468652072656365697665722e0118616d6f756e7408000008404d6f7665732061\
    6e20616d6f756e742e144f6e63652e04081c73705f636f7265244163636f756e744964000004000c0000\
    000800000610000c0000032000000014001000000507001400000503001804184f7074696f6e04045401\
    1c0108104e6f6e6500000010536f6d6504001c00000100001c0000022000200000040414002408187061\
    6c6c65741043616c6c0804540004490118010c207472616e736665720401106465737404000420546f20\
    77686f6d2e0304244d6f7665732069742e1073746f7008001000000014000007001c6e6f7468696e6700\
    ff000028000007142c002c0c18626974766563146f72646572104c736230000000003000000814300034\
    000000080104611400000104628d010000003804144279746573000214042c536f6d652062797465732e\
    3c00000108044100000004420400140000010000400000040000440000040c143c34004804204d656173\
    757265640000080044000428496e206d65747265732e0040000000";

/// What is written of those from 0 on, with a line `---` after each.
const WRITTEN: &str = "\
/// Moves an amount.
/// Once.
struct Transfer {
    /// The receiver.
    dest: AccountId,
    amount: Compact<u128>,
}
---
struct AccountId([u8; 32]);
---
Compact<u128>
---
[u8; 32]
---
u128
---
u8
---
enum Option<Vec<(u8,)>> {
    None = 0,
    Some(Vec<(u8,)>) = 1,
}
---
Vec<(u8,)>
---
(u8,)
---
enum Call<T, Option<Vec<(u8,)>>> {
    /// Moves it.
    transfer {
        /// To whom.
        dest: AccountId,
    } = 3,
    stop(u128, u8) = 7,
    nothing = 255,
}
---
BitSequence<u8, Lsb0>
---
struct Lsb0;
---
BTreeMap<u8, BTreeMap<u8, BTreeMap<u8, BTreeMap<u8, BTreeMap<u8, BTreeMap<u8, BTreeMap<u8, \
BTreeMap<u8, BTreeMap<.., ..>>>>>>>>>
---
struct {
    a: u8,
    b: #99,
}
---
/// Some bytes.
type Bytes = Vec<u8>;
---
enum {
    A = 0,
    B(u8) = 1,
}
---
()
---
(u8, enum { A, B(u8), }, struct { a: u8, b: #99 })
---
struct Measured(
    /// In metres.
    (u8, enum { A, B(u8), }, struct { a: u8, b: #99 }),
    (),
);
---
";

/// The table of the bytes above.
fn table(alloc: Global) -> Result<PortableRegistry, Fail> {
    let bytes = row_bytes(alloc, TABLE)?;
    let (table, _) = PortableRegistry::decode(alloc, &bytes)?;
    Ok(table)
}

#[test]
fn each_type_is_written(rt: HostRuntime) -> Result<(), Fail> {
    let table = table(rt.alloc())?;
    let mut out = String::new(rt.alloc());
    for id in 0..19 {
        append_description(rt.alloc(), &table, id, &mut out)?;
        out.push_str("\n---\n")?;
    }
    assert!(rt; !append_description(rt.alloc(), &table, 19, &mut out)?);
    assert_eq!(rt; out.as_str(), WRITTEN);
    Ok(())
}

#[test]
fn names_are_written(rt: HostRuntime) -> Result<(), Fail> {
    let table = table(rt.alloc())?;
    is(
        &rt,
        "path",
        name_of(rt.alloc(), &table, 0)?.as_str(),
        "Transfer",
    );
    is(
        &rt,
        "missing",
        name_of(rt.alloc(), &table, 19)?.as_str(),
        "#19",
    );
    assert!(rt; describe(rt.alloc(), &table, 19)?.is_none());
    Ok(())
}

#[test]
fn types_are_found(rt: HostRuntime) -> Result<(), Fail> {
    let table = table(rt.alloc())?;
    let whole = find_by_path(rt.alloc(), &table, "pallet_balances::Transfer")?;
    is(&rt, "whole", whole.as_slice(), &[0]);
    let part = find_by_path(rt.alloc(), &table, "pallet_balances")?;
    is(&rt, "part of a path", part.as_slice(), &[]);
    let contained = find_containing(rt.alloc(), &table, "pallet")?;
    is(&rt, "contained", contained.as_slice(), &[9]);
    let inside = find_containing(rt.alloc(), &table, "order::Lsb0")?;
    is(&rt, "inside", inside.as_slice(), &[11]);
    Ok(())
}
