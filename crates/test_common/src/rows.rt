//! Rows of bytes: tables, and inputs that are none. The tests of the decoder and of the program
//! read the same rows.
use scale_info::PortableRegistry;
use std::alloc::Global;
use std::test::Fail;

/// Encodings of tables: a row is a name, a colon and the bytes in hexadecimal.
pub const TABLES: &str = "\
empty: 00
u32: 04 000000050500
Vec<u32>: 08 000000020400 040000050500
bool, (u32, [u8; 32], bool), String: 18 000000050000 040000040c080c0000 080000050500 \
    0c000003200000001000 100000050300 140000050200
(u32, [u8; 32], bool): 14 000000040c04081000 040000050500 08000003200000000c00 0c0000050300 \
    100000050000
bit sequence: 0c 00000007040800 040000050500 080000050600
recursive enum: 04 00081064656d6f245265637572736976650001081456616c75650400000000000014456d707479 \
    00010000
u32, bool, Option<(u32, bool)>: 10 000000050500 040000050000 \
    0804184f7074696f6e040454010c0108104e6f6e6500000010536f6d6504000c0000010000 0c00000408000400
(u64,): 08 00000004040400 040000050600
Compact<u32>: 08 000000060400 040000050500
reference outside the table: 08 000000050000 040000021c00
enum without variants: 04 000000010000
skipped parameter: 04 000004045400050500
Range<u8>: 08 00041452616e6765040c496478010400080114737461727404010c49647800010c656e6404010c496478 \
    0000 040000050300
Duration: 0c 0004204475726174696f6e0000080004010c753634000008010c7533320000 040000050600 \
    080000050500
docs of a type, a variant and a field: 08 000000050000 \
    040404700804530004540100010404560401046e0001044e08046604670704047608046400
the same enum before its bool: 08 \
    000404700804530004540104010404560401046e0401044e08046604670704047608046400 040000050000
the fifteen primitives in order: 3c 000000050000 040000050100 080000050200 0c0000050300 \
    100000050400 140000050500 180000050600 1c0000050700 200000050800 240000050900 280000050a00 \
    2c0000050b00 300000050c00 340000050d00 380000050e00
control characters, quotes and characters of two to four bytes: 04 \
    0004540008090a0b0c0d1f225c2f7fc3a9e280a8f09fa68000040000
ids that are not indices: 08 240000050000 000000020000
map(1, 2), u32, bool: 0c 00000008040800 040000050500 080000050000
bool, map(2, 0), u32: 0c 000000050000 04000008080000 080000050500
map(16383, 64): 04 00000008fdff010100
";

/// Tables of types that are registered between or after `bool` and `String`; rows as above.
pub const AMONG: &str = "\
bool, Vec<u32>, String: 10 000000050000 040000020800 080000050500 0c0000050200
bool, a recursive enum, String: 0c 000000050000 \
    04081064656d6f245265637572736976650001081456616c75650400040000000014456d70747900010000 \
    080000050200
bool, [u32; 16], String: 10 000000050000 0400000310000000 0800 080000050500 0c0000050200
bool, a struct, String: 18 000000050000 \
    040000000c0104610800000104620c000001046300000000 080000050500 \
    0c000003200000001000 100000050300 140000050200
bool, an enum, String: 10 000000050000 04000001080441040008000000000442040000000001 0000 \
    080000050500 0c0000050200
bool, String, Compact<u32>: 10 000000050000 040000050200 080000060c00 0c0000050500
";

/// Tables of registered composites; rows as above. Parameters come before fields, a struct of
/// itself is one type, and what a type refers to comes before the next type.
pub const COMPOSITES: &str = "\
P: 0c 0004045008045300045401040008010461080000010462040000 00 040000050000 080000050300
RecursiveRefs: 04 00043452656375727369766552656673 00 000c 0114626f786564000000 \
    01247265666572656e6365000000 01446d757461626c655f7265666572656e6365000000 00
C, A: 10 0004044300000000 040404410000080104620800000104630000 0000 \
    080404420000040104640c000000 0c04044400000401046104000000
A: 10 00040441000008010462040000010463 0c000000 0404044200000401046408000000 \
    0804044400000401046100000000 0c04044300000000
";

/// Tables that are built at run time, and one of a type and a box of a box of it; rows as above.
pub const BUILT: &str = "\
bool, u32, u64, a bit sequence: 10 000000050000 040000050500 080000050600 0c000007040800
a sequence of the last: 0c 000000020800 040000050000 080000050300
a sequence of the second: 0c 000000020400 040000050500 080000050200
a cycle of sequences: 0c 000000020400 040000020800 080000020000
u32, a sequence, MyStruct: 0c 000000050500 040000020000 \
    0804204d79537472756374 00 000c 01247072696d6974697665000000 \
    01287665635f6f665f753332040000 014073656c665f7265666572656e7469616c080000 00
a sequence of a missing type: 04 000000021400
u8, Box<Box<u8>>: 08 000000050300 040000050300
";

/// Tables that pruning makes of others, where they are none of the above; rows as above.
pub const PRUNED: &str = "\
a sequence of the second, u8, bool: 0c 000000020400 040000050300 080000050000
a sequence of the second, bool: 08 000000020400 040000050000
[u32; 16]: 08 00000003100000000400 040000050500
a struct: 14 000000000c010461040000010462080000010463100000 00 040000050500 \
    08000003200000000c00 0c0000050300 100000050000
an enum: 0c 00000001080441040004000000000442040008000001 0000 040000050500 080000050000
";

/// Bytes with no prefix that is the encoding of a table; rows as above.
pub const MALFORMED: &str = "\
no bytes:
a table without its last byte: 040000000505
the count 1 in two bytes: 0500000000050500
a great count alone: feffffff
the greatest count alone: 03ffffffff
a path of the greatest count: 04000403ffffffff
the id 1 in four bytes: 04060000000000050500
the count 1073741823 in five bytes: 03ffffff3f
a first byte of a number of more than five bytes: 070000004000
the primitive 15: 04000000050f00
the definition 9: 04000000090000
a map without its value: 040000000804
a map with its key in two bytes: 04000000080500080000
the option byte 2: 0400000404540204050500
a line of docs that is the byte ff: 0400000005050404ff
a segment with an overlong character: 04000408c08000050500
a segment that is half a surrogate pair: 0400040ceda08000050500
a segment above the last character: 04000410f490808000050500
a segment that ends inside a character: 04000408e28200050500
a segment that begins inside a character: 040004048000050500
";

/// A table of each kind of definition, in 312 bytes.
pub const MIXED: &str = "\
    5c000000050000040000040c080c00000800000505000c00000320000000100010000005030014000005020000 \
    00000704080004000005050008000005060000081064656d6f245265637572736976650001081456616c756504 \
    00000000000014456d707479000100000000000505000400000500000804184f7074696f6e040454010c010810 \
    4e6f6e6500000010536f6d6504000c00000100000c000004080004000000000604000400000505000000040454 \
    0005050000041452616e6765040c496478010400080114737461727404010c49647800010c656e6404010c4964 \
    780000040000050300000000050000040404700804530004540100010404560401046e0001044e080466046707 \
    040476080464000004540008090a0b0c0d1f225c2f7fc3a9e280a8f09fa6800004000000000008080400";

/// A row, read.
#[derive(Drop)]
pub struct Row<'a> {
    /// What stands before the colon.
    pub name: &'a str,
    /// The bytes after it.
    pub bytes: Vec<u8>,
}

/// The bytes of digits; spaces between them do not count.
pub fn row_bytes(alloc: Global, digits: &str) -> Result<Vec<u8>, Fail> {
    let mut bytes = Vec::new(alloc);
    for group in digits.split_whitespace() {
        bytes.extend_from_slice(&hex::decode(alloc, group)?)?;
    }
    Ok(bytes)
}

/// The numbers that spaces separate.
pub fn numbers(alloc: Global, words: &str) -> Result<Vec<u32>, Fail> {
    let mut all = Vec::new(alloc);
    for word in words.split_whitespace() {
        let number: u32 = word.parse()?;
        all.push(number)?;
    }
    Ok(all)
}

/// The text before a mark, and the text after it.
pub fn parted<'a>(text: &'a str, mark: char) -> Result<(&'a str, &'a str), Fail> {
    match text.split_once(mark) {
        Some(parts) => Ok(parts),
        None => Err(Fail::new("a row lacks a part")),
    }
}

/// The ids, the table and the input of a row: after a name and a colon they stand in this order,
/// with semicolons between them.
pub fn parts_of(row: &str) -> Result<(&str, &str, &str), Fail> {
    let (_, rest) = parted(row, ':')?;
    let (ids, rest) = parted(rest, ';')?;
    let (table, input) = parted(rest, ';')?;
    Ok((ids.trim(), table, input.trim()))
}

/// The row of a line.
fn read_row(alloc: Global, line: &str) -> Result<Row<'_>, Fail> {
    let Some((name, digits)) = line.split_once(':') else {
        return Err(Fail::new("a row has no colon"));
    };
    let bytes = row_bytes(alloc, digits)?;
    Ok(Row { name, bytes })
}

/// The rows of a text, in order.
pub fn rows(alloc: Global, text: &str) -> Result<Vec<Row<'_>>, Fail> {
    let mut all = Vec::new(alloc);
    for line in text.lines() {
        all.push(read_row(alloc, line)?)?;
    }
    Ok(all)
}

/// The row with this name.
pub fn row_named<'a>(alloc: Global, text: &'a str, name: &str) -> Result<Row<'a>, Fail> {
    for row in rows(alloc, text)? {
        if row.name == name {
            return Ok(row);
        }
    }
    Err(Fail::new("no row has this name"))
}

/// The table that the bytes of a row begin with.
pub fn decoded(alloc: Global, row: &Row) -> Result<PortableRegistry, Fail> {
    let (table, _) = PortableRegistry::decode(alloc, &row.bytes)?;
    Ok(table)
}
