//! Reading to the end.
ghost use Rattle.std.specs.Prelude.{◌≡◌, ◌≤◌, ◌<◌, ◌+◌, ◌⊎◌, take, drop, length, vec_len, IfOk};
ghost use Rattle.std.specs.Prelude.{IfErr, IfSome, OnOk, OnErr};
ghost use Rattle.std.specs.Io.KnownBytes.{Consumes, IsAtEnd, Keeps};

use crate::error::RunError;
use std::alloc::{AllocError, Global};
use std::io;
use std::io::{ErrorKind, Read};

/// The least room that a read is given.
const PIECE: usize = 65536;

/// The most calls of `read` that are made for one input.
const MOST_READS: u64 = 4294967296;

/// Makes the buffer longer, by zeros, until a piece stands after `filled`.
///
/// The room that it takes doubles, as a vector's does, but no more of it is touched than is read
/// into.
fn make_room(buf: &mut Vec<u8>, filled: usize) -> Result<(), AllocError>
    requires { filled ≤ vec_len buf.old }
    ensures within { filled ≤ vec_len buf.new }
    ensures prefix { take filled buf.new.items ≡ take filled buf.old.items }
    ensures room { OnOk result (filled < vec_len buf.new) }
{
    if buf.len() - filled < PIECE {
        buf.resize(filled.saturating_add(PIECE), 0)?;
    }
    Ok(())
}

/// One read, into what stands after the first `filled` bytes.
fn read_after<R: Read>(reader: &mut R, buf: &mut [u8], filled: usize) -> io::Result<usize>
    requires { filled < length buf.old }
    ensures prefix { take filled buf.new ≡ take filled buf.old }
    ensures fits { IfOk result (λ n. filled + n ≤ length buf.new) }
    ensures ok { IfOk result (λ n. Consumes (R.remaining reader.old) (R.remaining reader.new)
        (take n (drop filled buf.new))) }
    ensures end { IfOk result (λ n. n ≡ 0 → IsAtEnd (R.remaining reader.new)) }
    ensures err { OnErr result (Keeps (R.remaining reader.old) (R.remaining reader.new)) }
{
    reader.read(&mut buf[filled..])
}

/// The same in a vector.
fn read_piece<R: Read>(reader: &mut R, buf: &mut Vec<u8>, filled: usize) -> io::Result<usize>
    requires { filled < vec_len buf.old }
    ensures prefix { take filled buf.new.items ≡ take filled buf.old.items }
    ensures fits { IfOk result (λ n. filled + n ≤ vec_len buf.new) }
    ensures ok { IfOk result (λ n. Consumes (R.remaining reader.old) (R.remaining reader.new)
        (take n (drop filled buf.new.items))) }
    ensures end { IfOk result (λ n. n ≡ 0 → IsAtEnd (R.remaining reader.new)) }
    ensures err { OnErr result ((filled ≤ vec_len buf.new)
        × Keeps (R.remaining reader.old) (R.remaining reader.new)) }
{
    read_after(reader, buf.as_mut_slice(), filled)
}

/// Reads the input to its end.
///
/// A read that was interrupted is tried again. On an Err some bytes of the input may be gone.
///
/// It is written out, since std's own call doesn't say whether an error came from a read or from a
/// failed allocation.
///
/// Errors: `Memory`, if an allocation failed; `Input`, if a read fails, or if the input does not
/// end within 4294967296 reads.
pub fn read_to_end<R: Read>(alloc: Global, reader: &mut R) -> Result<Vec<u8>, RunError>
    ensures whole { IfOk result (λ input.
        IfSome (R.remaining reader.old) (λ bytes. input.items ≡ bytes)) }
    ensures end { OnOk result (IsAtEnd (R.remaining reader.new)) }
    ensures error { IfErr result (λ error. (error ≡ RunError.Memory) ⊎ (error ≡ RunError.Input)) }
{
    let mut input = Vec::new(alloc);
    let mut filled = 0;
    for _ in 0..MOST_READS {
        if make_room(&mut input, filled).is_err() {
            return Err(RunError::Memory);
        }
        match read_piece(reader, &mut input, filled) {
            Ok(0) => {
                input.truncate(filled);
                return Ok(input);
            }
            Ok(n) => filled += n,
            Err(e) => {
                if e.kind() != ErrorKind::Interrupted {
                    return Err(RunError::Input);
                }
            }
        }
    }
    Err(RunError::Input)
}
