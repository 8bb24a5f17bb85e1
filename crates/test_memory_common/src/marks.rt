//! Marks on the standard error, between which requests for memory may be refused.
//!
//! `checks/refused_memory` runs programs over an allocator that looks for these lines. Each is
//! written at once, and neither allocates.
use std::io::Write;

/// Makes a call between the marks: it is what the call returns.
#[macro_export]
macro_rules! marked {
    ($rt:expr; $call:expr) => {{
        $crate::marks::begin($rt);
        let returned = $call;
        $crate::marks::end($rt);
        returned
    }};
}

/// Makes a call between the marks: the outcome of what it returned, or of its error.
#[macro_export]
macro_rules! answered {
    ($rt:expr; $call:expr; $value:pat => $answer:expr) => {{
        let returned = $crate::marked!($rt; $call);
        let answer = match returned {
            Ok($value) => $answer,
            Err(error) => $crate::answers::failed($rt.alloc(), &error),
        };
        $crate::outcomes::Outcome::of(answer)
    }};
}

/// Makes a call between the marks that appends to a list of one byte, and shows what it returned.
#[macro_export]
macro_rules! appended {
    ($rt:expr; $out:ident => $call:expr) => {{
        let mut $out = $crate::inputs::output($rt.alloc())?;
        let before = $crate::answers::hexadecimal($rt.alloc(), $out.as_slice());
        let returned = $crate::marked!($rt; $call);
        let after = $crate::answers::hexadecimal($rt.alloc(), $out.as_slice());
        let answer = $crate::answers::shown($rt.alloc(), returned);
        $crate::outcomes::Outcome::lending(before, after, answer)
    }};
}

/// Says that the call begins.
pub fn begin(rt: &HostRuntime) {
    let _ = rt.stderr().write_all(b"begin\n");
}

/// Says that the call has returned.
pub fn end(rt: &HostRuntime) {
    let _ = rt.stderr().write_all(b"end\n");
}
