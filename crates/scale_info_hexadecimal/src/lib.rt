//! Bytes as hexadecimal digits, two for each.
//!
//! [`decode::decode`] reads digits, [`encode::encode`] writes them after `0x`, and
//! [`digits::Digits`] reads the digits of one text after another into the same buffers.
#![tactic(auto)]

pub mod decode;
pub mod digits;
pub mod encode;
