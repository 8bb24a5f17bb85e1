//! Values as JSON text.
use crate::digest::Digest;
use crate::readings::{Input, Reading};
use anyhow::Result;
use scale_info::value_text::append_value_json;
use std::alloc::Global;

/// Writes the text of each value.
pub struct Texts;

impl Reading for Texts {
    fn put(alloc: Global, input: Input<'_>, digest: &mut Digest) -> Result<()> {
        let mut text = Vec::new(alloc);
        let rest = append_value_json(alloc, input.table, input.id, input.bytes, &mut text)?;
        digest.put_bytes(&text);
        digest.put(rest.len() as u64);
        Ok(())
    }
}
