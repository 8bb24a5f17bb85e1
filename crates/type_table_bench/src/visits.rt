//! Values that are shown, or borrowed, and not made.
use crate::digest::Digest;
use crate::readings::{Input, Reading};
use anyhow::{Result, bail};
use scale_info::form::PortableForm;
use scale_info::visit::{ValueVisitor, visit_value};
use scale_info::{Field, Variant};
use std::alloc::Global;
use std::convert::Infallible;

/// Puts what it is shown into a digest, as a value that is made is put in.
#[derive(Drop)]
struct DigestVisitor<'d> {
    digest: &'d mut Digest,
}

impl ValueVisitor for DigestVisitor<'_> {
    type Error = Infallible;

    ghost visited = { λ _ _ _. Unit {0} };

    ghost stopped = { λ _ _ _ _. ⊥ };

    fn truth(&mut self, value: bool) -> Result<(), Infallible> {
        self.digest.put(if value { 1 } else { 2 });
        Ok(())
    }

    fn unsigned(&mut self, value: u128) -> Result<(), Infallible> {
        self.digest.put_wide(value);
        Ok(())
    }

    fn signed(&mut self, value: i128) -> Result<(), Infallible> {
        self.digest.put_wide(value.unsigned_abs());
        Ok(())
    }

    fn text(&mut self, value: &str) -> Result<(), Infallible> {
        self.digest.put_bytes(value.as_bytes());
        Ok(())
    }

    fn bytes(&mut self, all: &[u8]) -> Result<(), Infallible> {
        self.digest.put_integers(all);
        Ok(())
    }

    fn begin_list(&mut self, count: usize) -> Result<(), Infallible> {
        self.digest.put(count as u64);
        Ok(())
    }

    fn end_list(&mut self) -> Result<(), Infallible> {
        Ok(())
    }

    fn begin_record(&mut self, fields: &[Field<PortableForm>]) -> Result<(), Infallible> {
        self.digest.put(fields.len() as u64);
        Ok(())
    }

    fn end_record(&mut self, _fields: &[Field<PortableForm>]) -> Result<(), Infallible> {
        Ok(())
    }

    fn begin_variant(
        &mut self,
        _choice: &[Variant<PortableForm>],
        variant: &Variant<PortableForm>,
    ) -> Result<(), Infallible> {
        self.digest.put_bytes(variant.name.as_bytes());
        self.digest.put(variant.index as u64);
        self.digest.put(variant.fields.len() as u64);
        Ok(())
    }

    fn end_variant(
        &mut self,
        _choice: &[Variant<PortableForm>],
        _variant: &Variant<PortableForm>,
    ) -> Result<(), Infallible> {
        Ok(())
    }

    fn field(&mut self, next: &Field<PortableForm>, _named: bool) -> Result<(), Infallible> {
        match &next.name {
            Some(name) => self.digest.put_bytes(name.as_bytes()),
            None => self.digest.put(3),
        }
        Ok(())
    }

    ghost visited_none = { λ _. tt };

    ghost visited_append = { λ _ _ _ _ _ _ _. tt };

    ghost stopped_later = { λ _ _ _ _ _ _ _ never. never };
}

/// Shows each value to a visitor.
pub struct Visits;

impl Reading for Visits {
    fn put(_alloc: Global, input: Input<'_>, digest: &mut Digest) -> Result<()> {
        let mut visitor = DigestVisitor { digest };
        match visit_value(input.table, input.id, input.bytes, &mut visitor) {
            Ok(rest) => {
                digest.put(rest.len() as u64);
                Ok(())
            }
            Err(_) => bail!("no value"),
        }
    }
}
