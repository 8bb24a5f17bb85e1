//! A visitor that writes what it is shown as JSON.
ghost use Rattle.std.specs.Prelude.{◌≡◌, ◌++◌, OnOk};
ghost use Rattle.std.specs.List.{flat_map};
ghost use Rattle.std.specs.Str.{IsUtf8};
ghost use Rattle.std.proofs.Common.{refl, sym, ap, ◌∙◌, append_assoc};
ghost use Rattle.std.proofs.lemmas.List.{append-nil};
ghost use Rattle.std.proofs.lemmas.Grind.{flat_map-append};
ghost use Rattle.json.specs.Print.{print};
ghost use Rattle.json.specs.Written.{Writes};
ghost use Rattle.scale_info_value_visit.specs.Events.{names};
ghost use Rattle.scale_info_value_text.specs.ValueTexts.{event_tokens, opening, closing};
ghost use Rattle.scale_info_value_text.specs.ValueTexts.{fields_opening, fields_closing};

use itoa::Buffer;
use json::Writer;
use scale_info_hexadecimal::encode::encode;
use scale_info_types::form::PortableForm;
use scale_info_types::ty::Field;
use scale_info_types::ty::variant::Variant;
use scale_info_value_visit::visit::{all_named, shares_name};
use scale_info_value_visit::visitor::ValueVisitor;
use std::alloc::{AllocError, Global};

/// The least integer that is written as a string, where it has no sign.
const LIMIT: u128 = 1 << 53;

/// Writes what it is shown.
#[derive(Drop)]
pub(crate) struct TextWriter {
    pub(crate) alloc: Global,
    pub(crate) out: Writer,
}

impl TextWriter {
    /// The bytes that were there before, and the text after them.
    pub(crate) fn into_bytes(self) -> Vec<u8>
        ensures items { result.items ≡ self.out.before ++ print self.out.tokens }
        ensures utf8 { IsUtf8 (print self.out.tokens) }
    {
        let TextWriter { out, .. } = self;
        out.into_inner()
    }
}

/// Begins fields.
fn open(out: &mut Writer, fields: &[Field<PortableForm>]) -> Result<(), AllocError>
    ensures { Writes result out.old out.new (opening (names fields.now)) }
{
    if all_named(fields) {
        out.begin_object()
    } else {
        out.begin_array()
    }
}

/// Ends fields.
fn close(out: &mut Writer, fields: &[Field<PortableForm>]) -> Result<(), AllocError>
    ensures { Writes result out.old out.new (closing (names fields.now)) }
{
    if all_named(fields) {
        out.end_object()
    } else {
        out.end_array()
    }
}

/// Begins the fields of a variant, if it has any.
fn open_any(out: &mut Writer, fields: &[Field<PortableForm>]) -> Result<(), AllocError>
    ensures keeps { out.new.before ≡ out.old.before }
    ensures ok { OnOk result
        (out.new.tokens ≡ out.old.tokens ++ fields_opening (names fields.now)) }
{
    if fields.is_empty() {
        return Ok(());
    }
    open(out, fields)
}

/// Ends the fields of a variant, if it has any.
fn close_any(out: &mut Writer, fields: &[Field<PortableForm>]) -> Result<(), AllocError>
    ensures keeps { out.new.before ≡ out.old.before }
    ensures ok { OnOk result
        (out.new.tokens ≡ out.old.tokens ++ fields_closing (names fields.now)) }
{
    if fields.is_empty() {
        return Ok(());
    }
    close(out, fields)
}

impl ValueVisitor for TextWriter {
    type Error = AllocError;

    ghost visited = { λ es a b. (b.out.before ≡ a.out.before)
        × (b.out.tokens ≡ a.out.tokens ++ flat_map event_tokens es) };

    ghost stopped = { λ _ a _ b. b.out.before ≡ a.out.before };

    fn truth(&mut self, value: bool) -> Result<(), AllocError> {
        self.out.boolean(value)
    }

    fn unsigned(&mut self, value: u128) -> Result<(), AllocError> {
        if value < LIMIT {
            return self.out.u64(value as u64);
        }
        let mut buffer = Buffer::new();
        self.out.string(buffer.format(value))
    }

    fn signed(&mut self, value: i128) -> Result<(), AllocError> {
        let mut buffer = Buffer::new();
        let digits = buffer.format(value);
        if value.unsigned_abs() < LIMIT {
            return self.out.number(digits);
        }
        self.out.string(digits)
    }

    fn text(&mut self, value: &str) -> Result<(), AllocError> {
        self.out.string(value)
    }

    fn bytes(&mut self, all: &[u8]) -> Result<(), AllocError> {
        let text = encode(self.alloc, all)?;
        self.out.string(text.as_str())
    }

    fn begin_list(&mut self, _count: usize) -> Result<(), AllocError> {
        self.out.begin_array()
    }

    fn end_list(&mut self) -> Result<(), AllocError> {
        self.out.end_array()
    }

    fn begin_record(&mut self, fields: &[Field<PortableForm>]) -> Result<(), AllocError> {
        open(&mut self.out, fields)
    }

    fn end_record(&mut self, fields: &[Field<PortableForm>]) -> Result<(), AllocError> {
        close(&mut self.out, fields)
    }

    fn begin_variant(
        &mut self,
        choice: &[Variant<PortableForm>],
        variant: &Variant<PortableForm>,
    ) -> Result<(), AllocError> {
        let shared = shares_name(choice, variant);
        if variant.fields.is_empty() && !shared {
            return self.out.string(variant.name.as_str());
        }
        self.out.begin_object()?;
        self.out.key(variant.name.as_str())?;
        if shared {
            self.out.begin_array()?;
            self.out.u64(variant.index as u64)?;
        }
        open_any(&mut self.out, variant.fields.as_slice())
    }

    fn end_variant(
        &mut self,
        choice: &[Variant<PortableForm>],
        variant: &Variant<PortableForm>,
    ) -> Result<(), AllocError> {
        let shared = shares_name(choice, variant);
        if variant.fields.is_empty() && !shared {
            return Ok(());
        }
        close_any(&mut self.out, variant.fields.as_slice())?;
        if shared {
            self.out.end_array()?;
        }
        self.out.end_object()
    }

    fn field(&mut self, next: &Field<PortableForm>, named: bool) -> Result<(), AllocError> {
        match &next.name {
            Some(name) if named => self.out.key(name.as_str()),
            _ => Ok(()),
        }
    }

    ghost visited_none = { λ a. (refl, sym (append-nil a.out.tokens)) };

    ghost visited_append = { λ es fs a b c first second. (
      second.0 ∙ first.0,
      second.1 ∙ ap (λ ts. ts ++ flat_map event_tokens fs) first.1
          ∙ append_assoc a.out.tokens (flat_map event_tokens es) (flat_map event_tokens fs)
          ∙ ap (λ ts. a.out.tokens ++ ts) (sym (flat_map-append event_tokens es fs)),
    ) };

    ghost stopped_later = { λ es fs a b e c first last. last ∙ first.0 };
}
