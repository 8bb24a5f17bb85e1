//! Reporters: what takes the messages of a run.
ghost use Rattle.std.specs.Prelude.{◌≡◌, ℕ, List};
ghost use Rattle.type_reader_io.specs.Reports.{kept_text};
ghost use Rattle.type_table_io.specs.Reports.{AppendsPrefix};

use std::io::Write;
use type_table_io::report::report_message;
use type_table_io::text::HasText;

/// What takes the messages of a run.
///
/// `reported` says what a reporter is after it was given a text, by what it was before. Where a
/// reporter takes all that it is given, `reported` says so, and a run ends with it.
///
/// For example, [`Kept`] keeps the message.
pub trait Reporter<M: HasText> {
    ghost reported: { Self → Self → List ℕ → Type 0 };

    /// Takes the message, or its text.
    fn report(&mut self, message: M)
        ensures { reported self.old self.new (M.text message) };
}

/// A reporter that keeps the message, and so takes all that it is given. Does not allocate.
///
/// For example, after a run without arguments, which returns 2, with `Kept { message: None }` as
/// the reporter, `message` is `Some(Message::Usage)`.
#[derive(Drop, Debug)]
pub struct Kept<M> {
    /// The last message that was given, if there was one.
    pub message: Option<M>,
}

impl<M: HasText> Reporter<M> for Kept<M> {
    ghost reported = { λ old new text. kept_text M.text new.message ≡ text };

    fn report(&mut self, message: M) {
        self.message = Some(message);
    }
}

/// The writer for errors as a reporter: the text of a message is written to it.
#[derive(Drop)]
pub struct ErrorWriter<'a, F> {
    /// The writer.
    pub errors: &'a mut F,
}

impl<F: Write, M: HasText> Reporter<M> for ErrorWriter<'_, F> {
    ghost reported = { λ old new text. (new.errors.ghost_name ≡ old.errors.ghost_name)
        × AppendsPrefix (F.contents old.errors.now) (F.contents new.errors.now) text };

    /// A text that can't be written is left out, or a prefix of it is written.
    fn report(&mut self, message: M) {
        let _ = report_message(self.errors, &message);
    }
}
