//! What has a text for the writer for errors.
ghost use Rattle.std.specs.Io.KnownBytes.{Appends};
ghost use Rattle.std.specs.Prelude.{ℕ, List, OnOk};
ghost use Rattle.type_table_io.specs.Reports.{AppendsPrefix};

use std::io;
use std::io::Write;

/// What has a text for the writer for errors: a message of a run, or an error.
pub trait HasText: Drop {
    ghost text: { Self → List ℕ };

    /// Writes the text to a writer for errors. An Ok has written all of it. Does not allocate.
    ///
    /// Errors: that of a write or a flush that fails; then a prefix was written.
    fn write_text<F: Write>(&self, errors: &mut F) -> io::Result<()>
        ensures line { AppendsPrefix (F.contents errors.old) (F.contents errors.new)
            (text self.now) }
        ensures whole { OnOk result (Appends (F.contents errors.old) (F.contents errors.new)
            (text self.now)) };
}
