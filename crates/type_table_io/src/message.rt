//! What a run has to say.

use crate::error::RunError;

/// What a run has to say, where it did not do what it was asked to.
///
/// Each message has one line of text, which [`crate::report::report_message`] writes. For example,
/// that of `Message::Refused(RunError::Malformed)` is `type_table: malformed`, with a line feed.
#[derive(Drop, Debug)]
pub enum Message {
    /// The arguments are no command.
    Usage,
    /// The command is refused, for this error.
    Refused(RunError),
}
