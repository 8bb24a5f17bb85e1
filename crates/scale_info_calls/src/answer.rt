//! What a call returns, as numbers.
ghost use Rattle.std.specs.Prelude.{◌≡◌};
ghost use Rattle.scale_info_calls.specs.Statuses.{count_of, status_of};

use crate::error::CallError;

/// The status of what a call returned: 0, or that of its error; the count is written to `count`: how
/// much it gives, or the number that goes with the error.
pub fn answer(outcome: Result<usize, CallError>, count: &mut usize) -> u8
    ensures status { result ≡ status_of outcome }
    ensures count { count.new ≡ count_of outcome }
{
    match outcome {
        Ok(given) => {
            *count = given;
            0
        }
        Err(error) => {
            *count = error.count();
            error.status()
        }
    }
}
