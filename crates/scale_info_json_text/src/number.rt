//! Numbers of a text.
ghost use Rattle.std.specs.Prelude.{◌≡◌, ◌==◌, ◌<◌, slice_index, length, IsTrue, IfOk, IfErr};
ghost use Rattle.std.specs.Prelude.{OnOk, option_map, Some, None, true, false};
ghost use Rattle.serde_json.specs.Find.{as_u64};
ghost use Rattle.serde_json.specs.Read.{number_of, number_from, float_of};
ghost use Rattle.scale_info_json_text.specs.Readings.{IfSyntax};

use crate::stop::Stop;
use fast_float::Numeral;

/// Whether a number begins with a minus sign.
fn has_minus(bytes: &[u8]) -> bool
    ensures value { result ≡ (slice_index bytes.now 0 == 45) }
    ensures some { IsTrue result → 0 < length bytes.now }
{
    !bytes.is_empty() && bytes[0] == b'-'
}

/// Finds that a number is not too large for a float.
///
/// Errors: `Syntax`, where it is.
fn require_finite(is_negative: bool, numeral: &Numeral<'_>) -> Result<(), Stop>
    ensures ok { OnOk result (option_map as_u64 (float_of is_negative numeral.now) ≡ Some None) }
    ensures syntax { IfErr result (IfSyntax (float_of is_negative numeral.now ≡ None)) }
{
    if numeral.to_float::<f64>(is_negative).is_finite() {
        Ok(())
    } else {
        Err(Stop::Syntax)
    }
}

/// The integer that a number without a sign is, below 2^64; None where it is none.
///
/// Errors: `Syntax`, where it is too large for a float.
fn positive(numeral: &Numeral<'_>) -> Result<Option<u64>, Stop>
    ensures ok { IfOk result (λ n. option_map as_u64 (number_from false numeral.now) ≡ Some n) }
    ensures syntax { IfErr result (IfSyntax (number_from false numeral.now ≡ None)) }
{
    if let Some(number) = numeral.to_u64() {
        return Ok(Some(number));
    }
    require_finite(false, numeral)?;
    Ok(None)
}

/// Finds that a number after a minus sign is not too large for a float.
///
/// Errors: `Syntax`, where it is.
fn negative(numeral: &Numeral<'_>) -> Result<(), Stop>
    ensures ok { OnOk result (option_map as_u64 (number_from true numeral.now) ≡ Some None) }
    ensures syntax { IfErr result (IfSyntax (number_from true numeral.now ≡ None)) }
{
    if let Some(number) = numeral.to_i64(true) {
        if number < 0 {
            return Ok(());
        }
    }
    require_finite(true, numeral)
}

/// The integer that the text of a number is, from 0 to below 2^64; None where it is another
/// number.
///
/// Errors: `Syntax`, where the number is too large for a float.
pub fn unsigned(text: &str) -> Result<Option<u64>, Stop>
    ensures ok { IfOk result (λ n. option_map as_u64 (number_of text.now) ≡ Some n) }
    ensures syntax { IfErr result (IfSyntax (number_of text.now ≡ None)) }
{
    let bytes = text.as_bytes();
    if has_minus(bytes) {
        negative(&Numeral::scan(&bytes[1..]))?;
        return Ok(None);
    }
    positive(&Numeral::scan(bytes))
}
