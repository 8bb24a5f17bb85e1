//! Integers that texts write.
ghost use Rattle.std.specs.Prelude.{◌≡◌, ◌==◌, ◌^◌, slice_index};
ghost use Rattle.scale_info_value_json.specs.TreeParts.{decimal_in, signed_decimal_in};
ghost use Rattle.scale_info_value_json.specs.TreeParts.{below, within};

/// Whether a text begins with a plus, which is no digit, though `parse` takes it.
fn has_plus(text: &str) -> bool
    ensures { result ≡ (slice_index text.now 0 == 43) }
{
    let bytes = text.as_bytes();
    !bytes.is_empty() && bytes[0] == b'+'
}

/// The integer that a text of decimal digits writes, below 2^128; None where it writes none.
pub fn decimal(text: &str) -> Option<u128>
    ensures { result ≡ below (2 ^ 128) (decimal_in text.now) }
{
    if has_plus(text) {
        return None;
    }
    text.parse().ok()
}

/// The integer that decimal digits write, also after a minus sign, from -2^127 to 2^127 - 1; None
/// where the text writes none.
pub fn signed_decimal(text: &str) -> Option<i128>
    ensures { result ≡ within (2 ^ 127) (signed_decimal_in text.now) }
{
    if has_plus(text) {
        return None;
    }
    text.parse().ok()
}
