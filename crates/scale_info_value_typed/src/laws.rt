//! Laws of errors of typed values. Nothing here does any work when it runs.
ghost use Rattle.std.specs.Prelude.{◌≡◌, ◌↔◌, IsTrue};
ghost use Rattle.scale_info_value_typed.specs.declared.error.ConvertError as convert_errors;
ghost use Rattle.scale_info_value_typed.specs.declared.error.DecodeAsError as decode_errors;
ghost use Rattle.scale_info_value_typed.specs.declared.error.EncodeAsError as encode_errors;

use crate::error::{ConvertError, DecodeAsError, EncodeAsError};
use scale_info_value_encode::laws::equal_encode_errors;

/// Errors of conversions are equal exactly where they are one value.
pub fn equal_convert_errors()
    ensures { (a b : convert_errors.ConvertError)
        → IsTrue (⟦<ConvertError as PartialEq>⟧.eq a b) ↔ (a ≡ b) }
{}

/// Errors of decoding as a program's type are equal exactly where they are one value.
pub fn equal_decode_as_errors()
    ensures { (a b : decode_errors.DecodeAsError)
        → IsTrue (⟦<DecodeAsError as PartialEq>⟧.eq a b) ↔ (a ≡ b) }
{}

/// Errors of encoding a value of a program's type are equal exactly where they are one value.
pub fn equal_encode_as_errors()
    ensures { (a b : encode_errors.EncodeAsError)
        → IsTrue (⟦<EncodeAsError as PartialEq>⟧.eq a b) ↔ (a ≡ b) }
{
    equal_encode_errors();
}
