//! Integers.

ghost use Rattle.std.specs.Prelude.{◌≡◌};
ghost use Rattle.reader.specs.Class.{AreAll};
ghost use Rattle.reader.specs.Tokens.{magnitude_of_digits};

use crate::class::Class;

/// The number that digits write, or `u64::MAX` from there on.
pub(crate) fn magnitude(digits: &[u8]) -> u64
    requires { AreAll Class.Digit digits.now }
    ensures { result ≡ magnitude_of_digits digits.now }
{
    let mut magnitude = 0u64;
    for &digit in digits {
        magnitude = magnitude
            .saturating_mul(10)
            .saturating_add(u64::from(digit - b'0'));
    }
    magnitude
}
