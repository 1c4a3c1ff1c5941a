//! Numbers as text.
ghost use Rattle.std.specs.Prelude.{◌≡◌, ◌++◌, decimal, OnOk, OnErr};

use crate::Bytes;
use std::alloc::AllocError;

/// Puts a number in decimal digits at the end. An allocation failure leaves the list unchanged.
pub fn put_decimal(out: &mut Bytes, number: u64) -> Result<(), AllocError>
    ensures ok { OnOk result (out.new ≡ out.old ++ decimal number) }
    ensures err { OnErr result (out.new ≡ out.old) }
{
    let mut digits = [0; 20];
    let mut left = number;
    let mut at = 20;
    while left > 9 {
        at -= 1;
        digits[at] = b'0' + (left % 10) as u8;
        left /= 10;
    }
    at -= 1;
    digits[at] = b'0' + left as u8;
    out.append(&digits[at..])
}
