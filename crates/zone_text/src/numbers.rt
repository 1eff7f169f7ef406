//! Numbers as they are printed.
ghost use Rattle.std.specs.Prelude.{◌≡◌, ◌<◌, ◌≤◌, ◌+◌, ◌/◌, ◌%◌, ◌++◌, ◌∷◌, [], OnOk, decimal};
ghost use Rattle.std.specs.Io.{StartsWith};

use itoa::Buffer;
use std::alloc::AllocError;

// The digit of a place.
#[inline]
fn digit(number: u64, place: u64) -> u8
    requires { 0 < place }
    ensures { result ≡ 48 + number / place % 10 }
{
    b'0' + (number / place % 10) as u8
}

// Pushes a number of any length. It stands by itself, so that shorter ones need no buffer.
#[inline(never)]
fn push_long(out: &mut Vec<u8>, number: u64) -> Result<(), AllocError>
    ensures ok { OnOk result (out.new.items ≡ out.old.items ++ decimal number) }
    ensures kept { StartsWith out.new.items out.old.items }
{
    out.extend_from_slice(Buffer::new().format(number).as_bytes())
}

/// Pushes a number in decimal digits.
#[tactic(auto, using(crate::proofs::DecimalLemmas::one_digit, crate::proofs::DecimalLemmas::two_digits, crate::proofs::DecimalLemmas::three_digits, crate::proofs::DecimalLemmas::four_digits))]
pub fn push_decimal(out: &mut Vec<u8>, number: u64) -> Result<(), AllocError>
    ensures ok { OnOk result (out.new.items ≡ out.old.items ++ decimal number) }
    ensures kept { StartsWith out.new.items out.old.items }
{
    match number {
        0..=9 => out.extend_from_slice(&[digit(number, 1)]),
        10..=99 => out.extend_from_slice(&[digit(number, 10), digit(number, 1)]),
        100..=999 => {
            out.extend_from_slice(&[digit(number, 100), digit(number, 10), digit(number, 1)])
        }
        1000..=9999 => out.extend_from_slice(&[
            digit(number, 1000),
            digit(number, 100),
            digit(number, 10),
            digit(number, 1),
        ]),
        _ => push_long(out, number),
    }
}
