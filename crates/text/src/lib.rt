// Text in bytes, written into a slice from a place on: bytes as they are, and numbers in decimal digits, each behind a space.
#![tactic(auto)]

ghost use Rattle.std.specs.Prelude.{◌≡◌, ◌∷◌, map, ◌+◌, ◌*◌, ◌≤◌, length};
ghost use Rattle.text.specs.Decimal.{decimal, most_digits};
ghost use Rattle.text.specs.Lines.{space, spaced, most_spaced};
ghost use Rattle.text.specs.Writes.{Writes};

use itoa::Buffer;
use laws::put;

// Writes `bytes` from place `at` on, and answers the place behind them.
pub fn put_bytes(text: &mut [u8], at: usize, bytes: &[u8]) -> usize
    requires { at + length bytes.now ≤ length text.old }
    ensures { Writes text.old at bytes.now text.new result }
{
    put(text, at, bytes);
    at + bytes.len()
}

// Writes a number in decimal.
pub fn put_decimal(text: &mut [u8], at: usize, n: u64) -> usize
    requires { at + most_digits ≤ length text.old }
    ensures writes { Writes text.old at (decimal n) text.new result }
    ensures short { result ≤ at + most_digits }
{
    let mut digits = Buffer::new();
    put_bytes(text, at, digits.format(n).as_bytes())
}

// Writes a number behind a space.
pub fn put_number(text: &mut [u8], at: usize, n: u64) -> usize
    requires { at + most_spaced ≤ length text.old }
    ensures writes { Writes text.old at (space ∷ decimal n) text.new result }
    ensures short { result ≤ at + most_spaced }
{
    let digits = put_bytes(text, at, b" ");
    put_decimal(text, digits, n)
}

// Writes numbers, each behind a space.
pub fn put_numbers(text: &mut [u8], at: usize, numbers: &[u64]) -> usize
    requires { at + most_spaced * length numbers.now ≤ length text.old }
    ensures writes { Writes text.old at (spaced (map decimal numbers.now)) text.new result }
    ensures short { result ≤ at + most_spaced * length numbers.now }
{
    let mut place = at;
    for n in numbers {
        place = put_number(text, place, *n);
    }
    place
}
