// A message's values as words: kind, reasons, optional amounts.
#![tactic(auto)]

ghost use Rattle.std.specs.Prelude.{◌≡◌};
ghost use Rattle.piece.specs.Encode.{kind_byte, done_reason_byte, change_reason_byte, present_bit, optional_word};

use host_words::bits;
use message::{ChangeReason, DoneReason, L3Event};

pub fn optional_bits(amount: Option<i64>) -> u64
    ensures { result ≡ optional_word amount }
{
    match amount {
        None => 0,
        Some(a) => bits(a),
    }
}

pub fn is_present(amount: Option<i64>) -> u64
    ensures { result ≡ present_bit amount }
{
    match amount {
        None => 0,
        Some(_) => 1,
    }
}

pub fn done_reason_word(reason: DoneReason) -> u64
    ensures { result ≡ done_reason_byte reason }
{
    match reason {
        DoneReason::Filled => 0,
        DoneReason::Canceled => 1,
    }
}

pub fn change_reason_word(reason: ChangeReason) -> u64
    ensures { result ≡ change_reason_byte reason }
{
    match reason {
        ChangeReason::Stp => 0,
        ChangeReason::ModifyOrder => 1,
    }
}

pub fn kind_word(event: L3Event) -> u64
    ensures { result ≡ kind_byte event }
{
    match event {
        L3Event::Received { .. } => 1,
        L3Event::Open { .. } => 2,
        L3Event::Done { .. } => 3,
        L3Event::Match { .. } => 4,
        L3Event::Change { .. } => 5,
        L3Event::Unsupported { .. } => 6,
    }
}
