// `apply` by value: `apply_under` checks the state and what it is lent, then `apply_trusted` works the message on the last segment's record; `apply_by_value`
// has our ceiling.
#![tactic(auto)]

ghost use Rattle.std.specs.Prelude.{◌≡◌};
ghost use Rattle.book.specs.Memory.{memory};
ghost use Rattle.reconstructor_state.specs.State.{ceiling};
ghost use Rattle.reconstructor.specs.Applied.{worked, applied_to};

use message::L3Message;
use reconstructor::Work;
use reconstructor_answers::ApplyError;
use reconstructor_apply_parts::{refused, work_of};
use reconstructor_apply_trusted::apply_trusted;
use reconstructor_segments::Segment;
use reconstructor_state::{BookReconstructor, Ceiling};

// `apply` under a ceiling, with the last segment's record by value, of a list of `lent` records.
pub fn apply_under(
    top: Ceiling,
    book: BookReconstructor,
    rows: &mut [u64],
    lent: usize,
    last: Segment,
    message: L3Message,
) -> Work
    ensures { worked result (memory rows.new) ≡ applied_to top.limit book (memory rows.old) lent last message }
{
    match reconstructor_checks::own_checks(top, book, rows, lent) {
        Err(why) => work_of(refused(book, Err(ApplyError::Unusable(why))), last),
        Ok(()) => apply_trusted(book, rows, last, message),
    }
}

// Under our ceiling.
pub fn apply_by_value(
    book: BookReconstructor,
    rows: &mut [u64],
    lent: usize,
    last: Segment,
    message: L3Message,
) -> Work
    ensures { worked result (memory rows.new) ≡ applied_to ceiling book (memory rows.old) lent last message }
{
    apply_under(Ceiling::VENUE, book, rows, lent, last, message)
}
