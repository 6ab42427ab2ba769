// How a told answer becomes a number and words: specs/Answers.antt says what is written where, and the layouts are beside the answers' numbers.
#![tactic(auto)]

ghost use Rattle.std.specs.Prelude.{◌≡◌};
ghost use Rattle.book.specs.Memory.{memory};
ghost use Rattle.reconstructor_state.specs.State.{ceiling, last_of};
ghost use Rattle.reconstructor_view.specs.ValueReads.{view_refusal_of, sequence_of};
ghost use Rattle.reconstructor_view.specs.Numbers.{sequence_told};
ghost use Rattle.host_answers.specs.Answers.{answered, given, lastly};

use laws::put;
use reconstructor_state::{BookReconstructor, Ceiling};

// A success's values: 7, and nothing written, where they have no room.
pub fn give(out: &mut [u64], values: &[u64]) -> u64
    ensures { answered result out.new ≡ given values.now out.old }
{
    if out.len() < values.len() {
        return 7;
    }
    put(out, 0, values);
    0
}

// The number of a read of a valid book whose answer has no room: 7, unless it is turned away before. `short` says that its scratch, if any, is too short.
pub fn unwritten(book: BookReconstructor, rows: &[u64], short: bool) -> u64
    ensures { result ≡ lastly (sequence_told (sequence_of (view_refusal_of ceiling book (memory rows.now) short) (last_of book.status))).number }
{
    match reconstructor_view::valid_book(Ceiling::VENUE, book, rows, short) {
        Ok(_) => 7,
        Err(why) => why.number(),
    }
}
