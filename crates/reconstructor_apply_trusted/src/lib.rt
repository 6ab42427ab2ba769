// `apply` of a state that passes 1, 2 and 3, with an index of its rows or without.
#![tactic(auto)]

ghost use Rattle.std.specs.Prelude.{◌≡◌};
ghost use Rattle.book.specs.Rows.{most_rows, rows_of};
ghost use Rattle.book.specs.Memory.{memory};
ghost use Rattle.book_index.specs.Index.{Indexed};
ghost use Rattle.reconstructor_checks.specs.StateChecks.{Trusted};
ghost use Rattle.reconstructor_plan.specs.Plans.{Ready};
ghost use Rattle.reconstructor.specs.Applied.{worked};
ghost use Rattle.reconstructor.specs.Inner.{trusted_to};

use book_index::Bounds;
use message::L3Message;
use reconstructor::Work;
use reconstructor_apply_parts::{admit, next_segment, refused, work_of};
use reconstructor_segments::Segment;
use reconstructor_state::BookReconstructor;
use reconstructor_turn::apply_valid;

// `apply` of a state that passes 1, 2 and 3, without testing them again, with an index of its rows and the last segment's record by value. It leaves such a
// state (`usable-kept`), and an index that foresaw the message is one of the rows afterwards (`indexed-kept`), so that a run of messages tests once.
pub fn apply_indexed(
    book: BookReconstructor,
    rows: &mut [u64],
    last: Segment,
    places: &[u16],
    bounds: Option<Bounds>,
    message: L3Message,
) -> Work
    requires ready { Ready rows.old book.rows book.rules.max_orders }
    requires indexed { Indexed places.now bounds (rows_of rows.old book.rows) }
    ensures { worked result (memory rows.new) ≡ trusted_to book (memory rows.old) last message }
{
    match admit(book, message) {
        Err(error) => work_of(refused(book, Err(error)), last),
        Ok(last_seq) => {
            let reply = apply_valid(book, rows, places, bounds, last_seq, message);
            let segment = next_segment(last, reply.answer, message.sequence, message.time_us);
            work_of(reply, segment)
        }
    }
}

// The same without an index.
pub fn apply_trusted(
    book: BookReconstructor,
    rows: &mut [u64],
    last: Segment,
    message: L3Message,
) -> Work
    requires { Trusted most_rows book (memory rows.old) }
    ensures { worked result (memory rows.new) ≡ trusted_to book (memory rows.old) last message }
{
    let places = [0u16; 0];
    apply_indexed(book, rows, last, &places, None, message)
}
