// `apply` of a message of a run, on a state that passes 1, 2 and 3 and with an index of its rows: the index goes on to fit the rows that the message leaves.
#![tactic(auto)]

ghost use Rattle.std.specs.Prelude.{◌≡◌};
ghost use Rattle.book.specs.Rows.{most_rows};
ghost use Rattle.book.specs.Memory.{memory, orders_of};
ghost use Rattle.book_index.specs.Index.{Indexed};
ghost use Rattle.reconstructor_checks.specs.StateChecks.{Trusted};
ghost use Rattle.reconstructor.specs.Applied.{worked};
ghost use Rattle.reconstructor.specs.Inner.{trusted_to};

use book::LentRows;
use book_index::Bounds;
use book_index_upkeep::{foresee, note};
use message::L3Message;
use reconstructor::Work;
use reconstructor_apply_trusted::apply_indexed;
use reconstructor_segments::Segment;
use reconstructor_state::BookReconstructor;

// The work of a message, and the bounds of the rows after it.
#[derive(Clone, Copy)]
pub struct RunWork {
    pub work: Work,
    pub bounds: Option<Bounds>,
}

// The bounds are made wide enough for an order that the message may add, and that order is marked.
pub fn apply_in_run(
    book: BookReconstructor,
    rows: &mut [u64],
    last: Segment,
    places: &mut [u16],
    bounds: Option<Bounds>,
    message: L3Message,
) -> RunWork
    requires trusted { Trusted most_rows book (memory rows.old) }
    requires indexed { Indexed places.old bounds (orders_of (memory rows.old) book.rows) }
    ensures applies { worked result.work (memory rows.new) ≡ trusted_to book (memory rows.old) last message }
    ensures indexes { Indexed places.new result.bounds (orders_of (memory rows.new) result.work.book.rows) }
{
    let n = book.rows;
    let lent = LentRows {
        words: rows,
        count: n,
    };
    let next = foresee(lent, bounds, message.event);
    let work = apply_indexed(book, rows, last, places, next, message);
    note(places, n, message.event);
    RunWork { work, bounds: next }
}
