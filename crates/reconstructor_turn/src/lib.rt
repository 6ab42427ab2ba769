// A message's turn in a valid book: 20 to 44, which end the segment, or the commit step.
#![tactic(auto)]

ghost use Rattle.std.specs.Prelude.{◌≡◌};
ghost use Rattle.book.specs.Rows.{rows_of};
ghost use Rattle.book.specs.Memory.{memory};
ghost use Rattle.book_index.specs.Index.{Indexed};
ghost use Rattle.reconstructor_plan.specs.Plans.{Ready, PlanFits, plan_outcome};
ghost use Rattle.reconstructor.specs.Applied.{core, at_turn};
ghost use Rattle.reconstructor.specs.Inner.{committed};

use book_index::Bounds;
use message::L3Message;
use reconstructor::Reply;
use reconstructor_answers::Applied;
use reconstructor_counts::Counter;
use reconstructor_plan::Plan;
use reconstructor_state::BookReconstructor;
use reconstructor_turn_plan::take_turn;
use reconstructor_turn_replies::{accepted, invalidated};

// Applies a plan to the rows and the state.
fn commit(book: BookReconstructor, rows: &mut [u64], plan: Plan, seq: u64) -> Reply
    requires ready { Ready rows.old book.rows book.rules.max_orders }
    requires plan_fits { PlanFits rows.old book.rows plan }
    ensures { core result (memory rows.new) ≡ committed book rows.old seq (plan_outcome rows.old book.rows plan) }
{
    let n = book.rows;
    match plan {
        Plan::NoEffect(counter) => accepted(book, seq, n, counter, Applied::NoBookEffect),
        Plan::Insert(order) => {
            book_changes::insert(rows, n, order);
            accepted(book, seq, n + 1, Counter::Open, Applied::BookChanged)
        }
        Plan::Reduce {
            at,
            remaining,
            mark,
            counter,
        } => {
            book_changes::reduce(rows, n, at, remaining, mark);
            accepted(book, seq, n, counter, Applied::BookChanged)
        }
        Plan::Remove { at, counter } => {
            book_changes::remove(rows, n, at);
            accepted(book, seq, n - 1, counter, Applied::BookChanged)
        }
    }
}

// A message worked in a valid book whose last sequence is `last_seq`.
pub fn apply_valid(
    book: BookReconstructor,
    rows: &mut [u64],
    places: &[u16],
    bounds: Option<Bounds>,
    last_seq: u64,
    message: L3Message,
) -> Reply
    requires ready { Ready rows.old book.rows book.rules.max_orders }
    requires indexed { Indexed places.now bounds (rows_of rows.old book.rows) }
    ensures { core result (memory rows.new) ≡ at_turn book (memory rows.old) last_seq message }
{
    let seq = message.sequence;
    match take_turn(book, rows, places, bounds, last_seq, message) {
        Ok(plan) => commit(book, rows, plan, seq),
        Err(kind) => invalidated(book, last_seq, seq, kind),
    }
}
