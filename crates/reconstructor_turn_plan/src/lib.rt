// The turn of a message: 20, 21 and 22 of its sequence, then the plan of its event.
#![tactic(auto)]

ghost use Rattle.book.specs.Rows.{rows_of};
ghost use Rattle.book.specs.Memory.{memory, line_in};
ghost use Rattle.book_index.specs.Index.{Indexed};
ghost use Rattle.reconstructor_plan.specs.Rules.{event_deed};
ghost use Rattle.reconstructor_plan.specs.Plans.{Ready};
ghost use Rattle.reconstructor.specs.Refusals.{turn_refusal};
ghost use Rattle.reconstructor.specs.Inner.{TurnsFor};

use book::LentRows;
use book_index::{Bounds, IndexedRows};
use message::L3Message;
use reconstructor_answers::InvalidationKind;
use reconstructor_plan::Plan;
use reconstructor_state::BookReconstructor;

// The turn of a message: its sequence, then its event.
pub fn take_turn<'a>(
    book: BookReconstructor,
    rows: &'a [u64],
    places: &'a [u16],
    bounds: Option<Bounds>,
    last_seq: u64,
    message: L3Message,
) -> Result<Plan, InvalidationKind>
    requires ready { Ready rows.now book.rows book.rules.max_orders }
    requires indexed { Indexed places.now bounds (rows_of rows.now book.rows) }
    ensures { TurnsFor (turn_refusal book.rules (line_in (memory rows.now) book.rows) last_seq message) (event_deed book.rules (line_in (memory rows.now) book.rows) message.sequence message.event) rows.now book.rows result }
{
    let seq = message.sequence;
    if last_seq == u64::MAX {
        return Err(InvalidationKind::SequenceOverflow);
    }
    if seq <= last_seq {
        return Err(InvalidationKind::OutOfOrderOrDuplicate {
            last: last_seq,
            got: seq,
        });
    }
    let expected = last_seq + 1;
    if seq > expected {
        return Err(InvalidationKind::Gap { expected, got: seq });
    }
    let index = IndexedRows {
        rows: LentRows {
            words: rows,
            count: book.rows,
        },
        places,
        bounds,
    };
    match reconstructor_plan_event::plan_event(book.rules, index, seq, message.event) {
        Ok(plan) => Ok(plan),
        Err(d) => Err(InvalidationKind::Discrepancy(d)),
    }
}
