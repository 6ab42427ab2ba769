// Where an order stands: its row by id, and whether our own order's place is known.
#![tactic(auto)]

ghost use Rattle.std.specs.Prelude.{◌≡◌};
ghost use Rattle.book.specs.Lending.{rows_in};
ghost use Rattle.queue.specs.Ahead.{row_with, entered_at as Ahead·entered_at};
ghost use Rattle.queue.specs.Estimates.{loses_place, place_unknown};

use book::{LentRows, Resting};
use message::OrderId;
use reconstructor_state::SizeDecrease;

// Whether a decrease loses an order its place.
pub fn loses_place(rule: SizeDecrease) -> bool
    ensures { result ≡ loses_place rule }
{
    match rule {
        SizeDecrease::KeepsPriority => false,
        SizeDecrease::PriorityUnknown => true,
    }
}

// Whether our own order's place is unknown.
pub fn place_unknown(rule: SizeDecrease, o: Resting) -> bool
    ensures { result ≡ place_unknown rule o }
{
    (o.kind < 2) | ((o.decreased != 0) & loses_place(rule))
}

// The row of an id. A loop that gives the row itself: `book_search::find`, with the row then read at its place, takes a quarter longer for the entries of an
// ahead-list.
pub fn resting(rows: LentRows<'_>, id: OrderId) -> Option<Resting>
    ensures { result ≡ row_with id (rows_in rows.entry) }
{
    for i in 0..rows.count {
        let o = rows.get(i);
        if book_search::has_id(o, id) {
            return Some(o);
        }
    }
    None
}

// The row of an id, if it entered there: an id that is used again names another order.
pub fn resting_since(rows: LentRows<'_>, id: OrderId, entered_at: u64) -> Option<Resting>
    ensures { result ≡ Ahead·entered_at entered_at (row_with id (rows_in rows.entry)) }
{
    resting(rows, id).filter(|o| o.entered_at == entered_at)
}
