// The estimate for our own order, worked `_under` a ceiling.
#![tactic(auto)]

ghost use Rattle.std.specs.Prelude.{◌≡◌, ◌≤◌};
ghost use Rattle.message.specs.Values.{amount_limit};
ghost use Rattle.book.specs.Memory.{memory};
ghost use Rattle.reconstructor_state.specs.State.{ceiling};
ghost use Rattle.queue.specs.Estimates.{own_estimate, queue_estimate_own};
ghost use Rattle.queue.specs.Numbers.{estimate_told};

use book::{LentRows, Resting};
use message::OrderId;
use queue::{Anchor, QueueError, QueueEstimate};
use queue_place::{place_unknown, resting};
use reconstructor_state::{BookReconstructor, Ceiling};

// Our own order, as an estimate.
fn own_estimate(book: BookReconstructor, id: OrderId, o: Resting) -> QueueEstimate
    requires { o.price ≤ amount_limit }
    ensures { result ≡ own_estimate book id o }
{
    QueueEstimate {
        side: book::side_of(o.kind),
        price: o.price as i64,
        segment: book.segment_name(),
        anchor: Anchor::Own {
            order_id: id,
            entered_at: o.entered_at,
        },
    }
}

// Our own resting order, whose open was observed in the feed.
pub fn queue_estimate_own(
    book: BookReconstructor,
    rows: &[u64],
    order_id: OrderId,
) -> Result<QueueEstimate, QueueError>
    ensures value { result ≡ queue_estimate_own ceiling book (memory rows.now) order_id }
    ensures told { estimate_told result ≡ estimate_told (queue_estimate_own ceiling book (memory rows.now) order_id) }
{
    queue_estimate_own_under(Ceiling::VENUE, book, rows, order_id)
}

pub fn queue_estimate_own_under(
    top: Ceiling,
    book: BookReconstructor,
    rows: &[u64],
    order_id: OrderId,
) -> Result<QueueEstimate, QueueError>
    ensures { result ≡ queue_estimate_own top.limit book (memory rows.now) order_id }
{
    let rule = book.rules.size_decrease;
    let _last_seq = reconstructor_view::valid_book(top, book, rows, false)?;
    let lent = LentRows {
        words: rows,
        count: book.rows,
    };
    let Some(order) = resting(lent, order_id) else {
        return Err(QueueError::NotResting);
    };
    if place_unknown(rule, order) {
        return Err(QueueError::PriorityUnknown);
    }
    Ok(own_estimate(book, order_id, order))
}
