// The estimate for an order created now, worked `_under` a ceiling.
#![tactic(auto)]

ghost use Rattle.std.specs.Prelude.{◌≡◌};
ghost use Rattle.book.specs.Memory.{memory};
ghost use Rattle.reconstructor_state.specs.State.{ceiling};
ghost use Rattle.queue.specs.Estimates.{estimate_leaves, queue_estimate};
ghost use Rattle.queue.specs.Numbers.{estimate_told};

use book::LentRows;
use book_queue::{AHEAD_ENTRY_WORDS, EntryForm};
use message::L3Side;
use queue::{Anchor, QueueError, QueueEstimate};
use reconstructor_state::{BookReconstructor, Ceiling};

// A hypothetical order of `side` at `price` created at the current sequence, behind every order resting there now. They are listed in `ahead`.
pub fn queue_estimate(
    book: BookReconstructor,
    rows: &[u64],
    side: L3Side,
    price: i64,
    ahead: &mut [u64],
) -> Result<QueueEstimate, QueueError>
    ensures ahead_after { estimate_leaves result ahead.new ≡ queue_estimate ceiling book (memory rows.now) side price ahead.old }
    ensures told { estimate_told result ≡ estimate_told (queue_estimate ceiling book (memory rows.now) side price ahead.old).answer }
{
    queue_estimate_under(Ceiling::VENUE, book, rows, side, price, ahead)
}

pub fn queue_estimate_under(
    top: Ceiling,
    book: BookReconstructor,
    rows: &[u64],
    side: L3Side,
    price: i64,
    ahead: &mut [u64],
) -> Result<QueueEstimate, QueueError>
    ensures { estimate_leaves result ahead.new ≡ queue_estimate top.limit book (memory rows.now) side price ahead.old }
{
    let at = message::amount::size_of(price);
    let last_seq = reconstructor_view::valid_book(top, book, rows, false)?;
    let lent = LentRows {
        words: rows,
        count: book.rows,
    };
    let orders = book_orders::order_count(lent, side, at);
    if ahead.len() < AHEAD_ENTRY_WORDS * orders {
        return Err(QueueError::OutputTooSmall);
    }
    book_orders::write_orders(lent, side, at, EntryForm::Ahead, ahead);
    Ok(QueueEstimate {
        side,
        price,
        segment: book.segment_name(),
        anchor: Anchor::Hypothetical {
            orders,
            created_at: last_seq,
        },
    })
}
