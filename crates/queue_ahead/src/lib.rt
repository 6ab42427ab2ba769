// The volume ahead of an estimate's order, worked `_under` a ceiling.
#![tactic(auto)]

ghost use Rattle.std.specs.Prelude.{◌≡◌, false, not, ◌*◌, ◌≤◌, length};
ghost use Rattle.book.specs.Memory.{memory};
ghost use Rattle.book.specs.Lending.{rows_in};
ghost use Rattle.reconstructor_segments.specs.Segments.{same_segment};
ghost use Rattle.reconstructor_state.specs.State.{ceiling, segment_of};
ghost use Rattle.queue.specs.Ahead.{ahead_entry_words};
ghost use Rattle.queue.specs.Estimates.{list_bound, list_short, tallied, list_ahead, own_ahead, anchor_ahead, volume_ahead};
ghost use Rattle.queue.specs.Numbers.{ahead_told};

use book::{LentRows, SoundRows};
use book_queue::AHEAD_ENTRY_WORDS;
use message::{L3Side, OrderId};
use queue::{Anchor, Assumption, QueueAhead, QueueError, QueueEstimate, Tally};
use queue_place::{loses_place, place_unknown, resting_since};
use queue_tally::{tally_before, tally_list};
use reconstructor_state::{BookReconstructor, Ceiling, SizeDecrease};

// The most orders of an ahead-list, whatever a call's ceiling is: above it is number 8.
pub const LIST_BOUND: usize = 4096;

// The answer that a tally gives.
fn tallied(
    rule: SizeDecrease,
    at_seq: u64,
    first: Assumption,
    own: bool,
    t: Tally,
) -> Result<QueueAhead, QueueError>
    ensures { result ≡ tallied rule at_seq first own t }
{
    if t.decreased & loses_place(rule) {
        return Err(QueueError::PriorityUnknown);
    }
    Ok(QueueAhead {
        at_seq,
        volume: t.volume,
        from_snapshot: t.from_snapshot,
        observed: t.observed,
        orders: t.orders,
        first_assumption: first,
        keeps_priority: own | t.decreased,
    })
}

// Number 8, of an ahead-list of so many words.
fn list_short(anchor: Anchor, words: usize) -> bool
    ensures { result ≡ list_short anchor words }
{
    match anchor {
        Anchor::Hypothetical { orders, .. } => {
            if orders > LIST_BOUND {
                return true;
            }
            words < AHEAD_ENTRY_WORDS * orders
        }
        Anchor::Own { .. } => false,
    }
}

// The volume ahead of an estimate with a list, once 8 and 50 are out.
fn ahead_of_list(
    rule: SizeDecrease,
    sound: SoundRows<'_>,
    ahead: &[u64],
    orders: usize,
    created_at: u64,
    last_seq: u64,
) -> Result<QueueAhead, QueueError>
    requires { (ahead_entry_words * orders ≤ length ahead.now) × (orders ≤ list_bound) }
    ensures { result ≡ list_ahead rule last_seq orders created_at ahead.now (rows_in sound.entry.rows) }
{
    let t = tally_list(sound, ahead, orders, created_at);
    tallied(
        rule,
        last_seq,
        Assumption::BackOfVisibleQueueAtCreation,
        false,
        t,
    )
}

// The volume ahead of our own order at a side and price: 52 and 51 first.
fn ahead_of_own(
    rule: SizeDecrease,
    sound: SoundRows<'_>,
    side: L3Side,
    price: u64,
    own: OrderId,
    entered_at: u64,
    last_seq: u64,
) -> Result<QueueAhead, QueueError>
    ensures { result ≡ own_ahead rule last_seq side price own entered_at (rows_in sound.entry.rows) }
{
    let Some(o) = resting_since(sound.rows, own, entered_at) else {
        return Err(QueueError::NotResting);
    };
    if place_unknown(rule, o) {
        return Err(QueueError::PriorityUnknown);
    }
    let t = tally_before(sound, side, price, own, entered_at);
    tallied(
        rule,
        last_seq,
        Assumption::EntrySequenceIsPriority,
        o.decreased != 0,
        t,
    )
}

// Whether an estimate is of another segment than the book's.
fn is_stale(book: BookReconstructor, estimate: QueueEstimate) -> bool
    ensures { result ≡ not (same_segment estimate.segment (segment_of book)) }
{
    !reconstructor_segments::same_segment(estimate.segment, book.segment_name())
}

// The volume ahead of an estimate's order, once 8 and 50 are out.
fn anchor_ahead(
    rule: SizeDecrease,
    sound: SoundRows<'_>,
    estimate: QueueEstimate,
    ahead: &[u64],
    last_seq: u64,
) -> Result<QueueAhead, QueueError>
    requires { list_short estimate.anchor (length ahead.now) ≡ false }
    ensures { result ≡ anchor_ahead rule last_seq estimate estimate.anchor ahead.now (rows_in sound.entry.rows) }
{
    let at = message::amount::size_of(estimate.price);
    match estimate.anchor {
        Anchor::Hypothetical { orders, created_at } => {
            ahead_of_list(rule, sound, ahead, orders, created_at, last_seq)
        }
        Anchor::Own {
            order_id,
            entered_at,
        } => ahead_of_own(
            rule,
            sound,
            estimate.side,
            at,
            order_id,
            entered_at,
            last_seq,
        ),
    }
}

// The volume now ahead of the estimate's order. Only the orders ahead count, each with its current size: their matches, cancels and decreases reduce it,
// and orders opened later are behind.
pub fn volume_ahead(
    book: BookReconstructor,
    rows: &[u64],
    estimate: QueueEstimate,
    ahead: &[u64],
) -> Result<QueueAhead, QueueError>
    ensures value { result ≡ volume_ahead ceiling book (memory rows.now) estimate ahead.now }
    ensures told { ahead_told result ≡ ahead_told (volume_ahead ceiling book (memory rows.now) estimate ahead.now) }
{
    volume_ahead_under(Ceiling::VENUE, book, rows, estimate, ahead)
}

pub fn volume_ahead_under(
    top: Ceiling,
    book: BookReconstructor,
    rows: &[u64],
    estimate: QueueEstimate,
    ahead: &[u64],
) -> Result<QueueAhead, QueueError>
    ensures { result ≡ volume_ahead top.limit book (memory rows.now) estimate ahead.now }
{
    let last_seq = reconstructor_view::valid_book(top, book, rows, false)?;
    if list_short(estimate.anchor, ahead.len()) {
        return Err(QueueError::AheadListShort);
    }
    if is_stale(book, estimate) {
        return Err(QueueError::StaleEstimate);
    }
    let lent = LentRows {
        words: rows,
        count: book.rows,
    };
    let sound = SoundRows { rows: lent };
    anchor_ahead(book.rules.size_decrease, sound, estimate, ahead, last_seq)
}
