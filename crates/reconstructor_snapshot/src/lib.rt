// A snapshot's orders as rows, and its validation: 10 to 14.
#![tactic(auto)]

ghost use Rattle.std.specs.Prelude.{◌≡◌, cond, ◌+◌, ◌*◌, ◌≤◌, ltb};
ghost use Rattle.book.specs.Line.{rests, has_level};
ghost use Rattle.book.specs.Rows.{row_words, most_rows, line_of, id_of, side_of, stored, snapshot_kind, snapshot_row};
ghost use Rattle.book.specs.Lending.{rows_in};
ghost use Rattle.reconstructor_bootstrap.specs.Snapshot.{snapshot_line, line_refusal, snapshot_refusal};
ghost use Rattle.reconstructor_bootstrap.specs.Bootstrap.{validated};
ghost use Rattle.reconstructor_bootstrap.specs.Places.{side_at, entry_at, entries_from, rows_at, Room};

use book::{LentRows, Resting};
use message::{L3Side, L3Snapshot, OrderId, ProductId};
use reconstructor_bootstrap::SnapshotError;
use reconstructor_state::VenueRules;

// Bids stand before asks.
fn side_at(bids: usize, place: usize) -> L3Side
    ensures { result ≡ side_at bids place }
{
    if place < bids {
        L3Side::Buy
    } else {
        L3Side::Sell
    }
}

// The kind of a row whose order came in a snapshot.
fn snapshot_kind(side: L3Side) -> u64
    ensures { result ≡ snapshot_kind side }
{
    match side {
        L3Side::Buy => 0,
        L3Side::Sell => 1,
    }
}

// The row of the order at a place. An amount that is not positive becomes 0, which number 12 names.
fn snapshot_row(bytes: &[u8], bids: usize, place: usize, sequence: u64) -> Resting
    ensures { result ≡ snapshot_row sequence (entry_at bids bytes.now place) }
{
    let order = piece_snapshots::snapshot_order(bytes, place);
    let id = order.order_id;
    Resting {
        high: id.high,
        low: id.low,
        price: message::amount::size_of(order.price),
        remaining: message::amount::size_of(order.size),
        kind: snapshot_kind(side_at(bids, place)),
        entered_at: sequence,
        decreased: 0,
        decreased_at: 0,
    }
}

// Writes the first `n` orders as rows, and zeroes the `former` rows beyond them.
pub fn store_rows(
    rows: &mut [u64],
    former: usize,
    bytes: &[u8],
    bids: usize,
    n: usize,
    sequence: u64,
)
    requires { Room rows.old former n }
    ensures { rows.new ≡ stored rows.old former (rows_at bids bytes.now n sequence) }
{
    for i in 0..n {
        let order = snapshot_row(bytes, bids, i, sequence);
        book::set_row(rows, i, order);
    }
    for k in n..former {
        book::set_row(rows, k, Resting::default());
    }
}

// Whether a row has the id of `order`.
fn id_rests(rows: LentRows<'_>, order: Resting) -> bool
    ensures { result ≡ rests (id_of order) (line_of (rows_in rows.entry)) }
{
    let id = OrderId {
        high: order.high,
        low: order.low,
    };
    book_search::find(rows, id).is_some()
}

// How many levels `order` adds to those of the rows.
fn levels_added(rows: LentRows<'_>, order: Resting) -> usize
    ensures { (result ≡ cond (has_level (side_of order.kind) order.price (line_of (rows_in rows.entry))) 0 1) × (result ≤ 1) }
{
    if book_search::has_level(rows, book::side_of(order.kind), order.price) {
        0
    } else {
        1
    }
}

// The number of the first order that is turned away, or 13: the plain search, each order against those before it.
fn check_in_turn(rows: LentRows<'_>, max_levels: usize) -> Result<(), SnapshotError>
    ensures { result ≡ validated (line_refusal max_levels (line_of (rows_in rows.entry))) }
{
    let mut levels: usize = 0;
    for i in 0..rows.count {
        let order = rows.get(i);
        let before = LentRows {
            words: rows.words,
            count: i,
        };
        if id_rests(before, order) {
            return Err(SnapshotError::DuplicateId);
        }
        if (order.price == 0) | (order.remaining == 0) {
            return Err(SnapshotError::InvalidValue);
        }
        let added = levels_added(before, order);
        if (added == 1) & (max_levels <= levels) {
            return Err(SnapshotError::CapacityExceeded);
        }
        levels += added;
    }
    if book_prices::meet(book_prices::best_bid(rows), book_prices::best_ask(rows)) {
        return Err(SnapshotError::Crossed);
    }
    Ok(())
}

// The same: rows that number 3 does not name, which is known in expected linear time, fit; only others are searched.
fn validate_rows(rows: LentRows<'_>, max_levels: usize) -> Result<(), SnapshotError>
    ensures { result ≡ validated (line_refusal max_levels (line_of (rows_in rows.entry))) }
{
    if book_valid::rows_broken(rows.words, rows.count, max_levels) {
        return check_in_turn(rows, max_levels);
    }
    Ok(())
}

// Words of the arrays that the orders are staged in, of 128 orders, 512, and as many as a book can have: an array is cleared at each call.
const FEW_WORDS: usize = 1024;

const MORE_WORDS: usize = 4096;

const MOST_WORDS: usize = 32768;

// The orders as rows of an array of its own, of `WORDS` words.
fn validate_staged<const WORDS: usize>(
    bytes: &[u8],
    bids: usize,
    n: usize,
    max_levels: usize,
) -> Result<(), SnapshotError>
    requires { (n ≤ most_rows) × ((row_words * n ≤ WORDS) × (WORDS ≤ row_words * most_rows)) }
    ensures { result ≡ validated (line_refusal max_levels (entries_from bids bytes.now 0 n)) }
{
    let mut rows = [0u64; WORDS];
    store_rows(&mut rows, 0, bytes, bids, n, 0);
    let staged = LentRows {
        words: &rows,
        count: n,
    };
    validate_rows(staged, max_levels)
}

fn validate_orders(
    bytes: &[u8],
    bids: usize,
    n: usize,
    max_levels: usize,
) -> Result<(), SnapshotError>
    requires { n ≤ most_rows }
    ensures { result ≡ validated (line_refusal max_levels (entries_from bids bytes.now 0 n)) }
{
    if n <= FEW_WORDS / book::ROW_WORDS {
        return validate_staged::<FEW_WORDS>(bytes, bids, n, max_levels);
    }
    if n <= MORE_WORDS / book::ROW_WORDS {
        return validate_staged::<MORE_WORDS>(bytes, bids, n, max_levels);
    }
    validate_staged::<MOST_WORDS>(bytes, bids, n, max_levels)
}

// Whether the orders are more than the limit. Their sum is not formed before it is known to fit.
fn over_limit(max_orders: usize, bids: usize, asks: usize) -> bool
    ensures { result ≡ ltb max_orders (bids + asks) }
{
    if max_orders < bids {
        return true;
    }
    max_orders - bids < asks
}

// 10 to 14.
pub fn validate_snapshot(
    product: ProductId,
    rules: VenueRules,
    bytes: &[u8],
    snapshot: L3Snapshot,
) -> Result<(), SnapshotError>
    requires { rules.max_orders ≤ most_rows }
    ensures { result ≡ validated (snapshot_refusal product rules snapshot (snapshot_line snapshot bytes.now)) }
{
    if !message::same_product(snapshot.product_id, product) {
        return Err(SnapshotError::WrongProduct);
    }
    if over_limit(rules.max_orders, snapshot.bids, snapshot.asks) {
        return Err(SnapshotError::CapacityExceeded);
    }
    validate_orders(
        bytes,
        snapshot.bids,
        snapshot.bids + snapshot.asks,
        rules.max_levels,
    )
}
