// The plan of an open and of a done.
#![tactic(auto)]

ghost use Rattle.std.specs.Prelude.{◌≡◌};
ghost use Rattle.book.specs.Rows.{line_of, entry_of, observed_row};
ghost use Rattle.book.specs.Lending.{rows_in};
ghost use Rattle.reconstructor_plan.specs.Rules.{entry_for, no_room, done_differs};
ghost use Rattle.reconstructor_plan.specs.Plans.{Ready, Plans, PlansAnywhere};

use book::{LentRows, Resting};
use book_index::IndexedRows;
use message::{DoneReason, L3Event, L3Side, OrderId};
use reconstructor_answers::Discrepancy;
use reconstructor_counts::Counter;
use reconstructor_plan::Plan;
use reconstructor_state::VenueRules;

// The row of an order that a message opens.
fn observed_row(id: OrderId, side: L3Side, price: u64, remaining: u64, seq: u64) -> Resting
    ensures { result ≡ observed_row seq (entry_for id side price remaining) }
{
    let kind = match side {
        L3Side::Buy => 2,
        L3Side::Sell => 3,
    };
    Resting {
        high: id.high,
        low: id.low,
        price,
        remaining,
        kind,
        entered_at: seq,
        decreased: 0,
        decreased_at: 0,
    }
}

// Whether the price has no level and no level may be added. There are no more levels than rows; they are counted only where that does not tell.
fn no_room(rules: VenueRules, rows: LentRows<'_>, side: L3Side, price: u64) -> bool
    ensures { result ≡ no_room rules (line_of (rows_in rows.entry)) side price }
{
    if rows.count < rules.max_levels {
        return false;
    }
    if book_search::has_level(rows, side, price) {
        return false;
    }
    book_keys::level_count(rows) >= rules.max_levels
}

pub fn plan_open(
    rules: VenueRules,
    index: IndexedRows<'_>,
    seq: u64,
    order_id: OrderId,
    side: L3Side,
    price: i64,
    remaining: i64,
) -> Result<Plan, Discrepancy>
    requires { Ready index.rows.words.now index.rows.count rules.max_orders }
    ensures { Plans rules index.entry.rows.words.now index.entry.rows.count seq (L3Event.Open order_id side price remaining) result }
{
    let None = book_index::find(index, order_id) else {
        return Err(Discrepancy::DuplicateOpen);
    };
    let p = message::amount::size_of(price);
    if p == 0 {
        return Err(Discrepancy::InvalidValue);
    }
    let q = message::amount::size_of(remaining);
    if q == 0 {
        return Err(Discrepancy::InvalidValue);
    }
    if book_index::would_cross(index, side, p) {
        return Err(Discrepancy::CrossedAfterApply);
    }
    if index.rows.count >= rules.max_orders {
        return Err(Discrepancy::CapacityExceeded);
    }
    if no_room(rules, index.rows, side, p) {
        return Err(Discrepancy::CapacityExceeded);
    }
    Ok(Plan::Insert(observed_row(order_id, side, p, q, seq)))
}

// Whether a done says another side, or gives another price, than its order has.
fn done_differs(order: Resting, side: L3Side, price: Option<i64>) -> bool
    ensures { result ≡ done_differs (entry_of order) side price }
{
    !message::same_side(book::side_of(order.kind), side)
        | message::amount::given_differs(price, order.price)
}

pub fn plan_done(
    index: IndexedRows<'_>,
    order_id: OrderId,
    side: L3Side,
    price: Option<i64>,
    reason: DoneReason,
    remaining: Option<i64>,
) -> Result<Plan, Discrepancy>
    ensures { PlansAnywhere index.entry.rows.words.now index.entry.rows.count (L3Event.Done order_id side price reason remaining) result }
{
    // An order that is not on the book was received and never opened, or is already fully matched: no visible effect.
    let Some(at) = book_index::find(index, order_id) else {
        return Ok(Plan::NoEffect(Counter::OffBookDone));
    };
    let order = index.rows.get(at);
    if done_differs(order, side, price) {
        return Err(Discrepancy::DoneMismatch);
    }
    match reason {
        // A resting order always has size: a fill would have removed it through its matches.
        DoneReason::Filled => Err(Discrepancy::MissingMatch),
        DoneReason::Canceled => {
            if message::amount::absent_or_differs(remaining, order.remaining) {
                return Err(Discrepancy::RemainingMismatch);
            }
            Ok(Plan::Remove {
                at,
                counter: Counter::Done,
            })
        }
    }
}
