// The plan of a change.
#![tactic(auto)]

ghost use Rattle.std.specs.Prelude.{◌≡◌};
ghost use Rattle.book.specs.Rows.{entry_of};
ghost use Rattle.reconstructor_plan.specs.Rules.{is_modify, change_differs, reason_of};
ghost use Rattle.reconstructor_plan.specs.Plans.{PlansAt};

use book::Resting;
use book_index::IndexedRows;
use message::{ChangeFields, ChangeReason, L3Event, L3Side, OrderId};
use reconstructor_answers::{Discrepancy, MalformedReason};
use reconstructor_counts::Counter;
use reconstructor_plan::{Plan, cut_plan};

fn is_modify(reason: ChangeReason) -> bool
    ensures { result ≡ is_modify reason }
{
    match reason {
        ChangeReason::Stp => false,
        ChangeReason::ModifyOrder => true,
    }
}

// Whether a change says another side, or gives another price, old size or old price, than its order has.
fn change_differs(order: Resting, side: L3Side, fields: ChangeFields) -> bool
    ensures { result ≡ change_differs (entry_of order) side fields.price fields.old_size fields.old_price }
{
    !message::same_side(book::side_of(order.kind), side)
        | (message::amount::given_differs(fields.price, order.price)
            | (message::amount::given_differs(fields.old_size, order.remaining)
                | message::amount::given_differs(fields.old_price, order.price)))
}

fn reason_of(new_funds: Option<i64>) -> MalformedReason
    ensures { result ≡ reason_of new_funds }
{
    match new_funds {
        None => MalformedReason::NoSize,
        Some(_) => MalformedReason::Funds,
    }
}

pub fn plan_change(
    index: IndexedRows<'_>,
    seq: u64,
    order_id: OrderId,
    side: L3Side,
    reason: ChangeReason,
    fields: ChangeFields,
) -> Result<Plan, Discrepancy>
    ensures { PlansAt index.entry.rows.words.now index.entry.rows.count seq (L3Event.Change order_id side reason fields.price fields.old_size fields.new_size fields.old_price fields.new_price fields.new_funds) result }
{
    // An order that is not on the book was received and never opened, such as a market order: no visible effect.
    let Some(at) = book_index::find(index, order_id) else {
        return Ok(Plan::NoEffect(Counter::OffBookChange));
    };
    let order = index.rows.get(at);
    if is_modify(reason) {
        return Err(Discrepancy::UnsupportedModification);
    }
    if change_differs(order, side, fields) {
        return Err(Discrepancy::ChangeMismatch);
    }
    if message::amount::given_differs(fields.new_price, order.price) {
        return Err(Discrepancy::UnsupportedModification);
    }
    let Some(size) = fields.new_size else {
        return Err(Discrepancy::MalformedChange(reason_of(fields.new_funds)));
    };
    if message::amount::is_negative(size) {
        return Err(Discrepancy::InvalidValue);
    }
    let left = message::amount::size_of(size);
    if order.remaining < left {
        return Err(Discrepancy::UnsupportedModification);
    }
    if left == order.remaining {
        return Ok(Plan::NoEffect(Counter::NoopChange));
    }
    Ok(cut_plan(at, left, Some(seq), Counter::Stp))
}
