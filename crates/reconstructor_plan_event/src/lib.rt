// The plan of an event, whatever its kind.
#![tactic(auto)]

ghost use Rattle.reconstructor_plan.specs.Plans.{Ready, Plans};

use book_index::IndexedRows;
use message::{ChangeFields, L3Event};
use reconstructor_answers::Discrepancy;
use reconstructor_counts::Counter;
use reconstructor_plan::Plan;
use reconstructor_plan_changes::plan_change;
use reconstructor_plan_matches::plan_match;
use reconstructor_plan_orders::{plan_done, plan_open};
use reconstructor_state::VenueRules;

// Checks an event against the rows and finds its effect, changing nothing.
pub fn plan_event(
    rules: VenueRules,
    index: IndexedRows<'_>,
    seq: u64,
    event: L3Event,
) -> Result<Plan, Discrepancy>
    requires { Ready index.rows.words.now index.rows.count rules.max_orders }
    ensures { Plans rules index.entry.rows.words.now index.entry.rows.count seq event result }
{
    match event {
        L3Event::Received { .. } => Ok(Plan::NoEffect(Counter::Received)),
        L3Event::Open {
            order_id,
            side,
            price,
            remaining,
        } => plan_open(rules, index, seq, order_id, side, price, remaining),
        L3Event::Done {
            order_id,
            side,
            price,
            reason,
            remaining,
        } => plan_done(index, order_id, side, price, reason, remaining),
        L3Event::Match {
            maker_id,
            taker_id,
            side,
            price,
            size,
        } => plan_match(index, maker_id, taker_id, side, price, size),
        L3Event::Change {
            order_id,
            side,
            reason,
            price,
            old_size,
            new_size,
            old_price,
            new_price,
            new_funds,
        } => {
            let fields = ChangeFields {
                price,
                old_size,
                new_size,
                old_price,
                new_price,
                new_funds,
            };
            plan_change(index, seq, order_id, side, reason, fields)
        }
        L3Event::Unsupported { .. } => Err(Discrepancy::UnsupportedInput),
    }
}
