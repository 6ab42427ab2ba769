// What a message of a valid book will do, found before anything changes: a plan, or the discrepancy that ends the segment. Here are the rules and what a plan
// promises; crates `reconstructor_plan_orders`, `_matches`, `_changes` and `_event` find it.
#![tactic(auto)]

ghost use Rattle.std.specs.Prelude.{◌≡◌};
ghost use Rattle.reconstructor_plan.specs.Plans.{cut_plan};

use book::Resting;
use reconstructor_counts::Counter;

// What a message does to the rows, and which counter it adds to.
#[derive(Clone, Copy)]
pub enum Plan {
    NoEffect(Counter),
    // A new row, for an `open`.
    Insert(Resting),
    Reduce {
        at: usize,
        remaining: u64,
        mark: Option<u64>,
        counter: Counter,
    },
    Remove {
        at: usize,
        counter: Counter,
    },
}

// The plan of an order that has so much left: it leaves at zero.
pub fn cut_plan(at: usize, left: u64, mark: Option<u64>, counter: Counter) -> Plan
    ensures { result ≡ cut_plan at left mark counter }
{
    if left == 0 {
        return Plan::Remove { at, counter };
    }
    Plan::Reduce {
        at,
        remaining: left,
        mark,
        counter,
    }
}
