// The estimate of an own order in a book whose state is words, as `host` exports it.
#![tactic(auto)]

ghost use Rattle.std.specs.Prelude.{◌≡◌};
ghost use Rattle.host_answers.specs.Answers.{answered};
ghost use Rattle.host_estimates.specs.Estimates.{own_call};

use host_boundary::boundary;
use host_estimate_words::store_estimate;
use host_words::{StateWords, load_book};
use message::OrderId;

#[tactic(auto, unfolding(host_estimates::specs::Estimates::own_call, host_boundary::specs::Boundary::boundary))]
pub fn queue_estimate_own(
    state: &[u64],
    rows: &[u64],
    id_high: u64,
    id_low: u64,
    estimate: &mut [u64],
) -> u64
    ensures { answered result estimate.new ≡ own_call state.now rows.now id_high id_low estimate.old }
{
    let stop = boundary(state, rows.len(), false, false, false);
    if stop != 0 {
        return stop;
    }
    let id = OrderId {
        high: id_high,
        low: id_low,
    };
    let book = load_book(StateWords { words: state });
    let answer = queue_estimates_own::queue_estimate_own(book, rows, id);
    store_estimate(estimate, answer)
}
