// The volume ahead of an order in a book whose state is words, as `host` exports it.
#![tactic(auto)]

ghost use Rattle.std.specs.Prelude.{◌≡◌};
ghost use Rattle.host_answers.specs.Answers.{answered};
ghost use Rattle.host_estimates.specs.Estimates.{ahead_call};

use host_ahead_words::store_ahead;
use host_boundary::boundary;
use host_estimate_words::{ESTIMATE_WORDS, load_estimate};
use host_word_tests::no_estimate;
use host_words::{StateWords, load_book};

#[tactic(auto, unfolding(host_estimates::specs::Estimates::ahead_call, host_boundary::specs::Boundary::boundary))]
pub fn volume_ahead(
    state: &[u64],
    rows: &[u64],
    estimate: &[u64],
    ahead: &[u64],
    out: &mut [u64],
) -> u64
    ensures { answered result out.new ≡ ahead_call state.now rows.now estimate.now ahead.now out.old }
{
    let short = estimate.len() < ESTIMATE_WORDS;
    let stop = boundary(state, rows.len(), false, short, no_estimate(estimate));
    if stop != 0 {
        return stop;
    }
    let book = load_book(StateWords { words: state });
    let answer = queue_ahead::volume_ahead(book, rows, load_estimate(estimate), ahead);
    store_ahead(out, answer)
}
