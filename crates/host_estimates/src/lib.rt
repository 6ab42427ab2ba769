// The queue estimate of a book whose state is words, as `host` exports it. specs/Estimates.antt defines the other exported estimates too (`host_estimates_own`, `host_ahead`).
#![tactic(auto)]

ghost use Rattle.std.specs.Prelude.{◌≡◌};
ghost use Rattle.book.specs.Memory.{memory};
ghost use Rattle.reconstructor_state.specs.State.{ceiling};
ghost use Rattle.queue.specs.Estimates.{queue_estimate};
ghost use Rattle.host_estimates.specs.Estimates.{estimate_called, after_estimate, estimate_call};

use host_answers::unwritten;
use host_boundary::boundary;
use host_estimate_words::{ESTIMATE_WORDS, store_estimate};
use host_word_tests::no_bit;
use host_words::{StateWords, load_book, load_side, signed};
use message::L3Side;
use reconstructor_state::BookReconstructor;

// Without words for the estimate the list stays as it is lent too, and only a refusal goes before 7.
#[tactic(auto, unfolding(reconstructor_view::specs::ValueReads::sequence_of, queue::specs::Estimates::estimated))]
fn estimate_of(
    book: BookReconstructor,
    rows: &[u64],
    side: L3Side,
    price: i64,
    ahead: &mut [u64],
    estimate: &mut [u64],
) -> u64
    ensures { estimate_called result ahead.new estimate.new ≡ after_estimate ahead.old estimate.old (queue_estimate ceiling book (memory rows.now) side price ahead.old) }
{
    if estimate.len() < ESTIMATE_WORDS {
        return unwritten(book, rows, false);
    }
    let answer = queue_estimates::queue_estimate(book, rows, side, price, ahead);
    store_estimate(estimate, answer)
}

#[tactic(auto, unfolding(crate::specs::Estimates::estimate_call, host_boundary::specs::Boundary::boundary))]
pub fn queue_estimate(
    state: &[u64],
    rows: &[u64],
    side: u64,
    price: u64,
    ahead: &mut [u64],
    estimate: &mut [u64],
) -> u64
    ensures { estimate_called result ahead.new estimate.new ≡ estimate_call state.now rows.now side price ahead.old estimate.old }
{
    let stop = boundary(state, rows.len(), false, false, no_bit(side));
    if stop != 0 {
        return stop;
    }
    estimate_of(
        load_book(StateWords { words: state }),
        rows,
        load_side(side),
        signed(price),
        ahead,
        estimate,
    )
}
