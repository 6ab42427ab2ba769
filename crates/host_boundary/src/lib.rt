// What the words of an exported call are turned away for before the rules are worked: 768, 4, and 3 of a state block that is no book's. specs/Boundary.antt says when.
#![tactic(auto)]

ghost use Rattle.book.specs.Memory.{extent};
ghost use Rattle.std.specs.Prelude.{◌≡◌};
ghost use Rattle.host_boundary.specs.Boundary.{no_book_number, boundary, own_boundary};

use host_word_tests::no_book;
use host_words::{STATE_WORDS, StateWords, load_rules};
use reconstructor_state::{Ceiling, VenueRules};

// An input of fixed size is lent shorter than it is.
pub const SHORT_INPUT: u64 = 768;

#[tactic(auto, unfolding(crate::specs::Boundary::no_book_number))]
fn no_book_number(top: Ceiling, rules: VenueRules, rows: usize, less: bool) -> u64
    ensures { result ≡ no_book_number top.limit rules (extent rows) less }
{
    if reconstructor_checks::over_ceiling(top.limit, rules) {
        return 1;
    }
    if (rows < book::ROW_WORDS * rules.max_orders) | less {
        return 2;
    }
    3
}

// The number that a call with so many words of rows is turned away with, or 0. `less` says that its list or scratch is too short, `short` and `wrong` that its other
// inputs are too short or are those of no value.
#[tactic(auto, unfolding(crate::specs::Boundary::boundary))]
pub fn boundary(state: &[u64], rows: usize, less: bool, short: bool, wrong: bool) -> u64
    ensures { result ≡ boundary state.now (extent rows) less short wrong }
{
    if (state.len() < STATE_WORDS) | short {
        return SHORT_INPUT;
    }
    if wrong {
        return 4;
    }
    if !no_book(state) {
        return 0;
    }
    let rules = load_rules(StateWords { words: state });
    no_book_number(Ceiling::VENUE, rules, rows, less)
}

// The same of a call that is lent the state alone.
#[tactic(auto, unfolding(crate::specs::Boundary::own_boundary))]
pub fn own_boundary(state: &[u64]) -> u64
    ensures { result ≡ own_boundary state.now }
{
    if state.len() < STATE_WORDS {
        return SHORT_INPUT;
    }
    if no_book(state) {
        return 3;
    }
    0
}
