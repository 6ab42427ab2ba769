// A run of messages applied to a book whose state and messages are words. Numbers 1, 2 and 3 are tested once.
#![tactic(auto)]

ghost use Rattle.std.specs.Prelude.{◌≡◌};
ghost use Rattle.host_apply_all_run.specs.Run.{apply_all_called};
ghost use Rattle.host_apply_all.specs.ApplyAll.{apply_all_call};

use host_apply_all_run::apply_all_with;
use host_boundary::boundary;
use host_records::RECORD_WORDS;
use host_word_tests::list_short;
use host_words::{StateWords, load_book};
use piece::MESSAGE_WORDS;
use reconstructor_state::Ceiling;

// Up to so many rows the index of a run has few places, past that many.
const FEW_ROWS: usize = 256;

// In so many most ids that do not rest find no mark, and they are cleared fast.
const FEW_PLACES: usize = 4096;

// The same of more rows.
const MANY_PLACES: usize = 65536;

// Applies the messages in turn: as many calls of `apply`, with the number of each in a word of `answers`.
pub fn apply_all(
    state: &mut [u64],
    rows: &mut [u64],
    segments: &mut [u64],
    messages: &[u64],
    answers: &mut [u64],
) -> u64
    ensures { apply_all_called result state.new rows.new segments.new answers.new ≡ apply_all_call state.old rows.old segments.old messages.now answers.old }
{
    let lent = segments.len() / RECORD_WORDS;
    let less = list_short(state, lent);
    let stop = boundary(state, rows.len(), less, false, false);
    if stop != 0 {
        return stop;
    }
    let book = load_book(StateWords { words: state });
    match reconstructor_checks::own_checks(Ceiling::VENUE, book, rows, lent) {
        Err(why) => why.number(),
        Ok(()) => {
            if answers.len() < messages.len() / MESSAGE_WORDS {
                return 7;
            }
            if book.rows <= FEW_ROWS {
                apply_all_with::<FEW_PLACES>(state, rows, segments, messages, answers);
            } else {
                apply_all_with::<MANY_PLACES>(state, rows, segments, messages, answers);
            }
            0
        }
    }
}
