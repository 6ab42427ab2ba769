// A message of a run, applied to a book whose state and messages are words, with an index of the rows.
#![tactic(auto)]

ghost use Rattle.std.specs.Prelude.{◌≡◌, false, ◌≤◌, length};
ghost use Rattle.piece.specs.Words.{message_words};
ghost use Rattle.host_message_tests.specs.MessageTests.{no_message};
ghost use Rattle.host_calls.specs.Calls.{called, apply_call};
ghost use Rattle.host_apply_all_message.specs.Runs.{Runs};

use book_index::Bounds;
use host_message_tests::no_message;
use host_messages::{MessageWords, load_message};
use host_records::last_record;
use host_records_store::rewrite_record;
use host_words::{StateWords, load_book};
use host_words_store::{sets_status, store_book};
use reconstructor_answers::answer_number;
use reconstructor_apply_run::apply_in_run;

// The next message of the run, whose words are those of one. The answer is its number; the bounds go on to hold the rows.
fn apply_message(
    state: &mut [u64],
    rows: &mut [u64],
    segments: &mut [u64],
    places: &mut [u16],
    bounds: &mut Option<Bounds>,
    message: &[u64],
) -> u64
    requires runs_2 { Runs state.old rows.old segments.old places.old bounds.old }
    requires message_words_in_bounds { message_words ≤ length message.now }
    requires message_value { no_message message.now ≡ false }
    ensures applies { called result state.new rows.new segments.new ≡ apply_call state.old rows.old segments.old message.now }
    ensures runs { Runs state.new rows.new segments.new places.new bounds.new }
{
    let book = load_book(StateWords { words: state });
    let message = load_message(MessageWords { words: message });
    let count = book.segments;
    let last = last_record(segments, count);
    let run = apply_in_run(book, rows, last, places, *bounds, message);
    rewrite_record(segments, count, run.work.segment);
    let answer = run.work.answer;
    store_book(state, run.work.book, sets_status(answer));
    *bounds = run.bounds;
    answer_number(answer)
}

// The next message of the run: 4, and nothing changed, where its words are those of no message.
pub fn apply_next(
    state: &mut [u64],
    rows: &mut [u64],
    segments: &mut [u64],
    places: &mut [u16],
    bounds: &mut Option<Bounds>,
    message: &[u64],
) -> u64
    requires runs_2 { Runs state.old rows.old segments.old places.old bounds.old }
    requires message_words_in_bounds { message_words ≤ length message.now }
    ensures applies { called result state.new rows.new segments.new ≡ apply_call state.old rows.old segments.old message.now }
    ensures runs { Runs state.new rows.new segments.new places.new bounds.new }
{
    if no_message(message) {
        return 4;
    }
    apply_message(state, rows, segments, places, bounds, message)
}
