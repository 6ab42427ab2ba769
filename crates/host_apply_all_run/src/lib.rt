// A run of messages, one after the other, on a book that has passed 1, 2 and 3: an index of the rows serves the whole run.
#![tactic(auto)]

ghost use Rattle.std.specs.Prelude.{◌≡◌, ◌≤◌, length};
ghost use Rattle.host_apply_all_message.specs.Runs.{Runs};
ghost use Rattle.host_apply_all_run.specs.Run.{run, count_of, apply_all_called, after_run, Ready};

use book::LentRows;
use book_index::Bounds;
use host_apply_all_message::apply_next;
use host_words::{StateWords, load_book};
use piece::MESSAGE_WORDS;

// The run, from an index of the rows on.
fn apply_all_from(
    state: &mut [u64],
    rows: &mut [u64],
    segments: &mut [u64],
    messages: &[u64],
    answers: &mut [u64],
    places: &mut [u16],
    mut bounds: Option<Bounds>,
)
    requires runs { Runs state.old rows.old segments.old places.old bounds }
    requires messages_in_bounds { count_of messages.now ≤ length answers.old }
    ensures { apply_all_called 0 state.new rows.new segments.new answers.new ≡ after_run answers.old (run (count_of messages.now) state.old rows.old segments.old messages.now) }
{
    let count = messages.len() / MESSAGE_WORDS;
    for i in 0..count {
        let at = MESSAGE_WORDS * i;
        answers[i] = apply_next(state, rows, segments, places, &mut bounds, &messages[at..]);
    }
}

// The run, with memory of its own for an index of the rows: few places where few rows ask for no more, since they are cleared at each call.
pub fn apply_all_with<const PLACES: usize>(
    state: &mut [u64],
    rows: &mut [u64],
    segments: &mut [u64],
    messages: &[u64],
    answers: &mut [u64],
)
    requires ready { Ready state.old rows.old segments.old messages.now answers.old }
    requires places_in_bounds { PLACES ≤ 65536 }
    ensures { apply_all_called 0 state.new rows.new segments.new answers.new ≡ after_run answers.old (run (count_of messages.now) state.old rows.old segments.old messages.now) }
{
    let lent = LentRows {
        words: rows,
        count: load_book(StateWords { words: state }).rows,
    };
    let mut places = [0u16; PLACES];
    book_index_upkeep::mark_rows(lent, &mut places);
    let bounds = Some(book_index_upkeep::bounds_of(lent));
    apply_all_from(
        state,
        rows,
        segments,
        messages,
        answers,
        &mut places,
        bounds,
    )
}
