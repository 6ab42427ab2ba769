// A handshake stepped where the state, the handshake, the message and the segment list are words: the call that `host` exports. It does on words what
// `Handshake::step` does on a slice of records, by the same work.
#![tactic(auto)]

ghost use Rattle.std.specs.Prelude.{◌≡◌};
ghost use Rattle.host_calls.specs.Calls.{step_called, step_call};

use host_call_boundaries::step_boundary;
use host_handshake::{load_handshake, step_sets_status, store_handshake};
use host_messages::{MessageWords, load_message};
use host_records::{RECORD_WORDS, last_record};
use host_records_store::rewrite_record;
use host_words::{StateWords, load_book};
use host_words_store::store_book;

pub fn step(
    state: &mut [u64],
    rows: &mut [u64],
    segments: &mut [u64],
    handshake: &mut [u64],
    message: &[u64],
) -> u64
    ensures { step_called result state.new rows.new segments.new handshake.new ≡ step_call state.old rows.old segments.old handshake.old message.now }
{
    let lent = segments.len() / RECORD_WORDS;
    let stop = step_boundary(state, rows.len(), lent, handshake, message);
    if stop != 0 {
        return stop;
    }
    let book = load_book(StateWords { words: state });
    let count = book.segments;
    let last = last_record(segments, count);
    let hands = load_handshake(handshake);
    let message = load_message(MessageWords { words: message });
    let work = hands.step_by_value(book, rows, lent, last, message);
    rewrite_record(segments, count, work.segment);
    store_book(state, work.book, step_sets_status(work.answer));
    store_handshake(handshake, work.handshake);
    work.answer.number()
}
