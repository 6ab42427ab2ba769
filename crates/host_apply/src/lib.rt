// A message applied to a book whose state, message and segment list are words: the call that `host` exports. It does on words what `apply` does on a slice of
// records, by the same work.
#![tactic(auto)]

ghost use Rattle.std.specs.Prelude.{◌≡◌};
ghost use Rattle.host_calls.specs.Calls.{called, apply_call};

use host_call_boundaries::apply_boundary;
use host_messages::{MessageWords, load_message};
use host_records::{RECORD_WORDS, last_record};
use host_records_store::rewrite_record;
use host_words::{StateWords, load_book};
use host_words_store::{sets_status, store_book};
use reconstructor_answers::answer_number;

pub fn apply(state: &mut [u64], rows: &mut [u64], segments: &mut [u64], message: &[u64]) -> u64
    ensures { called result state.new rows.new segments.new ≡ apply_call state.old rows.old segments.old message.now }
{
    let lent = segments.len() / RECORD_WORDS;
    let stop = apply_boundary(state, rows.len(), lent, message);
    if stop != 0 {
        return stop;
    }
    let book = load_book(StateWords { words: state });
    let count = book.segments;
    let last = last_record(segments, count);
    let message = load_message(MessageWords { words: message });
    let work = reconstructor_apply::apply_by_value(book, rows, lent, last, message);
    rewrite_record(segments, count, work.segment);
    store_book(state, work.book, sets_status(work.answer));
    answer_number(work.answer)
}
