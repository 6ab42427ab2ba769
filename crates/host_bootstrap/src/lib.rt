// A snapshot piece taken for a book whose state and segment list are words: the call that `host` exports. It does on words what `bootstrap` does on a slice of
// records, by the same work.
#![tactic(auto)]

ghost use Rattle.std.specs.Prelude.{◌≡◌};
ghost use Rattle.host_calls.specs.Calls.{called, bootstrap_call};

use host_boundary::boundary;
use host_records::{RECORD_WORDS, last_record};
use host_records_store::{put_record, rewrite_record};
use host_word_tests::list_short;
use host_words::{StateWords, load_book};
use host_words_store::store_book;
use reconstructor_bootstrap::snapshot_number;

pub fn bootstrap(state: &mut [u64], rows: &mut [u64], segments: &mut [u64], bytes: &[u8]) -> u64
    ensures { called result state.new rows.new segments.new ≡ bootstrap_call state.old rows.old segments.old bytes.now }
{
    let lent = segments.len() / RECORD_WORDS;
    let less = list_short(state, lent);
    let stop = boundary(state, rows.len(), less, false, false);
    if stop != 0 {
        return stop;
    }
    let book = load_book(StateWords { words: state });
    let count = book.segments;
    let last = last_record(segments, count);
    let work = reconstructor_bootstrap_work::bootstrap_by_value(book, rows, lent, last, bytes);
    rewrite_record(segments, count, work.segment);
    put_record(segments, work.at, work.started);
    let number = snapshot_number(work.answer);
    store_book(state, work.book, number == 0);
    number
}
