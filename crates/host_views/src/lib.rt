// The reads of a valid book whose state is words, those whose answer is a value: of those that `host` exports.
#![tactic(auto)]

ghost use Rattle.std.specs.Prelude.{◌≡◌, ◌≢◌, false};
ghost use Rattle.book.specs.Memory.{memory, extent_of};
ghost use Rattle.host_words.specs.Block.{book_of};
ghost use Rattle.host_boundary.specs.Boundary.{boundary};
ghost use Rattle.host_answers.specs.Answers.{answered};
ghost use Rattle.host_answers.specs.Stores.{StoresAt};
ghost use Rattle.host_views.specs.Views.{last_call, best_call, audit_call};

use host_answers_best::{store_best, store_last};
use host_boundary::boundary;
use host_words::{StateWords, load_book};
use reconstructor_state::BookReconstructor;
use reconstructor_view::audited_number;

// What the words are turned away for, or else what `read` answers, by `store`.
fn read_and_store<A, R, S>(state: &[u64], rows: &[u64], out: &mut [u64], read: R, store: S) -> u64
where
    R: FnOnce(BookReconstructor, &[u64]) -> A,
    S: FnOnce(&mut [u64], A) -> u64,
    requires reads { R.IsAlwaysCallable read }
    requires stores { S.IsAlwaysCallable store }
    ensures turned { let turned = boundary state.now (extent_of (memory rows.now)) false false false in turned ≢ 0 → answered result out.new ≡ answered turned out.old }
    ensures stored { boundary state.now (extent_of (memory rows.now)) false false false ≡ 0 → (answer : A) × R.post read (book_of state.now) rows.entry answer × StoresAt S.FnOnce store out.old answer result out.new }
{
    let stop = boundary(state, rows.len(), false, false, false);
    if stop != 0 {
        return stop;
    }
    let answer = read(load_book(StateWords { words: state }), rows);
    store(out, answer)
}

pub fn last_sequence(state: &[u64], rows: &[u64], out: &mut [u64]) -> u64
    ensures { answered result out.new ≡ last_call state.now rows.now out.old }
{
    read_and_store(
        state,
        rows,
        out,
        reconstructor_view_valid::last_sequence,
        store_last,
    )
}

pub fn best(state: &[u64], rows: &[u64], out: &mut [u64]) -> u64
    ensures { answered result out.new ≡ best_call state.now rows.now out.old }
{
    read_and_store(state, rows, out, reconstructor_view_valid::best, store_best)
}

pub fn audit(state: &[u64], rows: &[u64]) -> u64
    ensures { result ≡ audit_call state.now rows.now }
{
    let stop = boundary(state, rows.len(), false, false, false);
    if stop != 0 {
        return stop;
    }
    let book = load_book(StateWords { words: state });
    let answer = reconstructor_view_valid::audit(book, rows);
    audited_number(answer)
}
