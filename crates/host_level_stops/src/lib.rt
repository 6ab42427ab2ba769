// A level read of a book whose state is words: the steps that every exported one takes. specs/Stops.antt says what each comes to.
#![tactic(auto)]

ghost use Rattle.std.specs.Prelude.{ℕ, ◌≡◌, ◌≢◌, ◌<◌, ltb, length};
ghost use Rattle.piece.specs.Piece.{side_of};
ghost use Rattle.reconstructor_reads.specs.Numbers.{level_told};
ghost use Rattle.host_words.specs.Block.{book_of};
ghost use Rattle.host_answers.specs.Answers.{answered, told_in};
ghost use Rattle.host_answers.specs.Stores.{StoresAt};
ghost use Rattle.host_level_stops.specs.Reads.{ReadsAt};
ghost use Rattle.host_level_stops.specs.Stops.{level_called, level_boundary, level_stop};

use host_answers::unwritten;
use host_answers_levels::store_level;
use host_boundary::boundary;
use host_word_tests::{no_bit, scratch_short};
use host_words::{StateWords, load_book, load_side};
use message::L3Side;
use reconstructor_reads::LevelError;
use reconstructor_state::BookReconstructor;

// What the words are turned away for comes first. Then, without a word for the number of entries, what `unwritten` tells of the book, its rows and whether its scratch is too
// short; and with one, what `read` answers, by `store`.
pub fn level_call<A, U, R, S>(
    state: &[u64],
    rows: &[u64],
    scratch: &mut [u64],
    side: u64,
    out: &mut [u64],
    count: &mut [u64],
    unwritten: U,
    read: R,
    store: S,
) -> u64
where
    U: FnOnce(BookReconstructor, &[u64], bool) -> u64,
    R: FnOnce(BookReconstructor, &[u64], &mut [u64], L3Side, &mut [u64]) -> A,
    S: FnOnce(&mut [u64], A) -> u64,
    requires untold { U.IsAlwaysCallable unwritten }
    requires reads { R.IsAlwaysCallable read }
    requires stores { S.IsAlwaysCallable store }
    ensures turned { let turned = level_boundary state.now rows.now (length scratch.old) side in turned ≢ 0 → level_called result scratch.new out.new count.new ≡ level_called turned scratch.old out.old count.old }
    ensures uncounted { level_boundary state.now rows.now (length scratch.old) side ≡ 0 → length count.old ≡ 0 → U.post unwritten (book_of state.now) rows.entry (ltb (length scratch.old) (book_of state.now).rules.max_orders) result × (level_called result scratch.new out.new count.new ≡ level_called result scratch.old out.old count.old) }
    ensures counted { level_boundary state.now rows.now (length scratch.old) side ≡ 0 → 0 < length count.old → (answer : A) × ReadsAt R.FnOnce read (book_of state.now) rows.now scratch.old (side_of side) out.old answer scratch.new out.new × StoresAt S.FnOnce store count.old answer result count.new }
{
    let less = scratch_short(state, scratch.len());
    let stop = boundary(state, rows.len(), less, false, no_bit(side));
    if stop != 0 {
        return stop;
    }
    let book = load_book(StateWords { words: state });
    if count.is_empty() {
        return unwritten(book, rows, less);
    }
    let answer = read(book, rows, scratch, load_side(side), out);
    store(count, answer)
}

// The same of a read of a valid book.
pub fn level_read<R>(
    state: &[u64],
    rows: &[u64],
    scratch: &mut [u64],
    side: u64,
    out: &mut [u64],
    count: &mut [u64],
    read: R,
) -> u64
where
    R: FnOnce(
        BookReconstructor,
        &[u64],
        &mut [u64],
        L3Side,
        &mut [u64],
    ) -> Result<usize, LevelError>,
    requires { R.IsAlwaysCallable read }
    ensures stopped { let stop = level_stop state.now rows.now (length scratch.old) side (length count.old) in stop ≢ 0 → level_called result scratch.new out.new count.new ≡ level_called stop scratch.old out.old count.old }
    ensures counted { level_stop state.now rows.now (length scratch.old) side (length count.old) ≡ 0 → (answer : _) × ReadsAt R.FnOnce read (book_of state.now) rows.now scratch.old (side_of side) out.old answer scratch.new out.new × (answered result count.new ≡ told_in (level_told answer) count.old) }
{
    level_call(
        state,
        rows,
        scratch,
        side,
        out,
        count,
        unwritten,
        read,
        store_level,
    )
}
