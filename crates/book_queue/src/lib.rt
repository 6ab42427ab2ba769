// An order at a level as words: an entry of `level_queue`, or one of an ahead-list.
#![tactic(auto)]

ghost use Rattle.std.specs.Prelude.{◌≡◌, cond, ◌++◌, ◌+◌, ◌≤◌, ltb, length, take, drop};
ghost use Rattle.book_queue.specs.Queue.{entry_width, entry_words};

use book::Resting;

// Words of an entry of `level_queue`: id high and low, what remains, whether its open was observed and where it entered.
pub const QUEUE_WORDS: usize = 5;

// Words of an ahead-list's entry: an order's id, high and low, and where it entered.
pub const AHEAD_ENTRY_WORDS: usize = 3;

// What is written of an order: an entry of `level_queue`, or one of an ahead-list.
#[derive(Clone, Copy)]
pub enum EntryForm {
    Queue,
    Ahead,
}

// The words of an entry.
pub fn width(form: EntryForm) -> usize
    ensures { result ≡ entry_width form }
{
    match form {
        EntryForm::Queue => QUEUE_WORDS,
        EntryForm::Ahead => AHEAD_ENTRY_WORDS,
    }
}

// 1 if its open was observed, else 0.
fn observed(o: Resting) -> u64
    ensures { result ≡ cond (ltb o.kind 2) 0 1 }
{
    u64::from(o.kind >= 2)
}

// Where it entered, if that was observed, else 0.
fn observed_at(o: Resting) -> u64
    ensures { result ≡ cond (ltb o.kind 2) 0 o.entered_at }
{
    if o.kind < 2 { 0 } else { o.entered_at }
}

// Writes an entry of `level_queue` at `at`.
fn put_queue_entry(out: &mut [u64], at: usize, o: Resting)
    requires { at + entry_width EntryForm.Queue ≤ length out.old }
    ensures { out.new ≡ take at out.old ++ entry_words EntryForm.Queue o ++ drop (at + entry_width EntryForm.Queue) out.old }
{
    let words = [o.high, o.low, o.remaining, observed(o), observed_at(o)];
    out[at..at + QUEUE_WORDS].copy_from_slice(&words);
}

// Writes an entry of an ahead-list at `at`.
fn put_ahead_entry(out: &mut [u64], at: usize, o: Resting)
    requires { at + entry_width EntryForm.Ahead ≤ length out.old }
    ensures { out.new ≡ take at out.old ++ entry_words EntryForm.Ahead o ++ drop (at + entry_width EntryForm.Ahead) out.old }
{
    let words = [o.high, o.low, o.entered_at];
    out[at..at + AHEAD_ENTRY_WORDS].copy_from_slice(&words);
}

// Writes an entry at `at`.
pub fn put_entry(out: &mut [u64], at: usize, form: EntryForm, o: Resting)
    requires { at + entry_width form ≤ length out.old }
    ensures { out.new ≡ take at out.old ++ entry_words form o ++ drop (at + entry_width form) out.old }
{
    match form {
        EntryForm::Queue => put_queue_entry(out, at, o),
        EntryForm::Ahead => put_ahead_entry(out, at, o),
    }
}
