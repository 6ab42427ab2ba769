// A state's block as a call leaves it: what is written of the state, and whether the status is. specs/Block.antt of crate `host_words` has the layout.
#![tactic(auto)]

ghost use Rattle.std.specs.Prelude.{◌≡◌, ◌≤◌, length};
ghost use Rattle.host_words.specs.Block.{state_words, status_list, rest_list, restored, sets_status};

use host_words::status_words;
use laws::put;
use reconstructor_answers::{Applied, ApplyError};
use reconstructor_state::{BookReconstructor, Status};

// Words 6 to 12.
fn status_list(status: Status) -> [u64; 7]
    ensures { result ≡ status_list status }
{
    let w = status_words(status);
    [
        w.status,
        w.last,
        w.offending,
        w.kind.number,
        w.kind.first,
        w.kind.second,
        w.kind.detail,
    ]
}

// Words 13 to 26.
fn rest_list(book: BookReconstructor) -> [u64; 14]
    ensures { result ≡ rest_list book }
{
    [
        book.rows as u64,
        book.segments as u64,
        book.counts.received,
        book.counts.open,
        book.counts.done,
        book.counts.matched,
        book.counts.stp_decrease,
        book.counts.off_book_done,
        book.counts.off_book_change,
        book.counts.noop_change,
        book.counts.handshake_dropped,
        book.counts.skipped_while_invalid,
        book.counts.wrong_product,
        book.counts.rejected_snapshots,
    ]
}

// Writes what a call may have changed of the state: a refusal, which does not set the status, leaves its words, even where a status can be written in other words.
#[tactic(auto, unfolding(host_words::specs::Block::restored))]
pub fn store_book(words: &mut [u64], book: BookReconstructor, sets: bool)
    requires { state_words ≤ length words.old }
    ensures { words.new ≡ restored words.old sets book }
{
    if sets {
        put(words, 6, &status_list(book.status));
    }
    put(words, 13, &rest_list(book));
}

// Whether `apply` sets the status with this answer.
pub fn sets_status(answer: Result<Applied, ApplyError>) -> bool
    ensures { result ≡ sets_status answer }
{
    match answer {
        Ok(_) => true,
        Err(ApplyError::Unusable(_)) => false,
        Err(ApplyError::AmountOutOfRange) => false,
        Err(ApplyError::WrongProduct) => false,
        Err(ApplyError::NotBootstrapped) => false,
        Err(ApplyError::Invalidated(_)) => true,
        Err(ApplyError::AwaitingSnapshot(_)) => false,
    }
}
