// What the words of a message's call and of a step are turned away for, as a number, or 0.
#![tactic(auto)]

ghost use Rattle.std.specs.Prelude.{◌≡◌, ◌||◌, ltb, length, get_or};
ghost use Rattle.book.specs.Memory.{extent};
ghost use Rattle.piece.specs.Words.{message_words};
ghost use Rattle.host_handshake.specs.HandshakeWords.{handshake_words};
ghost use Rattle.host_word_tests.specs.WordTests.{no_handshake};
ghost use Rattle.host_message_tests.specs.MessageTests.{no_message};
ghost use Rattle.host_boundary.specs.Boundary.{boundary};

use host_boundary::boundary;
use host_handshake::HANDSHAKE_WORDS;
use host_message_tests::no_message;
use host_word_tests::{list_short, no_handshake};
use piece::MESSAGE_WORDS;

// Of a call with so many words of rows and so many segment records.
pub fn apply_boundary(state: &[u64], rows: usize, lent: usize, message: &[u64]) -> u64
    ensures { result ≡ boundary state.now (extent rows) (ltb lent (get_or state.now 14 0)) (ltb (length message.now) message_words) (no_message message.now) }
{
    let less = list_short(state, lent);
    let wrong = no_message(message);
    boundary(state, rows, less, message.len() < MESSAGE_WORDS, wrong)
}

// The same of a step, which is lent a handshake too.
pub fn step_boundary(
    state: &[u64],
    rows: usize,
    lent: usize,
    handshake: &[u64],
    message: &[u64],
) -> u64
    ensures { result ≡ boundary state.now (extent rows) (ltb lent (get_or state.now 14 0)) (ltb (length handshake.now) handshake_words || ltb (length message.now) message_words) (no_handshake handshake.now || no_message message.now) }
{
    let less = list_short(state, lent);
    let short = (handshake.len() < HANDSHAKE_WORDS) | (message.len() < MESSAGE_WORDS);
    let wrong = no_handshake(handshake) | no_message(message);
    boundary(state, rows, less, short, wrong)
}
