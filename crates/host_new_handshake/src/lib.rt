// A handshake made for a book whose state is words: the call that `host` exports.
#![tactic(auto)]

ghost use Rattle.std.specs.Prelude.{◌≡◌};
ghost use Rattle.host_answers.specs.Answers.{answered};
ghost use Rattle.host_new_handshake.specs.NewHandshake.{handshake_call};

use host_boundary::own_boundary;
use host_handshake::{HANDSHAKE_WORDS, store_handshake};
use host_words::{StateWords, load_book};
use reconstructor_handshake::Handshake;

#[tactic(auto, unfolding(crate::specs::NewHandshake::handshake_call, host_boundary::specs::Boundary::own_boundary))]
pub fn new_handshake(state: &[u64], handshake: &mut [u64]) -> u64
    ensures { answered result handshake.new ≡ handshake_call state.now handshake.old }
{
    let stop = own_boundary(state);
    if stop != 0 {
        return stop;
    }
    if handshake.len() < HANDSHAKE_WORDS {
        return 7;
    }
    let book = load_book(StateWords { words: state });
    store_handshake(handshake, Handshake::new(book));
    0
}
