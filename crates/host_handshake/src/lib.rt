// A handshake as words. specs/HandshakeWords.antt has the layout.
#![tactic(auto)]

ghost use Rattle.std.specs.Prelude.{◌≡◌, ◌≤◌, length};
ghost use Rattle.host_handshake.specs.HandshakeWords.{handshake_words, handshake_of, ended_word, handshake_left, step_sets};

use host_words_store::sets_status;
use laws::put;
use reconstructor_handshake::{Handshake, StepAnswer};
use reconstructor_segments::SegmentName;

// The words of a handshake.
pub const HANDSHAKE_WORDS: usize = 4;

// The handshake that words are.
#[tactic(auto, unfolding(crate::specs::HandshakeWords::handshake_of))]
pub fn load_handshake(words: &[u64]) -> Handshake
    requires { handshake_words ≤ length words.now }
    ensures { result ≡ handshake_of words.now }
{
    Handshake {
        segment: SegmentName {
            number: words[0],
            place: words[1] as usize,
        },
        ended: words[2] != 0,
        applied: words[3],
    }
}

fn ended_word(ended: bool) -> u64
    ensures { result ≡ ended_word ended }
{
    if ended { 1 } else { 0 }
}

#[tactic(auto, unfolding(crate::specs::HandshakeWords::handshake_left))]
pub fn store_handshake(words: &mut [u64], handshake: Handshake)
    requires { handshake_words ≤ length words.old }
    ensures { words.new ≡ handshake_left words.old handshake }
{
    let ended = ended_word(handshake.ended);
    put(
        words,
        0,
        &[
            handshake.segment.number,
            handshake.segment.place as u64,
            ended,
            handshake.applied,
        ],
    );
}

// Whether a step sets the status.
pub fn step_sets_status(answer: StepAnswer) -> bool
    ensures { result ≡ step_sets answer }
{
    match answer {
        StepAnswer::Stepped(applied) => sets_status(applied),
        StepAnswer::Dropped => false,
        StepAnswer::OtherSegment => false,
    }
}
