// A recorded message piece, read and then applied or stepped.
#![tactic(auto)]

ghost use Rattle.std.specs.Prelude.{◌≡◌};
ghost use Rattle.host_calls.specs.Calls.{called, step_called};
ghost use Rattle.recorded_pieces.specs.Pieces.{piece_call, piece_step};

use piece::MESSAGE_WORDS;

// Reads a message piece and applies it; where the reader refuses the piece, that is the answer.
pub fn apply_piece(piece: &[u8], state: &mut [u64], rows: &mut [u64], segments: &mut [u64]) -> u64
    ensures { called result state.new rows.new segments.new ≡ piece_call state.old rows.old segments.old piece.now }
{
    let mut message = [0u64; MESSAGE_WORDS];
    let number = host::pinuglaw_read_message(piece, &mut message);
    if number != 0 {
        return number;
    }
    host::pinuglaw_apply(state, rows, segments, &message)
}

// Reads a message piece and steps the handshake by it; where the reader refuses the piece, that is the answer.
pub fn step_piece(
    piece: &[u8],
    state: &mut [u64],
    rows: &mut [u64],
    segments: &mut [u64],
    handshake: &mut [u64],
) -> u64
    ensures { step_called result state.new rows.new segments.new handshake.new ≡ piece_step state.old rows.old segments.old handshake.old piece.now }
{
    let mut message = [0u64; MESSAGE_WORDS];
    let number = host::pinuglaw_read_message(piece, &mut message);
    if number != 0 {
        return number;
    }
    host::pinuglaw_step(state, rows, segments, handshake, &message)
}
