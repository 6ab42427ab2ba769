// The reader of message pieces, by numbers 4 and 5 of 01's table: an event by its kind, then the message.
#![tactic(auto)]

ghost use Rattle.std.specs.Prelude.{◌≡◌, ◌<◌, length};
ghost use Rattle.piece.specs.Piece.{read_event, read_message};
ghost use Rattle.piece.specs.Words.{read_message_told};

use message::{L3Event, L3Message};
use message_range::event_in_range;
use piece::{PieceError, read_le64, read_product_id};

// The kind byte decides length and fields; the other numbers are no message's kind.
#[tactic(auto, unfolding(piece::specs::Piece::read_event))]
fn read_event(s: &[u8]) -> Option<L3Event>
    requires { 0 < length s.now }
    ensures { result ≡ read_event s.now }
{
    match s[0] {
        1 => piece_events::read_received(s),
        2 => piece_events::read_open(s),
        3 => piece_events::read_done(s),
        4 => piece_events::read_match(s),
        5 => piece_changes::read_change(s),
        6 => piece_events::read_unsupported(s),
        0 | 7..=255 => None,
    }
}

// The message that the bytes are; else 4 where they are none, then 5 where a present amount is out of range.
#[tactic(auto, using(piece::proofs::Shapes::short), unfolding(piece::specs::Piece::read_message, piece::specs::Piece::message_of))]
pub fn read_message(bytes: &[u8]) -> Result<L3Message, PieceError>
    ensures value { result ≡ read_message bytes.now }
    ensures told { read_message_told result ≡ read_message_told (read_message bytes.now) }
{
    // Shorter than a message's header.
    if bytes.len() < 33 {
        return Err(PieceError::NotAPiece);
    }
    let event = read_event(bytes).ok_or(PieceError::NotAPiece)?;
    if !event_in_range(event) {
        return Err(PieceError::OutOfRange);
    }
    Ok(L3Message {
        product_id: read_product_id(bytes, 1),
        sequence: read_le64(bytes, 17),
        time_us: read_le64(bytes, 25),
        event,
    })
}
