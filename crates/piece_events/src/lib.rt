// The events of message pieces but a change: each kind's length and fields.
#![tactic(auto)]

ghost use Rattle.std.specs.Prelude.{◌≡◌, length};
ghost use Rattle.piece.specs.Piece.{event_if, read_received, read_open, done_shaped, read_done, read_match, read_unsupported};

use message::L3Event;
use piece::{
    byte, done_reason_of, has_bit, read_amount, read_le32, read_optional, read_order_id, side_of,
    zero_unless,
};

// The event where the bytes have its shape.
#[tactic(auto, unfolding(piece::specs::Piece::event_if))]
pub fn event_if(shaped: bool, event: L3Event) -> Option<L3Event>
    ensures { result ≡ event_if shaped event }
{
    shaped.then_some(event)
}

#[tactic(auto, unfolding(piece::specs::Piece::read_received, piece::specs::Piece::event_if))]
pub fn read_received(s: &[u8]) -> Option<L3Event>
    ensures { result ≡ read_received s.now }
{
    if s.len() != 50 {
        return None;
    }
    let side = byte(s, 49);
    event_if(
        side <= 1,
        L3Event::Received {
            order_id: read_order_id(s, 33),
            side: side_of(side),
        },
    )
}

#[tactic(auto, unfolding(piece::specs::Piece::read_open, piece::specs::Piece::event_if))]
pub fn read_open(s: &[u8]) -> Option<L3Event>
    ensures { result ≡ read_open s.now }
{
    if s.len() != 66 {
        return None;
    }
    let side = byte(s, 49);
    event_if(
        side <= 1,
        L3Event::Open {
            order_id: read_order_id(s, 33),
            side: side_of(side),
            price: read_amount(s, 50),
            remaining: read_amount(s, 58),
        },
    )
}

#[tactic(auto, unfolding(piece::specs::Piece::done_shaped))]
fn done_shaped(s: &[u8]) -> bool
    requires { length s.now ≡ 68 }
    ensures { result ≡ done_shaped s.now }
{
    let presence = byte(s, 59);
    (byte(s, 49) <= 1)
        & (byte(s, 58) <= 1)
        & (presence <= 3)
        & zero_unless(s, has_bit(presence, 1), 50)
        & zero_unless(s, has_bit(presence, 2), 60)
}

#[tactic(auto, unfolding(piece::specs::Piece::read_done, piece::specs::Piece::event_if))]
pub fn read_done(s: &[u8]) -> Option<L3Event>
    ensures { result ≡ read_done s.now }
{
    if s.len() != 68 {
        return None;
    }
    let presence = byte(s, 59);
    event_if(
        done_shaped(s),
        L3Event::Done {
            order_id: read_order_id(s, 33),
            side: side_of(byte(s, 49)),
            price: read_optional(s, has_bit(presence, 1), 50),
            reason: done_reason_of(byte(s, 58)),
            remaining: read_optional(s, has_bit(presence, 2), 60),
        },
    )
}

#[tactic(auto, unfolding(piece::specs::Piece::read_match, piece::specs::Piece::event_if))]
pub fn read_match(s: &[u8]) -> Option<L3Event>
    ensures { result ≡ read_match s.now }
{
    if s.len() != 82 {
        return None;
    }
    let side = byte(s, 65);
    event_if(
        side <= 1,
        L3Event::Match {
            maker_id: read_order_id(s, 33),
            taker_id: read_order_id(s, 49),
            side: side_of(side),
            price: read_amount(s, 66),
            size: read_amount(s, 74),
        },
    )
}

#[tactic(auto, unfolding(piece::specs::Piece::read_unsupported, piece::specs::Piece::event_if))]
pub fn read_unsupported(s: &[u8]) -> Option<L3Event>
    ensures { result ≡ read_unsupported s.now }
{
    if s.len() != 37 {
        return None;
    }
    Some(L3Event::Unsupported {
        kind: read_le32(s, 33) as u32,
    })
}
