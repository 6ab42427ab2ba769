// A change as a message piece: six optional amounts.
#![tactic(auto)]

ghost use Rattle.std.specs.Prelude.{◌≡◌, length};
ghost use Rattle.piece.specs.Piece.{change_shaped, change_fields_at, change_of, read_change};

use message::{ChangeFields, ChangeReason, L3Event, L3Side, OrderId};
use piece::{byte, change_reason_of, has_bit, read_optional, read_order_id, side_of, zero_unless};

#[tactic(auto, unfolding(piece::specs::Piece::change_shaped))]
fn change_shaped(s: &[u8]) -> bool
    requires { length s.now ≡ 100 }
    ensures { result ≡ change_shaped s.now }
{
    let presence = byte(s, 51);
    (byte(s, 49) <= 1)
        & (byte(s, 50) <= 1)
        & (presence <= 63)
        & zero_unless(s, has_bit(presence, 1), 52)
        & zero_unless(s, has_bit(presence, 2), 60)
        & zero_unless(s, has_bit(presence, 4), 68)
        & zero_unless(s, has_bit(presence, 8), 76)
        & zero_unless(s, has_bit(presence, 16), 84)
        & zero_unless(s, has_bit(presence, 32), 92)
}

#[tactic(auto, unfolding(piece::specs::Piece::change_fields_at))]
fn read_change_fields(s: &[u8]) -> ChangeFields
    requires { length s.now ≡ 100 }
    ensures { result ≡ change_fields_at s.now }
{
    let presence = byte(s, 51);
    ChangeFields {
        price: read_optional(s, has_bit(presence, 1), 52),
        old_size: read_optional(s, has_bit(presence, 2), 60),
        new_size: read_optional(s, has_bit(presence, 4), 68),
        old_price: read_optional(s, has_bit(presence, 8), 76),
        new_price: read_optional(s, has_bit(presence, 16), 84),
        new_funds: read_optional(s, has_bit(presence, 32), 92),
    }
}

#[tactic(auto, unfolding(piece::specs::Piece::change_of))]
fn change_of(order_id: OrderId, side: L3Side, reason: ChangeReason, f: ChangeFields) -> L3Event
    ensures { result ≡ change_of order_id side reason f }
{
    L3Event::Change {
        order_id,
        side,
        reason,
        price: f.price,
        old_size: f.old_size,
        new_size: f.new_size,
        old_price: f.old_price,
        new_price: f.new_price,
        new_funds: f.new_funds,
    }
}

#[tactic(auto, unfolding(piece::specs::Piece::read_change, piece::specs::Piece::event_if))]
pub fn read_change(s: &[u8]) -> Option<L3Event>
    ensures { result ≡ read_change s.now }
{
    if s.len() != 100 {
        return None;
    }
    let side = side_of(byte(s, 49));
    let reason = change_reason_of(byte(s, 50));
    let event = change_of(read_order_id(s, 33), side, reason, read_change_fields(s));
    piece_events::event_if(change_shaped(s), event)
}
