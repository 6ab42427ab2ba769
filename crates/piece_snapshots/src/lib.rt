// The reader of snapshot pieces, by numbers 4 and 5 of 01's table: its orders by place, then the snapshot without them.
#![tactic(auto)]

ghost use Rattle.std.specs.Prelude.{◌≡◌, ◌+◌, ◌≤◌, length};
ghost use Rattle.message.specs.Values.{order_in_range, orders_in_range};
ghost use Rattle.piece.specs.Piece.{snapshot_shaped, order_from, order_at, orders_from, read_snapshot};
ghost use Rattle.piece.specs.Words.{read_snapshot_told};

use message::{L3Snapshot, SnapshotOrder};
use message_range::in_range;
use piece::{PieceError, byte, read_amount, read_le32, read_le64, read_order_id, read_product_id};

// Whether the bytes have the shape of a snapshot piece. The counts are only compared with the length, so a false one costs no time.
#[tactic(auto, unfolding(piece::specs::Piece::snapshot_shaped, piece::specs::Piece::bids_at, piece::specs::Piece::asks_at))]
fn snapshot_shaped(s: &[u8]) -> bool
    requires { 41 ≤ length s.now }
    ensures { result ≡ snapshot_shaped s.now }
{
    let bids = read_le32(s, 33) as usize;
    let asks = read_le32(s, 37) as usize;
    (s.len() == 41 + 32 * (bids + asks)) & (byte(s, 0) == 0) & (read_le64(s, 25) == 0)
}

#[tactic(auto, unfolding(piece::specs::Piece::order_from))]
fn read_order(s: &[u8], at: usize) -> SnapshotOrder
    requires { at + 32 ≤ length s.now }
    ensures { result ≡ order_from s.now at }
{
    SnapshotOrder {
        order_id: read_order_id(s, at),
        price: read_amount(s, at + 16),
        size: read_amount(s, at + 24),
    }
}

// The order at a place of a snapshot piece, bids first; an order of zeros where the bytes do not reach.
#[tactic(auto, unfolding(piece::specs::Piece::order_at, piece::specs::Piece::no_order))]
pub fn snapshot_order(bytes: &[u8], place: usize) -> SnapshotOrder
    ensures { result ≡ order_at bytes.now place }
{
    if bytes.len().saturating_sub(41) / 32 <= place {
        return SnapshotOrder::default();
    }
    read_order(bytes, 41 + 32 * place)
}

#[tactic(auto, unfolding(message::specs::Values::order_in_range))]
fn order_in_range(order: SnapshotOrder) -> bool
    ensures { result ≡ order_in_range order }
{
    in_range(order.price) & in_range(order.size)
}

// Whether the first `n` orders have their amounts in range.
fn orders_in_range(bytes: &[u8], n: usize) -> bool
    ensures { result ≡ orders_in_range (orders_from bytes.now 0 n) }
{
    (0..n).all(|place| order_in_range(snapshot_order(bytes, place)))
}

// The snapshot that the bytes are; else 4 where they are none, then 5 where an amount is out of range.
#[tactic(auto, using(piece::proofs::Shapes::short_snapshot), unfolding(piece::specs::Piece::read_snapshot, piece::specs::Piece::snapshot_of, piece::specs::Piece::bids_at, piece::specs::Piece::asks_at))]
pub fn read_snapshot(bytes: &[u8]) -> Result<L3Snapshot, PieceError>
    ensures value { result ≡ read_snapshot bytes.now }
    ensures told { read_snapshot_told result ≡ read_snapshot_told (read_snapshot bytes.now) }
{
    // Shorter than a snapshot without orders.
    if bytes.len() < 41 {
        return Err(PieceError::NotAPiece);
    }
    if !snapshot_shaped(bytes) {
        return Err(PieceError::NotAPiece);
    }
    let bids = read_le32(bytes, 33) as usize;
    let asks = read_le32(bytes, 37) as usize;
    if !orders_in_range(bytes, bids + asks) {
        return Err(PieceError::OutOfRange);
    }
    Ok(L3Snapshot {
        product_id: read_product_id(bytes, 1),
        sequence: read_le64(bytes, 17),
        bids,
        asks,
    })
}
