// Pieces: what is read of bytes, why they are turned away (4 and 5 of 01's table), and the fields that both kinds of piece are made of. Crates `piece_messages` and
// `piece_snapshots` read whole pieces.
#![tactic(auto)]

ghost use Rattle.std.specs.Prelude.{◌≡◌, ◌+◌, ◌<◌, ◌≤◌, length, get_or};
ghost use Rattle.piece.specs.Bytes.{part, little, big};
ghost use Rattle.piece.specs.Piece.{piece_number, word_at, amount_at, order_id_at, product_id_at, side_of, done_reason_of, change_reason_of, has_bit, optional_at, zero_unless};

use message::{ChangeReason, DoneReason, L3Side, OrderId, ProductId};

// The words of a message.
pub const MESSAGE_WORDS: usize = 21;

// Why bytes are turned away.
#[derive(Clone, Copy)]
pub enum PieceError {
    // The bytes are not a piece of that kind.
    NotAPiece,
    // A present amount is out of range.
    OutOfRange,
}

impl PieceError {
    // Its number in 01's table.
    pub fn number(self) -> u64
        ensures { result ≡ piece_number self }
    {
        match self {
            PieceError::NotAPiece => 4,
            PieceError::OutOfRange => 5,
        }
    }
}

pub fn byte(s: &[u8], i: usize) -> u64
    requires { i < length s.now }
    ensures { (result ≡ get_or s.now i 0) × (result < 256) }
{
    u64::from(s[i])
}

// The `N` bytes from place `at` on.
#[tactic(auto, unfolding(crate::specs::Bytes::part))]
fn bytes_at<const N: usize>(s: &[u8], at: usize) -> [u8; N]
    requires { at + N ≤ length s.now }
    ensures { result ≡ part s.now at N }
{
    <[u8; N]>::try_from(&s[at..at + N]).unwrap()
}

pub fn read_le32(s: &[u8], at: usize) -> u64
    requires { at + 4 ≤ length s.now }
    ensures { (result ≡ little (part s.now at 4)) × (result < 4294967296) }
{
    u64::from(u32::from_le_bytes(bytes_at(s, at)))
}

pub fn read_le64(s: &[u8], at: usize) -> u64
    requires { at + 8 ≤ length s.now }
    ensures { result ≡ word_at s.now at }
{
    u64::from_le_bytes(bytes_at(s, at))
}

fn read_be64(s: &[u8], at: usize) -> u64
    requires { at + 8 ≤ length s.now }
    ensures { result ≡ big (part s.now at 8) }
{
    u64::from_be_bytes(bytes_at(s, at))
}

#[tactic(auto, unfolding(crate::specs::Piece::amount_at))]
pub fn read_amount(s: &[u8], at: usize) -> i64
    requires { at + 8 ≤ length s.now }
    ensures { result ≡ amount_at s.now at }
{
    read_le64(s, at).cast_signed()
}

#[tactic(auto, unfolding(crate::specs::Piece::order_id_at))]
pub fn read_order_id(s: &[u8], at: usize) -> OrderId
    requires { at + 16 ≤ length s.now }
    ensures { result ≡ order_id_at s.now at }
{
    OrderId {
        high: read_be64(s, at),
        low: read_be64(s, at + 8),
    }
}

#[tactic(auto, unfolding(crate::specs::Piece::product_id_at))]
pub fn read_product_id(s: &[u8], at: usize) -> ProductId
    requires { at + 16 ≤ length s.now }
    ensures { result ≡ product_id_at s.now at }
{
    ProductId {
        high: read_be64(s, at),
        low: read_be64(s, at + 8),
    }
}

#[tactic(auto, unfolding(crate::specs::Piece::side_of))]
pub fn side_of(b: u64) -> L3Side
    ensures { result ≡ side_of b }
{
    if b == 0 { L3Side::Buy } else { L3Side::Sell }
}

#[tactic(auto, unfolding(crate::specs::Piece::done_reason_of))]
pub fn done_reason_of(b: u64) -> DoneReason
    ensures { result ≡ done_reason_of b }
{
    if b == 0 {
        DoneReason::Filled
    } else {
        DoneReason::Canceled
    }
}

#[tactic(auto, unfolding(crate::specs::Piece::change_reason_of))]
pub fn change_reason_of(b: u64) -> ChangeReason
    ensures { result ≡ change_reason_of b }
{
    if b == 0 {
        ChangeReason::Stp
    } else {
        ChangeReason::ModifyOrder
    }
}

// Whether a presence byte has the bit of that weight.
#[tactic(auto, unfolding(crate::specs::Piece::has_bit))]
pub fn has_bit(b: u64, weight: u64) -> bool
    requires { 0 < weight }
    ensures { result ≡ has_bit b weight }
{
    b / weight % 2 == 1
}

#[tactic(auto, unfolding(crate::specs::Piece::optional_at))]
pub fn read_optional(s: &[u8], present: bool, at: usize) -> Option<i64>
    requires { at + 8 ≤ length s.now }
    ensures { result ≡ optional_at s.now present at }
{
    present.then(|| read_amount(s, at))
}

// An absent amount is eight zero bytes.
#[tactic(auto, unfolding(crate::specs::Piece::zero_unless))]
pub fn zero_unless(s: &[u8], present: bool, at: usize) -> bool
    requires { at + 8 ≤ length s.now }
    ensures { result ≡ zero_unless s.now present at }
{
    present | (read_le64(s, at) == 0)
}
