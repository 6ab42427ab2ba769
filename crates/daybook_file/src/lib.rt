// A day file: pieces behind pairs of offset and length. Whether it keeps the format's rules, and where its pieces are.
#![tactic(auto)]

ghost use Rattle.std.specs.Prelude.{◌≡◌, true, false, ◌+◌, ◌<◌, ◌≤◌, length, MatchOption};
ghost use Rattle.daybook_file.specs.DayFile.{piece_count, pair_at, offset_of, end_of, before_next, in_place, day_shaped, piece_at, pieces_of, product_of};

use message::ProductId;
use piece::{read_le32, read_product_id};

// The most bytes of a day file.
pub const DAY_BYTES: usize = 65536;

// Bytes of the count in front, of a pair, and of a pair's offset.
const COUNT_BYTES: usize = 4;

const PAIR_BYTES: usize = 8;

const OFFSET_BYTES: usize = 4;

// Bytes of a piece that has a product: its kind and the product.
const PRODUCT_BYTES: usize = 17;

// Where piece `i` starts.
#[tactic(auto, unfolding(crate::specs::DayFile::four_at))]
pub fn piece_start(file: &[u8], i: usize) -> usize
    requires { pair_at (i + 1) ≤ length file.now }
    ensures { (result ≡ offset_of file.now i) × (result < 4294967296) }
{
    read_le32(file, COUNT_BYTES + PAIR_BYTES * i) as usize
}

// Where it ends. Both are 4-byte integers, so their sum fits.
#[tactic(auto, unfolding(crate::specs::DayFile::four_at))]
pub fn piece_end(file: &[u8], i: usize) -> usize
    requires { pair_at (i + 1) ≤ length file.now }
    ensures { result ≡ end_of file.now i }
{
    piece_start(file, i) + read_le32(file, COUNT_BYTES + PAIR_BYTES * i + OFFSET_BYTES) as usize
}

// Whether piece `i` ends by the next one's offset, which is above its own.
#[tactic(auto, unfolding(crate::specs::DayFile::before_next))]
fn before_next(file: &[u8], i: usize) -> bool
    requires { pair_at (i + 2) ≤ length file.now }
    ensures { result ≡ before_next file.now i }
{
    let next = piece_start(file, i + 1);
    (piece_start(file, i) < next) & (piece_end(file, i) <= next)
}

// Whether `count` pieces, whose pairs the file has, are in place.
#[tactic(auto, unfolding(crate::specs::DayFile::in_place, crate::specs::DayFile::in_order))]
fn in_place(file: &[u8], count: usize) -> bool
    requires { pair_at count ≤ length file.now }
    ensures { result ≡ in_place file.now count }
{
    if count == 0 {
        return true;
    }
    if piece_start(file, 0) < COUNT_BYTES + PAIR_BYTES * count {
        return false;
    }
    for i in 0..count - 1 {
        if !before_next(file, i) {
            return false;
        }
    }
    piece_end(file, count - 1) <= file.len()
}

// Whether the file keeps the rules. The count is compared with the length before a pair is read, so that a false one costs no time.
#[tactic(auto, unfolding(crate::specs::DayFile::four_at, crate::specs::DayFile::day_shaped))]
pub fn day_shaped(file: &[u8]) -> bool
    ensures { result ≡ day_shaped file.now }
{
    if DAY_BYTES < file.len() {
        return false;
    }
    if file.len() < COUNT_BYTES {
        return false;
    }
    let count = read_le32(file, 0) as usize;
    if (file.len() - COUNT_BYTES) / PAIR_BYTES < count {
        return false;
    }
    in_place(file, count)
}

// A file that keeps the rules.
#[derive(Clone, Copy)]
pub struct DayFile<'a> {
    pub bytes: &'a [u8],
    pub ghost shaped: { day_shaped bytes.now ≡ true },
}

impl<'a> DayFile<'a> {
    // The file of these bytes, if they keep the rules.
    pub fn new(bytes: &'a [u8]) -> Option<DayFile<'a>>
        ensures { MatchOption result (day_shaped bytes.now ≡ false) (λ file. file.bytes.now ≡ bytes.now) }
    {
        if day_shaped(bytes) {
            Some(DayFile { bytes })
        } else {
            None
        }
    }

    // How many pieces it has.
    pub fn piece_count(self) -> usize
        ensures { result ≡ piece_count self.entry.bytes.now }
    {
        read_le32(self.bytes, 0) as usize
    }

    // Its piece `i`, counted from 0.
    pub fn piece(self, i: usize) -> &'a [u8]
        requires { i < piece_count self.bytes.now }
        ensures { result.now ≡ piece_at self.entry.bytes.now i }
    {
        &self.bytes[piece_start(self.bytes, i)..piece_end(self.bytes, i)]
    }

    // The product of its first piece; zeros where there is none, or it is too short to have one.
    #[tactic(auto, unfolding(crate::specs::DayFile::product_of, crate::specs::DayFile::pieces_of, crate::specs::DayFile::pieces_from))]
    pub fn first_product(self) -> ProductId
        ensures { result ≡ product_of (pieces_of self.entry.bytes.now) }
    {
        if self.piece_count() == 0 {
            return ProductId { high: 0, low: 0 };
        }
        let piece = self.piece(0);
        if piece.len() < PRODUCT_BYTES {
            return ProductId { high: 0, low: 0 };
        }
        read_product_id(piece, 1)
    }
}
