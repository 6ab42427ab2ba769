// How many distinct keys the rows have, in expected linear time: chained buckets in local tables.
#![tactic(auto)]

ghost use Rattle.std.specs.Prelude.{◌≡◌, ◌+◌, ◌≤◌, ◌<◌, ◌/◌, ◌%◌, length};
ghost use Rattle.book.specs.Rows.{most_rows};
ghost use Rattle.book.specs.Lending.{rows_in};
ghost use Rattle.book_row_keys.specs.Keys.{key_of, has_key, count_keys};
ghost use Rattle.book_buckets.specs.Buckets.{spread_of, bucket_of, Chained, Headed, rest_of, Empty};

use book::LentRows;
use book_row_keys::{Key, KeyKind};

// Sizes of a table: it is cleared at each call, so few rows get a small one. The largest has an entry for every row that a book can have.
const TINY: usize = 16;

const SMALL: usize = 128;

const MEDIUM: usize = 512;

// The two halves of a word, added.
fn halves(x: u64) -> u64
    ensures { (result ≡ x / 4294967296 + x % 4294967296) × (result < 8589934592) }
{
    x / 4294967296 + x % 4294967296
}

// A number below 2^32 whose top bits depend on all of the key: a multiplication by the golden ratio times 2^32.
#[tactic(auto, unfolding(crate::specs::Buckets::spread_of))]
fn spread(key: Key) -> u64
    ensures { (result ≡ spread_of key) × (result < 4294967296) }
{
    let sum = (halves(key.high) + halves(key.low)) % 4294967296;
    (sum * 2654435769) % 4294967296
}

// The bucket of a key, of `m`.
pub fn bucket(key: Key, m: usize) -> usize
    requires { (0 < m) × (m ≤ 65536) }
    ensures { (result ≡ bucket_of key m) × (result < m) }
{
    let wide = m as u64;
    ((spread(key) * wide) / 4294967296) as usize
}

pub fn row_of(x: u16) -> usize
    ensures { result ≡ x }
{
    usize::from(x)
}

// Whether a row of the chain that starts at `first` has the key. A link is the number of rows from there to the end, 0 for none.
fn chain_has(
    rows: LentRows<'_>,
    kind: KeyKind,
    m: usize,
    next: &[u16],
    first: usize,
    key: Key,
) -> bool
    requires within { (first ≤ rows.count) × (first ≤ length next.now) }
    requires chained { Chained rows.words.now rows.count kind m next.now first }
    requires headed { Headed kind m (bucket_of key m) (rest_of rows.words.now rows.count first) }
    ensures { result ≡ has_key (key_of kind) key (rest_of rows.entry.words.now rows.entry.count first) }
{
    let mut j = first;
    while 0 < j {
        let o = rows.get(rows.count - j);
        if book_row_keys::key_of(o, kind) == key {
            return true;
        }
        j = row_of(next[j - 1]);
    }
    false
}

// How many distinct keys the rows have. `heads` is all 0. Rows are taken from the last to the first, so that a link leads to later rows.
fn count_in(rows: LentRows<'_>, kind: KeyKind, heads: &mut [u16], next: &mut [u16]) -> usize
    requires within { (rows.count ≤ length next.old) × ((0 < length heads.old) × (length heads.old ≤ most_rows)) }
    requires empty { Empty heads.old }
    ensures { result ≡ count_keys (key_of kind) (rows_in rows.entry) }
{
    let m = heads.len();
    let mut count: usize = 0;
    for k in 0..rows.count {
        let o = rows.get(rows.count - (k + 1));
        let key = book_row_keys::key_of(o, kind);
        let b = bucket(key, m);
        let link = heads[b];
        let first = row_of(link);
        if !chain_has(rows, kind, m, next, first, key) {
            count += 1;
        }
        next[k] = link;
        heads[b] = (k + 1) as u16;
    }
    count
}

// The same with tables of its own, of `N` entries.
fn count_sized<const N: usize>(rows: LentRows<'_>, kind: KeyKind) -> usize
    requires room { rows.count ≤ N }
    requires size { (0 < N) × (N ≤ most_rows) }
    ensures { result ≡ count_keys (key_of kind) (rows_in rows.entry) }
{
    let mut heads = [0u16; N];
    let mut next = [0u16; N];
    count_in(rows, kind, &mut heads, &mut next)
}

// How many distinct keys the rows have, with tables as large as they need.
pub fn count_keys(rows: LentRows<'_>, kind: KeyKind) -> usize
    ensures { result ≡ count_keys (key_of kind) (rows_in rows.entry) }
{
    if rows.count <= TINY {
        return count_sized::<TINY>(rows, kind);
    }
    if rows.count <= SMALL {
        return count_sized::<SMALL>(rows, kind);
    }
    if rows.count <= MEDIUM {
        return count_sized::<MEDIUM>(rows, kind);
    }
    count_sized::<{ book::MOST_ROWS }>(rows, kind)
}
