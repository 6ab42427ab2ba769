// What two rows are compared by.
#![tactic(auto)]

ghost use Rattle.std.specs.Prelude.{◌≡◌};
ghost use Rattle.book_row_keys.specs.Keys.{key_of, same_key};

use book::Resting;
use message::L3Side;

// What two rows are compared by: their ids, their levels, or their prices if they are of a side.
#[derive(Clone, Copy)]
pub enum KeyKind {
    Id,
    Level,
    LevelOf(L3Side),
}

#[derive(Clone, Copy, PartialEq, Eq)]
pub struct Key {
    pub high: u64,
    pub low: u64,
}

// The price of a row of the side, or one key for all others.
fn side_key(o: Resting, side: L3Side) -> Key
    ensures { result ≡ key_of (KeyKind.LevelOf side) o }
{
    if book::side_of(o.kind) == side {
        Key {
            high: 1,
            low: o.price,
        }
    } else {
        Key { high: 0, low: 0 }
    }
}

// The key of a row.
pub fn key_of(o: Resting, kind: KeyKind) -> Key
    ensures { result ≡ key_of kind o }
{
    match kind {
        KeyKind::Id => Key {
            high: o.high,
            low: o.low,
        },
        KeyKind::Level => Key {
            high: o.kind % 2,
            low: o.price,
        },
        KeyKind::LevelOf(side) => side_key(o, side),
    }
}

pub fn same_key(a: Key, b: Key) -> bool
    ensures { result ≡ same_key a b }
{
    a == b
}
