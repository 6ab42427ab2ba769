// `bootstrap`: a snapshot piece takes the place of the book, or is turned away and leaves it as it was. Here are its errors with their numbers, what it leaves,
// and the definitions; `reconstructor_snapshot` and `reconstructor_bootstrap_parts`, `_usable`, `_work`, `_list` have the code.
#![tactic(auto)]

ghost use Rattle.std.specs.Prelude.{◌≡◌};
ghost use Rattle.reconstructor_bootstrap.specs.Numbers.{snapshot_error_number, bootstrap_error_number, snapshot_number};
ghost use Rattle.reconstructor_bootstrap.specs.Snapshot.{piece_error};

use piece::PieceError;
use reconstructor_answers::StateError;
use reconstructor_segments::Segment;
use reconstructor_state::BookReconstructor;

// Why a snapshot is refused, and counted so. 10 to 14.
#[derive(Clone, Copy)]
pub enum SnapshotError {
    WrongProduct,
    // The same id twice.
    DuplicateId,
    // A price or size that is not positive.
    InvalidValue,
    // Bids at or above asks.
    Crossed,
    // More orders or levels than the rules allow.
    CapacityExceeded,
}

// Why `bootstrap` turns a snapshot away. 1 to 6, and 10 to 14.
#[derive(Clone, Copy)]
pub enum BootstrapError {
    Unusable(StateError),
    NotAPiece,
    AmountOutOfRange,
    // No room for one more segment record.
    ListFull,
    Rejected(SnapshotError),
}

// What a call leaves of the state, with its answer.
#[derive(Clone, Copy)]
pub struct Reply {
    pub book: BookReconstructor,
    pub answer: Result<(), BootstrapError>,
}

// The same, with what the snapshot makes of the last segment's record, and the record that it starts with its place: past the list's end where it starts none.
#[derive(Clone, Copy)]
pub struct Work {
    pub book: BookReconstructor,
    pub answer: Result<(), BootstrapError>,
    pub segment: Segment,
    pub at: usize,
    pub started: Segment,
}

impl SnapshotError {
    // Its number in 01's table.
    pub fn number(self) -> u64
        ensures { result ≡ snapshot_error_number self }
    {
        match self {
            SnapshotError::WrongProduct => 10,
            SnapshotError::DuplicateId => 11,
            SnapshotError::InvalidValue => 12,
            SnapshotError::Crossed => 13,
            SnapshotError::CapacityExceeded => 14,
        }
    }
}

impl BootstrapError {
    // Its number in 01's table.
    pub fn number(self) -> u64
        ensures { result ≡ bootstrap_error_number self }
    {
        match self {
            BootstrapError::Unusable(why) => why.number(),
            BootstrapError::NotAPiece => 4,
            BootstrapError::AmountOutOfRange => 5,
            BootstrapError::ListFull => 6,
            BootstrapError::Rejected(why) => why.number(),
        }
    }
}

impl From<PieceError> for BootstrapError {
    ghost from_gives = { λ error refusal. refusal ≡ piece_error error };

    fn from(error: PieceError) -> BootstrapError {
        match error {
            PieceError::NotAPiece => BootstrapError::NotAPiece,
            PieceError::OutOfRange => BootstrapError::AmountOutOfRange,
        }
    }
}

// The number of `bootstrap`'s answer: 0 for an accepted snapshot.
pub fn snapshot_number(answer: Result<(), BootstrapError>) -> u64
    ensures { result ≡ snapshot_number answer }
{
    match answer {
        Ok(()) => 0,
        Err(why) => why.number(),
    }
}
