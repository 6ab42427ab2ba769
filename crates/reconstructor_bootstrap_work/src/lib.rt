// `bootstrap` by value: `bootstrap_under` checks the state and what it is lent and reads the piece, then `bootstrap_usable` works the snapshot on the last
// segment's record; `bootstrap_by_value` has our ceiling.
#![tactic(auto)]

ghost use Rattle.std.specs.Prelude.{◌≡◌};
ghost use Rattle.book.specs.Memory.{memory};
ghost use Rattle.reconstructor_state.specs.State.{ceiling};
ghost use Rattle.reconstructor_bootstrap.specs.Bootstrap.{booted, bootstrapped_to};

use reconstructor_bootstrap::{BootstrapError, Work};
use reconstructor_bootstrap_parts::refused;
use reconstructor_bootstrap_usable::bootstrap_usable;
use reconstructor_segments::Segment;
use reconstructor_state::{BookReconstructor, Ceiling};

// `bootstrap` under a ceiling, with the last segment's record by value, of a list of `lent` records.
pub fn bootstrap_under(
    top: Ceiling,
    book: BookReconstructor,
    rows: &mut [u64],
    lent: usize,
    last: Segment,
    bytes: &[u8],
) -> Work
    ensures { booted result (memory rows.new) ≡ bootstrapped_to top.limit book (memory rows.old) lent last bytes.now }
{
    let checked = reconstructor_checks::own_checks(top, book, rows, lent);
    if let Err(why) = checked {
        return refused(book, Err(BootstrapError::Unusable(why)), lent, last);
    }
    match piece_snapshots::read_snapshot(bytes) {
        Ok(snapshot) => { bootstrap_usable(book, rows, lent, last, bytes, snapshot) }
        Err(error) => refused(book, Err(BootstrapError::from(error)), lent, last),
    }
}

// Under our ceiling.
pub fn bootstrap_by_value(
    book: BookReconstructor,
    rows: &mut [u64],
    lent: usize,
    last: Segment,
    bytes: &[u8],
) -> Work
    ensures { booted result (memory rows.new) ≡ bootstrapped_to ceiling book (memory rows.old) lent last bytes.now }
{
    bootstrap_under(Ceiling::VENUE, book, rows, lent, last, bytes)
}
