// The read of an invalid book: `stale_l2`, worked `_under` a ceiling.
#![tactic(auto)]

ghost use Rattle.std.specs.Prelude.{◌≡◌};
ghost use Rattle.book.specs.Memory.{memory};
ghost use Rattle.reconstructor_state.specs.State.{ceiling};
ghost use Rattle.reconstructor_reads.specs.LevelReads.{leaves_stale, stale_l2};
ghost use Rattle.reconstructor_reads.specs.Numbers.{stale_told};

use book::{LentRows, SoundRows};
use message::L3Side;
use reconstructor_reads::{L2_WORDS, StaleError, show_levels};
use reconstructor_state::{BookReconstructor, Ceiling, Status};

// The last good book's aggregated sizes while invalidated: a stale diagnostic, never a valid view. There is none of a book that is not invalid.
pub fn stale_l2(
    book: BookReconstructor,
    rows: &[u64],
    scratch: &mut [u64],
    side: L3Side,
    out: &mut [u64],
) -> Result<Option<usize>, StaleError>
    ensures out_after { leaves_stale result scratch.new out.new ≡ stale_l2 ceiling book (memory rows.now) scratch.old side out.old }
    ensures told { stale_told result ≡ stale_told (stale_l2 ceiling book (memory rows.now) scratch.old side out.old).answer }
{
    stale_l2_under(Ceiling::VENUE, book, rows, scratch, side, out)
}

pub fn stale_l2_under(
    top: Ceiling,
    book: BookReconstructor,
    rows: &[u64],
    scratch: &mut [u64],
    side: L3Side,
    out: &mut [u64],
) -> Result<Option<usize>, StaleError>
    ensures { leaves_stale result scratch.new out.new ≡ stale_l2 top.limit book (memory rows.now) scratch.old side out.old }
{
    let most = book.rules.max_orders;
    reconstructor_view::read_checks(top, book, rows, scratch.len() < most)?;
    match book.status {
        Status::Empty => Ok(None),
        Status::Valid { .. } => Ok(None),
        Status::Invalidated(_) => {
            let lent = LentRows {
                words: rows,
                count: book.rows,
            };
            let sound = SoundRows { rows: lent };
            let count = show_levels(sound, scratch, most, side, L2_WORDS, out)?;
            Ok(Some(count))
        }
    }
}
