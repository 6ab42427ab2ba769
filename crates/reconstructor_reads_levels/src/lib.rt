// The reads of the levels of a valid book: `priority_profile` and `l2`, each worked `_under` a ceiling.
#![tactic(auto)]

ghost use Rattle.std.specs.Prelude.{◌≡◌};
ghost use Rattle.book.specs.Memory.{memory};
ghost use Rattle.reconstructor_state.specs.State.{ceiling};
ghost use Rattle.reconstructor_reads.specs.LevelReads.{leaves, priority_profile, l2};
ghost use Rattle.reconstructor_reads.specs.Numbers.{level_told};

use message::L3Side;
use reconstructor_reads::{L2_WORDS, LevelError, PROFILE_WORDS};
use reconstructor_reads_side::level_read;
use reconstructor_state::{BookReconstructor, Ceiling};

// Per level, best first: price, total size and the size of unknown priority.
pub fn priority_profile(
    book: BookReconstructor,
    rows: &[u64],
    scratch: &mut [u64],
    side: L3Side,
    out: &mut [u64],
) -> Result<usize, LevelError>
    ensures out_after { leaves result scratch.new out.new ≡ priority_profile ceiling book (memory rows.now) scratch.old side out.old }
    ensures told { level_told result ≡ level_told (priority_profile ceiling book (memory rows.now) scratch.old side out.old).answer }
{
    priority_profile_under(Ceiling::VENUE, book, rows, scratch, side, out)
}

pub fn priority_profile_under(
    top: Ceiling,
    book: BookReconstructor,
    rows: &[u64],
    scratch: &mut [u64],
    side: L3Side,
    out: &mut [u64],
) -> Result<usize, LevelError>
    ensures { leaves result scratch.new out.new ≡ priority_profile top.limit book (memory rows.now) scratch.old side out.old }
{
    level_read(top, book, rows, scratch, side, PROFILE_WORDS, out)
}

// Aggregated size per price, best first.
pub fn l2(
    book: BookReconstructor,
    rows: &[u64],
    scratch: &mut [u64],
    side: L3Side,
    out: &mut [u64],
) -> Result<usize, LevelError>
    ensures out_after { leaves result scratch.new out.new ≡ l2 ceiling book (memory rows.now) scratch.old side out.old }
    ensures told { level_told result ≡ level_told (l2 ceiling book (memory rows.now) scratch.old side out.old).answer }
{
    l2_under(Ceiling::VENUE, book, rows, scratch, side, out)
}

pub fn l2_under(
    top: Ceiling,
    book: BookReconstructor,
    rows: &[u64],
    scratch: &mut [u64],
    side: L3Side,
    out: &mut [u64],
) -> Result<usize, LevelError>
    ensures { leaves result scratch.new out.new ≡ l2 top.limit book (memory rows.now) scratch.old side out.old }
{
    level_read(top, book, rows, scratch, side, L2_WORDS, out)
}
