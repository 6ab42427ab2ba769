// The read of one level of a valid book: `level_queue`, worked `_under` a ceiling.
#![tactic(auto)]

ghost use Rattle.std.specs.Prelude.{◌≡◌};
ghost use Rattle.book.specs.Memory.{memory};
ghost use Rattle.reconstructor_state.specs.State.{ceiling};
ghost use Rattle.reconstructor_reads.specs.LevelReads.{leaves, level_queue};
ghost use Rattle.reconstructor_reads.specs.Numbers.{level_told};

use book::LentRows;
use message::L3Side;
use reconstructor_reads::{LevelError, show_queue};
use reconstructor_state::{BookReconstructor, Ceiling};

// The orders of one level in queue order: id high, id low, remaining, whether its open was observed, and where.
pub fn level_queue(
    book: BookReconstructor,
    rows: &[u64],
    scratch: &mut [u64],
    side: L3Side,
    price: i64,
    out: &mut [u64],
) -> Result<usize, LevelError>
    ensures out_after { leaves result scratch.new out.new ≡ level_queue ceiling book (memory rows.now) scratch.old side price out.old }
    ensures told { level_told result ≡ level_told (level_queue ceiling book (memory rows.now) scratch.old side price out.old).answer }
{
    level_queue_under(Ceiling::VENUE, book, rows, scratch, side, price, out)
}

pub fn level_queue_under(
    top: Ceiling,
    book: BookReconstructor,
    rows: &[u64],
    scratch: &mut [u64],
    side: L3Side,
    price: i64,
    out: &mut [u64],
) -> Result<usize, LevelError>
    ensures { leaves result scratch.new out.new ≡ level_queue top.limit book (memory rows.now) scratch.old side price out.old }
{
    let most = book.rules.max_orders;
    let at = message::amount::size_of(price);
    let _ = reconstructor_view::valid_book(top, book, rows, scratch.len() < most)?;
    let lent = LentRows {
        words: rows,
        count: book.rows,
    };
    let count = show_queue(lent, scratch, most, side, at, out)?;
    Ok(count)
}
