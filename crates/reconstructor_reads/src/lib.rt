// What the level reads share: their errors, and the words that each shows. Scratch and output are written only once 7 is out.
#![tactic(auto)]

ghost use Rattle.std.specs.Prelude.{◌≡◌, ◌≤◌, length};
ghost use Rattle.book.specs.Lending.{rows_in};
ghost use Rattle.reconstructor_reads.specs.declared.LevelError.TheVariants.{View};
ghost use Rattle.reconstructor_reads.specs.declared.LevelError.TheVariants as levels;
ghost use Rattle.reconstructor_reads.specs.declared.StaleError.TheVariants.{Unusable};
ghost use Rattle.reconstructor_reads.specs.declared.StaleError.TheVariants as stales;
ghost use Rattle.reconstructor_reads.specs.LevelReads.{profile_words, l2_words, queue_content, levels_content, shows, shown};

use book::{LentRows, SoundRows};
use book_queue::EntryForm;
use message::L3Side;
use reconstructor_answers::StateError;
use reconstructor_view::ViewError;

// Words of an entry: of `priority_profile`, of `l2` and `stale_l2`.
pub const PROFILE_WORDS: usize = 3;

pub const L2_WORDS: usize = 2;

// The entries have no room in the lent output: 7.
#[derive(Clone, Copy)]
pub struct OutputTooSmall;

// Why a read of a valid book's levels shows nothing.
#[derive(Clone, Copy)]
pub enum LevelError {
    View(ViewError),
    OutputTooSmall,
}

// Why `stale_l2` shows nothing.
#[derive(Clone, Copy)]
pub enum StaleError {
    Unusable(StateError),
    OutputTooSmall,
}

impl From<ViewError> for LevelError {
    ghost from_gives = { λ why error. error ≡ View why };

    fn from(why: ViewError) -> LevelError {
        LevelError::View(why)
    }
}

impl From<OutputTooSmall> for LevelError {
    ghost from_gives = { λ _ error. error ≡ levels.OutputTooSmall };

    fn from(_: OutputTooSmall) -> LevelError {
        LevelError::OutputTooSmall
    }
}

impl From<StateError> for StaleError {
    ghost from_gives = { λ why error. error ≡ Unusable why };

    fn from(why: StateError) -> StaleError {
        StaleError::Unusable(why)
    }
}

impl From<OutputTooSmall> for StaleError {
    ghost from_gives = { λ _ error. error ≡ stales.OutputTooSmall };

    fn from(_: OutputTooSmall) -> StaleError {
        StaleError::OutputTooSmall
    }
}

// Shows the orders at a side and price, and says how many there are.
pub fn show_queue(
    rows: LentRows<'_>,
    scratch: &mut [u64],
    max_orders: usize,
    side: L3Side,
    price: u64,
    out: &mut [u64],
) -> Result<usize, OutputTooSmall>
    requires { max_orders ≤ length scratch.old }
    ensures { shows result scratch.new out.new ≡ shown max_orders (queue_content side price (rows_in rows.entry)) scratch.old out.old }
{
    let count = book_orders::order_count(rows, side, price);
    if out.len() < book_queue::QUEUE_WORDS * count {
        return Err(OutputTooSmall);
    }
    book_orders::write_orders(rows, side, price, EntryForm::Queue, out);
    book_scratch::clear(scratch, max_orders);
    Ok(count)
}

// Shows the levels of a side, `width` words each, and says how many there are.
pub fn show_levels(
    sound: SoundRows<'_>,
    scratch: &mut [u64],
    max_orders: usize,
    side: L3Side,
    width: usize,
    out: &mut [u64],
) -> Result<usize, OutputTooSmall>
    requires n_le_max_orders { (sound.rows.count ≤ max_orders) × (max_orders ≤ length scratch.old) }
    requires l2words_le_width { (l2_words ≤ width) × (width ≤ profile_words) }
    ensures { shows result scratch.new out.new ≡ shown max_orders (levels_content width side (rows_in sound.entry.rows)) scratch.old out.old }
{
    let count = book_keys::side_level_count(sound.rows, side);
    if out.len() < width * count {
        return Err(OutputTooSmall);
    }
    book_walk::write_levels(sound, side, width, scratch, max_orders, out);
    Ok(count)
}
