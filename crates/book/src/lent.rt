// Rows as they are lent to what reads them: words, and how many rows they hold.
ghost use Rattle.std.specs.Prelude.{◌≡◌, ◌<◌, false};
ghost use Rattle.book.specs.Rows.{Lent, row_at, rows_of};
ghost use Rattle.book.specs.Broken.{some_row_broken};

use crate::{Resting, get_row};

// So many rows in lent words: the words hold them, and they are no more than a book can have.
#[derive(Clone, Copy)]
pub struct LentRows<'a> {
    pub words: &'a [u64],
    pub count: usize,
    pub ghost lent: { Lent words.now count },
}

impl LentRows<'_> {
    // Row `i`.
    pub fn get(self, i: usize) -> Resting
        requires { i < self.count }
        ensures { result ≡ row_at self.entry.words.now i }
    {
        get_row(self.words, i)
    }
}

// Lent rows of which none breaks a rule by itself, so that their sums fit a word.
#[derive(Clone, Copy)]
pub struct SoundRows<'a> {
    pub rows: LentRows<'a>,
    pub ghost sound: { some_row_broken (rows_of rows.words.now rows.count) ≡ false },
}
