// Lent rows with an index of them: where to look first for an id, and prices that an open does not cross.
ghost use Rattle.book.specs.Rows.{rows_of};
ghost use Rattle.book_index.specs.Index.{Indexed};

use crate::Bounds;
use book::LentRows;

#[derive(Clone, Copy)]
pub struct IndexedRows<'a> {
    pub rows: LentRows<'a>,
    pub places: &'a [u16],
    pub bounds: Option<Bounds>,
    pub ghost indexed: { Indexed places.now bounds (rows_of rows.words.now rows.count) },
}
