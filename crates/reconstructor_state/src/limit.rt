// The highest limits that a call's rules may have.
ghost use Rattle.std.specs.Prelude.{◌≤◌};
ghost use Rattle.book.specs.Rows.{most_rows};

use crate::VenueRules;

// The most orders, and levels, that rules may permit: above it is number 1. It is one that the code can work with.
#[derive(Clone, Copy)]
pub struct Ceiling {
    pub limit: usize,
    pub ghost workable: { limit ≤ most_rows },
}

impl Ceiling {
    // What each call of a host is worked under.
    pub const VENUE: Self = Self {
        limit: VenueRules::CEILING,
    };
}
