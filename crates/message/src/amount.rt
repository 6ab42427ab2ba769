// Amounts as the rules use them: signed in a message, and a natural number once accepted.
ghost use Rattle.std.specs.Prelude.{◌≡◌};
ghost use Rattle.message.specs.Amounts.{nat_of, negative, differs, given_differs, absent_or_differs};

// An amount above zero, as a number; 0 where it is not.
pub fn size_of(x: i64) -> u64
    ensures { result ≡ nat_of x }
{
    u64::try_from(x).unwrap_or(0)
}

pub fn is_negative(x: i64) -> bool
    ensures { result ≡ negative x }
{
    x < 0
}

// Whether an amount is another number than `m`.
#[tactic(auto, unfolding(crate::specs::Amounts::differs))]
pub fn differs(x: i64, m: u64) -> bool
    ensures { result ≡ differs x m }
{
    is_negative(x) || size_of(x) != m
}

// Whether an amount is given and differs.
#[tactic(auto, unfolding(crate::specs::Amounts::given_differs))]
pub fn given_differs(x: Option<i64>, m: u64) -> bool
    ensures { result ≡ given_differs x m }
{
    x.is_some_and(|a| differs(a, m))
}

// Whether an amount is absent, or differs.
#[tactic(auto, unfolding(crate::specs::Amounts::absent_or_differs))]
pub fn absent_or_differs(x: Option<i64>, m: u64) -> bool
    ensures { result ≡ absent_or_differs x m }
{
    x.is_none_or(|a| differs(a, m))
}
