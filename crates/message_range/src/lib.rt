// Number 5's test: whether every amount that is present is in range.
#![tactic(auto)]

ghost use Rattle.std.specs.Prelude.{◌≡◌, ◌&&◌};
ghost use Rattle.message.specs.Values.{in_range, optional_in_range, event_in_range};

use message::{AMOUNT_LIMIT, ChangeFields, L3Event};

#[tactic(auto, unfolding(message::specs::Values::in_range))]
pub fn in_range(amount: i64) -> bool
    ensures { result ≡ in_range amount }
{
    (-AMOUNT_LIMIT..=AMOUNT_LIMIT).contains(&amount)
}

#[tactic(auto, unfolding(message::specs::Values::optional_in_range))]
fn optional_in_range(amount: Option<i64>) -> bool
    ensures { result ≡ optional_in_range amount }
{
    amount.is_none_or(in_range)
}

// The amounts of a change.
fn change_in_range(f: ChangeFields) -> bool
    ensures { result ≡ (((((optional_in_range f.price && optional_in_range f.old_size) && optional_in_range f.new_size) && optional_in_range f.old_price) && optional_in_range f.new_price) && optional_in_range f.new_funds) }
{
    optional_in_range(f.price)
        & optional_in_range(f.old_size)
        & optional_in_range(f.new_size)
        & optional_in_range(f.old_price)
        & optional_in_range(f.new_price)
        & optional_in_range(f.new_funds)
}

// Whether every amount that is present is in range: number 5 is said of a message where this is false.
#[tactic(auto, unfolding(message::specs::Values::event_in_range))]
pub fn event_in_range(event: L3Event) -> bool
    ensures { result ≡ event_in_range event }
{
    match event {
        L3Event::Received { .. } => true,
        L3Event::Open {
            price,
            remaining,
            ..
        } => in_range(price) & in_range(remaining),
        L3Event::Done {
            price,
            remaining,
            ..
        } => optional_in_range(price) & optional_in_range(remaining),
        L3Event::Match { price, size, .. } => in_range(price) & in_range(size),
        L3Event::Change {
            price,
            old_size,
            new_size,
            old_price,
            new_price,
            new_funds,
            ..
        } => change_in_range(ChangeFields {
            price,
            old_size,
            new_size,
            old_price,
            new_price,
            new_funds,
        }),
        L3Event::Unsupported { .. } => true,
    }
}
