// A change as its kind number picks it, and what it makes of a value (01, "The plan").
#![tactic(auto)]

ghost use Rattle.std.specs.Prelude.{◌≡◌};
ghost use Rattle.protocol.specs.Plan.{is_factor, applied};
ghost use Rattle.change.specs.Change.{view_change, made_of, ranged_of};

use protocol::limit;

#[derive(Clone, Copy)]
pub enum Change {
    Set(i32),
    Add(i32),
    Multiply(i32),
    Divide(i32),
}

impl Change {
    // The change of a kind number and a constant, two numbers of a call that are no value of their own: no TryFrom.
    // Every other number, and a constant that the kind does not take, is refused as 24.
    #[tactic(auto, unfolding(crate::specs::Change::made_of))]
    pub fn of(kind: u32, constant: i32) -> Option<Change>
        ensures { result ≡ made_of kind constant }
    {
        match kind {
            1 => exact::in_range(constant).then_some(Change::Set(constant)),
            2 => exact::in_range(constant).then_some(Change::Add(constant)),
            3 => is_factor(constant).then_some(Change::Multiply(constant)),
            4 => is_factor(constant).then_some(Change::Divide(constant)),
            _ => None,
        }
    }

    // The value that a change makes of a value, if it is in a measure's range.
    #[tactic(auto, unfolding(protocol::specs::Plan::applied))]
    pub fn apply(self, x: i32) -> Option<i32>
        ensures { result ≡ ranged_of (applied (view_change self) x) }
    {
        ranged(match self {
            Change::Set(k) => i64::from(k),
            Change::Add(k) => exact::sum(x, k),
            Change::Multiply(k) => exact::product(x, k),
            Change::Divide(k) => exact::quotient(x, k),
        })
    }
}

// Whether a multiply or a divide takes a constant.
#[tactic(auto, unfolding(protocol::specs::Lists::within, protocol::specs::Plan::is_factor))]
fn is_factor(k: i32) -> bool
    ensures { result ≡ is_factor k }
{
    matches!(k, -10..=-1 | 1..=10)
}

// A measure's range, for a result that may be no i32.
const MOST: i64 = limit::VALUE as i64;

const LEAST: i64 = -MOST;

// The result as a value, if it is in a measure's range. The range is looked at before the number is made an i32 and not behind it, for speed (docs/DECISIONS.md).
#[tactic(auto, unfolding(crate::specs::Change::ranged_of, protocol::specs::Lists::within))]
fn ranged(x: i64) -> Option<i32>
    ensures { result ≡ ranged_of x }
{
    match x {
        LEAST..=MOST => Some(x as i32),
        _ => None,
    }
}
