// Arithmetic on i32 that cannot overflow: the results are held by an i64. And a call's number as that of a side, measure, kind or edit.
#![tactic(auto)]

ghost use Rattle.std.specs.Prelude.{◌≡◌, ◌+ℤ◌, ◌*ℤ◌};
ghost use Rattle.std.specs.Int.Signed.{quot_z};
ghost use Rattle.protocol.specs.Lists.{natural};
ghost use Rattle.protocol.specs.Plan.{in_range};

use protocol::limit;

pub fn sum(a: i32, b: i32) -> i64
    ensures { result ≡ a +ℤ b }
{
    i64::from(a) + i64::from(b)
}

pub fn product(a: i32, b: i32) -> i64
    ensures { result ≡ a *ℤ b }
{
    i64::from(a) * i64::from(b)
}

// The fraction is dropped towards zero. A quotient by 0 is 0.
pub fn quotient(a: i32, b: i32) -> i64
    ensures { result ≡ quot_z a b }
{
    i64::from(a).checked_div(i64::from(b)).unwrap_or(0)
}

// 0, which names nothing, for a negative number.
pub fn number(z: i32) -> u32
    ensures { result ≡ natural z }
{
    z.max(0) as u32
}

// The value is in a measure's range.
#[tactic(auto, unfolding(protocol::specs::Lists::within))]
pub fn in_range(v: i32) -> bool
    ensures { result ≡ in_range v }
{
    (limit::LEAST_VALUE..=limit::VALUE).contains(&v)
}
