// Counts, places and rows of values in arrays: capped, told to be of a range, copied.
#![tactic(auto)]

ghost use Rattle.std.specs.Prelude.{◌≡◌, min};
ghost use Rattle.protocol.specs.Lists.{one_to};
ghost use Rattle.rows.specs.Rows.{copied_in};

pub fn capped(n: u32, cap: usize) -> usize
    ensures { result ≡ min n cap }
{
    (n as usize).min(cap)
}

// n is one of 1 to k.
pub fn one_to(k: usize, n: u32) -> bool
    ensures { result ≡ one_to k n }
{
    (1..=k).contains(&(n as usize))
}

// ---- rows copied

// Copies n values from a place to a place, as far as both arrays have them.
pub fn copy(into: &mut [i32], values: &[i32], from: usize, to: usize, n: usize)
    ensures { into.new ≡ copied_in into.old values.now from to n }
{
    let room = into.len().saturating_sub(to);
    let size = n.min(room).min(values.len().saturating_sub(from));
    // Where there is none to copy, the place may lie past the end.
    if 0 < size {
        into[to..to + size].copy_from_slice(&values[from..from + size]);
    }
}
