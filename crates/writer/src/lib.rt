// Writes one answer line (01, "The sheet program"): `ok` and the numbers given, `ok 0` where there are none, or `no` and the refusal.
#![tactic(auto)]

ghost use Rattle.std.specs.Prelude.{◌≡◌, [], ◌+◌, ◌-◌, ◌*◌, ◌<◌, ◌≤◌, leb, length};
ghost use Rattle.std.proofs.lemmas.List.Edits.{sets};
ghost use Rattle.format.specs.Numbers.{digits, written};
ghost use Rattle.format.specs.Sheets.{spaced};
ghost use Rattle.state.specs.declared.Given.TheVariants as Given;
ghost use Rattle.writer.specs.Writes.{line_of, put_in, put_count, two_digits, told, numbers_told, head_of, ended, ok_letters, parts_of, unreadable};

use protocol::refusal::Refusal;
use state::{Answer, Given};

// ---- a number

// How many digits a number has.
fn width(n: u32) -> usize
    ensures { (result ≡ length (digits n)) × (result ≤ 10) }
{
    match n {
        0..=9 => 1,
        10..=99 => 2,
        100..=999 => 3,
        1_000..=9_999 => 4,
        10_000..=99_999 => 5,
        100_000..=999_999 => 6,
        1_000_000..=9_999_999 => 7,
        10_000_000..=99_999_999 => 8,
        100_000_000..=999_999_999 => 9,
        _ => 10,
    }
}

// Two digits up to a place. The second is what the quotient leaves, which compiles to less than `n % 10`.
fn put_two(n: u32, end: usize, area: &mut [u8])
    requires { (n < 100) × (2 ≤ end) × (end ≤ length area.old) }
    ensures { area.new ≡ sets area.old (end - 2) (two_digits n) }
{
    let ten = n / 10;
    area[end - 2] = b'0' + ten as u8;
    area[end - 1] = b'0' + (n - ten * 10) as u8;
}

// The digits of n up to a place, written from the last to the first, two at a time; the place where they begin.
fn put_back(n: u32, end: usize, area: &mut [u8]) -> usize
    requires { (length (digits n) ≤ end) × (end ≤ length area.old) }
    ensures { (area.new ≡ sets area.old result (digits n)) × (result + length (digits n) ≡ end) }
{
    let mut m = n;
    let mut i = end;
    while 100 <= m {
        put_two(m % 100, i, area);
        i -= 2;
        m /= 100;
    }
    if 10 <= m {
        put_two(m, i, area);
        return i - 2;
    }
    area[i - 1] = b'0' + m as u8;
    i - 1
}

// A space and the digits of n up to a place; the place where they begin.
#[tactic(auto, using(crate::proofs::Writes::sets_before))]
fn put_spaced(n: u32, end: usize, area: &mut [u8]) -> usize
    requires { (length (told n) ≤ end) × (end ≤ length area.old) }
    ensures { (area.new ≡ sets area.old result (told n)) × (result + length (told n) ≡ end) }
{
    let at = put_back(n, end, area) - 1;
    area[at] = b' ';
    at
}

// The digits of n from a place on; the place behind them.
fn put_digits(n: u32, at: usize, area: &mut [u8]) -> usize
    requires { at + length (digits n) ≤ length area.old }
    ensures { (area.new ≡ sets area.old at (digits n)) × (result ≡ at + length (digits n)) }
{
    let end = at + width(n);
    put_back(n, end, area);
    end
}

#[tactic(auto, using(crate::proofs::Widths::length_read))]
fn signed_width(x: i32) -> usize
    ensures { (result ≡ length (written x)) × (result ≤ 11) }
{
    usize::from(x < 0) + width(x.unsigned_abs())
}

#[tactic(auto, using(crate::proofs::Widths::minus_read, crate::proofs::Widths::plain_read, crate::proofs::Writes::sets_more))]
fn put_signed(x: i32, at: usize, area: &mut [u8]) -> usize
    requires { at + length (written x) ≤ length area.old }
    ensures { (area.new ≡ sets area.old at (written x)) × (result ≡ at + length (written x)) }
{
    let size = x.unsigned_abs();
    if x < 0 {
        area[at] = b'-';
        return put_digits(size, at + 1, area);
    }
    put_digits(size, at, area)
}

// ---- a row

// A value has at most 11 bytes and a space. The loop changes nothing, and a compiler drops it: that a value of a slice is an i32 the proof knows only
// once it is read.
#[tactic(auto, using(crate::proofs::Widths::read_next, crate::proofs::Widths::read_over))]
fn row_most(row: &[i32])
    ensures { length (spaced row.now) ≤ 12 * length row.now }
{
    for &x in row {
        let _x = x;
    }
}

// Whether the values of a row, each behind a space, have room. 32 of them take at most 384 bytes, so they are measured only where they are more or
// there is less room.
fn row_fits(row: &[i32], room: usize) -> bool
    ensures { result ≡ leb (length (spaced row.now)) room }
{
    if row.len() <= 32 && 384 <= room {
        row_most(row);
        return true;
    }
    let mut left = room;
    for &x in row {
        let w = signed_width(x);
        if left <= w {
            return false;
        }
        left -= w + 1;
    }
    true
}

fn put_row(row: &[i32], at: usize, area: &mut [u8]) -> usize
    requires { at + length (spaced row.now) ≤ length area.old }
    ensures { (area.new ≡ sets area.old at (spaced row.now)) × (result ≡ at + length (spaced row.now)) }
{
    let mut end = at;
    for &x in row {
        area[end] = b' ';
        end = put_signed(x, end + 1, area);
    }
    end
}

// ---- two letters, and the numbers given, each behind a space

#[inline(always)]
fn numbers_width(given: Given) -> usize
    ensures { (result ≡ length (numbers_told given)) × (result ≤ 33) }
{
    match given {
        Given::Nothing => 0,
        Given::One(a) => 1 + width(a),
        Given::Two(a, b) => 2 + width(a) + width(b),
        Given::Three(a, b, c) => 3 + width(a) + width(b) + width(c),
    }
}

// The numbers up to a place, the last first; the place where they begin.
#[inline(always)]
fn put_numbers(given: Given, end: usize, area: &mut [u8]) -> usize
    requires { (length (numbers_told given) ≤ end) × (end ≤ length area.old) }
    ensures { (area.new ≡ sets area.old result (numbers_told given)) × (result + length (numbers_told given) ≡ end) }
{
    match given {
        Given::Nothing => end,
        Given::One(first) => put_spaced(first, end, area),
        Given::Two(first, second) => {
            let middle = put_spaced(second, end, area);
            put_spaced(first, middle, area)
        }
        Given::Three(first, second, third) => {
            let last = put_spaced(third, end, area);
            let middle = put_spaced(second, last, area);
            put_spaced(first, middle, area)
        }
    }
}

// `ok` and the numbers up to an end, which is known.
#[inline(always)]
fn put_head(given: Given, end: usize, area: &mut [u8])
    requires { (end ≡ length (head_of ok_letters given)) × (end ≤ length area.old) }
    ensures { area.new ≡ sets area.old 0 (head_of ok_letters given) }
{
    area[0] = b'o';
    area[1] = b'k';
    put_numbers(given, end, area);
}

// ---- a line

// With a row behind. The parts of the line are measured before the first byte is written.
fn put_parts(given: Given, row: &[i32], area: &mut [u8]) -> Option<usize>
    ensures { (area.new ≡ put_in (parts_of given row.now) area.old) × (result ≡ put_count (parts_of given row.now) area.old) }
{
    let w = 2 + numbers_width(given);
    let room = area.len().checked_sub(w + 1)?;
    if !row_fits(row, room) {
        return None;
    }
    put_head(given, w, area);
    let end = put_row(row, w, area);
    area[end] = b'\n';
    Some(end + 1)
}

// With no row behind.
fn put_line(given: Given, area: &mut [u8]) -> Option<usize>
    ensures { (area.new ≡ put_in (ended (head_of ok_letters given)) area.old) × (result ≡ put_count (ended (head_of ok_letters given)) area.old) }
{
    let w = 2 + numbers_width(given);
    if area.len() <= w {
        return None;
    }
    put_head(given, w, area);
    area[w] = b'\n';
    Some(w + 1)
}

// Two letters and one number, as nearly all lines are: the same as above in a straight line, for speed alone.
fn put_one(letters: [u8; 2], n: u32, area: &mut [u8]) -> Option<usize>
    ensures { (area.new ≡ put_in (ended (head_of letters (Given.One n))) area.old) × (result ≡ put_count (ended (head_of letters (Given.One n))) area.old) }
{
    let w = 3 + width(n);
    if area.len() <= w {
        return None;
    }
    area[0] = letters[0];
    area[1] = letters[1];
    put_spaced(n, w, area);
    area[w] = b'\n';
    Some(w + 1)
}

// The answer to every line that cannot be read, as it stands.
fn put_unreadable(area: &mut [u8]) -> Option<usize>
    ensures { (area.new ≡ put_in unreadable area.old) × (result ≡ put_count unreadable area.old) }
{
    let line = b"no 51\n";
    if area.len() < line.len() {
        return None;
    }
    area[..line.len()].copy_from_slice(line);
    Some(line.len())
}

// Numbers alone. No number is told as 0.
#[tactic(auto, using(crate::proofs::Parts::line_nothing, crate::proofs::Parts::line_alone))]
fn put_alone(given: Given, area: &mut [u8]) -> Option<usize>
    ensures { (area.new ≡ put_in (line_of (Ok given) []) area.old) × (result ≡ put_count (line_of (Ok given) []) area.old) }
{
    match given {
        Given::Nothing => put_one(*b"ok", 0, area),
        Given::One(n) => put_one(*b"ok", n, area),
        _ => put_line(given, area),
    }
}

// The line of an answer whose numbers are its own and those of a row behind them, put into the front of an area that has room for it.
// Gives the line's length; where it does not fit there is none, and the area is left as it was. A refusal has one number, and no row behind.
#[tactic(auto, using(crate::proofs::Parts::line_refused, crate::proofs::Parts::line_unreadable, crate::proofs::Parts::line_behind))]
pub fn put(answer: Answer, row: &[i32], area: &mut [u8]) -> Option<usize>
    ensures { (area.new ≡ put_in (line_of answer row.now) area.old) × (result ≡ put_count (line_of answer row.now) area.old) }
{
    match answer {
        Err(Refusal::Unreadable) => put_unreadable(area),
        Err(refusal) => put_one(*b"no", refusal.number(), area),
        Ok(given) if row.is_empty() => put_alone(given, area),
        Ok(given) => put_parts(given, row, area),
    }
}
