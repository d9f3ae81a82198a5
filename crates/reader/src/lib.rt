// Reads the first line of a sheet's rest (01, "The sheet program"): a call's name and its numbers, with one space between. One pass: the line feed is
// met where a word ends.
#![tactic(auto)]

ghost use Rattle.std.specs.Prelude.{◌≡◌, false, ◌+◌, ◌*◌, ◌<◌, ◌≤◌, min, length, drop, get_or, position, ◌==◌};
ghost use Rattle.protocol.specs.Asked.{asked};
ghost use Rattle.format.specs.Lines.{line_feed, line_call};
ghost use Rattle.reader.specs.Cut.{up_to, first_line};
ghost use Rattle.reader.specs.Reads.{word_at, number_at, magnitude_at, followed, is_end, ending, op_of, taken_by, place_of, place_in, call_from, Named, line_in, Taken};

use protocol::call::{Call, Edit, Rule};

// What was read, with the place behind it.
#[derive(Clone, Copy)]
struct Found<T> {
    value: T,
    next: usize,
}

// Which of the fourteen calls.
#[derive(Clone, Copy)]
enum Op {
    Measure,
    Rule,
    Open,
    Split,
    Edit,
    Join,
    Send,
    Replay,
    Stop,
    Confirm,
    Install,
    Show,
    Fate,
    Left,
}

impl Op {
    // How many numbers the call takes.
    #[tactic(auto, unfolding(crate::specs::Reads::taken_by))]
    fn count(self) -> usize
        ensures { result ≡ taken_by (place_of self) }
    {
        match self {
            Op::Open | Op::Join | Op::Stop | Op::Install | Op::Left => 0,
            Op::Measure | Op::Split | Op::Send | Op::Replay | Op::Confirm | Op::Show | Op::Fate =>
                1,
            Op::Rule => 4,
            Op::Edit => 6,
        }
    }

    // The call with its numbers, as many of these as it takes.
    fn call(self, numbers: &[i32; 6]) -> Call
        ensures { asked result ≡ call_from self numbers.now }
    {
        let [a, b, c, d, e, f] = *numbers;
        match self {
            Op::Measure => Call::Measure(a),
            Op::Rule => Call::Rule(Rule {
                lower: a,
                gap: b,
                upper: c,
                firm: d,
            }),
            Op::Open => Call::Open,
            Op::Split => Call::Split(a),
            Op::Edit => Call::Edit(Edit {
                side: a,
                client: b,
                after: c,
                measure: d,
                kind: e,
                constant: f,
            }),
            Op::Join => Call::Join,
            Op::Send => Call::Send(a),
            Op::Replay => Call::Replay(a),
            Op::Stop => Call::Stop,
            Op::Confirm => Call::Confirm(a),
            Op::Install => Call::Install,
            Op::Show => Call::Show(a),
            Op::Fate => Call::Fate(a),
            Op::Left => Call::Left,
        }
    }
}

// A line's call, if it can be read, and the line's length.
#[derive(Clone, Copy)]
pub struct Line {
    pub call: Option<Call>,
    pub end: usize,
}

// ---- bytes

// The byte at a place. A sheet ends as if by a line feed.
fn byte_at(sheet: &[u8], at: usize) -> u8
    ensures { result ≡ get_or sheet.now at line_feed }
{
    sheet.get(at).copied().unwrap_or(b'\n')
}

// Whether a word ends at the byte.
fn ends(b: u8) -> bool
    ensures { result ≡ is_end b }
{
    b == b' ' || b == b'\n'
}

// The place of the first line feed.
fn first_feed(bytes: &[u8]) -> Option<usize>
    ensures { result ≡ position (λ b. b == line_feed) bytes.now }
{
    bytes.iter().position(|b| *b == b'\n')
}

// The place of the first line feed from a place on, or the sheet's length.
fn line_end(sheet: &[u8], at: usize) -> usize
    ensures { result ≡ min at (length sheet.now) + length (up_to line_feed (drop at sheet.now)) }
{
    let from = at.min(sheet.len());
    let rest = &sheet[from..];
    from + first_feed(rest).unwrap_or(rest.len())
}

// ---- numbers

// A number's digits end before a byte, or go on with something else.
fn ended(b: u8, n: u32, at: usize) -> Option<Found<u32>>
    ensures { result ≡ ending b n at }
{
    ends(b).then_some(Found { value: n, next: at })
}

// The digits that follow a first one, from a place on: at most 8.
fn further(sheet: &[u8], from: usize, first: u32) -> Option<Found<u32>>
    requires { (first < 10) × (from ≤ length (first_line sheet.now)) }
    ensures { result ≡ followed 0 first from (word_at (first_line sheet.now) from) }
{
    let last = from + 8;
    let mut n = first;
    for i in from..last {
        let b = byte_at(sheet, i);
        if !b.is_ascii_digit() {
            return ended(b, n, i);
        }
        n = 10 * n + u32::from(b - b'0');
    }
    ended(byte_at(sheet, last), n, last)
}

// 1 to 9 digits of which the first is not 0.
fn read_digits(sheet: &[u8], at: usize) -> Option<Found<u32>>
    requires { at ≤ length (first_line sheet.now) }
    ensures { result ≡ magnitude_at (first_line sheet.now) at }
{
    let b = byte_at(sheet, at);
    if !b.is_ascii_digit() || b == b'0' {
        return None;
    }
    further(sheet, at + 1, u32::from(b - b'0'))
}

// The number written by the word that begins at a place, whatever its length and sign, but for a 0 alone.
fn read_signed(sheet: &[u8], at: usize) -> Option<Found<i32>>
    requires { (at ≤ length (first_line sheet.now)) × (get_or sheet.now at line_feed ≡ 48 → is_end (get_or sheet.now (at + 1) line_feed) ≡ false) }
    ensures { result ≡ number_at (first_line sheet.now) at }
{
    let minus = byte_at(sheet, at) == b'-';
    let size = read_digits(sheet, at + usize::from(minus))?;
    let n = size.value.cast_signed();
    Some(Found {
        value: if minus { -n } else { n },
        next: size.next,
    })
}

// The number written by the word that begins at a place. Most have one digit, and are read at once.
#[tactic(auto, using(crate::proofs::Scans::digit_alone, crate::proofs::Scans::small_signed, format::proofs::Digits::digit_range))]
fn read_number(sheet: &[u8], at: usize) -> Option<Found<i32>>
    requires { at ≤ length (first_line sheet.now) }
    ensures { result ≡ number_at (first_line sheet.now) at }
{
    let b = byte_at(sheet, at);
    if b.is_ascii_digit() && ends(byte_at(sheet, at + 1)) {
        return Some(Found {
            value: i32::from(b - b'0'),
            next: at + 1,
        });
    }
    read_signed(sheet, at)
}

// ---- names

// The call of a name.
#[tactic(auto, using(crate::proofs::Names::no_name), unfolding(crate::specs::Reads::op_of))]
fn op_named(name: &[u8]) -> Option<Op>
    ensures { place_in result ≡ op_of name.now }
{
    let op = match name {
        b"measure" => Op::Measure,
        b"rule" => Op::Rule,
        b"open" => Op::Open,
        b"split" => Op::Split,
        b"edit" => Op::Edit,
        b"join" => Op::Join,
        b"send" => Op::Send,
        b"replay" => Op::Replay,
        b"stop" => Op::Stop,
        b"confirm" => Op::Confirm,
        b"install" => Op::Install,
        b"show" => Op::Show,
        b"fate" => Op::Fate,
        b"left" => Op::Left,
        _ => return None,
    };
    Some(op)
}

// The call of a line's first word. Every name has 4 letters or more, so the first 4 bytes are taken as they are: where the word ends among them, they
// spell no name. A word longer than any name is not read on.
fn read_name(sheet: &[u8]) -> Option<Found<Op>>
    ensures { Named (first_line sheet.now) result }
{
    for next in 4..8 {
        if ends(byte_at(sheet, next)) {
            return Some(Found {
                value: op_named(sheet.get(..next)?)?,
                next,
            });
        }
    }
    None
}

// ---- lines

// The call of the first line, with the line's length; or a place of a line that cannot be read. A word that is no number ends it at once
// (01: "ends its line at once with 51"), and so does a number too many.
fn read_call(sheet: &[u8]) -> Result<Found<Call>, usize>
    ensures { Taken (first_line sheet.now) result }
{
    let name = read_name(sheet).ok_or(0usize)?;
    let op = name.value;
    let mut numbers = [0i32; 6];
    let mut at = name.next;
    for k in 0..op.count() {
        if byte_at(sheet, at) == b'\n' {
            return Err(at);
        }
        let Some(number) = read_number(sheet, at + 1) else {
            return Err(at);
        };
        numbers[k] = number.value;
        at = number.next;
    }
    if byte_at(sheet, at) != b'\n' {
        return Err(at);
    }
    Ok(Found {
        value: op.call(&numbers),
        next: at,
    })
}

// The call that the first line asks for, and the line's length.
#[tactic(auto, using(crate::proofs::Cut::line_rest))]
pub fn read_line(sheet: &[u8]) -> Line
    ensures call { line_in result ≡ line_call (first_line sheet.now) }
    ensures end { result.end ≡ length (first_line sheet.now) }
{
    match read_call(sheet) {
        Ok(read) => Line {
            call: Some(read.value),
            end: read.next,
        },
        Err(at) => Line {
            call: None,
            end: line_end(sheet, at),
        },
    }
}
