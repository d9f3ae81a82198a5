// The trials that are run and not proved (01, "Trials at the edges", and every refusal in the modes where it can occur), over the public
// calls of the plan. Standard input has a call to a line, as on a sheet, and is written out with the answers; behind an edit that is
// refused for a broken rule, and a replay that revokes for one, a line has the rule. A `*` with a call behind it is no call, but has a
// number for the next line: how often its call is made, of which the last is answered, or how long the buffer is that is lent to show.
// Any other line is a title, and takes a blank plan.
#![tactic(auto)]

ghost use Rattle.std.specs.Prelude.{◌+◌, ◌-◌, ◌*◌, ◌<◌, ◌≤◌, length};

use plan::{Answer, Answered, Given, Refusal, State};
use protocol::call::{Call, Edit};
use reader::Line;
use replay::Outcome;
use std::io::Read;

// A text is written out as it comes, and a write that fails ends nothing.
fn put(rt: &impl Print, bytes: &[u8]) {
    let _ = rt.write_all(bytes);
}

// The line of an answer and of a row of values behind it, as on a sheet, but for its first bytes.
fn tell(rt: &impl Print, answer: Answer, row: &[i32], from: usize) {
    let mut space = [0u8; 128];
    if let Some(end) = writer::put(answer, row, &mut space) {
        put(rt, space.get(from..end).unwrap_or(b""));
    }
}

// show into the front of 8 numbers that are all 77: the refusal with the part handed back, and the whole buffer after it.
fn show(rt: &impl Print, p: State, s: i32, room: u32) {
    let mut buffer = [77i32; 8];
    let n = rows::capped(room, buffer.len());
    let mut refusal: u32 = 99;
    let part = plan::show(p, s, &mut buffer[..n], &mut refusal);
    put(rt, b"  refusal and part");
    tell(rt, Ok(Given::One(refusal)), part, 2);
    put(rt, b"  buffer");
    tell(rt, Ok(Given::Nothing), &buffer, 2);
}

// Any call; a show changes nothing, and what it gives is written out elsewhere.
fn call(p: State, call: Call) -> Answered {
    match call {
        Call::Measure(v) => plan::measure(p, v),
        Call::Rule(r) => plan::rule(p, r.lower, r.gap, r.upper, r.firm),
        Call::Open => plan::open_plan(p),
        Call::Split(s) => plan::split(p, s),
        Call::Edit(e) => plan::edit(p, e.side, e.client, e.after, e.measure, e.kind, e.constant),
        Call::Join => plan::join(p),
        Call::Send(s) => plan::send(p, s),
        Call::Replay(n) => plan::replay(p, n),
        Call::Stop => plan::stop(p),
        Call::Confirm(s) => plan::confirm(p, s),
        Call::Install => plan::install(p),
        Call::Fate(n) => plan::fate(p, n),
        Call::Left | Call::Show(_) => plan::left(p),
    }
}

// The rule for which an edit is refused, as what decides has it (02, S-3; no call gives it before S-7).
fn broken_by_edit(p: &State, e: Edit) -> Option<u32> {
    match edit::decide(p, e, None) {
        Err(Refusal::RuleBroken(rule)) => Some(rule),
        _ => None,
    }
}

// The same of a replay that is accepted: no first log is missing.
fn broken_by_replay(p: &State, n: i32) -> Option<u32> {
    match replay::decide(p, n, 0, None) {
        Ok(Outcome::Revoked(rule)) => rule,
        _ => None,
    }
}

fn broken(p: &State, call: Call, accepted: bool) -> Option<u32> {
    match call {
        Call::Edit(e) => broken_by_edit(p, e),
        Call::Replay(n) if accepted => broken_by_replay(p, n),
        _ => None,
    }
}

// A title, or a call with its answer, and with the rule if it breaks one.
fn trial(rt: &impl Print, p: State, asked: Option<Call>, n: u32) -> State {
    match asked {
        None => {
            put(rt, b"\n");
            plan::blank()
        }
        Some(Call::Show(s)) => {
            show(rt, p, s, n);
            p
        }
        Some(asked) => {
            let made = call(p, asked);
            put(rt, b"  ");
            tell(rt, made.answer, &[], 0);
            if let Some(rule) = broken(&p, asked, made.answer.is_ok()) {
                put(rt, b"  rule");
                tell(rt, Ok(Given::One(rule)), &[], 2);
            }
            made.state
        }
    }
}

// The first number of a line's call; 0 if it has none.
fn first_number(call: Option<Call>) -> u32 {
    let Some(call) = call else {
        return 0;
    };
    exact::number(match call {
        Call::Measure(n) | Call::Split(n) | Call::Send(n) | Call::Replay(n) => n,
        Call::Confirm(n) | Call::Show(n) | Call::Fate(n) => n,
        Call::Rule(r) => r.lower,
        Call::Edit(e) => e.side,
        Call::Open | Call::Join | Call::Stop | Call::Install | Call::Left => 0,
    })
}

// Where a run stands: the plan, the number for the next line, and where that begins.
#[derive(Clone, Copy)]
struct Turn {
    state: State,
    n: u32,
    at: usize,
}

// The first line, which ends within the text.
fn read(text: &[u8]) -> Line
    ensures { result.end ≤ length text.now }
{
    reader::read_line(text)
}

// The next line. A call that is to be made again is made here once, and its line comes next with a number less by one: what is
// left, the number and 1,000,000 for each byte, falls with every turn.
fn next(rt: &impl Print, turn: Turn, text: &[u8]) -> Turn
    requires { turn.at < length text.now }
    ensures { result.n + 1000000 * (length text.now - result.at) < turn.n + 1000000 * (length text.now - turn.at) }
{
    let rest = &text[turn.at..];
    let line = read(rest);
    if let Some(asked) = line.call {
        if 1 < turn.n && !matches!(asked, Call::Show(_)) {
            return Turn {
                state: call(turn.state, asked).state,
                n: turn.n - 1,
                ..turn
            };
        }
    }
    put(rt, &rest[..line.end]);
    let at = turn.at + line.end + 1;
    if rest[0] == b'*' {
        put(rt, b"\n");
        let named = reader::read_line(&rest[1..]);
        return Turn {
            n: first_number(named.call) % 1000000,
            at,
            ..turn
        };
    }
    Turn {
        state: trial(rt, turn.state, line.call, turn.n),
        n: 0,
        at,
    }
}

fn run(rt: &impl Print, text: &[u8]) {
    let mut turn = Turn {
        state: plan::blank(),
        n: 0,
        at: 0,
    };
    // Where a line begins only the one before it tells.
    while turn.at < text.len() {
        turn = next(rt, turn, text);
    }
}

// Reads until the input ends, `text` is full or a read fails, and returns how many bytes were read.
fn read_text(input: &mut impl Read, text: &mut [u8]) -> usize
    ensures { result ≤ length text.new }
{
    let mut done: usize = 0;
    // How far it goes on each read tells.
    while done < text.len() {
        match input.read(&mut text[done..]) {
            Ok(0) | Err(_) => return done,
            Ok(n) => done += n,
        }
    }
    done
}

fn main(rt: HostRuntime) {
    let mut space = [0u8; 65536];
    let n = read_text(&mut rt.stdin(), &mut space);
    run(&rt, &space[..n]);
}
