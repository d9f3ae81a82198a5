// The calls that only read (01, "The calls"): show, fate, left; and the counts of the kept edits.
#![tactic(auto)]

ghost use Rattle.std.specs.Prelude.{cond, ◌≤◌, min, ◌+◌, ◌-◌, length, drop, ◌++◌, ◌≡◌, IfOk, IsOk};
ghost use Rattle.counts.specs.Tallies.{Tallied};
ghost use Rattle.heads.specs.Heads.{mode_of, sides_in, kept_in, unset_in};
ghost use Rattle.protocol.specs.Asked.{verdict_of};
ghost use Rattle.protocol.specs.Calls.{first, shown, step, fate_of_edit, fate_in, left, ok};
ghost use Rattle.protocol.specs.Lists.{natural};
ghost use Rattle.protocol.specs.Plan.{active, measure_limit};
ghost use Rattle.query.specs.Reads.{fate_answer, show_checks, pending_in, unsent_counts, left_number};
ghost use Rattle.records.specs.Records.{kept_of};
ghost use Rattle.rows.specs.Rows.{row};
ghost use Rattle.state.specs.Meets.{answer_of, number};
ghost use Rattle.state.specs.View.{view};

use counts::Tallies;
use heads::{Head, Mode};
use protocol::limit;
use protocol::refusal::Refusal;
use records::{EditRecord, Test};
use state::{Answer, Given, State};

// ---- fate

// The fate and place of an edit; 0 0 if it is not kept.
fn fate_answer(seen: Option<EditRecord>) -> Answer
    ensures { (result ≡ fate_answer seen) × IsOk result }
{
    Ok(match seen {
        Some(e) => Given::Two(e.fate.number(), e.place),
        None => Given::Two(0, 0),
    })
}

// Of the edit that a call's number names.
fn fate_of(edits: &[EditRecord; limit::EDITS], h: &Head, n: i32) -> Answer
    ensures { (answer_of result ≡ ok (fate_in (natural n) (kept_of h.now edits.now))) × IsOk result }
{
    fate_answer(records::find(edits, h.named(n)))
}

#[tactic(auto, unfolding(protocol::specs::Calls::step, protocol::specs::Calls::checks, protocol::specs::Calls::further, protocol::specs::Calls::gives))]
pub fn fate(p: &State, n: i32) -> Answer
    ensures { (answer_of result ≡ (step (fate_of_edit n) (view p.now)).answer) × IsOk result }
{
    fate_of(&p.edits, &p.head, n)
}

// ---- left

// How many sides have no first log yet or unsent edits.
fn pending_sides(arrived: &[bool; limit::SIDES], unsent: &[u32; limit::SIDES], n: usize) -> u32
    ensures { n ≤ 8 → (result ≡ pending_in arrived.now unsent.now n) × (result ≤ 8) }
{
    let mut pending = 0;
    for i in 0..n.min(limit::SIDES) {
        if !arrived[i] || unsent[i] != 0 {
            pending += 1;
        }
    }
    pending
}

// The number left, from the counts of the kept edits: how many are unsent or waiting, and how many each side has unsent.
fn left_number(p: &State, unsent: &[u32; limit::SIDES], unsettled: u32) -> u32
    ensures { result ≡ left_number p.now.head p.now.arrived p.now.confirmed unsent.now (min unsettled 256) }
{
    if !p.head.mode.is_active() {
        return 0;
    }
    pending_sides(&p.arrived, unsent, p.head.side_count())
        + unsettled.min(limit::KEPT)
        + p.head.unset(&p.confirmed)
        + u32::from(p.head.mode == Mode::Joining)
        + 1
}

// There are steps left only while a join is under way.
fn steps_left(mode: Mode, left: u32) -> u32
    ensures { result ≡ cond (active (mode_of mode)) left 0 }
{
    if mode.is_active() { left } else { 0 }
}

// From the number left that is kept beside the state.
pub fn left(p: &State, counts: &Tallies) -> Answer
    ensures exact { result ≡ number (cond (active (mode_of p.now.head.mode)) counts.now.left 0) }
    ensures step { Tallied counts.now (view p.now) → answer_of result ≡ (step left (view p.now)).answer }
{
    Ok(Given::One(steps_left(p.head.mode, counts.left)))
}

// How many edits each side has unsent.
fn unsent_counts(edits: &[EditRecord; limit::EDITS], h: &Head) -> [u32; limit::SIDES]
    ensures { result ≡ unsent_counts h.now edits.now 8 }
{
    let mut unsent = [0; limit::SIDES];
    for i in 0..limit::SIDES {
        unsent[i] = records::count(edits, h, Test::UnsentOf(i as u32 + 1));
    }
    unsent
}

// The counts of kept edits, from the records, the number left and how many first logs are missing.
pub fn tallies(p: &State) -> Tallies
    ensures tallied { Tallied result (view p.now) }
    ensures left { result.left ≡ left_number p.now.head p.now.arrived p.now.confirmed result.unsent (min (kept_in p.now.head - result.settled) 256) }
    ensures missing { result.missing ≡ unset_in p.now.arrived (sides_in p.now.head) }
{
    let unsent = unsent_counts(&p.edits, &p.head);
    let waiting = records::count(&p.edits, &p.head, Test::Waiting);
    let settled = records::count(&p.edits, &p.head, Test::Settled);
    let unsettled = counts::unsettled(&p.head, settled);
    Tallies {
        unsent,
        waiting,
        settled,
        left: left_number(p, &unsent, unsettled),
        missing: p.head.unset(&p.arrived),
    }
}

// ---- show

// From the length of the lent buffer.
fn check_show(h: &Head, s: u32, room: usize) -> Result<(), Refusal>
    ensures { verdict_of result ≡ first (show_checks h.now s room) }
{
    if h.mode == Mode::Blank {
        return Err(Refusal::WrongMode);
    }
    if !rows::one_to(h.side_count(), s) {
        return Err(Refusal::NoSuchSide);
    }
    if room < rows::capped(h.measures, limit::MEASURES) {
        return Err(Refusal::NoRoom);
    }
    Ok(())
}

// The n values from a place on, copied to the front of a buffer that has room for them; the rest is untouched.
fn fill(values: &[i32; limit::VALUES], at: usize, n: usize, buffer: &mut [i32])
    requires { (at + n ≤ length values.now) × (n ≤ length buffer.old) }
    ensures { buffer.new ≡ row values.now at n ++ drop n buffer.old }
{
    rows::copy(buffer, values, at, 0, n);
}

// The side's values in the front of the lent buffer, the rest untouched; gives how many there are. The refusal number, 0 if accepted, goes into the
// number lent beside it; a refusal gives 0 and leaves the buffer as it was. All of show's work is done here, where a contract can speak of the whole
// buffer: of a slice that went into the result, as in show, none can.
// The refusal is a number lent beside the buffer, as 01 says of show ("Which form to use where"), and no Result.
pub fn show_in(p: State, s: i32, buffer: &mut [i32], refusal: &mut u32) -> usize
    ensures { (result ≡ length (shown s (view p) buffer.old).front) × (refusal.new ≡ (shown s (view p) buffer.old).refusal) ×
        (buffer.new ≡ (shown s (view p) buffer.old).buffer) }
{
    let side = exact::number(s);
    if let Err(refused) = check_show(&p.head, side, buffer.len()) {
        *refusal = refused.number();
        return 0;
    }
    *refusal = 0;
    let n = rows::capped(p.head.measures, limit::MEASURES);
    fill(&p.values, heads::offset(side), n, buffer);
    n
}

// The same, with the filled part handed back (01, "Which form to use where"); a refusal hands back an empty part.
pub fn show<'a>(p: State, s: i32, buffer: &'a mut [i32], refusal: &mut u32) -> &'a mut [i32]
    ensures { (refusal.new ≡ (shown s (view p) buffer.old).refusal) × (result.now ≡ (shown s (view p) buffer.old).front) }
{
    let n = show_in(p, s, &mut buffer[..], refusal);
    &mut buffer[..n]
}

// The side whose values a sheet's show gives, which has room for 32.
pub fn shown_side(h: &Head, s: i32) -> Result<u32, Refusal>
    ensures { (verdict_of result ≡ first (show_checks h.now (natural s) measure_limit)) × IfOk result (λ side. side ≡ natural s) }
{
    let side = exact::number(s);
    check_show(h, side, limit::MEASURES)?;
    Ok(side)
}
