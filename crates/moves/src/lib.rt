// Internal, for `calls`: the calls that part a plan and join it again (01, "The calls"): split, join, send, stop, confirm, install. Each changes the plan in
// place. How many edits a side has unsent and how many wait, the plan's owner counts.
#![tactic(auto)]

ghost use Rattle.std.specs.Prelude.{true, false, map, get_or, set, OnOk, ◌≡◌};
ghost use Rattle.heads.specs.Heads.{mode_of, index_of};
ghost use Rattle.moves.specs.Moves.{split_checks, send_checks, turn_checks, confirm_checks, first_head, split_base, Waiting, Unsent};
ghost use Rattle.protocol.specs.Asked.{number_of, verdict_of};
ghost use Rattle.protocol.specs.Calls.{split-side, join, send, first, mark_sent, stop, confirm, install};
ghost use Rattle.protocol.specs.Lists.{natural};
ghost use Rattle.protocol.specs.Plan.{mode_number};
ghost use Rattle.records.specs.Records.{kept_of};
ghost use Rattle.state.specs.Meets.{Makes, SameRules, IfRefused, number};

use heads::{Head, Mode};
use protocol::limit;
use protocol::refusal::Refusal;
use records::{EditRecord, Fate, Test};
use state::{Answer, Given, State};

// ---- checks

fn split_check(h: &Head, s: u32) -> Result<(), Refusal>
    ensures { verdict_of result ≡ first (split_checks h.now s) }
{
    if !matches!(h.mode, Mode::Whole | Mode::Split) {
        return Err(Refusal::WrongMode);
    }
    let sides = h.side_count();
    if !rows::one_to(sides, s) {
        return Err(Refusal::NoSuchSide);
    }
    if limit::SIDES <= sides {
        return Err(Refusal::TooManySides);
    }
    Ok(())
}

// From whether the side's first log has arrived and how many edits it has unsent.
fn send_check(h: &Head, s: u32, arrived: bool, unsent: u32) -> Result<(), Refusal>
    ensures { verdict_of result ≡ first (send_checks h.now s arrived unsent) }
{
    if !h.mode.is_active() {
        return Err(Refusal::WrongMode);
    }
    if !rows::one_to(h.side_count(), s) {
        return Err(Refusal::NoSuchSide);
    }
    if arrived && unsent == 0 {
        return Err(Refusal::NothingToSend);
    }
    Ok(())
}

// What stop and install share: the mode, then the refusal of a plan in which sides miss a flag, then the edits that wait.
fn turn_check(
    h: &Head,
    mode: Mode,
    refusal: Refusal,
    missing: u32,
    waiting: u32,
) -> Result<(), Refusal>
    ensures { verdict_of result ≡ first (turn_checks h.now (mode_number (mode_of mode)) (number_of refusal) missing waiting) }
{
    if h.mode != mode {
        return Err(Refusal::WrongMode);
    }
    if missing != 0 {
        return Err(refusal);
    }
    if waiting != 0 {
        return Err(Refusal::EditsWait);
    }
    Ok(())
}

// From whether the side has confirmed and how many edits it has unsent.
fn confirm_check(h: &Head, s: u32, confirmed: bool, unsent: u32) -> Result<(), Refusal>
    ensures { verdict_of result ≡ first (confirm_checks h.now s confirmed unsent) }
{
    if h.mode != Mode::Closing {
        return Err(Refusal::WrongMode);
    }
    if !rows::one_to(h.side_count(), s) {
        return Err(Refusal::NoSuchSide);
    }
    if confirmed {
        return Err(Refusal::ConfirmedBefore);
    }
    if unsent != 0 {
        return Err(Refusal::EditsUnsent);
    }
    Ok(())
}

// ---- parts of a plan

// A side's unsent edits are sent; the others stay as they are.
fn mark(edits: &mut [EditRecord; limit::EDITS], h: &Head, s: u32)
    ensures { kept_of h.now edits.new ≡ map (mark_sent s) (kept_of h.now edits.old) }
{
    let kept = rows::capped(h.kept, limit::EDITS);
    for e in &mut edits[..kept] {
        if e.passes(Test::UnsentOf(s)) {
            e.fate = Fate::Waiting;
            e.replied = true;
        }
    }
}

// The first split of a whole plan drops the kept edits and makes a base of side 1's measures.
fn begin(p: &mut State)
    ensures { p.new ≡ record p.old { head = first_head p.old.head; base = split_base p.old.head p.old.base p.old.values } }
{
    if p.head.mode == Mode::Whole {
        p.head.kept = 0;
        p.head.based = p.head.measures;
        p.base.copy_from_slice(&p.values[..limit::MEASURES]);
    }
}

// ---- the calls

pub fn split(p: &mut State, s: i32) -> Answer
    ensures step { Makes (split-side s) p.old result p.new }
    ensures same { IfRefused result (p.new ≡ p.old) }
    ensures rules { SameRules p.old p.new }
    ensures edits { p.new.edits ≡ p.old.edits }
{
    let from = exact::number(s);
    split_check(&p.head, from)?;
    let sides = p.head.side_count() as u32;
    let to = sides + 1;
    begin(p);
    p.head.mode = Mode::Split;
    p.head.added = sides;
    let row = heads::offset(from);
    let new_row = heads::offset(to);
    p.values.copy_within(row..row + limit::MEASURES, new_row);
    let place = heads::index(to);
    p.arrived[place] = false;
    p.confirmed[place] = false;
    Ok(Given::One(to))
}

pub fn join(p: &mut State) -> Answer
    ensures step { Makes join p.old result p.new }
    ensures same { IfRefused result (p.new ≡ p.old) }
    ensures rules { SameRules p.old p.new }
    ensures edits { p.new.edits ≡ p.old.edits }
{
    if p.head.mode != Mode::Split {
        return Err(Refusal::WrongMode);
    }
    p.head.mode = Mode::Joining;
    p.head.drafted = p.head.based;
    p.draft = p.base;
    p.arrived = [false; limit::SIDES];
    p.confirmed = [false; limit::SIDES];
    Ok(Given::Nothing)
}

pub fn send(p: &mut State, s: i32, unsent: u32) -> Answer
    ensures step { Unsent p.old (natural s) unsent → Makes (send s) p.old result p.new }
    ensures verdict { verdict_of result ≡ first (send_checks p.old.head (natural s) (get_or p.old.arrived (index_of (natural s)) false) unsent) }
    ensures accepted { OnOk result ((result ≡ number unsent) × (p.new ≡ record p.old { arrived = set p.old.arrived (index_of (natural s)) true; edits = p.new.edits })) }
    ensures marked { OnOk result (kept_of p.old.head p.new.edits ≡ map (mark_sent (natural s)) (kept_of p.old.head p.old.edits)) }
    ensures same { IfRefused result (p.new ≡ p.old) }
    ensures rules { SameRules p.old p.new }
{
    let side = exact::number(s);
    let place = heads::index(side);
    send_check(&p.head, side, p.arrived[place], unsent)?;
    mark(&mut p.edits, &p.head, side);
    p.arrived[place] = true;
    Ok(Given::One(unsent))
}

pub fn stop(p: &mut State, waiting: u32) -> Answer
    ensures step { Waiting p.old waiting → Makes stop p.old result p.new }
    ensures same { IfRefused result (p.new ≡ p.old) }
    ensures rules { SameRules p.old p.new }
    ensures edits { p.new.edits ≡ p.old.edits }
{
    let missing = p.head.unset(&p.arrived);
    turn_check(
        &p.head,
        Mode::Joining,
        Refusal::LogMissing,
        missing,
        waiting,
    )?;
    p.head.mode = Mode::Closing;
    Ok(Given::Nothing)
}

pub fn confirm(p: &mut State, s: i32, unsent: u32) -> Answer
    ensures step { Unsent p.old (natural s) unsent → Makes (confirm s) p.old result p.new }
    ensures same { IfRefused result (p.new ≡ p.old) }
    ensures rules { SameRules p.old p.new }
    ensures edits { p.new.edits ≡ p.old.edits }
{
    let side = exact::number(s);
    let place = heads::index(side);
    confirm_check(&p.head, side, p.confirmed[place], unsent)?;
    p.confirmed[place] = true;
    Ok(Given::Nothing)
}

// The draft becomes side 1's measures. The kept edits' numbers go on ending below the next number of now.
pub fn install(p: &mut State, waiting: u32) -> Answer
    ensures step { Waiting p.old waiting → Makes install p.old result p.new }
    ensures same { IfRefused result (p.new ≡ p.old) }
    ensures rules { SameRules p.old p.new }
    ensures edits { p.new.edits ≡ p.old.edits }
{
    let missing = p.head.unset(&p.confirmed);
    turn_check(
        &p.head,
        Mode::Closing,
        Refusal::Unconfirmed,
        missing,
        waiting,
    )?;
    p.head.mode = Mode::Whole;
    p.head.measures = p.head.drafted;
    p.head.mark = p.head.next;
    rows::copy(&mut p.values, &p.draft, 0, 0, limit::MEASURES);
    p.arrived[0] = false;
    p.confirmed[0] = false;
    Ok(Given::Nothing)
}
