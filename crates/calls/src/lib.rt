// Internal, for `run` and `plan`: every call (01, "The calls"), made on a plan and on what its owner keeps beside it. There is one contract for all (specs/Makes):
// where what is kept beside the plan is true of it, the answer and the plan are the protocol's, and what is kept stays true.
#![tactic(auto)]

ghost use Rattle.std.specs.Prelude.{◌≡◌, false, cond, Some, None, Err, option_copied};
ghost use Rattle.calls.specs.Makes.{Readied, Remade, Known, KnownIf, Changes, Made, is_show, is_edit, log_before, Noted, Shows};
ghost use Rattle.counts.specs.Tallies.{Tallied, unsent_in};
ghost use Rattle.protocol.specs.Lists.{natural};
ghost use Rattle.state.specs.View.{view};

use counts::Tallies;
use heads::Head;
use protocol::call::{Call, Edit};
use protocol::refusal::Refusal;
use rules::Index;
use state::{Answer, Given, State};

// What a call tells: its answer, and the side whose values it gives besides.
#[derive(Clone, Copy)]
pub struct Told {
    pub answer: Answer,
    pub shown: Option<u32>,
}

// What the owner of a plan keeps beside it: the counts of its kept edits, the index of its rules, if it was made, and whether every rule is known to hold (`sound`),
// which is when the index is asked.
#[derive(Clone, Copy)]
pub struct Beside {
    pub counts: Tallies,
    pub index: Option<Index>,
    pub sound: bool,
}

impl Beside {
    // Of a plan of which it is known or not that every rule holds. No index is made before it is asked.
    pub fn of(p: &State, sound: bool) -> Beside
        ensures { (Tallied result.counts (view p.now)) × (result.index ≡ None) × (result.sound ≡ sound) }
    {
        Beside {
            counts: query::tallies(p),
            index: None,
            sound,
        }
    }

    // For an edit of a plan of which nothing is known: it needs no counts, and counting goes over the kept edits.
    pub fn unknown() -> Beside
        ensures { (result.index ≡ None) × (result.sound ≡ false) }
    {
        Beside {
            counts: Tallies::none(),
            index: None,
            sound: false,
        }
    }

    // The index is made first where an edit or a replay asks it.
    #[inline(always)]
    fn ready(&mut self, p: &State)
        ensures { Readied p.now self.old self.new }
    {
        if self.sound && self.index.is_none() {
            self.make_index(p);
        }
    }

    // It has one caller that is compiled into two, so that the test alone is.
    #[inline(never)]
    fn make_index(&mut self, p: &State)
        ensures { Remade p.now self.old self.new }
    {
        self.index = Some(Index::of(&p.table, p.head.rules));
    }

    // The index, where every rule is known to hold.
    fn asked(&self) -> Option<&Index>
        ensures { option_copied result ≡ cond self.now.sound self.now.index None }
    {
        if self.sound {
            self.index.as_ref()
        } else {
            None
        }
    }

    // A call was accepted: from the head before it, and whether the first log of the side that it names was there. After a drawing the rules are others.
    fn note(&mut self, call: Call, before: &Head, arrived: bool)
        ensures { Noted call before.now arrived self.old self.new }
    {
        self.counts.note(call, before, arrived);
        let draws = matches!(call, Call::Measure(_) | Call::Rule(_) | Call::Open);
        // Nearly always there is none yet, and to store that there is none writes an index's bytes.
        if draws && self.index.is_some() {
            self.index = None;
        }
    }
}

// Whether the first log of the side that an edit or a send names is there.
fn has_log(p: &State, call: Call) -> bool
    ensures { result ≡ log_before p.now call }
{
    match call {
        Call::Edit(e) => p.arrived[heads::index(exact::number(e.side))],
        Call::Send(s) => p.arrived[heads::index(exact::number(s))],
        _ => false,
    }
}

// How many edits a call's side has unsent.
fn unsent(counts: &Tallies, s: i32) -> u32
    ensures { result ≡ unsent_in counts.now (natural s) }
{
    counts.unsent[heads::index(exact::number(s))]
}

// An edit, with the index made first where it is asked.
fn edit_ready(e: Edit, p: &mut State, beside: &mut Beside) -> Answer
    ensures { Known (Call.Edit e) beside.old p.old → Changes (Call.Edit e) p.old beside.old result p.new beside.new }
{
    beside.ready(p);
    edit::edit(p, e, beside.asked())
}

// Any other call but show: its answer, and the plan after it.
fn changed(call: Call, p: &mut State, beside: &mut Beside) -> Answer
    requires { (is_show call ≡ false) × (is_edit call ≡ false) }
    ensures { Known call beside.old p.old → Changes call p.old beside.old result p.new beside.new }
{
    match call {
        Call::Measure(v) => draw::measure(p, v),
        Call::Rule(r) => draw::rule(p, r),
        Call::Open => draw::open_plan(p),
        Call::Split(s) => moves::split(p, s),
        Call::Join => moves::join(p),
        Call::Send(s) => moves::send(p, s, unsent(&beside.counts, s)),
        Call::Replay(n) => {
            beside.ready(p);
            let counts = &beside.counts;
            replay::replay(p, n, counts.missing, counts.settled, beside.asked())
        }
        Call::Stop => moves::stop(p, beside.counts.waiting),
        Call::Confirm(s) => moves::confirm(p, s, unsent(&beside.counts, s)),
        Call::Install => moves::install(p, beside.counts.waiting),
        Call::Edit(_) | Call::Show(_) => unreachable!(),
        Call::Fate(n) => query::fate(p, n),
        Call::Left => query::left(p, &beside.counts),
    }
}

// The edit, and what is kept beside the plan is brought up to it. An edit has its own way, beside `noted`, for speed alone (docs/DECISIONS.md).
fn edited(e: Edit, p: &mut State, beside: &mut Beside) -> Answer
    ensures { Known (Call.Edit e) beside.old p.old → Made (Some (Call.Edit e)) p.old beside.old (record { answer = result; shown = None }) p.new beside.new }
{
    let before = p.head;
    let arrived = has_log(p, Call::Edit(e));
    let given = edit_ready(e, p, beside)?;
    beside.counts.note(Call::Edit(e), &before, arrived);
    Ok(given)
}

// The same of any other call but show.
fn noted(call: Call, p: &mut State, beside: &mut Beside) -> Answer
    requires { (is_show call ≡ false) × (is_edit call ≡ false) }
    ensures { Known call beside.old p.old → Made (Some call) p.old beside.old (record { answer = result; shown = None }) p.new beside.new }
{
    let before = p.head;
    let arrived = has_log(p, call);
    let answer = changed(call, p, beside);
    if answer.is_ok() {
        beside.note(call, &before, arrived);
    }
    answer
}

// A sheet's show gives the values of the side besides.
fn show(p: &State, s: i32) -> Told
    ensures { Shows p.now s result }
{
    match query::shown_side(&p.head, s) {
        Ok(side) => Told {
            answer: Ok(Given::Nothing),
            shown: Some(side),
        },
        Err(refusal) => refused(refusal),
    }
}

// With no values besides.
fn bare(answer: Answer) -> Told
    ensures { result ≡ record { answer = answer; shown = None } }
{
    Told {
        answer,
        shown: None,
    }
}

fn refused(refusal: Refusal) -> Told
    ensures { result ≡ record { answer = Err refusal; shown = None } }
{
    bare(Err(refusal))
}

// Any call.
fn call_told(call: Call, p: &mut State, beside: &mut Beside) -> Told
    ensures { Known call beside.old p.old → Made (Some call) p.old beside.old result p.new beside.new }
{
    match call {
        Call::Show(s) => show(p, s),
        Call::Edit(e) => bare(edited(e, p, beside)),
        _ => bare(noted(call, p, beside)),
    }
}

// The call of a line, if it has one.
pub fn make(call: Option<Call>, p: &mut State, beside: &mut Beside) -> Told
    ensures { KnownIf call beside.old p.old → Made call p.old beside.old result p.new beside.new }
{
    match call {
        None => refused(Refusal::Unreadable),
        Some(call) => call_told(call, p, beside),
    }
}
