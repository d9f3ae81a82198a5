// The plan as others use it: a blank plan, the fourteen calls of document 01, and loading and saving (02, S-1), by value, with no precondition.
// Each call promises `Meets call p r` (state/specs/Meets): its answer and the plan after it are those of the protocol's `step`, and a refusal
// hands the state back as it was. show_in promises `shown` of the whole buffer that it is lent, refused too; show is show_in with the filled part
// handed back. load promises `MeetsLoad file p r` (load/specs/Loading), as the calls do; save promises its answer and `save_into` of the whole
// buffer that it is lent, refused too. What every list of them guarantees is proofs/Promise.
#![tactic(auto)]

ghost use Rattle.std.specs.Prelude.{◌≡◌, false};
ghost use Rattle.protocol.specs.Asked.{asked};
ghost use Rattle.protocol.specs.Calls.{measure, rule, open_plan, split-side, edit, join, send, replay, stop, confirm, install, fate_of_edit, left};
ghost use Rattle.state.specs.Meets.{Meets};
ghost use Rattle.calls.specs.Makes.{Known, is_show};

use calls::Beside;
pub use load::load;
use protocol::call::{Call, Edit, Rule};
pub use protocol::refusal::Refusal;
pub use query::{show, show_in};
pub use save::save;
pub use state::{Answer, Answered, Given, State, blank};

// What is kept beside a plan for one call alone. Of any plan it is not known that its rules hold: all are tested, and no index is needed. An edit needs no
// counts, and counting goes over the kept edits.
fn beside(p: &State, call: Call) -> Beside
    ensures { Known call result p.now }
{
    if matches!(call, Call::Edit(_)) {
        Beside::unknown()
    } else {
        Beside::of(p, false)
    }
}

// Any call but show.
fn turn(mut p: State, call: Call) -> Answered
    requires { is_show call ≡ false }
    ensures { Meets (asked call) p result }
{
    let mut beside = beside(&p, call);
    let told = calls::make(Some(call), &mut p, &mut beside);
    Answered {
        state: p,
        answer: told.answer,
    }
}

// ---- drawing up

pub fn measure(p: State, v: i32) -> Answered
    ensures { Meets (measure v) p result }
{
    turn(p, Call::Measure(v))
}

pub fn rule(p: State, a: i32, c: i32, b: i32, f: i32) -> Answered
    ensures { Meets (rule a c b f) p result }
{
    turn(
        p,
        Call::Rule(Rule {
            lower: a,
            gap: c,
            upper: b,
            firm: f,
        }),
    )
}

pub fn open_plan(p: State) -> Answered
    ensures { Meets open_plan p result }
{
    turn(p, Call::Open)
}

// ---- splitting, editing and joining

pub fn split(p: State, s: i32) -> Answered
    ensures { Meets (split-side s) p result }
{
    turn(p, Call::Split(s))
}

pub fn edit(p: State, s: i32, client: i32, after: i32, m: i32, kind: i32, constant: i32) -> Answered
    ensures { Meets (edit s client after m kind constant) p result }
{
    let e = Edit {
        side: s,
        client,
        after,
        measure: m,
        kind,
        constant,
    };
    turn(p, Call::Edit(e))
}

pub fn join(p: State) -> Answered
    ensures { Meets join p result }
{
    turn(p, Call::Join)
}

pub fn send(p: State, s: i32) -> Answered
    ensures { Meets (send s) p result }
{
    turn(p, Call::Send(s))
}

pub fn replay(p: State, n: i32) -> Answered
    ensures { Meets (replay n) p result }
{
    turn(p, Call::Replay(n))
}

pub fn stop(p: State) -> Answered
    ensures { Meets stop p result }
{
    turn(p, Call::Stop)
}

pub fn confirm(p: State, s: i32) -> Answered
    ensures { Meets (confirm s) p result }
{
    turn(p, Call::Confirm(s))
}

pub fn install(p: State) -> Answered
    ensures { Meets install p result }
{
    turn(p, Call::Install)
}

// ---- reading; show is query's

pub fn fate(p: State, n: i32) -> Answered
    ensures { Meets (fate_of_edit n) p result }
{
    turn(p, Call::Fate(n))
}

pub fn left(p: State) -> Answered
    ensures { Meets left p result }
{
    turn(p, Call::Left)
}
