// What a replay decides and stores (01, "The calls"): its checks, its trial on the draft, and the edit that it settles.
#![tactic(auto)]

ghost use Rattle.std.specs.Prelude.{◌+◌, ◌<◌, ◌≡◌, ◌≢◌, IfOk, min, length, set, get_or, Some, option_copied};
ghost use Rattle.heads.specs.Heads.{named_at, seat};
ghost use Rattle.protocol.specs.Asked.{verdict_of};
ghost use Rattle.protocol.specs.Calls.{first, replay};
ghost use Rattle.protocol.specs.Lists.{natural};
ghost use Rattle.protocol.specs.Plan.{fate_is};
ghost use Rattle.records.specs.Records.{fate_of, kept_at, no_record};
ghost use Rattle.records.specs.declared.Fate.TheVariants.{Unsent};
ghost use Rattle.replay.specs.Replays.{point_of, tried_of, outcome_fate, outcome_of, settled_record, settled_in, checks_in, Decided, NamesRule, Replayed, Trusted, TrustedUncounted, found_outcome};
ghost use Rattle.rules.specs.Index.{tested_with};
ghost use Rattle.state.specs.Meets.{Makes};
ghost use Rattle.state.specs.Spread.{spread, named_in};
ghost use Rattle.state.specs.View.{view};

use protocol::limit;
use protocol::refusal::Refusal;
use records::{EditRecord, Fate};
use rules::Index;
use state::{Answer, Given, State};

// What a replay that is not refused comes to: the edit is accepted, with the value that the draft then has at its place; or it is revoked, with the number of the
// rule that it breaks, if it was tested and breaks one.
#[derive(Clone, Copy)]
pub enum Outcome {
    Accepted(i32),
    Revoked(Option<u32>),
}

impl Outcome {
    fn fate(self) -> Fate
        ensures { result ≡ outcome_fate self }
    {
        match self {
            Outcome::Accepted(_) => Fate::Accepted,
            Outcome::Revoked(_) => Fate::Revoked,
        }
    }
}

// Where a measure stands in the draft.
fn point(m: u32) -> usize
    ensures { (result ≡ point_of m) × (result < 32) }
{
    rows::capped(m.saturating_sub(1), limit::LAST_MEASURE)
}

// ---- its checks

// Whether the edit that one names as earlier has a fate.
fn earlier_is(p: &State, e: &EditRecord, fate: Fate) -> bool
    ensures { fate ≢ Unsent → result ≡ fate_is (fate_of fate) (kept_at 0 (named_in (spread p.now) e.now.earlier)).fate }
{
    matches!(records::find(&p.edits, p.head.position(e.earlier)), Some(earlier) if earlier.fate == fate)
}

// The place of the edit that a call names, where the checks 31, 34, 35 and 36 pass, from how many first logs are missing.
fn waiting(p: &State, n: i32, missing: u32) -> Result<usize, Refusal>
    ensures { (verdict_of result ≡ first (checks_in (spread p.now) missing n)) ×
        IfOk result (λ i. (i < 256) × (seat (named_at p.now.head n) ≡ Some i)) }
{
    if !p.head.mode.is_active() {
        return Err(Refusal::WrongMode);
    }
    if missing != 0 {
        return Err(Refusal::LogMissing);
    }
    let Some(i) = p.head.named(n) else {
        return Err(Refusal::NotWaiting);
    };
    if p.edits[i].fate != Fate::Waiting {
        return Err(Refusal::NotWaiting);
    }
    if earlier_is(p, &p.edits[i], Fate::Waiting) {
        return Err(Refusal::EarlierWaits);
    }
    Ok(i)
}

// ---- its trial

// The change of an edit tried on the draft. A caller that knows that all rules hold on the draft lends an index: then that is asked, which, if it is the rules', has
// those that name the measure, and the number is the same.
fn try_draft(p: &State, e: &EditRecord, index: Option<&Index>) -> Outcome
    ensures { result ≡ tried_of (tested_with (option_copied index.entry)) (spread p.now) e.now }
{
    let m = u32::from(e.measure);
    let here = rows::one_to(rows::capped(p.head.drafted, limit::MEASURES), m);
    let old = p.draft[point(m)];
    let Some(x) = e.change.apply(if here { old } else { 0 }) else {
        return Outcome::Revoked(None);
    };
    let broken = rules::broken(
        &p.table,
        p.head.rules,
        index,
        &p.draft,
        0,
        p.head.drafted,
        m,
        x,
    );
    if let Some(rule) = broken {
        return Outcome::Revoked(Some(rule));
    }
    Outcome::Accepted(if here { x } else { old })
}

// What an edit comes to. One built on a revoked edit is revoked, untested, and the draft stays (02, S-2).
fn trial(p: &State, e: &EditRecord, index: Option<&Index>) -> Outcome
    ensures { result ≡ outcome_of (tested_with (option_copied index.entry)) (spread p.now) e.now }
{
    if earlier_is(p, e, Fate::Revoked) {
        Outcome::Revoked(None)
    } else {
        try_draft(p, e, index)
    }
}

// Where the edit of a replay stands, and what it comes to.
#[derive(Clone, Copy)]
struct Found {
    place: usize,
    outcome: Outcome,
}

// The checks of a replay, and its trial, from how many first logs are missing; the state stays as it is. `decide` and `replay` both go by it.
fn find(p: &State, n: i32, missing: u32, index: Option<&Index>) -> Result<Found, Refusal>
    ensures exact { Decided (tested_with (option_copied index.entry)) (spread p.now) n missing (found_outcome result) }
    ensures rule { TrustedUncounted p.now missing (option_copied index.entry) → NamesRule (view p.now) n (found_outcome result) }
    ensures place { IfOk result (λ f. (f.place < 256) × (seat (named_at p.now.head n) ≡ Some f.place)) }
{
    let place = waiting(p, n, missing)?;
    let outcome = trial(p, &p.edits[place], index);
    Ok(Found { place, outcome })
}

// What a replay decides.
pub fn decide(p: &State, n: i32, missing: u32, index: Option<&Index>) -> Result<Outcome, Refusal>
    ensures exact { Decided (tested_with (option_copied index.entry)) (spread p.now) n missing result }
    ensures rule { TrustedUncounted p.now missing (option_copied index.entry) → NamesRule (view p.now) n result }
{
    let found = find(p, n, missing, index)?;
    Ok(found.outcome)
}

// ---- what it stores

// The edit at a place is settled, behind as many as there are.
fn settle_record(edits: &mut [EditRecord; limit::EDITS], i: usize, fate: Fate, settled: u32)
    requires { i < 256 }
    ensures { (edits.new ≡ set edits.old i (settled_record (get_or edits.old i no_record) fate (min settled 256 + 1))) × (length edits.old ≡ 256) }
{
    edits[i] = EditRecord {
        fate,
        place: settled.min(limit::KEPT) + 1,
        ..edits[i]
    };
}

// The same, and the draft where the edit is accepted.
fn settle(p: &mut State, i: usize, outcome: Outcome, settled: u32)
    requires { i < 256 }
    ensures { (p.new ≡ settled_in p.old i outcome settled) × (length p.old.edits ≡ 256) × (length p.old.draft ≡ 32) }
{
    if let Outcome::Accepted(x) = outcome {
        p.draft[point(u32::from(p.edits[i].measure))] = x;
    }
    settle_record(&mut p.edits, i, outcome.fate(), settled);
}

// A replay made in place. How many first logs are missing and how many edits are settled, the plan's owner counts.
pub fn replay(p: &mut State, n: i32, missing: u32, settled: u32, index: Option<&Index>) -> Answer
    ensures exact { Replayed (tested_with (option_copied index.entry)) p.old n missing settled result p.new }
    ensures step { Trusted p.old missing settled (option_copied index.entry) → Makes (replay n) p.old result p.new }
    ensures rules { (p.new.table ≡ p.old.table) × (p.new.head ≡ p.old.head) }
{
    let found = find(p, n, missing, index)?;
    settle(p, found.place, found.outcome, settled);
    Ok(Given::One(found.outcome.fate().number()))
}

// The laws of the call replay stand in proofs/Replays.antt.
