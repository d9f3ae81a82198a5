// What measure, rule and open decide (01, "The calls"), each by a check that only reads, and what they store, in place. Nothing else of the state changes.
#![tactic(auto)]

ghost use Rattle.std.specs.Prelude.{true, not, ltb, ◌&&◌, eqb, min, length, ◌≡◌, ◌<◌, OnOk};
ghost use Rattle.draw.specs.Draw.{measure_checks, rule_checks, open_checks, measured, ruled, opened, LeavesRest};
ghost use Rattle.protocol.specs.Asked.{verdict_of};
ghost use Rattle.protocol.specs.Calls.{measure, rule, open_plan, first, no15};
ghost use Rattle.protocol.specs.Lists.{one_to};
ghost use Rattle.rows.specs.Rows.{row};
ghost use Rattle.rules.specs.Rules.{holds_in};
ghost use Rattle.rules.specs.Table.{lowers, gaps, uppers};
ghost use Rattle.heads.specs.Heads.{measures_in};
ghost use Rattle.state.specs.Meets.{Makes};

use heads::{Head, Mode};
use protocol::refusal::Refusal;
use protocol::{call, limit};
use rules::{Rule, Table};
use state::{Answer, Given, State};

// ---- measure

fn check_measure(h: &Head, v: i32) -> Result<(), Refusal>
    ensures verdict { verdict_of result ≡ first (measure_checks h.now v) }
    ensures room { OnOk result (h.now.measures < 32) }
{
    if h.mode != Mode::Blank {
        return Err(Refusal::WrongMode);
    }
    if limit::MEASURE <= h.measures {
        return Err(Refusal::TooManyMeasures);
    }
    if !exact::in_range(v) {
        return Err(Refusal::ValueOutOfRange);
    }
    Ok(())
}

// A measure of value v.
pub fn measure(p: &mut State, v: i32) -> Answer
    ensures makes { Makes (measure v) p.old result p.new }
    ensures stored { OnOk result (p.new ≡ measured p.old v) }
    ensures rest { LeavesRest p.old p.new }
{
    check_measure(&p.head, v)?;
    let n = p.head.measures;
    p.values[n as usize] = v;
    p.head.measures = n + 1;
    Ok(Given::One(n + 1))
}

// ---- rule

// The table has room behind its first n rules.
fn has_room(table: &Table, n: u32) -> bool
    ensures { (result ≡ ltb n 64) × (result ≡ true → n < length table.now) }
{
    (n as usize) < table.len()
}

// The rule's measures are two different ones of n.
fn pair_in(n: usize, lower: u32, upper: u32) -> bool
    ensures { result ≡ (one_to n lower && one_to n upper && not (eqb lower upper)) }
{
    rows::one_to(n, lower) && rows::one_to(n, upper) && lower != upper
}

// The rule's gap and its firmness are in range.
#[tactic(auto, unfolding(protocol::specs::Lists::within))]
fn limits_ok(gap: i32, firm: i32) -> bool
    ensures { result ≡ (no15 gap firm).passes }
{
    (limit::LEAST_GAP..=limit::GAP).contains(&gap) && (0..=1).contains(&firm)
}

fn check_rule(p: &State, r: call::Rule) -> Result<(), Refusal>
    ensures verdict { verdict_of result ≡ first (rule_checks p.now.head r) }
    ensures room { OnOk result ((p.now.head.rules < 64) × (p.now.head.rules < length p.now.table)) }
{
    if p.head.mode != Mode::Blank {
        return Err(Refusal::WrongMode);
    }
    if !has_room(&p.table, p.head.rules) {
        return Err(Refusal::TooManyRules);
    }
    let size = rows::capped(p.head.measures, limit::MEASURES);
    if !pair_in(size, exact::number(r.lower), exact::number(r.upper)) {
        return Err(Refusal::NoPairOfMeasures);
    }
    if !limits_ok(r.gap, r.firm) {
        return Err(Refusal::RuleOutOfRange);
    }
    Ok(())
}

// A rule.
pub fn rule(p: &mut State, r: call::Rule) -> Answer
    ensures makes { Makes (rule r.lower r.gap r.upper r.firm) p.old result p.new }
    ensures stored { OnOk result (p.new ≡ ruled p.old r) }
    ensures rest { LeavesRest p.old p.new }
{
    check_rule(p, r)?;
    let n = p.head.rules;
    rules::put_rule(&mut p.table, n, Rule::of(r));
    p.head.rules = n + 1;
    Ok(Given::One(n + 1))
}

// ---- open

// Every rule holds of the values drawn, or of a whole plan's.
pub fn rules_hold(p: &State) -> bool
    ensures { result ≡ holds_in (lowers p.now.table) (gaps p.now.table) (uppers p.now.table) (min p.now.head.rules 64)
        (row p.now.values 0 (measures_in p.now.head)) }
{
    let size = rows::capped(p.head.measures, limit::MEASURES);
    rules::broken_of_all(&p.table, p.head.rules, &p.values[..size], 0, 0).is_none()
}

fn check_open(p: &State) -> Result<(), Refusal>
    ensures { verdict_of result ≡ first (open_checks p.now.head (lowers p.now.table) (gaps p.now.table) (uppers p.now.table) p.now.values) }
{
    if p.head.mode != Mode::Blank {
        return Err(Refusal::WrongMode);
    }
    if p.head.measures == 0 {
        return Err(Refusal::NoMeasures);
    }
    if !rules_hold(p) {
        return Err(Refusal::RuleUnmet);
    }
    Ok(())
}

// The plan becomes whole, and its first edit will have number 1.
pub fn open_plan(p: &mut State) -> Answer
    ensures makes { Makes open_plan p.old result p.new }
    ensures stored { OnOk result (p.new ≡ opened p.old) }
    ensures rest { LeavesRest p.old p.new }
{
    check_open(p)?;
    p.head.mode = Mode::Whole;
    p.head.next = 1;
    Ok(Given::Nothing)
}

// The laws of the calls that draw stand in proofs/Draw.antt.
