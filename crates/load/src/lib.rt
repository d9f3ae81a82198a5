// A saved plan loaded (02, S-1): the file is read whole first, then drawn by the calls that one would draw it by.
#![tactic(auto)]

ghost use Rattle.std.specs.Prelude.{◌≡◌, true, not, ◌&&◌, [], ◌∷◌, List, ℕ, ◌+◌, ◌%◌, ◌<◌, ◌≤◌, leb, length, T, IfSome};
ghost use Rattle.protocol.specs.Lists.{is_none};
ghost use Rattle.protocol.specs.Asked.{verdict_of};
ghost use Rattle.protocol.specs.Calls.{first};
ghost use Rattle.file.specs.Loaded.{slots, sized, numbered, drawing};
ghost use Rattle.file.specs.Walked.{Sound46};
ghost use Rattle.slots.specs.Words.{words_of, Parted};
ghost use Rattle.slots.specs.declared.Kind.TheVariants.{Measure, Rule};
ghost use Rattle.load.specs.Walking.{Walking};
ghost use Rattle.load.specs.Reading.{head_checks};
ghost use Rattle.load.specs.Drawing.{slot_call, chain_calls, Drew, LoadedFrom};
ghost use Rattle.load.specs.Loading.{MeetsLoad};

use heads::{Head, Mode};
use protocol::refusal::Refusal;
use protocol::{call, limit};
use slots::{Kind, Slot};
use state::{Answered, Given, State};

// The next number where the last one has been given.
const NEXT_LIMIT: usize = limit::NUMBER as usize + 1;

// ---- the file, read

// Follows a chain from a slot on, and gives how many slots were met in all, those met before it with them. None where it leaves the file, meets a slot that was
// met before, or one that is not of the kind or has something set that must be nought.
fn walk(
    f: &[u8],
    kind: Kind,
    start: usize,
    met: usize,
    seen: &mut [bool; slots::LIMIT],
) -> Option<usize>
    requires { (slots f.now ≤ 97) × (met ≤ 97) }
    ensures few { IfSome result (λ n. n ≤ met + 97) }
    ensures walks { Walking f.now kind start met seen.old result seen.new }
{
    let count = f.len() / slots::SIZE;
    let mut k = start;
    for i in 0..count {
        if k == 0 {
            return Some(met + i);
        }
        if count <= k || seen[k] {
            return None;
        }
        let w = Slot::read(f, k);
        if !w.fits(kind) {
            return None;
        }
        seen[k] = true;
        k = slots::low(w.first) as usize;
    }
    // One that goes on for longer than the file has slots goes in a circle.
    if k == 0 { Some(met + count) } else { None }
}

// From 1 to 97 slots, each of them whole.
fn has_slots(f: &[u8]) -> bool
    ensures { result ≡ (is_none (length f.now % 16) && not (is_none (length f.now)) && leb (slots f.now) 97) }
{
    let n = f.len();
    n % slots::SIZE == 0 && n != 0 && n / slots::SIZE <= slots::LIMIT
}

// 44 is not due.
fn has_size(f: &[u8]) -> bool
    ensures { result ≡ sized f.now }
{
    has_slots(f) && slots::low(Slot::read(f, 0).fourth) as usize == f.len() / slots::SIZE
}

// 46 is not due, but for the next number.
fn is_chained(f: &[u8]) -> bool
    requires { T (sized f.now) }
    ensures { (result ≡ true → Sound46 f.now) × (Sound46 f.now → result ≡ true) }
{
    let w = Slot::read(f, 0);
    if slots::high(w.fourth) != 0 {
        return false;
    }
    let mut seen = [false; slots::LIMIT];
    let Some(measures) = walk(f, Kind::Measure, slots::low(w.first) as usize, 0, &mut seen) else {
        return false;
    };
    let Some(all) = walk(
        f,
        Kind::Rule,
        slots::high(w.first) as usize,
        measures,
        &mut seen,
    ) else {
        return false;
    };
    all + 1 == f.len() / slots::SIZE
}

// The file's next number is one that an edit may be given, or the one behind the last.
#[tactic(auto, using(crate::proofs::Reading::number_is), unfolding(file::specs::Loaded::numbered))]
fn has_number(f: &[u8]) -> bool
    ensures { 0 < slots f.now → result ≡ numbered f.now }
{
    rows::one_to(NEXT_LIMIT, Slot::read(f, 0).second)
}

fn check_file(h: &Head, f: &[u8]) -> Result<(), Refusal>
    ensures { verdict_of result ≡ first (head_checks f.now h.now) }
{
    if h.mode != Mode::Blank || h.measures != 0 || h.rules != 0 {
        return Err(Refusal::WrongMode);
    }
    if !has_size(f) {
        return Err(Refusal::WrongSize);
    }
    if slots::sum(f) != 0 {
        return Err(Refusal::WrongSum);
    }
    if !is_chained(f) || !has_number(f) {
        return Err(Refusal::WrongChains);
    }
    Ok(())
}

// ---- the file, drawn

fn draw_measure(p: &mut State, w: Slot) -> Result<(), Refusal>
    ensures { (s : List ℕ) → w ≡ words_of s → Parted s → Drew (slot_call Measure s ∷ []) p.old result p.new }
{
    draw::measure(p, slots::value(w.second))?;
    Ok(())
}

fn draw_rule(p: &mut State, w: Slot) -> Result<(), Refusal>
    ensures { (s : List ℕ) → w ≡ words_of s → Parted s → Drew (slot_call Rule s ∷ []) p.old result p.new }
{
    let rule = call::Rule {
        lower: slots::low(w.second) as i32,
        gap: slots::value(w.third),
        upper: slots::high(w.second) as i32,
        firm: i32::from(slots::firm_of(slots::mark_byte(w.first))),
    };
    draw::rule(p, rule)?;
    Ok(())
}

// Draws what a slot has, a measure or a rule.
fn draw_slot(p: &mut State, kind: Kind, w: Slot) -> Result<(), Refusal>
    ensures { (s : List ℕ) → w ≡ words_of s → Parted s → Drew (slot_call kind s ∷ []) p.old result p.new }
{
    match kind {
        Kind::Measure => draw_measure(p, w),
        Kind::Rule => draw_rule(p, w),
    }
}

// Draws the slots of a chain, up to the first that is refused. No chain has more than the file has.
fn draw_chain(p: &mut State, f: &[u8], kind: Kind, start: usize) -> Result<(), Refusal>
    requires { T (sized f.now) }
    ensures { Drew (chain_calls kind f.now start) p.old result p.new }
{
    let mut k = start;
    for _ in 0..f.len() / slots::SIZE {
        if k == 0 {
            break;
        }
        let w = Slot::read(f, k);
        draw_slot(p, kind, w)?;
        k = slots::low(w.first) as usize;
    }
    Ok(())
}

// Draws the measures, then the rules, then opens the plan, up to the first that is refused.
fn draw_file(p: &mut State, f: &[u8]) -> Result<(), Refusal>
    requires { T (sized f.now) }
    ensures { Drew (drawing f.now) p.old result p.new }
{
    let w = Slot::read(f, 0);
    draw_chain(p, f, Kind::Measure, slots::low(w.first) as usize)?;
    draw_chain(p, f, Kind::Rule, slots::high(w.first) as usize)?;
    draw::open_plan(p)?;
    Ok(())
}

// Internal, for `sheet`: loads a file into a plan that is lent. A refusal may leave there what was drawn until then: its caller drops it.
pub fn load_in(f: &[u8], p: &mut State) -> Result<(), Refusal>
    ensures { LoadedFrom f.now p.old result p.new }
{
    check_file(&p.head, f)?;
    draw_file(p, f)?;
    let w = Slot::read(f, 0);
    p.head.next = w.second;
    Ok(())
}

// Loads a file: the plan is drawn and opened on a copy, so that a refusal leaves it as it was, and has the file's next number.
#[tactic(auto, using(crate::proofs::Loading::meets_refused))]
pub fn load(p: State, f: &[u8]) -> Answered
    ensures { MeetsLoad f.now p result }
{
    let mut drawn = p;
    match load_in(f, &mut drawn) {
        Ok(()) => Answered {
            state: drawn,
            answer: Ok(Given::Nothing),
        },
        Err(refusal) => Answered {
            state: p,
            answer: Err(refusal),
        },
    }
}
