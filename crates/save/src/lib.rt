// A whole plan saved as slots (02, S-1): rising slots, measures first, in the front of an area that a caller lends.
#![tactic(auto)]

ghost use Rattle.std.specs.Prelude.{◌≡◌, ◌+◌, ◌*◌, ◌<◌, ◌≤◌, length, take};
ghost use Rattle.std.proofs.lemmas.List.Edits.{sets};
ghost use Rattle.file.specs.Bytes.{total, balancing};
ghost use Rattle.file.specs.Loaded.{slots};
ghost use Rattle.file.specs.Saved.{measure_slot, rule_slot, slots_from, file_of, save, save_into};
ghost use Rattle.format.specs.Sheets.{in_front};
ghost use Rattle.rows.specs.Rows.{row};
ghost use Rattle.save.specs.Parts.{link_to, head_of, rule_of, rules_of};
ghost use Rattle.slots.specs.Words.{bytes_of};
ghost use Rattle.state.specs.Meets.{answer_of};
ghost use Rattle.state.specs.View.{view};

use heads::Mode;
use protocol::limit;
use protocol::refusal::Refusal;
use rules::{Rule, Table};
use slots::{Kind, Slot};
use state::{Answer, Given, State};

// ---- one slot

// Slot k where the chain's slots go on below `end`; 0 ends the chain.
fn link(k: usize, end: usize) -> u32
    requires { k < 65536 }
    ensures { result ≡ link_to k end }
{
    if k < end { k as u32 } else { 0 }
}

// Slot 0 of a plan with n measures and m rules.
#[tactic(auto, using(crate::proofs::Slots::zero_words))]
fn heading(n: usize, m: usize, next: u32, check: u32) -> Slot
    requires { (n ≤ 32) × (m ≤ 64) }
    ensures { bytes_of result ≡ head_of n m next check }
{
    let count = 1 + n + m;
    Slot {
        first: slots::joined(link(1, 1 + n), link(1 + n, count)),
        second: next,
        third: check,
        fourth: count as u32,
    }
}

#[tactic(auto, using(crate::proofs::Slots::measure_words), unfolding(file::specs::Bytes::kind_bits))]
fn measure_slot(next: u32, v: i32) -> Slot
    ensures { bytes_of result ≡ measure_slot next v }
{
    let mark = slots::mark_of(Kind::Measure, false);
    Slot {
        first: slots::joined(next, u32::from(mark)),
        second: slots::word_of(v),
        third: 0,
        fourth: 0,
    }
}

#[tactic(auto, using(crate::proofs::Slots::rule_words), unfolding(file::specs::Bytes::kind_bits))]
fn rule_slot(next: u32, rule: &Rule) -> Slot
    ensures { bytes_of result ≡ rule_slot next (rule_of rule.now) }
{
    let mark = slots::mark_of(Kind::Rule, rule.firm);
    Slot {
        first: slots::joined(next, u32::from(mark)),
        second: slots::joined(rule.lower, rule.upper),
        third: slots::word_of(rule.gap),
        fourth: 0,
    }
}

// ---- chains

// Two loops of two lines, and no one for both: handed what makes a slot of an item, it would have to say of any type which slot of the definitions that is.

// The measures, from slot 1 on.
fn put_measures(area: &mut [u8], values: &[i32])
    requires { (length values.now ≤ 32) × (16 * (1 + length values.now) ≤ length area.old) }
    ensures { area.new ≡ sets area.old 16 (slots_from measure_slot 1 values.now) }
{
    let end = 1 + values.len();
    for (i, v) in values.iter().enumerate() {
        measure_slot(link(2 + i, end), *v).put(area, 1 + i);
    }
}

// The first m rules, from slot k on.
fn put_rules(area: &mut [u8], table: &Table, m: usize, k: usize)
    requires { (k ≤ 33) × (m ≤ 64) × (16 * (k + m) ≤ length area.old) }
    ensures { area.new ≡ sets area.old (16 * k) (slots_from rule_slot k (rules_of table.now m)) }
{
    let rules = &table[..m];
    let end = k + rules.len();
    for (i, rule) in rules.iter().enumerate() {
        rule_slot(link(k + i + 1, end), rule).put(area, k + i);
    }
}

// ---- the file

// One slot for the plan, each measure and each rule.
fn file_size(n: usize, m: usize) -> usize
    requires { (n ≤ 32) × (m ≤ 64) }
    ensures { result ≡ 16 * (1 + n + m) }
{
    slots::SIZE * (1 + n + m)
}

// What is to stand in place of a 0 so that all words add up to 0.
#[tactic(auto, using(crate::proofs::Slots::balanced))]
fn check_word(f: &[u8]) -> u32
    ensures { result ≡ balancing (total (take (16 * slots f.now) f.now)) }
{
    slots::sum(f).wrapping_neg()
}

// The whole file, of n measures and m rules. The check word is reckoned over the slots as they stand in the area, with 0 in its place.
fn write(p: &State, n: usize, m: usize, area: &mut [u8])
    requires { (n ≤ 32) × (m ≤ 64) × (16 * (1 + n + m) ≤ length area.old) }
    ensures { area.new ≡ in_front (file_of (row p.now.values 0 n) (rules_of p.now.table m) p.now.head.next) area.old }
{
    let size = file_size(n, m);
    heading(n, m, p.head.next, 0).put(area, 0);
    put_measures(area, &p.values[..n]);
    put_rules(area, &p.table, m, 1 + n);
    let check = check_word(&area[..size]);
    heading(n, m, p.head.next, check).put(area, 0);
}

// Internal, for `sheet`: saves a plan that is lent, so that it need not be handed over whole. 31 when the plan is not whole, then 41 (02, S-1).
pub fn save_in(p: &State, area: &mut [u8]) -> Answer
    ensures { (answer_of result ≡ (save (length area.old) (view p.now)).answer) × (area.new ≡ save_into (view p.now) area.old) }
{
    if p.head.mode != Mode::Whole {
        return Err(Refusal::WrongMode);
    }
    let n = rows::capped(p.head.measures, limit::MEASURES);
    let m = rows::capped(p.head.rules, limit::RULES);
    let size = file_size(n, m);
    if area.len() < size {
        return Err(Refusal::NoRoom);
    }
    write(p, n, m, area);
    Ok(Given::One(size as u32))
}

// What is written fills the front of the lent area, its length is given, and the rest is untouched; a refusal leaves the area as it was.
pub fn save(p: State, area: &mut [u8]) -> Answer
    ensures { (answer_of result ≡ (save (length area.old) (view p)).answer) × (area.new ≡ save_into (view p) area.old) }
{
    save_in(&p, area)
}
