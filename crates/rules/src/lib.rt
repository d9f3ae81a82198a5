// The rules of a plan in a table, an index from each measure to the rules that name it, and their test on a row of values.
// Everything is lent.
#![tactic(auto)]

ghost use Rattle.std.specs.Prelude.{◌≡◌, true, false, cond, ◌&&◌, ◌+◌, ◌-◌, ◌<◌, ◌≤◌, min, pos, ◌+ℤ◌, eqb, length, get_or, take, option_copied};
ghost use Rattle.std.specs.Int.Signed.{lt_z};
ghost use Rattle.std.specs.List.{list_any};
ghost use Rattle.protocol.specs.Lists.{natural, count};
ghost use Rattle.protocol.specs.Plan.{value};
ghost use Rattle.rows.specs.Rows.{span, row};
ghost use Rattle.rules.specs.Table.{lowers, gaps, uppers, firms, with_rule};
ghost use Rattle.rules.specs.Rules.{numbered, with_value, pair_holds, names_pair, names_firmly, names_at, tested_in, firm_in};
ghost use Rattle.rules.specs.Index.{top_of, place_of, other_of, naming_holds, NoneAbove, Added, Indexed, listed_as, indexed_in, tested_with, firm_with};

use protocol::{call, limit};

// The value of measure m in a row; 0 where there is none.
#[tactic(auto, unfolding(protocol::specs::Plan::value))]
fn value_at(row: &[i32], m: u32) -> i32
    ensures { result ≡ value row.now m }
{
    m.checked_sub(1)
        .and_then(|i| row.get(i as usize))
        .copied()
        .unwrap_or(0)
}

// ---- the rule table

// Measure lower, plus gap, is less than measure upper.
#[derive(Clone, Copy)]
pub struct Rule {
    pub lower: u32,
    pub gap: i32,
    pub upper: u32,
    pub firm: bool,
}

pub const NO_RULE: Rule = Rule {
    lower: 0,
    gap: 0,
    upper: 0,
    firm: false,
};

// The rules in the order of drawing. How many of them are drawn is handed on beside it, and what is more counts as all: so the definitions and the theorems have it,
// which speak of the first k of any list.
pub type Table = [Rule; limit::RULES];

impl Rule {
    // The rule of a call's numbers. A negative number reads as 0, and it is firm if the last is 1.
    pub fn of(asked: call::Rule) -> Rule
        ensures { result ≡ record { lower = natural asked.lower; gap = asked.gap; upper = natural asked.upper; firm = eqb (natural asked.firm) 1 } }
    {
        Rule {
            lower: exact::number(asked.lower),
            gap: asked.gap,
            upper: exact::number(asked.upper),
            firm: exact::number(asked.firm) == 1,
        }
    }

    // It names measure m.
    #[tactic(auto, unfolding(crate::specs::Rules::names_pair))]
    fn names(&self, m: u32) -> bool
        ensures { result ≡ names_pair self.now.lower self.now.upper m }
    {
        self.lower == m || self.upper == m
    }

    // Its other measure, where it names measure m.
    fn other_of(&self, m: u32) -> Other
        ensures { result ≡ other_of m self.now.lower self.now.upper }
    {
        if self.lower == m {
            return Other::Above(place_of(self.upper, m));
        }
        Other::Below(place_of(self.lower, m))
    }

    // It holds on a row where measure m counts as x.
    #[tactic(auto, unfolding(crate::specs::Rules::pair_holds))]
    fn holds(&self, row: &[i32], m: u32, x: i32) -> bool
        ensures { result ≡ pair_holds (value (with_value m x row.now)) self.now.lower self.now.gap self.now.upper }
    {
        less_by(
            value_with(row, m, x, self.lower),
            self.gap,
            value_with(row, m, x, self.upper),
        )
    }
}

// Writes the rule behind the first k, the last one anew if there are 64.
pub fn put_rule(table: &mut Table, k: u32, rule: Rule)
    ensures { table.new ≡ with_rule table.old (min k 63) rule }
{
    let i = rows::capped(k, limit::LAST_RULE);
    table[i] = rule;
}

// ---- a row where one measure counts as another number

// Measure k of a row where measure m, if it is one of its measures, counts as x.
fn value_with(row: &[i32], m: u32, x: i32, k: u32) -> i32
    ensures { result ≡ value (with_value m x row.now) k }
{
    if k == m && rows::one_to(row.len(), m) {
        return x;
    }
    value_at(row, k)
}

// Measure m itself on such a row. It stands by itself for speed: through `value_with` the row is read too, where it never counts (docs/DECISIONS.md).
fn own_value(row: &[i32], m: u32, x: i32) -> i32
    ensures { result ≡ value (with_value m x row.now) m }
{
    if rows::one_to(row.len(), m) { x } else { 0 }
}

fn less_by(low: i32, g: i32, high: i32) -> bool
    ensures { result ≡ lt_z (low +ℤ g) high }
{
    exact::sum(low, g) < i64::from(high)
}

// ---- the index: which rules name a measure

// Where the other measure of a rule stands that names measure m: above it, where m is the rule's lower measure, or below it. The place is from 0, 32 for none of 32
// measures and 33 for m itself: numbers, so that one test, of the row's length, tells both from the row's places.
#[derive(Clone, Copy)]
pub enum Other {
    Above(u8),
    Below(u8),
}

// A rule at a measure that it names: its number from 0, its other measure, its gap.
#[derive(Clone, Copy)]
pub struct Naming {
    rule: u8,
    other: Other,
    gap: i32,
}

const NOWHERE: u8 = 32;

const OWN: u8 = 33;

const NO_NAMING: Naming = Naming {
    rule: 0,
    other: Other::Above(0),
    gap: 0,
};

const FLAGS: usize = limit::MEASURES + 1;

const ENDS: usize = FLAGS + 1;

const NAMINGS: usize = 2 * limit::RULES;

// For measures from 1 to 32: at m where its namings begin, at m + 1 where they end; whether a firm rule names it; and the namings, those of a measure in the order
// of the rules. A rule has two namings at most.
#[derive(Clone, Copy)]
pub struct Index {
    ends: [u8; ENDS],
    firm: [bool; FLAGS],
    namings: [Naming; NAMINGS],
}

// The index of no rules. A constant, so that it is set up at once.
const NO_INDEX: Index = Index {
    ends: [0; ENDS],
    firm: [false; FLAGS],
    namings: [NO_NAMING; NAMINGS],
};

impl Index {
    // The index of the first k rules: measure by measure, rule by rule, each naming behind the last.
    pub fn of(table: &Table, k: u32) -> Index
        ensures { Indexed result (lowers table.now) (gaps table.now) (uppers table.now) (firms table.now) (min k 64) }
    {
        let rules = rows::capped(k, limit::RULES);
        let top = highest(table, rules);
        let mut index = NO_INDEX;
        let mut n: usize = 0;
        for m in 1..FLAGS {
            let measure = m as u32;
            n = add_namings(&mut index.namings, table, rules, top, measure, n);
            index.ends[m + 1] = n as u8;
            index.firm[m] = firm_below(table, k, top, measure);
        }
        index
    }
}

// Where the other measure k of a rule that names measure m stands.
fn place_of(k: u32, m: u32) -> u8
    ensures { result ≡ place_of m k }
{
    if k == m {
        return OWN;
    }
    if rows::one_to(limit::MEASURES, k) {
        return (k - 1) as u8;
    }
    NOWHERE
}

// The highest measure that the first rules name; 0 if there are none.
fn highest(table: &Table, end: usize) -> u32
    requires { end ≤ 64 }
    ensures { result ≡ top_of (take end table.now) }
{
    table[..end]
        .iter()
        .fold(0, |top: u32, rule| top.max(rule.lower).max(rule.upper))
}

// Puts the namings of measure m among the first rules, none of which names one above `top`, behind the n that there are, and gives how many there are then.
fn add_namings(
    namings: &mut [Naming; NAMINGS],
    table: &Table,
    end: usize,
    top: u32,
    m: u32,
    n: usize,
) -> usize
    requires { (length namings.old ≡ 128) × (end ≤ 64) × NoneAbove (lowers table.now) (uppers table.now) end top ×
        (n + count (names_at (lowers table.now) (uppers table.now) m) (span 0 end (λ i. i)) ≤ 128) }
    ensures { Added (lowers table.now) (gaps table.now) (uppers table.now) end m n result namings.old namings.new }
{
    if top < m {
        return n;
    }
    let mut next = n;
    for (i, rule) in table[..end].iter().enumerate() {
        if rule.names(m) {
            namings[next] = Naming {
                rule: i as u8,
                other: rule.other_of(m),
                gap: rule.gap,
            };
            next += 1;
        }
    }
    next
}

// ---- the rules on a row

// A measure from 1 to 32 as it is; 0 for any other, where the index has no naming and no firm rule: so its arrays are read with no test.
fn listed(m: u32) -> usize
    ensures { (result ≡ listed_as m) × (result ≤ 32) }
{
    if m <= limit::MEASURE { m as usize } else { 0 }
}

// What the gap of a rule is to be less than if its other measure is none of the row: z, where that counts as 0; or 0 at place 33, for the measure itself.
fn far_limit(p: u8, z: i64) -> i64
    ensures { result ≡ cond (eqb p 33) (pos 0) z }
{
    if p == OWN { 0 } else { z }
}

// Whether a rule holds that names a measure, which counts as y: from its other measure and its gap, as the index has them, on a row. Nearly all tests are made
// here. That each side has its own way to the end, and the far ones another test, is for speed: 13 or 14 instructions a rule (docs/DECISIONS.md).
fn naming_holds(row: &[i32], y: i32, naming: &Naming) -> bool
    requires { length row.now ≤ 32 }
    ensures { result ≡ naming_holds (value row.now) y naming.now }
{
    let g = naming.gap;
    match naming.other {
        Other::Below(p) => match row.get(usize::from(p)) {
            Some(v) => less_by(*v, g, y),
            None => i64::from(g) < far_limit(p, i64::from(y)),
        },
        Other::Above(p) => match row.get(usize::from(p)) {
            Some(v) => less_by(y, g, *v),
            None => i64::from(g) < far_limit(p, -i64::from(y)),
        },
    }
}

// The number of a broken rule among those that the index has for measure m, which counts as x, on a row of which the first 32 count: the first, last drawn first
// (02, S-3). Any namings may stand there; with the rules' own index (`Indexed`) these are the rules that name m, so that where all held before the number is that of
// `broken_of_all`. It is compiled into each instance of `broken`, and that into its caller, since a call of so many parts costs as much as some tests (docs/DECISIONS.md).
#[inline(always)]
pub fn broken_by_index(index: &Index, lent: &[i32], m: u32, x: i32) -> Option<u32>
    ensures { result ≡ numbered (indexed_in index.now m x (take 32 lent.now)) }
{
    let row = &lent[..lent.len().min(limit::MEASURES)];
    let y = own_value(row, m, x);
    let p = listed(m);
    let first = usize::from(index.ends[p]);
    let last = usize::from(index.ends[p + 1]).min(NAMINGS);
    for k in (first..last).rev() {
        let naming = &index.namings[k];
        if !naming_holds(row, y, naming) {
            return Some(u32::from(naming.rule) + 1);
        }
    }
    None
}

// The number of a broken rule among the first k, on a row where measure m counts as x: the first, last drawn first (02, S-3).
#[inline(never)]
pub fn broken_of_all(table: &Table, k: u32, row: &[i32], m: u32, x: i32) -> Option<u32>
    ensures { result ≡ numbered (tested_in false m (lowers table.now) (gaps table.now) (uppers table.now) (min k 64) x row.now) }
{
    for i in (0..rows::capped(k, limit::RULES)).rev() {
        if !table[i].holds(row, m, x) {
            return Some(i as u32 + 1);
        }
    }
    None
}

// The number of a broken rule, where measure m counts as x, on the row of n measures, 32 at most, that begins at a place of an array; beyond the array's end there is
// no row. A caller that knows that all rules hold on the row lends an index: then that is asked, which, if it is the rules', has those that name the measure, and the
// number is the same.
#[inline(always)]
pub fn broken<const N: usize>(
    table: &Table,
    k: u32,
    index: Option<&Index>,
    values: &[i32; N],
    at: usize,
    n: u32,
    m: u32,
    x: i32,
) -> Option<u32>
    ensures { at + min n 32 ≤ N → result ≡ numbered (tested_with (option_copied index.entry) m (lowers table.now) (gaps table.now) (uppers table.now)
        (min k 64) x (row values.now at (min n 32))) }
{
    let vs = &values[..];
    let end = at.saturating_add(rows::capped(n, limit::MEASURES)).min(N);
    let row = &vs[at.min(end)..end];
    match index {
        Some(index) => broken_by_index(index, row, m, x),
        None => broken_of_all(table, k, row, m, x),
    }
}

// ---- firm rules

// Whether one of the first k rules is firm and names the measure: a search.
fn firm_named(table: &Table, k: u32, m: u32) -> bool
    ensures { result ≡ list_any (names_firmly m) (take (min k 64) table.now) }
{
    table[..rows::capped(k, limit::RULES)]
        .iter()
        .any(|rule| rule.firm && rule.names(m))
}

// The same where no rule names a measure above `top`.
fn firm_below(table: &Table, k: u32, top: u32, m: u32) -> bool
    requires { NoneAbove (lowers table.now) (uppers table.now) (min k 64) top }
    ensures { result ≡ firm_in (lowers table.now) (uppers table.now) (firms table.now) (min k 64) m }
{
    m <= top && firm_named(table, k, m)
}

// The same, from an index that a caller lends if it knows that all rules hold: the rules' own (`Indexed`) says the same.
pub fn firm_in(table: &Table, k: u32, index: Option<&Index>, m: u32) -> bool
    ensures { result ≡ firm_with (option_copied index.entry) (lowers table.now) (uppers table.now) (firms table.now) (min k 64) m }
{
    match index {
        Some(index) => index.firm[listed(m)],
        None => firm_named(table, k, m),
    }
}
