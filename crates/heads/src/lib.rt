// The mode and the counts of a plan, and where its sides and its kept edits stand.
#![tactic(auto)]

ghost use Rattle.std.specs.Prelude.{◌≡◌, ◌≤◌, ◌<◌, IfSome};
ghost use Rattle.protocol.specs.Plan.{active};
ghost use Rattle.heads.specs.Heads.{mode_of, single, sides_in, offset_of, index_of, end_in, kept_in, position_of, seat, named_at, unset_in};

use protocol::limit;

// 01's modes.
#[derive(Clone, Copy, PartialEq, Eq)]
pub enum Mode {
    Blank,
    Whole,
    Split,
    Joining,
    Closing,
}

impl Mode {
    // A join is under way.
    pub fn is_active(self) -> bool
        ensures { result ≡ active (mode_of self) }
    {
        matches!(self, Mode::Joining | Mode::Closing)
    }
}

// The mode and the counts. A blank or whole plan has one side, another as many more as were added. The kept edits' numbers
// end below next while the plan is split, joining or closing, and below mark else.
#[derive(Clone, Copy)]
pub struct Head {
    pub mode: Mode,
    pub measures: u32,
    pub rules: u32,
    pub added: u32,
    pub kept: u32,
    pub next: u32,
    pub mark: u32,
    pub based: u32,
    pub drafted: u32,
}

impl Head {
    // A blank or whole plan has one side.
    fn is_single(&self) -> bool
        ensures { result ≡ single self.now }
    {
        matches!(self.mode, Mode::Blank | Mode::Whole)
    }

    pub fn side_count(&self) -> usize
        ensures { (result ≡ sides_in self.now) × (result ≤ 8) }
    {
        if self.is_single() {
            1
        } else {
            rows::capped(self.added, limit::LAST_SIDE) + 1
        }
    }

    // The number that the kept edits' numbers end below.
    fn end(&self) -> u32
        ensures { result ≡ end_in self.now }
    {
        if self.is_single() {
            self.mark
        } else {
            self.next
        }
    }

    // The place of the kept edit numbered n; None if it is not kept.
    pub fn position(&self, n: u32) -> Option<usize>
        ensures { (result ≡ seat (position_of (end_in self.now) (kept_in self.now) n)) × IfSome result (λ i. i < 256) }
    {
        let end = self.end() as usize;
        let kept = rows::capped(self.kept, limit::EDITS);
        let n = n as usize;
        // A number that would be below 0 is 0: then the first edit's is 0.
        if n == 0 {
            return if 0 < kept && end <= kept {
                Some(0)
            } else {
                None
            };
        }
        if n < end && end - n <= kept {
            Some(kept - (end - n))
        } else {
            None
        }
    }

    // The place of the kept edit that a call's number names.
    pub fn named(&self, n: i32) -> Option<usize>
        ensures { (result ≡ seat (named_at self.now n)) × IfSome result (λ i. i < 256) }
    {
        self.position(exact::number(n))
    }

    // How many sides have a flag that is not set.
    #[tactic(auto, using(crate::proofs::Flags::unset_front))]
    pub fn unset(&self, flags: &[bool; limit::SIDES]) -> u32
        ensures { (result ≡ unset_in flags.now (sides_in self.now)) × (result ≤ 8) }
    {
        flags[..self.side_count()].iter().filter(|f| !**f).count() as u32
    }
}

// A side's place among the flags. A number that is no side's has some place too.
pub fn index(s: u32) -> usize
    ensures { (result ≡ index_of s) × (result ≤ 7) }
{
    rows::capped(s.saturating_sub(1), limit::LAST_SIDE)
}

// Where a side's values begin.
pub fn offset(s: u32) -> usize
    ensures { (result ≡ offset_of s) × (result ≤ 224) }
{
    limit::MEASURES * index(s)
}
