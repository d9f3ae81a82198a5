// Counts kept beside a state by whoever owns it, in a struct that is lent and changed in place: how many kept edits each side has unsent, how many wait,
// how many are settled; the number left and how many first logs are missing, which are the plan's while it is joining or closing.
#![tactic(auto)]

ghost use Rattle.std.specs.Prelude.{◌-◌, ◌≤◌, ◌≡◌};
ghost use Rattle.counts.specs.Tallies.{raise, no_tallies, one_unsent, all_sent, one_settled, begun, one_less, noted};
ghost use Rattle.heads.specs.Heads.{kept_in, sides_in};

use heads::{Head, Mode};
use protocol::call::Call;
use protocol::limit;

#[derive(Clone, Copy)]
pub struct Tallies {
    // how many edits each side has unsent, by the side's index
    pub unsent: [u32; limit::SIDES],
    pub waiting: u32,
    pub settled: u32,
    pub left: u32,
    pub missing: u32,
}

// No number left is more: twice 8 sides, 256 edits, and 2.
const MOST_LEFT: u32 = 274;

// What an edit adds to the number left: itself, and its side's send if that has nothing else to send.
fn raised(arrived: bool, unsent: u32) -> u32
    ensures { (result ≡ raise arrived unsent) × (result ≤ 2) }
{
    if arrived && unsent == 0 { 2 } else { 1 }
}

// How many of the kept edits are not settled.
pub fn unsettled(h: &Head, settled: u32) -> u32
    ensures { (result ≡ kept_in h.now - settled) × (result ≤ 256) }
{
    h.kept.min(limit::KEPT).saturating_sub(settled)
}

impl Tallies {
    pub fn none() -> Tallies
        ensures { result ≡ no_tallies }
    {
        Tallies {
            unsent: [0; limit::SIDES],
            waiting: 0,
            settled: 0,
            left: 0,
            missing: 0,
        }
    }

    // One edit more is kept that its side has not sent; arrived says that the side's first log is there.
    fn note_kept(&mut self, side: u32, arrived: bool)
        ensures { self.new ≡ one_unsent side arrived self.old }
    {
        let i = heads::index(side);
        let unsent = self.unsent[i];
        self.left = self.left.min(MOST_LEFT) + raised(arrived, unsent);
        self.unsent[i] = unsent.min(limit::KEPT - 1) + 1;
    }

    // A side's unsent edits wait; arrived says that its first log was there before.
    fn note_sent(&mut self, side: u32, arrived: bool)
        ensures { self.new ≡ all_sent side arrived self.old }
    {
        let i = heads::index(side);
        self.waiting = self.waiting.min(limit::KEPT) + self.unsent[i].min(limit::KEPT);
        self.unsent[i] = 0;
        self.left = self.left.saturating_sub(1);
        if !arrived {
            self.missing = self.missing.saturating_sub(1);
        }
    }

    // A waiting edit is settled.
    fn note_settled(&mut self)
        ensures { self.new ≡ one_settled self.old }
    {
        self.waiting = self.waiting.min(limit::KEPT).saturating_sub(1);
        self.settled = self.settled.min(limit::KEPT - 1) + 1;
        self.left = self.left.saturating_sub(1);
    }

    // A join begins.
    fn note_join(&mut self, h: &Head)
        ensures { self.new ≡ begun (sides_in h.now) (kept_in h.now) self.old }
    {
        let sides = h.side_count() as u32;
        self.left = 2 * sides + unsettled(h, self.settled) + 2;
        self.missing = sides;
    }

    // A call is accepted: from the head before it, and whether the first log of the side that it names was there.
    #[inline(always)]
    pub fn note(&mut self, call: Call, h: &Head, arrived: bool)
        ensures { self.new ≡ noted call h.now arrived self.old }
    {
        match call {
            Call::Split(_) => {
                if h.mode == Mode::Whole {
                    *self = Tallies::none();
                }
            }
            Call::Edit(e) => {
                if h.mode != Mode::Whole {
                    self.note_kept(exact::number(e.side), arrived);
                }
            }
            Call::Join => self.note_join(h),
            Call::Send(s) => self.note_sent(exact::number(s), arrived),
            Call::Replay(_) => self.note_settled(),
            Call::Stop | Call::Confirm(_) | Call::Install => {
                self.left = self.left.saturating_sub(1);
            }
            _ => {}
        }
    }
}
