// Kept edits: their records, fates and tests.
#![tactic(auto)]

ghost use Rattle.std.specs.Prelude.{◌≡◌, ◌≤◌};
ghost use Rattle.protocol.specs.Lists.{count};
ghost use Rattle.protocol.specs.Plan.{fate_number};
ghost use Rattle.records.specs.Records.{fate_of, kept_at, kept_of, test_of, found_at};

use change::Change;
use heads::Head;
use protocol::limit;

// 01's fates.
#[derive(Clone, Copy, PartialEq, Eq)]
pub enum Fate {
    Unsent,
    Waiting,
    Accepted,
    Revoked,
}

impl Fate {
    // As a call gives it. No From: the name says which number it is.
    pub fn number(self) -> u32
        ensures { result ≡ fate_number (fate_of self) }
    {
        match self {
            Fate::Unsent => 1,
            Fate::Waiting => 2,
            Fate::Accepted => 3,
            Fate::Revoked => 4,
        }
    }
}

// A kept edit: its change and its fate side by side. Its earlier edit is 0 for none, as a call gives it (01, "The calls"), and so is its place among the settled. Its
// number is not stored: the kept edits have consecutive numbers. Side and measure are bytes beside the fate, so that a record takes 24 bytes with no gap: a run sets
// up 256 of them.
#[derive(Clone, Copy)]
pub struct EditRecord {
    pub change: Change,
    pub fate: Fate,
    pub replied: bool,
    pub side: u8,
    pub measure: u8,
    pub client: u32,
    pub earlier: u32,
    pub place: u32,
}

// No edit. Of a constant a compiler knows every byte: 256 of them are set up at once.
pub const NO_RECORD: EditRecord = EditRecord {
    change: Change::Set(0),
    fate: Fate::Unsent,
    replied: false,
    side: 0,
    measure: 0,
    client: 0,
    earlier: 0,
    place: 0,
};

// A test of a kept edit.
#[derive(Clone, Copy)]
pub enum Test {
    UnsentOf(u32),
    Waiting,
    Open,
    Settled,
}

impl EditRecord {
    pub fn passes(&self, test: Test) -> bool
        ensures { result ≡ test_of test (kept_at 0 self.now) }
    {
        match test {
            Test::UnsentOf(side) => self.fate == Fate::Unsent && u32::from(self.side) == side,
            Test::Waiting => self.fate == Fate::Waiting,
            Test::Open => matches!(self.fate, Fate::Unsent | Fate::Waiting),
            Test::Settled => matches!(self.fate, Fate::Accepted | Fate::Revoked),
        }
    }
}

// The edit at a place, if there is one.
pub fn find(edits: &[EditRecord; limit::EDITS], place: Option<usize>) -> Option<EditRecord>
    ensures { result ≡ found_at edits.now place }
{
    edits.get(place?).copied()
}

// How many of the kept edits pass a test.
#[tactic(auto, using(crate::proofs::Records::count_front))]
pub fn count(edits: &[EditRecord; limit::EDITS], h: &Head, test: Test) -> u32
    ensures { (result ≡ count (test_of test) (kept_of h.now edits.now)) × (result ≤ 256) }
{
    let kept = rows::capped(h.kept, limit::EDITS);
    edits[..kept].iter().filter(|e| e.passes(test)).count() as u32
}
