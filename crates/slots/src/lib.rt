// The slots of a file as four words each (02, S-1): reading and writing them, their sum, and the mark byte by masks and shifts.
#![tactic(auto)]

ghost use Rattle.std.specs.Prelude.{◌≡◌, ◌+◌, ◌*◌, ◌/◌, ◌%◌, ◌<◌, ◌≤◌, length, take};
ghost use Rattle.std.proofs.lemmas.List.Edits.{sets};
ghost use Rattle.file.specs.Bytes.{word_size, byte_at, two_at, four_at, four_bytes, signed, complement, kind_bits, firm_bit, high_bits, mark, total};
ghost use Rattle.file.specs.Loaded.{slot_in, slots};
ghost use Rattle.slots.specs.Words.{words_in, Parted, sum_of, joined_word, put_in};
ghost use Rattle.slots.specs.Parts.{kind_number, fits_kind};

// Bytes of a slot.
pub const SIZE: usize = 16;

// Slots of a file, slot 0 with them.
pub const LIMIT: usize = 97;

// The kinds of slots.
#[derive(Clone, Copy, PartialEq, Eq)]
pub enum Kind {
    Measure,
    Rule,
}

impl Kind {
    // As the two low bits of the mark byte have it.
    fn bits(self) -> u8
        ensures { result ≡ kind_number self }
    {
        match self {
            Kind::Measure => 1,
            Kind::Rule => 2,
        }
    }
}

// A slot as four words, little-endian.
#[derive(Clone, Copy)]
pub struct Slot {
    pub first: u32,
    pub second: u32,
    pub third: u32,
    pub fourth: u32,
}

// ---- reading

#[tactic(auto, unfolding(file::specs::Bytes::four_at, file::specs::Bytes::two_at))]
fn word(f: &[u8], at: usize) -> u32
    requires { at + 4 ≤ length f.now }
    ensures { (result ≡ four_at f.now at) × (two_at f.now at < 65536) × (byte_at f.now (at + 2) < 256) }
{
    u32::from_le_bytes([f[at], f[at + 1], f[at + 2], f[at + 3]])
}

impl Slot {
    const NOUGHT: Slot = Slot {
        first: 0,
        second: 0,
        third: 0,
        fourth: 0,
    };

    // Slot k of a file; nought where the file has none.
    pub fn read(f: &[u8], k: usize) -> Slot
        ensures { (result ≡ words_in f.now k) × (k < slots f.now → Parted (slot_in f.now k)) }
    {
        if f.len() / SIZE <= k {
            return Slot::NOUGHT;
        }
        let at = SIZE * k;
        Slot {
            first: word(f, at),
            second: word(f, at + 4),
            third: word(f, at + 8),
            fourth: word(f, at + 12),
        }
    }

    // The sum of its words, modulo 2^32.
    fn sum(&self) -> u32
        ensures { result ≡ sum_of self.now % word_size }
    {
        self.first
            .wrapping_add(self.second)
            .wrapping_add(self.third)
            .wrapping_add(self.fourth)
    }

    // It is of a kind, and nothing is set in it that must be nought.
    pub fn fits(&self, kind: Kind) -> bool
        ensures { result ≡ fits_kind (kind_number kind) self.now }
    {
        self.fits_bits(kind.bits())
    }

    // The same of any two bits, those of no kind too.
    pub fn fits_bits(&self, bits: u8) -> bool
        ensures { result ≡ fits_kind bits self.now }
    {
        let m = mark_byte(self.first);
        kind_of(m) == bits
            && high_bits(m) == 0
            && last_byte(self.first) == 0
            && self.fourth == 0
            && (bits != Kind::Measure.bits() || (!firm_of(m) && self.third == 0))
    }

    // Written anew as slot k of an area; nothing where the area has none.
    #[tactic(auto, using(crate::proofs::Words::put_in_lem))]
    pub fn put(self, area: &mut [u8], k: usize)
        ensures { area.new ≡ put_in area.old k self }
    {
        if k < area.len() / SIZE {
            let at = SIZE * k;
            put_word(area, at, self.first);
            put_word(area, at + 4, self.second);
            put_word(area, at + 8, self.third);
            put_word(area, at + 12, self.fourth);
        }
    }
}

// The sum of all words of a file's slots, modulo 2^32.
#[tactic(auto, using(crate::proofs::Words::sum_more), unfolding(file::specs::Bytes::total))]
pub fn sum(f: &[u8]) -> u32
    ensures { result ≡ total (take (16 * slots f.now) f.now) % word_size }
{
    let mut s: u32 = 0;
    for k in 0..f.len() / SIZE {
        s = s.wrapping_add(Slot::read(f, k).sum());
    }
    s
}

// ---- the parts of a word

pub fn low(w: u32) -> u32
    ensures { result ≡ w % 65536 }
{
    w & 0xffff
}

pub fn high(w: u32) -> u32
    ensures { result ≡ w / 65536 }
{
    w >> 16
}

// Two numbers of two bytes as a word.
pub fn joined(a: u32, b: u32) -> u32
    ensures { result ≡ joined_word a b }
{
    low(a) + 65536 * low(b)
}

// A word as a whole number, two's complement, and back.
#[tactic(auto, using(crate::proofs::Words::signed_is))]
pub fn value(w: u32) -> i32
    ensures { result ≡ signed w }
{
    w.cast_signed()
}

#[tactic(auto, using(crate::proofs::Words::complement_is))]
pub fn word_of(v: i32) -> u32
    ensures { result ≡ complement v }
{
    v.cast_unsigned()
}

// ---- the mark byte

// The mark byte in a slot's first word, and the byte behind it.
pub fn mark_byte(w: u32) -> u8
    ensures { result ≡ w / 65536 % 256 }
{
    ((w >> 16) & 0xff) as u8
}

pub fn last_byte(w: u32) -> u32
    ensures { result ≡ w / 16777216 }
{
    w >> 24
}

// The kind's bits as they stand, those of no kind with them.
#[tactic(auto, unfolding(file::specs::Bytes::kind_bits))]
pub fn kind_of(m: u8) -> u8
    ensures { result ≡ kind_bits m }
{
    m & 3
}

#[tactic(auto, unfolding(file::specs::Bytes::firm_bit))]
pub fn firm_of(m: u8) -> bool
    ensures { result ≡ firm_bit m }
{
    (m >> 2) & 1 == 1
}

// The bits above the third.
#[tactic(auto, unfolding(file::specs::Bytes::high_bits))]
pub fn high_bits(m: u8) -> u8
    ensures { result ≡ high_bits m }
{
    m >> 3
}

#[tactic(auto, unfolding(file::specs::Bytes::kind_bits))]
pub fn mark_of(kind: Kind, firm: bool) -> u8
    ensures { result ≡ mark (kind_number kind) firm }
{
    mark_with(kind.bits(), firm)
}

// The same of any two bits, those of no kind too.
#[tactic(auto, unfolding(file::specs::Bytes::mark, file::specs::Bytes::kind_bits))]
pub fn mark_with(bits: u8, firm: bool) -> u8
    ensures { result ≡ mark (kind_bits bits) firm }
{
    kind_of(bits) | (u8::from(firm) << 2)
}

// ---- writing

#[tactic(auto, using(crate::proofs::Words::part_sets), unfolding(file::specs::Bytes::four_bytes))]
fn put_word(area: &mut [u8], at: usize, w: u32)
    requires { at + 4 ≤ length area.old }
    ensures { area.new ≡ sets area.old at (four_bytes w) }
{
    area[at..at + 4].copy_from_slice(&w.to_le_bytes());
}
