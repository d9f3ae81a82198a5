// The limits of 01, "The plan", as the definitions have them (specs/Plan), and the sizes of arrays that follow from them (specs/Sizes).

// ---- limits

pub const MEASURE: u32 = 32;

pub const RULE: u32 = 64;

pub const SIDE: u32 = 8;

pub const KEPT: u32 = 256;

pub const CLIENT: i32 = 999;

// The last number that an edit is given.
pub const NUMBER: u32 = 999999;

// How far a measure and a rule's allowance may be from 0.
pub const VALUE: i32 = 1000000;

pub const LEAST_VALUE: i32 = -VALUE;

pub const GAP: i32 = 2000000;

pub const LEAST_GAP: i32 = -GAP;

// ---- sizes, and the last place of each

pub const MEASURES: usize = MEASURE as usize;

pub const LAST_MEASURE: usize = MEASURES - 1;

pub const RULES: usize = RULE as usize;

pub const LAST_RULE: usize = RULES - 1;

pub const SIDES: usize = SIDE as usize;

pub const LAST_SIDE: usize = SIDES - 1;

pub const EDITS: usize = KEPT as usize;

pub const LAST_EDIT: usize = EDITS - 1;

// The values of all sides.
pub const VALUES: usize = SIDES * MEASURES;
