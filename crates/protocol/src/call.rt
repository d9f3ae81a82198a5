// The fourteen calls as the code has them (01, "The calls"), with the whole numbers that they are given. specs/Asked says which call of the definitions each is.

// The numbers of an edit: whose copy, who enters it, on which edit it builds, and what it changes how.
#[derive(Clone, Copy)]
pub struct Edit {
    pub side: i32,
    pub client: i32,
    pub after: i32,
    pub measure: i32,
    pub kind: i32,
    pub constant: i32,
}

// The numbers of a rule: measure `lower` plus `gap` is less than measure `upper`, and the rule is firm if `firm` is 1.
#[derive(Clone, Copy)]
pub struct Rule {
    pub lower: i32,
    pub gap: i32,
    pub upper: i32,
    pub firm: i32,
}

#[derive(Clone, Copy)]
pub enum Call {
    Measure(i32),
    Rule(Rule),
    Open,
    Split(i32),
    Edit(Edit),
    Join,
    Send(i32),
    Replay(i32),
    Stop,
    Confirm(i32),
    Install,
    Show(i32),
    Fate(i32),
    Left,
}
