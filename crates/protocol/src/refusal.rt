// Why a call is refused (01, "Who can be told no, and why"; 02, S-1), each with its number on the agreed list.
ghost use Rattle.std.specs.Prelude.{◌≡◌};
ghost use Rattle.protocol.specs.Asked.{number_of};

#[derive(Clone, Copy)]
pub enum Refusal {
    // whoever draws up the plan
    ValueOutOfRange,
    TooManyMeasures,
    TooManyRules,
    NoPairOfMeasures,
    RuleOutOfRange,
    NoMeasures,
    RuleUnmet,
    // whoever names a side, whoever enters an edit
    NoSuchSide,
    NoSuchClient,
    NoSuchMeasure,
    NoSuchChange,
    NoSuchEarlier,
    Frozen,
    TooManyEdits,
    ResultOutOfRange,
    // with the number of the rule that would be broken (02, S-3)
    RuleBroken(u32),
    NoNumberLeft,
    // whoever runs the join
    WrongMode,
    TooManySides,
    NothingToSend,
    LogMissing,
    NotWaiting,
    EarlierWaits,
    EditsWait,
    EditsUnsent,
    ConfirmedBefore,
    Unconfirmed,
    // the host program, and whoever loads a saved plan
    NoRoom,
    WrongSize,
    WrongSum,
    WrongChains,
    // the sheet
    Unreadable,
    TooLong,
}

impl Refusal {
    // On the agreed list. No From: the name says which number it is.
    pub fn number(self) -> u32
        ensures { result ≡ number_of self }
    {
        match self {
            Refusal::ValueOutOfRange => 11,
            Refusal::TooManyMeasures => 12,
            Refusal::TooManyRules => 13,
            Refusal::NoPairOfMeasures => 14,
            Refusal::RuleOutOfRange => 15,
            Refusal::NoMeasures => 16,
            Refusal::RuleUnmet => 17,
            Refusal::NoSuchSide => 21,
            Refusal::NoSuchClient => 22,
            Refusal::NoSuchMeasure => 23,
            Refusal::NoSuchChange => 24,
            Refusal::NoSuchEarlier => 25,
            Refusal::Frozen => 26,
            Refusal::TooManyEdits => 27,
            Refusal::ResultOutOfRange => 28,
            Refusal::RuleBroken(_) => 29,
            Refusal::NoNumberLeft => 30,
            Refusal::WrongMode => 31,
            Refusal::TooManySides => 32,
            Refusal::NothingToSend => 33,
            Refusal::LogMissing => 34,
            Refusal::NotWaiting => 35,
            Refusal::EarlierWaits => 36,
            Refusal::EditsWait => 37,
            Refusal::EditsUnsent => 38,
            Refusal::ConfirmedBefore => 39,
            Refusal::Unconfirmed => 40,
            Refusal::NoRoom => 41,
            Refusal::WrongSize => 44,
            Refusal::WrongSum => 45,
            Refusal::WrongChains => 46,
            Refusal::Unreadable => 51,
            Refusal::TooLong => 52,
        }
    }
}
