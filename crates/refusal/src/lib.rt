// The refusals of document 01, and the number that each is told by.
#![tactic(auto)]

ghost use Rattle.std.specs.Prelude.{◌≡◌};
ghost use Rattle.refusal.specs.Numbers.{refusal_no};

// In the order of document 01's table.
#[derive(Clone, Copy)]
pub enum Refusal {
    Short,
    BadVersion,
    BadSize,
    BadName,
    DupName,
    BadSort,
    BadFunction,
    BadValue,
    Trailing,
    BadRoot,
    NoTerm,
    TooDear,
    NoRoom,
    BadTerm,
    Absent,
    BadMode,
    BadStore,
}

// The number in document 01's table.
pub fn number(r: Refusal) -> u8
    ensures { result ≡ refusal_no r }
{
    match r {
        Refusal::Short => 1,
        Refusal::BadVersion => 2,
        Refusal::BadSize => 3,
        Refusal::BadName => 4,
        Refusal::DupName => 5,
        Refusal::BadSort => 6,
        Refusal::BadFunction => 7,
        Refusal::BadValue => 8,
        Refusal::Trailing => 9,
        Refusal::BadRoot => 10,
        Refusal::NoTerm => 11,
        Refusal::TooDear => 12,
        Refusal::NoRoom => 13,
        Refusal::BadTerm => 14,
        Refusal::Absent => 15,
        Refusal::BadMode => 16,
        Refusal::BadStore => 17,
    }
}
