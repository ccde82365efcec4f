// Why a call is refused: document 01's table, under the names that docs/NUMBERS.md and the header give its numbers; and any number that a caller
// hands in as a refusal's.
#![tactic(auto)]

ghost use Rattle.std.specs.Prelude.{◌≡◌};
ghost use Rattle.refusals.specs.Refusals.{number};

#[derive(Clone, Copy)]
pub enum Refusal {
    InvalidInput,
    SideTooLarge,
    SettingTooLarge,
    RoomTooShort,
    FewPixels,
    Flat,
    RhoNotFinite,
    NoInverse,
    NoStep,
    PoseLost,
    NoPrevious,
    OtherSides,
    StoreTooShort,
    // Handed in by its number, in the table or not. No call ends with it.
    Handed(u8),
}

impl Refusal {
    // Its number in the table, or the one that was handed in.
    pub fn number(self) -> u8
        ensures { result ≡ number self }
    {
        match self {
            Refusal::InvalidInput => 1,
            Refusal::SideTooLarge => 2,
            Refusal::SettingTooLarge => 3,
            Refusal::RoomTooShort => 4,
            Refusal::FewPixels => 5,
            Refusal::Flat => 6,
            Refusal::RhoNotFinite => 7,
            Refusal::NoInverse => 8,
            Refusal::NoStep => 9,
            Refusal::PoseLost => 10,
            Refusal::NoPrevious => 11,
            Refusal::OtherSides => 12,
            Refusal::StoreTooShort => 13,
            Refusal::Handed(number) => number,
        }
    }
}
