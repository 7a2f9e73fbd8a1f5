// The refusals of Rules 7.1: one name for each number.
#![tactic(auto)]

ghost use Rattle.std.specs.Prelude.{◌≡◌};
ghost use Rattle.refusal.specs.Numbers.{number_of};

// Why something handed in was not taken, and its number.
#[derive(Clone, Copy)]
pub enum Refusal {
    TooManyEvents = 1,
    WrongLength = 2,
    SetTooLarge = 3,
    DiagonalNotEq = 4,
    MirrorNotConverse = 5,
    PlacingLength = 6,
    StartNotBeforeEnd = 7,
    SheetTooLong = 8,
    LineForm = 9,
    NameTwice = 10,
    NoSuchEvent = 11,
    AboutItself = 12,
}

// The number of a refusal.
pub fn number_of(refusal: Refusal) -> u8
    ensures { result ≡ number_of refusal }
{
    refusal as u8
}
