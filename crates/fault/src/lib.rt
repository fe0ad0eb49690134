// Why bytes are refused.
#![tactic(auto)]

ghost use Rattle.std.specs.Prelude.{◌≡◌};
ghost use Rattle.fault.specs.Refusals.{refusal_number};

pub mod refusals;

// A refusal; the numbers are in `refusals`.
#[derive(Clone, Copy, Debug, PartialEq, Eq)]
pub enum Refusal {
    EndsTooSoon,
    UnexpectedField,
    WrongWireType,
    NumberTooLarge,
    TooManySuites,
}

// The number of a refusal.
impl From<Refusal> for u32 {
    ghost from_gives = { λ refusal r. r ≡ refusal_number refusal };

    fn from(refusal: Refusal) -> u32 {
        match refusal {
            Refusal::EndsTooSoon => refusals::ENDS_TOO_SOON,
            Refusal::UnexpectedField => refusals::UNEXPECTED_FIELD,
            Refusal::WrongWireType => refusals::WRONG_WIRE_TYPE,
            Refusal::NumberTooLarge => refusals::NUMBER_TOO_LARGE,
            Refusal::TooManySuites => refusals::TOO_MANY_SUITES,
        }
    }
}
