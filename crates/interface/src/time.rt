// The time left of a token in numbers.
ghost use Rattle.std.specs.Prelude.{◌≡◌};
ghost use Rattle.token.specs.Numbers.{answer_of};

use protocol::refusals;
use token::MarginTooLarge;

// The number of its refusal, 0 for none, as the C interface has it. One function for this and `choice::refusal_in` would have to be
// generic over the error, and its promise over both definitions.
pub fn refusal_in(time: Result<i64, MarginTooLarge>) -> u32
    ensures { result ≡ (answer_of time).refusal }
{
    match time {
        Ok(_) => refusals::NONE,
        Err(MarginTooLarge) => refusals::MARGIN_TOO_LARGE,
    }
}

// The seconds, 0 where they are refused, as the C interface has them.
pub fn seconds_in(time: Result<i64, MarginTooLarge>) -> i64
    ensures { result ≡ (answer_of time).seconds }
{
    time.unwrap_or(0)
}
