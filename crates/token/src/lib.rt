// The remaining time of a dynamic attribute token (DAT).
//
// Checking the token's signature is the host's work; its verdict is an argument here.
#![tactic(auto)]

ghost use Rattle.std.specs.Prelude.{◌≡◌, is_some, unwrap_or};
ghost use Rattle.token.specs.Answer.{time_left};
ghost use Rattle.token.specs.Good.{good, good_seconds};
ghost use Rattle.token.specs.Numbers.{answer_of};
ghost use Rattle.token.specs.SecondsLeft.{margin_too_large};

const DAY: i64 = 86_400;

const MINUS_DAY: i64 = -86_400;

// The most seconds by which a token may be treated as spent early.
const MAX_MARGIN: u32 = 300;

// Refusal 9: the margin is above 300.
#[derive(Clone, Copy, Debug, PartialEq, Eq)]
pub struct MarginTooLarge;

// What the host says of a token.
#[derive(Clone, Copy, Debug, PartialEq, Eq)]
pub struct Token {
    // The host's verdict on its signature.
    pub verdict: bool,
    // How many seconds before its expiry it counts as spent, 0 to 300.
    pub margin: u32,
    // When it expires and the time now, in seconds.
    pub expiry: i64,
    pub now: i64,
}

impl Token {
    // The seconds left of a good token, which are the DAT timer's length; none of a bad one, and where the margin is refused.
    pub fn good_seconds(self) -> Option<u32>
        ensures good { is_some result ≡ good self.verdict (time_left self.expiry self.now self.margin).seconds }
        ensures seconds { unwrap_or result 0 ≡ good_seconds self.verdict (time_left self.expiry self.now self.margin).seconds }
    {
        match seconds_left(self.expiry, self.now, self.margin) {
            Ok(left) if self.verdict && 1 <= left => Some(left as u32),
            _ => None,
        }
    }
}

// Whether a margin is above 300, which is the fault of refusal 9.
pub fn margin_too_large(margin: u32) -> bool
    ensures { result ≡ margin_too_large margin }
{
    margin > MAX_MARGIN
}

// Expiry minus now minus margin, worked out exactly, then clamped to a day either way. Expiry minus now is compared with
// both bounds raised by the margin, which is taken last; comparing `now` first with expiry less a bound keeps the
// subtraction within 64 bits. Document 01 asks that both are compared without wrap, so the subtraction does not saturate.
pub fn seconds_left(expiry: i64, now: i64, margin: u32) -> Result<i64, MarginTooLarge>
    ensures { answer_of result ≡ time_left expiry now margin }
{
    if margin_too_large(margin) {
        return Err(MarginTooLarge);
    }
    let early = i64::from(margin);
    let least = early - DAY;
    let most = early + DAY;
    if expiry < 0 {
        if expiry - least < now {
            return Ok(MINUS_DAY);
        }
    } else if now < expiry - most {
        return Ok(DAY);
    }
    let apart = expiry - now;
    if apart < least {
        return Ok(MINUS_DAY);
    }
    if most < apart {
        return Ok(DAY);
    }
    let left = apart - early;
    Ok(left)
}
