// Answers as numbers.
ghost use Rattle.std.specs.Prelude.{◌≡◌};
ghost use Rattle.interface.specs.Answer.{answer_number};

use protocol::Answer;

const HANDLED: u32 = 0;

// Refusals have the numbers from 1 to 99.
const IGNORED: u32 = 100;

// A function, since `From` stands only where one of its two types is declared, and neither is here.
pub fn number_of(answer: Answer) -> u32
    ensures { result ≡ answer_number answer }
{
    match answer {
        Answer::Handled => HANDLED,
        Answer::Ignored => IGNORED,
        Answer::Refused(number) => number,
    }
}
