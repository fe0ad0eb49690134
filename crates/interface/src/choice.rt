// The suite choice in numbers.
ghost use Rattle.std.specs.Prelude.{◌≡◌};
ghost use Rattle.interface.specs.Choice.{chosen_of};
ghost use Rattle.suites.specs.Numbers.{answer_of};

use protocol::refusals;
use suites::{Chosen, TooLong};

// The number of its refusal, 0 for none, as the C interface has it.
pub fn refusal_in(choice: Result<Chosen, TooLong>) -> u32
    ensures { result ≡ (answer_of choice).refusal }
{
    match choice {
        Ok(_) => refusals::NONE,
        Err(TooLong) => refusals::LIST_TOO_LONG,
    }
}

// Whether each suite was found, and its number, as the C interface has them.
pub fn numbers_in(choice: Result<Chosen, TooLong>) -> [u32; 4]
    ensures { result ≡ chosen_of (answer_of choice) }
{
    let Ok(Chosen { verifier, prover }) = choice else {
        return [0; 4];
    };
    [
        u32::from(verifier.is_some()),
        verifier.unwrap_or(0),
        u32::from(prover.is_some()),
        prover.unwrap_or(0),
    ]
}
