// The result of a call as the number that C is given.
ghost use Rattle.std.specs.Prelude.{◌≡◌};
ghost use Rattle.fair_table.specs.Results.{number_of_result};

use cell::Refusal;

// 0, or the number of the refusal.
pub fn number_of_result(answer: Result<(), Refusal>) -> u32
    ensures { result ≡ number_of_result answer }
{
    match answer {
        Ok(()) => 0,
        Err(refusal) => refusal.number(),
    }
}
