// The result of a slot call as a number.
ghost use Rattle.std.specs.Prelude.{◌≡◌};
ghost use Rattle.layout.specs.Host.{fault_result};

use cell::Fault;

// 0, or the number of the refusal and 256 times the record's place.
pub fn result_of(checked: Result<(), Fault>) -> u64
    ensures { result ≡ fault_result checked }
{
    match checked {
        Ok(()) => 0,
        Err(fault) => fault.refusal.number() as u64 + 256 * (fault.place as u64),
    }
}
