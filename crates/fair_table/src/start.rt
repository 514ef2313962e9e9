// The call that starts a switch of either engine.
ghost use Rattle.std.specs.Prelude.{◌≡◌};
ghost use Rattle.layout.specs.Engine.{start_call, buffer_after};
ghost use Rattle.layout.specs.Host.{result_of};
ghost use Rattle.fair_table.specs.Results.{number_of_result};

use crate::results::number_of_result;
use crate::{marks_in_range, write_fresh};
use cell::{Refusal, Switch};
use layout::FAIR_BYTES;

// Writes the table of a fresh switch, marked at these outputs, into the first bytes of the buffer: 0. Refuses with 1 a
// number of ports that is not 1 to 16, then with 4 a mark at an output that is not below it, then with 10 a buffer that
// is too short; a refusal writes nothing.
pub fn start(ports: u32, first: u32, marks: u32, number: u32, table: &mut [u8]) -> u32
    ensures value { result ≡ result_of (start_call ports first marks table.old) }
    ensures table_after { table.new
        ≡ buffer_after number table.old (start_call ports first marks table.old) }
{
    number_of_result(write(ports, first, marks, number, table))
}

// The same with the refusal as it is.
fn write(ports: u32, first: u32, marks: u32, number: u32, table: &mut [u8]) -> Result<(), Refusal>
    ensures value { number_of_result result ≡ result_of (start_call ports first marks table.old) }
    ensures table_after { table.new
        ≡ buffer_after number table.old (start_call ports first marks table.old) }
{
    if !Switch::ports_in_range(ports) {
        return Err(Refusal::BadSize);
    }
    if !marks_in_range(ports, marks) {
        return Err(Refusal::NoSuchPort);
    }
    if table.len() < FAIR_BYTES {
        return Err(Refusal::ShortBuffer);
    }
    write_fresh(ports, first, marks, number, table);
    Ok(())
}
