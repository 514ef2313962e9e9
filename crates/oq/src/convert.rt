// Older tables: those of the cells alone, before a switch had a memory.
ghost use Rattle.std.specs.Prelude.{◌≡◌};
ghost use Rattle.layout.specs.Engine.{buffer_after};
ghost use Rattle.layout.specs.Fair.{fair_number_oq};
ghost use Rattle.layout.specs.Host.{result_of};
ghost use Rattle.layout.specs.Older.{convert_call};
ghost use Rattle.layout.specs.Oq.{decode_oq};
ghost use Rattle.fair_table.specs.Results.{number_of_result};

use crate::check::is_oq_table;
use cell::Refusal;
use fair_table::results::number_of_result;
use fair_table::write_older;
use layout::{FAIR_BYTES, FAIR_NUMBER_OQ, OQ_NUMBER_BYTES};

// Writes an older table in the new layout into the first bytes of the buffer, no output fair and all else kept: 0.
// Refuses with 2 what is not an older table, then with 10 a buffer that is too short; a refusal writes nothing.
pub fn oq_convert(old: &[u8], table: &mut [u8]) -> u32
    ensures value { result ≡ result_of (convert_call decode_oq old.now table.old) }
    ensures table_after { table.new ≡ buffer_after fair_number_oq table.old
        (convert_call decode_oq old.now table.old) }
{
    number_of_result(write(old, table))
}

// The same with the refusal as it is.
fn write(old: &[u8], table: &mut [u8]) -> Result<(), Refusal>
    ensures value { number_of_result result ≡ result_of (convert_call decode_oq old.now table.old) }
    ensures table_after { table.new ≡ buffer_after fair_number_oq table.old
        (convert_call decode_oq old.now table.old) }
{
    if !is_oq_table(old) {
        return Err(Refusal::BrokenTable);
    }
    if table.len() < FAIR_BYTES {
        return Err(Refusal::ShortBuffer);
    }
    write_older(&old[OQ_NUMBER_BYTES..], FAIR_NUMBER_OQ, table);
    Ok(())
}
