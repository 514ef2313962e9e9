// The same slot for a caller that lends the arrivals and the tally as bytes.
ghost use Rattle.std.specs.Prelude.{◌≡◌, length};
ghost use Rattle.layout.specs.TallyBytes.{tally_size};
ghost use Rattle.slot_call.specs.CodeLent.{lent_slot, LentLeaves};

use cell::{Fault, Refusal};
use layout::ARRIVAL_BYTES;
use layout_arrivals::{few, read_records};
use layout_tally::{counted, read, write};

// Takes a slot as `slot` of this crate does. Bytes that are no whole number of records are refused with 2.
pub fn slot(
    table: &mut [u8],
    arrivals: &[u8],
    answer: &mut [u8],
    tally: &mut [u8],
) -> Result<(), Fault>
    requires { length tally.old ≡ tally_size }
    ensures { LentLeaves (lent_slot table.old arrivals.now (length answer.old))
        table.old arrivals.now answer.old tally.old
        result table.new answer.new tally.new }
{
    let mut counts = read(tally);
    if arrivals.len() % ARRIVAL_BYTES != 0 {
        write(tally, counted(counts, false, 0, 0));
        return Err(Fault {
            refusal: Refusal::BrokenTable,
            place: 0,
        });
    }
    let records = read_records(arrivals);
    let many = few(arrivals.len() / ARRIVAL_BYTES);
    let checked = crate::slot(table, &records[..many], answer, &mut counts);
    write(tally, counts);
    checked
}
