// The records that a slot is lent, taken: where nothing turns the slot back their cells arrive, else the table is as it
// was. The sets of its cells by place follow it.
#![tactic(auto)]

ghost use Rattle.std.specs.Prelude.{◌≡◌, ℕ, ◌≤◌, length};
ghost use Rattle.layout.specs.Answer.{answer_size};
ghost use Rattle.layout.specs.Arrivals.{held_limit};
ghost use Rattle.layout.specs.Table.{IsTable};
ghost use Rattle.slot_arrival.specs.CodeArrival.{Arriving};
ghost use Rattle.slot_course.specs.Code.{SetsIn};
ghost use Rattle.slot_records.specs.CodeTaken.{Entered, SetsIf, Taken};

use cell::{Arrival, Fault, Refusal};
use layout::ANSWER_BYTES;
use slot_arrival::{arrive, raise_clock};
use slot_faults::first_fault;
use slot_view::Sets;

// Takes no more records than are looked at on a lent table, with so much room for the answer: 2, then 10, then what the
// clock and the records say. The check of the table sorts its cells by place: the lent sets are then those of the table,
// of a refused slot too.
pub fn take_records(
    table: &mut [u8],
    room: usize,
    sets: &mut Sets,
    records: &[Arrival],
) -> Result<(), Fault>
    requires { length records.now ≤ held_limit }
    ensures taken { Taken table.old room records.now result table.new }
    ensures sets_if { SetsIf table.new sets.new }
{
    let Some(sorted) = slot_check::sort_table(table) else {
        return Err(Fault {
            refusal: Refusal::BrokenTable,
            place: 0,
        });
    };
    *sets = sorted;
    if room < ANSWER_BYTES {
        return Err(Fault {
            refusal: Refusal::ShortBuffer,
            place: 0,
        });
    }
    take_sound(table, sets, records)
}

// The same on a sound table whose cells are sorted by place, for a caller that has room for the answer.
pub fn take_sound(table: &mut [u8], sets: &mut Sets, records: &[Arrival]) -> Result<(), Fault>
    requires table { IsTable table.old }
    requires many_le_held_limit { length records.now ≤ held_limit }
    requires sets_in { SetsIn table.old sets.old }
    ensures by_index { (room : ℕ) → answer_size ≤ room → Taken table.old room records.now result table.new }
    ensures sets_in_2 { SetsIn table.new sets.new }
{
    first_fault(table, records)?;
    arrive_records(table, sets, records);
    Ok(())
}

// Lets the cells of records without a fault arrive, with the clock raised for them.
fn arrive_records(table: &mut [u8], sets: &mut Sets, records: &[Arrival])
    requires arriving { Arriving table.old records.now }
    requires sets_in { SetsIn table.old sets.old }
    ensures entered { Entered table.old records.now table.new }
    ensures sets_in_2 { SetsIn table.new sets.new }
{
    raise_clock(table);
    for record in records {
        arrive(table, sets, *record);
    }
}
