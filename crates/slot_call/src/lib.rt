// A slot on what it is lent: the arrivals are lent as a slice of records, and the tally is lent to be changed in place.
#![tactic(auto)]

pub mod bytes;

ghost use Rattle.std.specs.Prelude.{◌≡◌, ◌≤◌, length};
ghost use Rattle.layout.specs.Answer.{answer_size};
ghost use Rattle.layout.specs.Arrivals.{held_limit};
ghost use Rattle.layout.specs.Table.{IsTable};
ghost use Rattle.model.specs.Tally.{tally_after};
ghost use Rattle.model.specs.Checks.{refusal_of};
ghost use Rattle.layout.specs.Host.{table_after, answer_after};
ghost use Rattle.slot_call.specs.CodeEnded.{ended_of, SoundLeaves};
ghost use Rattle.slot_records.specs.Records.{records_slot};

use cell::{Arrival, Fault, Tally};
use layout_answer::departures_in;
use layout_arrivals::few;
use layout_tally::count;
use slot_course::slot::run;
use slot_loading::fill_sets;
use slot_records::{take_records, take_sound};
use slot_view::Sets;

// Takes a slot on the lent table with the lent records. The table is then the one after the slot, the first bytes of
// the answer's buffer are its answer, and the tally counts it. A refusal is the first one of: 2, the table is broken;
// 10, the buffer is too short for the answer; 3, the clock's end; record by record 4 to 8. A refusal keeps the table
// and the buffer, and the tally counts a refused slot.
pub fn slot(
    table: &mut [u8],
    records: &[Arrival],
    answer: &mut [u8],
    tally: &mut Tally,
) -> Result<(), Fault>
    ensures value { result
        ≡ refusal_of (records_slot table.old (length answer.old) records.now) }
    ensures table_after { table.new ≡ table_after table.old
        (records_slot table.old (length answer.old) records.now) }
    ensures answer_after { answer.new ≡ answer_after answer.old
        (records_slot table.old (length answer.old) records.now) }
    ensures tally_after { tally.new ≡ tally_after (length records.now)
        (records_slot table.old (length answer.old) records.now)
        tally.old }
{
    let many = records.len();
    match run_slot(table, &records[..few(many)], answer) {
        Ok(departures) => {
            count(tally, true, many as u64, departures);
            Ok(())
        }
        Err(fault) => {
            count(tally, false, many as u64, 0);
            Err(fault)
        }
    }
}

// The slot with no more records than are looked at, and how many cells leave in it; the tally is not counted in.
fn run_slot(table: &mut [u8], records: &[Arrival], answer: &mut [u8]) -> Result<u64, Fault>
    requires { length records.now ≤ held_limit }
    ensures value { result
        ≡ ended_of (records_slot table.old (length answer.old) records.now) }
    ensures table_after { table.new ≡ table_after table.old
        (records_slot table.old (length answer.old) records.now) }
    ensures answer_after { answer.new ≡ answer_after answer.old
        (records_slot table.old (length answer.old) records.now) }
{
    let mut sets = Sets::EMPTY;
    take_records(table, answer.len(), &mut sets, records)?;
    run(table, &mut sets, answer);
    Ok(departures_in(answer))
}

// The same slot for a caller that keeps a sound table, has room for the answer and counts nothing.
pub fn sound_slot(table: &mut [u8], records: &[Arrival], answer: &mut [u8]) -> Result<(), Fault>
    requires table { IsTable table.old }
    requires answer_size_in_bounds { answer_size ≤ length answer.old }
    requires many_le_held_limit { length records.now ≤ held_limit }
    ensures { SoundLeaves (records_slot table.old (length answer.old) records.now)
        table.old answer.old result table.new answer.new }
{
    let mut sets = fill_sets(table);
    take_sound(table, &mut sets, records)?;
    run(table, &mut sets, answer);
    Ok(())
}
