// A slot on what the host lends, but for the tally: that is counted from what comes of the slot.
ghost use Rattle.std.specs.Prelude.{true, ◌&&◌, ◌≡◌, ◌%◌, ◌≤◌, eqb, length};
ghost use Rattle.laws.specs.Lists.{all?};
ghost use Rattle.cell.specs.Cell.{arrival_fits};
ghost use Rattle.layout.specs.Answer.{departures_size};
ghost use Rattle.layout.specs.Arrivals.{arrival_size, held_limit};
ghost use Rattle.layout.specs.CodeFair.{is_fair_oq_table};
ghost use Rattle.oq.specs.Code.{lent_call, LentLeaves, HeldLeaves};

use crate::check::is_fair_oq_table;
use cell::{Arrival, Fault};
use fair_faults::{lent_fault, table_fault};
use fair_memory::marks_of;
use fair_ranks::{make_ranks, remember};
use layout::{ARRIVAL_BYTES, CORE_AT, DEPARTURES_BYTES, MEMORY_AT};
use layout_arrivals::{few, read_records};
use oq_slot::sound_slot;

// Takes a slot on the lent table with the lent arrivals. A refusal is the first one of: 2, the table is broken or the
// arrivals are no whole records; 10, the buffer is too short for the answer; 3, the clock's end; record by record 4, 5,
// 6, 14, 15, 7, 8. A refusal keeps the table and the buffer.
pub(crate) fn take_slot(table: &mut [u8], arrivals: &[u8], answer: &mut [u8]) -> Result<(), Fault>
    ensures { LentLeaves (lent_call table.old arrivals.now (length answer.old))
        table.old arrivals.now answer.old
        result table.new answer.new }
{
    lent_fault(
        is_lent(table, arrivals),
        arrivals,
        answer.len(),
        DEPARTURES_BYTES,
    )?;
    let mut records = read_records(arrivals);
    let many = few(arrivals.len() / ARRIVAL_BYTES);
    held_slot(table, &mut records[..many], answer)
}

// Whether whole records and a table are lent. Torn records are seen first: they cost no look at the table.
fn is_lent(table: &[u8], arrivals: &[u8]) -> bool
    ensures { result ≡ (eqb (length arrivals.now % arrival_size) 0 && is_fair_oq_table table.now) }
{
    arrivals.len() % ARRIVAL_BYTES == 0 && is_fair_oq_table(table)
}

// Takes a slot with the records. Where no output is fair their ranks stand, and nothing is remembered.
fn held_slot(table: &mut [u8], records: &mut [Arrival], answer: &mut [u8]) -> Result<(), Fault>
    requires sound { is_fair_oq_table table.old ≡ true }
    requires many_le_held_limit { length records.old ≤ held_limit }
    requires fits { all? arrival_fits records.old ≡ true }
    requires room { departures_size ≤ length answer.old }
    ensures { HeldLeaves table.old records.old answer.old result
        table.new answer.new }
{
    if marks_of(&table[MEMORY_AT..]) == 0 {
        return sound_slot(&mut table[CORE_AT..MEMORY_AT], records, answer);
    }
    fair_slot(table, records, answer)
}

// The same where some output is fair: the slot is taken with the ranks made, and then they are remembered.
fn fair_slot(table: &mut [u8], records: &mut [Arrival], answer: &mut [u8]) -> Result<(), Fault>
    requires sound { is_fair_oq_table table.old ≡ true }
    requires many_le_held_limit { length records.old ≤ held_limit }
    requires fits { all? arrival_fits records.old ≡ true }
    requires room { departures_size ≤ length answer.old }
    ensures { HeldLeaves table.old records.old answer.old result
        table.new answer.new }
{
    table_fault(table, records)?;
    make_ranks(&table[MEMORY_AT..], records);
    sound_slot(&mut table[CORE_AT..MEMORY_AT], records, answer)?;
    remember(&mut table[MEMORY_AT..], records, answer);
    Ok(())
}
