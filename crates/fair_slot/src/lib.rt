// A slot of the crossbar on the table that a host keeps: its cells, and the memory of its fair outputs.
#![tactic(auto)]

ghost use Rattle.std.specs.Prelude.{true, ◌&&◌, ◌≡◌, ◌%◌, ◌≤◌, eqb, length};
ghost use Rattle.std.proofs.Math.Option.{some};
ghost use Rattle.laws.specs.Lists.{all?};
ghost use Rattle.cell.specs.Cell.{arrival_fits};
ghost use Rattle.model.specs.Fair.{fair_slot};
ghost use Rattle.layout.specs.Answer.{answer_size};
ghost use Rattle.layout.specs.Arrivals.{arrival_size, held_limit};
ghost use Rattle.layout.specs.Frame.{is_fair_table};
ghost use Rattle.layout.specs.Fair.{fair_of};
ghost use Rattle.layout.specs.TallyBytes.{tally_size};
ghost use Rattle.fair_slot.specs.Code.{lent_slot, LentLeaves, SlotLeaves, RanLeaves, is_plain};

use cell::{Arrival, Fault};
use fair_faults::{lent_fault, table_fault};
use fair_ranks::{make_ranks, remember};
use fair_table::{is_fair_table, is_framed};
use layout::{ANSWER_BYTES, ARRIVAL_BYTES, CORE_AT, FAIR_NUMBER, MEMORY_AT, word};
use layout_arrivals::{few, read_records};
use layout_tally::{counted_by, read, write};

// Takes a slot on the lent table with the lent arrivals. The table is then the one after the slot, the first bytes of
// the answer's buffer are its answer, and the tally counts it. A refusal is the first one of: 2, the table is broken or
// the arrivals are no whole records; 10, the buffer is too short for the answer; 3, the clock's end; record by record
// 4, 5, 6, 14, 15, 7, 8. A refusal keeps the table and the buffer, and the tally counts a refused slot. Where no output
// is fair, only the cells are looked at.
pub fn slot(
    table: &mut [u8],
    arrivals: &[u8],
    answer: &mut [u8],
    tally: &mut [u8],
) -> Result<(), Fault>
    requires { length tally.old ≡ tally_size }
    ensures { SlotLeaves (lent_slot table.old arrivals.now (length answer.old))
        table.old arrivals.now answer.old tally.old
        result table.new answer.new tally.new }
{
    if is_plain(table) {
        return slot_call::bytes::slot(&mut table[CORE_AT..MEMORY_AT], arrivals, answer, tally);
    }
    let checked = take_slot(table, arrivals, answer);
    let before = read(tally);
    let many = (arrivals.len() / ARRIVAL_BYTES) as u64;
    let after = counted_by(checked, many, answer, before);
    write(tally, after);
    checked
}

// Whether the bytes are framed as a table with no fair output.
fn is_plain(table: &[u8]) -> bool
    ensures { result ≡ is_plain table.now }
{
    is_framed(table, FAIR_NUMBER) && word::read_u32(table, MEMORY_AT) == 0
}

// The slot, but for the tally.
fn take_slot(table: &mut [u8], arrivals: &[u8], answer: &mut [u8]) -> Result<(), Fault>
    ensures { LentLeaves (lent_slot table.old arrivals.now (length answer.old))
        table.old arrivals.now answer.old
        result table.new answer.new }
{
    lent_fault(
        is_lent(table, arrivals),
        arrivals,
        answer.len(),
        ANSWER_BYTES,
    )?;
    let mut records = read_records(arrivals);
    let many = few(arrivals.len() / ARRIVAL_BYTES);
    sound_slot(table, &mut records[..many], answer)
}

// Whether whole records and a table are lent. Torn records are seen first: they cost no look at the table.
fn is_lent(table: &[u8], arrivals: &[u8]) -> bool
    ensures { result ≡ (eqb (length arrivals.now % arrival_size) 0 && is_fair_table table.now) }
{
    arrivals.len() % ARRIVAL_BYTES == 0 && is_fair_table(table)
}

// The slot with the records, on a sound table and with room for the answer. Where no record has a fault the ranks are
// made, the cells take the slot with them, and the memory is written last, by its answer.
fn sound_slot(table: &mut [u8], records: &mut [Arrival], answer: &mut [u8]) -> Result<(), Fault>
    requires sound { is_fair_table table.old ≡ true }
    requires room { answer_size ≤ length answer.old }
    requires many_le_held_limit { length records.old ≤ held_limit }
    requires fits { all? arrival_fits records.old ≡ true }
    ensures { RanLeaves (fair_slot (fair_of table.old) (some records.old)) records.old
        table.old answer.old result table.new answer.new }
{
    table_fault(table, records)?;
    make_ranks(&table[MEMORY_AT..], records);
    slot_call::sound_slot(&mut table[CORE_AT..MEMORY_AT], records, answer)?;
    remember(&mut table[MEMORY_AT..], records, answer);
    Ok(())
}
