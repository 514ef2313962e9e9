// What turns a slot back where some outputs are fair: 3, then record by record 4, 5, 6, 14, 15, 7, 8, looked for in its
// table, its memory and its records before anything of it runs.
#![tactic(auto)]

ghost use Rattle.std.specs.Prelude.{◌≡◌, ◌+◌, ◌≤◌, ◌<◌, length};
ghost use Rattle.std.proofs.Math.Option.{Option};
ghost use Rattle.cell.specs.declared.Cell.{Cell};
ghost use Rattle.layout.specs.Arrivals.{held_limit};
ghost use Rattle.layout.specs.Fair.{core_in, fair_size, memory_in};
ghost use Rattle.layout.specs.Memory.{memory_of, memory_size};
ghost use Rattle.layout.specs.Table.{state_of, IsTable};
ghost use Rattle.slot_faults.specs.CodeFault.{fault_at, fault_of, turn_after};
ghost use Rattle.fair_faults.specs.CodeFairFault.{fair_fault_by, fair_fault_in, first_fair, rank_fault};
ghost use Rattle.fair_faults.specs.Lent.{lent_fault};

use cell::{Arrival, Fault, Refusal, Switch};
use layout::{ARRIVAL_BYTES, CORE_AT, MEMORY_AT};
use slot_faults::cell_of;
use slot_faults::checks::{port_fault, waiting_fault};

// What turns a slot back before its records are looked at: 2, the table is broken or the arrivals are no whole records;
// 10, the room is less than the answer's size.
#[tactic(auto, unfolding(crate::specs::Lent::lent_fault))]
pub fn lent_fault(is_table: bool, arrivals: &[u8], room: usize, size: usize) -> Result<(), Fault>
    ensures { result ≡ lent_fault is_table (length arrivals.now) room size }
{
    if !is_table || arrivals.len() % ARRIVAL_BYTES != 0 {
        return Err(Fault {
            refusal: Refusal::BrokenTable,
            place: 0,
        });
    }
    if room < size {
        return Err(Fault {
            refusal: Refusal::ShortBuffer,
            place: 0,
        });
    }
    Ok(())
}

// What turns a slot back by its records: their first fault, by the cells and the memory in the bytes of a table.
pub fn table_fault(table: &[u8], records: &[Arrival]) -> Result<(), Fault>
    requires table_len { length table.now ≡ fair_size }
    requires core { IsTable (core_in table.now) }
    requires many_le_held_limit { length records.now ≤ held_limit }
    ensures { result ≡ fair_fault_in (state_of (core_in table.now)) (memory_of (memory_in table.now)) records.now }
{
    fair_fault(&table[CORE_AT..MEMORY_AT], &table[MEMORY_AT..], records)
}

// The first fault of a slot on a sound table with no more records than are looked at, and the record's place.
pub fn fair_fault(table: &[u8], memory: &[u8], records: &[Arrival]) -> Result<(), Fault>
    requires table { IsTable table.now }
    requires memory_len { length memory.now ≡ memory_size }
    requires many_le_held_limit { length records.now ≤ held_limit }
    ensures { result ≡ fair_fault_in (state_of table.now) (memory_of memory.now) records.now }
{
    if layout_table::header::clock_of(table) == Switch::CLOCK_END {
        return Err(Fault {
            refusal: Refusal::ClockEnd,
            place: 0,
        });
    }
    check_records(table, memory, records)
}

// Looks at the records one by one, up to one that has a fault.
fn check_records(table: &[u8], memory: &[u8], records: &[Arrival]) -> Result<(), Fault>
    requires table { IsTable table.now }
    requires memory_len { length memory.now ≡ memory_size }
    requires many_le_held_limit { length records.now ≤ held_limit }
    ensures { result ≡ fault_of (first_fair (state_of table.now) (memory_of memory.now) records.now) }
{
    let mut turn = 0;
    for (n, record) in records.iter().enumerate() {
        check_next(table, memory, turn, n, *record)?;
        turn = record.input + 1;
    }
    Ok(())
}

// Looks at the record behind the first n. `turn` is the lowest input whose turn it is. The ports, the flow and the turn
// are looked at with the weight for a rank: they do not depend on it.
fn check_next(table: &[u8], memory: &[u8], turn: u32, n: usize, a: Arrival) -> Result<(), Fault>
    requires table { IsTable table.now }
    requires memory_len { length memory.now ≡ memory_size }
    requires n_lt_held_limit { n < held_limit }
    ensures { (before : Option Cell) → turn_after before ≡ turn → result
        ≡ fault_at (n + 1) (fair_fault_by (state_of table.now) (memory_of memory.now) before a) }
{
    let place = (n + 1) as u32;
    let clock = layout_table::header::clock_of(table);
    port_fault(table, turn, place, cell_of(a, clock))?;
    rank_fault(memory, place, a)?;
    let made = fair_ranks::make(memory, a);
    waiting_fault(table, place, cell_of(made, clock))
}

// The checks of the rank that is made, 14 and 15.
#[tactic(auto, unfolding(crate::specs::CodeFairFault::rank_fault, slot_faults::specs::CodeFault::fault_at))]
fn rank_fault(memory: &[u8], place: u32, a: Arrival) -> Result<(), Fault>
    requires { length memory.now ≡ memory_size }
    ensures { result ≡ fault_at place (rank_fault (memory_of memory.now) a) }
{
    if fair_ranks::bad_weight(memory, a) {
        return Err(Fault {
            refusal: Refusal::BadWeight,
            place,
        });
    }
    if fair_ranks::rank_end(memory, a) {
        return Err(Fault {
            refusal: Refusal::RankEnd,
            place,
        });
    }
    Ok(())
}
