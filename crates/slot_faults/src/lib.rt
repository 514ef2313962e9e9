// Scope 6, refusals 3 to 8: what turns a slot back, looked for in its table and its records before anything of it runs.
#![tactic(auto)]

pub mod checks;

ghost use Rattle.std.specs.Prelude.{◌≡◌, ◌+◌, ◌≤◌, ◌<◌, length};
ghost use Rattle.std.proofs.Math.Option.{Option};
ghost use Rattle.cell.specs.declared.Cell.{Cell};
ghost use Rattle.cell.specs.Cell.{accepted};
ghost use Rattle.layout.specs.Arrivals.{held_limit};
ghost use Rattle.layout.specs.Table.{state_of, IsTable};
ghost use Rattle.model.specs.State.{cells};
ghost use Rattle.model.specs.Checks.{first_fault};
ghost use Rattle.slot_faults.specs.CodeFault.{coming, fault_at, fault_by, fault_in, fault_of, turn_after};

use cell::{Arrival, Cell, Fault, Refusal, Switch};
use checks::check_record;

// What turns a slot back, of a sound table and no more records than are looked at: 3, then record by record 4 to 8. The
// first fault is found, with the record's place.
pub fn first_fault(table: &[u8], records: &[Arrival]) -> Result<(), Fault>
    requires table { IsTable table.now }
    requires many_le_held_limit { length records.now ≤ held_limit }
    ensures { result ≡ fault_in (state_of table.now) records.now }
{
    if layout_table::header::clock_of(table) == Switch::CLOCK_END {
        return Err(Fault {
            refusal: Refusal::ClockEnd,
            place: 0,
        });
    }
    check_records(table, records)
}

// Looks at the records one by one, up to one that has a fault.
fn check_records(table: &[u8], records: &[Arrival]) -> Result<(), Fault>
    requires table { IsTable table.now }
    requires many_le_held_limit { length records.now ≤ held_limit }
    ensures { result
        ≡ fault_of (first_fault (state_of table.now).ports (cells (state_of table.now))
        (coming (state_of table.now) records.now)) }
{
    let mut turn = 0;
    for (n, record) in records.iter().enumerate() {
        check_next(table, turn, n, *record)?;
        turn = record.input + 1;
    }
    Ok(())
}

// Looks at the record behind the first n. `turn` is the lowest input whose turn it is.
fn check_next(table: &[u8], turn: u32, n: usize, a: Arrival) -> Result<(), Fault>
    requires table { IsTable table.now }
    requires n_lt_held_limit { n < held_limit }
    ensures { (before : Option Cell) → turn_after before ≡ turn → result
        ≡ fault_at (n + 1) (fault_by (state_of table.now) before a) }
{
    let c = cell_of(a, layout_table::header::clock_of(table));
    check_record(table, turn, (n + 1) as u32, c)
}

// The cell that a record becomes where it is accepted in this slot.
#[tactic(auto, unfolding(cell::specs::Cell::accepted))]
pub fn cell_of(a: Arrival, clock: u32) -> Cell
    ensures { result ≡ accepted clock a }
{
    Cell {
        input: a.input,
        output: a.output,
        flow: a.flow,
        rank: a.rank,
        tag: a.tag,
        slot: clock,
    }
}
