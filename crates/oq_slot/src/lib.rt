// A slot of the output-queued switch, on the table of a switch whose cells all wait in buffers: new cells go to the
// buffer of their output at once, then each output sends the best of its buffer.
#![tactic(auto)]

ghost use Rattle.std.specs.Prelude.{true, ◌≡◌, ◌+◌, ◌*◌, ◌-◌, ◌≤◌, ◌<◌, length};
ghost use Rattle.std.proofs.Math.Option.{some};
ghost use Rattle.cell.specs.Cell.{accepted, arrival_fits};
ghost use Rattle.cell.specs.Limits.{port_limit, section_room};
ghost use Rattle.model.specs.Oq.{all_buffered, run_oq, slot_oq};
ghost use Rattle.layout.specs.Answer.{departures_bytes, departures_size};
ghost use Rattle.layout.specs.Arrivals.{held_limit};
ghost use Rattle.layout.specs.Code.{ports_in};
ghost use Rattle.layout.specs.Entry.{clock_in};
ghost use Rattle.layout.specs.Host.{filled};
ghost use Rattle.layout.specs.Table.{IsTable, encode, state_of};
ghost use Rattle.slot_arrival.specs.CodeArrival.{Arriving};
ghost use Rattle.slot_faults.specs.CodeFault.{coming};
ghost use Rattle.slot_loading.specs.Code.{BestBelow};
ghost use Rattle.slot_view.specs.CodeView.{places_in};
ghost use Rattle.slot_view.specs.CodeViewed.{BestBuffered};
ghost use Rattle.oq_slot.specs.Code.{joined, joined_all, MayJoin, ServedLeaves};

use cell::{Arrival, Fault};
use layout::{CELLS, PORTS};
use layout_table::entry::BUFFERED;
use layout_table::priority::NOWHERE;
use slot_arrival::raise_clock;
use slot_departure::depart;
use slot_faults::{cell_of, first_fault};
use slot_loading::choose_cell;
use slot_view::NO_KEY;

// Takes a slot with the records. A refusal is the first one of: 3, the clock's end; record by record 4 to 8; it keeps
// the table and the answer's buffer. For a caller that keeps such a table and counts nothing.
pub fn sound_slot(table: &mut [u8], records: &[Arrival], answer: &mut [u8]) -> Result<(), Fault>
    requires table { IsTable table.old × (all_buffered (state_of table.old) ≡ true) }
    requires departures_size_in_bounds { departures_size ≤ length answer.old }
    requires many_le_held_limit { length records.now ≤ held_limit }
    ensures { ServedLeaves (slot_oq (state_of table.old) (some records.now))
        table.old answer.old result table.new answer.new }
{
    first_fault(table, records)?;
    run(table, records, answer);
    Ok(())
}

// The slot: its cells join, then each output sends.
fn run(table: &mut [u8], records: &[Arrival], answer: &mut [u8])
    requires arriving { Arriving table.old records.now }
    requires buffered { all_buffered (state_of table.old) ≡ true }
    requires room { departures_size ≤ length answer.old }
    ensures table_after { table.new ≡ encode (run_oq (state_of table.old)
        (coming (state_of table.old) records.now)).switch }
    ensures answer_after { answer.new ≡ filled (departures_bytes port_limit (run_oq (state_of table.old)
        (coming (state_of table.old) records.now)).departures) answer.old }
{
    join_records(table, records);
    let best = best_of_each(table);
    depart(table, &best, answer);
}

// The clock moves on, and the cells of the records join, one by one.
fn join_records(table: &mut [u8], records: &[Arrival])
    requires { Arriving table.old records.now }
    ensures { IsTable table.new × (state_of table.new ≡ joined_all (state_of table.old) records.now) }
{
    raise_clock(table);
    for a in records {
        join(table, *a);
    }
}

// One cell joins its output's buffer: it stands last in the section of its input, which has room for it. The clock has
// risen: the cell's slot is the one before.
#[tactic(auto, unfolding(cell::specs::Cell::arrival_fits, cell::specs::Limits::fits32))]
fn join(table: &mut [u8], a: Arrival)
    requires { MayJoin a table.old }
    ensures table_after { table.new ≡ encode (joined (accepted (clock_in table.old - 1) a) (state_of table.old)) }
    ensures fits { arrival_fits a ≡ true }
{
    let clock = layout_table::header::clock_of(table);
    let input = a.input as usize;
    let count = layout_table::header::count_of(table, input);
    layout_table::entry::write_entry(
        table,
        CELLS * input + count,
        cell_of(a, clock - 1),
        BUFFERED,
    );
    layout_table::header::write_count(table, input, count + 1);
}

// The best cell of each output's buffer.
fn best_of_each(table: &[u8]) -> [u16; PORTS]
    requires { IsTable table.now × (all_buffered (state_of table.now) ≡ true) }
    ensures { BestBuffered table.now (places_in table.now) result }
{
    let mut best = [NOWHERE; PORTS];
    let mut rivals = [NO_KEY; PORTS];
    let ports = layout_table::header::ports_of(table);
    for input in 0..ports {
        choose_from(table, input, &mut best, &mut rivals);
    }
    best
}

// The cells of one input, each for its output.
fn choose_from(table: &[u8], input: usize, best: &mut [u16; PORTS], rivals: &mut [u64; PORTS])
    requires table { IsTable table.now × (all_buffered (state_of table.now) ≡ true) }
    requires input_bound { input < ports_in table.now }
    requires best_below { BestBelow table.now (places_in table.now) (section_room * input) best.old rivals.old }
    ensures { BestBelow table.now (places_in table.now) (section_room * (input + 1))
        best.new rivals.new }
{
    let end = layout_table::header::end_of(table, input);
    for k in CELLS * input..end {
        choose_cell(table, k, best, rivals);
    }
}
