// Scope 3.9, departure: each output sends the cell of highest output priority in its buffer, if it has one. The view of
// the table has these cells. They go into the answer, and the sections that lose one close up.
#![tactic(auto)]

ghost use Rattle.std.specs.Prelude.{◌≡◌, map, ◌+◌, ◌*◌, ◌-◌, ◌<◌, ◌≤◌, length, replicate};
ghost use Rattle.laws.specs.CodeOptions.{option_of};
ghost use Rattle.cell.specs.Limits.{port_limit};
ghost use Rattle.model.specs.Phase.{waiting};
ghost use Rattle.model.specs.Crossbar.{leaving, departures_of};
ghost use Rattle.layout.specs.Table.{table_size, state_of, encode, IsTable, entry_limit, entry_size};
ghost use Rattle.layout.specs.Code.{record_start, put, HasEntry, ports_in};
ghost use Rattle.layout.specs.Answer.{departure_size, departures_size, departure_bytes, departures_bytes};
ghost use Rattle.layout.specs.Host.{filled};
ghost use Rattle.layout.specs.Entry.{entry_at};
ghost use Rattle.slot_view.specs.CodeView.{places_in};
ghost use Rattle.slot_view.specs.CodeViewed.{BestBuffered};
ghost use Rattle.slot_departure.specs.Code.{departed, departure_at, Firsts, free_after, closed_one};
ghost use Rattle.slot_departure.specs.Code.{cleared_from, Removable, removed};

use cell::Cell;
use layout::{CELLS, DEPARTURE_BYTES, PORTS};
use layout_table::priority::NOWHERE;

// Fills the departures of the answer, and takes the cells that leave out of the table. `best` has the best buffered
// cell of each output.
pub fn depart(table: &mut [u8], best: &[u16; PORTS], answer: &mut [u8])
    requires table { IsTable table.old × BestBuffered table.old (places_in table.old) best.now }
    requires departures_size_in_bounds { departures_size ≤ length answer.old }
    ensures table_after { table.new ≡ encode (departed (state_of table.old)) }
    ensures answer_after { answer.new
        ≡ filled (departures_bytes port_limit (departures_of (ports_in table.old)
        (leaving (ports_in table.old) (waiting (state_of table.old).sections)))) answer.old }
{
    send(table, best, answer);
    remove(table, best);
}

// The departures of the sixteen outputs.
fn send(table: &[u8], best: &[u16; PORTS], answer: &mut [u8])
    requires { (length table.now ≡ table_size) × (length best.now ≡ port_limit)
        × (departure_size * port_limit ≤ length answer.old) }
    ensures { answer.new
        ≡ filled (departures_bytes port_limit (map (departure_at table.now) best.now))
        answer.old }
{
    for output in 0..PORTS {
        send_one(table, best[output], answer, DEPARTURE_BYTES * output);
    }
}

// The departure of one output.
fn send_one(table: &[u8], number: u16, answer: &mut [u8], at: usize)
    requires { (length table.now ≡ table_size) × (at + departure_size ≤ length answer.old) }
    ensures { answer.new
        ≡ put at departure_size (departure_bytes (departure_at table.now number)) answer.old }
{
    layout_answer::write_departure(answer, at, departure_at(table, number));
}

// The cell that an output with this choice sends, if it sends one.
fn departure_at(table: &[u8], number: u16) -> Option<Cell>
    requires { length table.now ≡ table_size }
    ensures { option_of result ≡ departure_at table.now number }
{
    if number >= NOWHERE {
        return None;
    }
    Some(layout_table::entry::cell_of(table, number as usize))
}

// Takes the cells that leave out of the table, input by input.
fn remove(table: &mut [u8], best: &[u16; PORTS])
    requires { IsTable table.old × BestBuffered table.old (places_in table.old) best.now }
    ensures { table.new ≡ encode (departed (state_of table.old)) }
{
    let firsts = first_leaving(best);
    for input in 0..layout_table::header::ports_of(table) {
        remove_from(table, best, input, firsts[input]);
    }
}

// The number of the first cell of each input that leaves; `NOWHERE` where none does.
fn first_leaving(best: &[u16; PORTS]) -> [u16; PORTS]
    ensures { Firsts best.now port_limit result }
{
    let mut firsts = [NOWHERE; PORTS];
    for &number in best {
        if number < NOWHERE {
            let input = number as usize / CELLS;
            firsts[input] = firsts[input].min(number);
        }
    }
    firsts
}

// One section, whose first cell that leaves has the number `from`: if there is one, those behind it that stay close up,
// the records behind them are cleared, and the count is lowered.
fn remove_from(table: &mut [u8], best: &[u16; PORTS], input: usize, from: u16)
    requires { Removable table.old best.now input from }
    ensures { table.new ≡ removed table.old best.now input }
{
    if from >= NOWHERE {
        return;
    }
    let end = layout_table::header::end_of(table, input);
    let mut free = from as usize;
    for k in from as usize..end {
        free = close_one(table, best, k, free);
    }
    clear(table, free, end);
    layout_table::header::write_count(table, input, free - CELLS * input);
}

// One entry: it leaves, or it goes to the free record. Gives the record that is free then.
fn close_one(table: &mut [u8], best: &[u16; PORTS], k: usize, free: usize) -> usize
    requires table_len { (length table.old ≡ table_size) × (k < entry_limit) × (free ≤ k) }
    requires k_bound { (entry_at table.old k).cell.output < port_limit }
    ensures value { result ≡ free_after table.old best.now k free }
    ensures table_after { table.new ≡ closed_one table.old best.now k free }
{
    if best[layout_table::entry::output_of(table, k) as usize] == k as u16 {
        return free;
    }
    layout_table::entry::copy_record(table, k, free);
    free + 1
}

// Clears the records from one up to another. Kept record by record, not as a `fill` of their bytes: behind the last
// record of all no record starts (`start_of`).
fn clear(table: &mut [u8], from: usize, to: usize)
    requires { (length table.old ≡ table_size) × (from ≤ to) × (to ≤ entry_limit) }
    ensures { table.new ≡ cleared_from table.old from (to - from) }
{
    for k in from..to {
        clear_one(table, k);
    }
}

fn clear_one(table: &mut [u8], k: usize)
    requires { HasEntry table.old k }
    ensures { table.new ≡ put (record_start k) entry_size (replicate entry_size 0) table.old }
{
    let at = layout_table::entry::start_of(k);
    layout::word::write_u64(table, at, 0);
    layout::word::write_u64(table, at + 8, 0);
}
