// The checks of one record, 4 to 8.
ghost use Rattle.std.specs.Prelude.{◌≡◌, [], ◌/◌, ◌<◌};
ghost use Rattle.std.proofs.Math.Option.{Option};
ghost use Rattle.cell.specs.declared.Cell.{Cell};
ghost use Rattle.cell.specs.Limits.{section_room};
ghost use Rattle.model.specs.State.{cells};
ghost use Rattle.model.specs.Checks.{no_such_port, no_such_flow, out_of_turn, falling_rank, full, fault};
ghost use Rattle.layout.specs.Entry.{entry_at};
ghost use Rattle.layout.specs.Code.{HasEntry, ports_in};
ghost use Rattle.layout.specs.Table.{state_of, IsTable};
ghost use Rattle.layout_table.specs.CodeEntries.{flow_word};
ghost use Rattle.slot_faults.specs.CodeFault.{fault_at, waiting_fault, InPorts, turn_after, outranks};

use cell::{Cell, Fault, Refusal, Switch};
use layout::CELLS;

// The checks of one record, in their order. `turn` is the lowest input whose turn it is.
pub(crate) fn check_record(table: &[u8], turn: u32, place: u32, c: Cell) -> Result<(), Fault>
    requires { IsTable table.now }
    ensures { (before : Option Cell) → turn_after before ≡ turn → result
        ≡ fault_at place (fault (ports_in table.now) (cells (state_of table.now)) before c) }
{
    port_fault(table, turn, place, c)?;
    waiting_fault(table, place, c)
}

// The checks that look at no waiting cell, 4 to 6.
pub fn port_fault(table: &[u8], turn: u32, place: u32, c: Cell) -> Result<(), Fault>
    requires { IsTable table.now }
    ensures { (before : Option Cell) → turn_after before ≡ turn → result
        ≡ fault_at place (fault (ports_in table.now) [] before c) }
{
    if no_such_port(table, c) {
        return Err(Fault {
            refusal: Refusal::NoSuchPort,
            place,
        });
    }
    if no_such_flow(c) {
        return Err(Fault {
            refusal: Refusal::NoSuchFlow,
            place,
        });
    }
    if out_of_turn(turn, c) {
        return Err(Fault {
            refusal: Refusal::InputOrder,
            place,
        });
    }
    Ok(())
}

// The checks by the waiting cells, 7 and 8, of a record that passes 4 and 5.
pub fn waiting_fault(table: &[u8], place: u32, c: Cell) -> Result<(), Fault>
    requires table { IsTable table.now }
    requires in_ports { InPorts (ports_in table.now) c }
    ensures { result ≡ fault_at place (waiting_fault (cells (state_of table.now)) c) }
{
    if falling_rank(table, c) {
        return Err(Fault {
            refusal: Refusal::RankOrder,
            place,
        });
    }
    if input_full(table, c) {
        return Err(Fault {
            refusal: Refusal::Full,
            place,
        });
    }
    Ok(())
}

// 4: an input or output is N or more.
fn no_such_port(table: &[u8], c: Cell) -> bool
    requires { IsTable table.now }
    ensures { result ≡ no_such_port (ports_in table.now) c }
{
    let ports = layout_table::header::ports_of(table);
    ports <= c.input as usize || ports <= c.output as usize
}

// 5: a flow is above 7.
#[tactic(auto, unfolding(model::specs::Checks::no_such_flow))]
fn no_such_flow(c: Cell) -> bool
    ensures { result ≡ no_such_flow c }
{
    !Switch::flow_in_range(c.flow)
}

// 6: an input is not above that of the record before it.
fn out_of_turn(turn: u32, c: Cell) -> bool
    ensures { (before : Option Cell) → turn_after before ≡ turn → result ≡ out_of_turn before c }
{
    c.input < turn
}

// 7: a cell of the same flow is in the switch with a higher rank. Its input is the record's. All its cells are looked
// at: an end that depends on them would be guessed badly.
fn falling_rank(table: &[u8], c: Cell) -> bool
    requires table { IsTable table.now }
    requires input_bound { c.input < ports_in table.now }
    requires output_bound { (c.output < 256) × (c.flow < 256) }
    ensures { result ≡ falling_rank (cells (state_of table.now)) c }
{
    let input = c.input as usize;
    let end = layout_table::header::end_of(table, input);
    let flow = layout_table::entry::flow_word(c);
    let mut falling = false;
    for k in CELLS * input..end {
        falling |= outranked(table, k, c, flow);
    }
    falling
}

// Whether an entry of the record's input is of the record's flow and has a higher rank.
fn outranked(table: &[u8], k: usize, c: Cell, flow: u16) -> bool
    requires has_entry { HasEntry table.now k }
    requires section_room_value { (k / section_room ≡ c.input) × (flow ≡ flow_word c) × (c.output < 256) }
    ensures { result ≡ outranks c (entry_at table.now k).cell }
{
    (layout_table::entry::flow_word_of(table, k) == flow)
        & (c.rank < layout_table::entry::rank_of(table, k))
}

// 8: as many cells from this input are in the switch as may be. They are the entries of its section.
fn input_full(table: &[u8], c: Cell) -> bool
    requires table { IsTable table.now }
    requires input_bound { c.input < ports_in table.now }
    ensures { result ≡ full (cells (state_of table.now)) c }
{
    Switch::input_full(layout_table::header::count_of(table, c.input as usize) as u32)
}
