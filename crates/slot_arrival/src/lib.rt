// Scope 3.1, arrival: the cell that a record becomes enters the list of its input, on the bytes of the table in place.
#![tactic(auto)]

ghost use Rattle.std.specs.Prelude.{◌≡◌, ◌+◌, ◌-◌, ◌*◌, ◌/◌, ◌^◌, ◌≤◌, ◌<◌, true, false, eqb, length, get_or};
ghost use Rattle.cell.specs.Cell.{accepted, arrival_fits};
ghost use Rattle.cell.specs.Limits.{clock_end, section_room, port_limit};
ghost use Rattle.model.specs.Crossbar.{in_list_of};
ghost use Rattle.layout.specs.Entry.{entry_at, clock_in, count_in};
ghost use Rattle.layout.specs.Code.{record_start, record_at, HasEntry, ports_in};
ghost use Rattle.layout.specs.Table.{table_size, entry_size, entry_bytes, state_of, encode, IsTable, entry_limit};
ghost use Rattle.layout_table.specs.CodeEntries.{flow_word};
ghost use Rattle.slot_view.specs.CodeView.{places_in};
ghost use Rattle.slot_view.specs.CodeViewed.{SetsOf};
ghost use Rattle.slot_faults.specs.CodeFault.{section_in};
ghost use Rattle.slot_arrival.specs.CodeArrival.{raised, entered, MayEnter, enter_place, moved_up, opened_with};

use cell::{Arrival, Cell};
use layout::CELLS;
use slot_faults::cell_of;
use slot_view::Sets;

// The clock moves on by one, before a cell of the slot enters: so the table is sound whenever one has.
pub fn raise_clock(table: &mut [u8])
    requires table { IsTable table.old }
    requires table_bound { clock_in table.old < clock_end }
    ensures { table.new ≡ encode (raised (state_of table.old)) }
{
    let clock = layout_table::header::clock_of(table);
    layout_table::header::write_clock(table, clock + 1);
}

// Lets the cell of a record enter the list of its input, which has room for it. The clock has risen: the cell's slot is
// the one before. The sets of the table's cells by place follow it. That the record's numbers have 32 bits is said for
// callers that lend it from a slice, behind whose reference no proof sees its type.
pub fn arrive(table: &mut [u8], sets: &mut Sets, a: Arrival)
    requires may_enter { MayEnter a table.old }
    requires sets_of { SetsOf table.old (places_in table.old) sets.old.listed sets.old.heads sets.old.crossed sets.old.buffered }
    ensures table_after { table.new
        ≡ encode (entered (accepted (clock_in table.old - 1) a) (state_of table.old)) }
    ensures fits { arrival_fits a ≡ true }
    ensures sets_of_2 { SetsOf table.new (places_in table.new) sets.new.listed sets.new.heads sets.new.crossed sets.new.buffered }
{
    let clock = layout_table::header::clock_of(table);
    let at = enter(table, cell_of(a, clock - 1));
    let input = a.input as usize;
    open_sets(sets, input, at - CELLS * input);
}

// Lets a cell enter the list of its input, which has room for it. Gives the number of its entry.
fn enter(table: &mut [u8], c: Cell) -> usize
    requires table { IsTable table.old }
    requires input_bound { (c.input < ports_in table.old) × (count_in table.old c.input < section_room) }
    requires output_bound { (c.output < 256) × (c.flow < 256) }
    ensures table_after { table.new ≡ encode (entered c (state_of table.old)) }
    ensures value { result ≡ section_room * c.input + enter_place c (section_in table.old c.input) }
{
    let input = c.input as usize;
    let count = layout_table::header::count_of(table, input);
    let at = new_place(table, c);
    move_up(table, at, CELLS * input + count);
    layout_table::entry::write_entry(table, at, c, layout_table::entry::LISTED);
    layout_table::header::write_count(table, input, count + 1);
    at
}

// The sets of an input when a listed cell has come to a position: the cells from there on stand one later. It is a
// head if it comes to the front.
fn open_sets(sets: &mut Sets, input: usize, position: usize)
    requires input_lt_port_limit { (input < port_limit) × (position < section_room) }
    requires input_bound { (get_or sets.old.listed input 0 < 2 ^ 63) × (get_or sets.old.heads input 0 < 2 ^ 63)
        × (get_or sets.old.crossed input 0 < 2 ^ 63) × (get_or sets.old.buffered input 0 < 2 ^ 63) }
    ensures listed_after { sets.new.listed ≡ opened_with true sets.old.listed input position }
    ensures heads_after { sets.new.heads ≡ opened_with (eqb position 0) sets.old.heads input position }
    ensures crossed_after { sets.new.crossed ≡ opened_with false sets.old.crossed input position }
    ensures buffered_after { sets.new.buffered ≡ opened_with false sets.old.buffered input position }
{
    sets.listed[input] = sets::with(sets::open(sets.listed[input], position), position);
    sets.heads[input] = sets::with_if(
        sets::open(sets.heads[input], position),
        position,
        position == 0,
    );
    sets.crossed[input] = sets::open(sets.crossed[input], position);
    sets.buffered[input] = sets::open(sets.buffered[input], position);
}

// The number that a new cell gets: it stands right after the last cell of its flow in the list, or in front if the
// list has none of its flow.
fn new_place(table: &[u8], c: Cell) -> usize
    requires table { IsTable table.now }
    requires input_bound { c.input < ports_in table.now }
    requires output_bound { (c.output < 256) × (c.flow < 256) }
    ensures { result ≡ section_room * c.input + enter_place c (section_in table.now c.input) }
{
    let input = c.input as usize;
    let first = CELLS * input;
    let end = layout_table::header::end_of(table, input);
    let flow = layout_table::entry::flow_word(c);
    for k in (first..end).rev() {
        if in_list(table, k, c, flow) {
            return k + 1;
        }
    }
    first
}

// Whether an entry of the cell's input is in the list and of the cell's flow. The first four bytes of its record say
// both, so that nothing branches on the place, which would be guessed badly.
fn in_list(table: &[u8], k: usize, c: Cell, flow: u16) -> bool
    requires has_entry { HasEntry table.now k }
    requires k_value { record_at table.now k ≡ entry_bytes (entry_at table.now k) }
    requires section_room_value { (k / section_room ≡ c.input) × (flow ≡ flow_word c) × (c.output < 256) }
    ensures { result ≡ in_list_of c (entry_at table.now k) }
{
    layout::word::read_u32(table, layout_table::entry::start_of(k)) == flow as u32 + 65536
}

// Moves the entries from `at` up to `end` one place up: each as two words, where `copy_within` would move single bytes.
fn move_up(table: &mut [u8], at: usize, end: usize)
    requires { (length table.old ≡ table_size) × (at ≤ end) × (end < entry_limit) }
    ensures { table.new ≡ moved_up (record_start at) (record_start end) entry_size table.old }
{
    for k in (at..end).rev() {
        layout_table::entry::copy_record(table, k, k + 1);
    }
}
