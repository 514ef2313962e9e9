// The table that a host keeps: the number of its layout, a table of cells, and a memory. Here are its frame, which is
// looked at apart from the cells, and the tables that are written whole: of a fresh switch, and of an older table.
#![tactic(auto)]

pub mod results;
pub mod start;

ghost use Rattle.std.specs.Prelude.{true, ◌≡◌, ◌≤◌, length};
ghost use Rattle.cell.specs.Limits.{port_limit};
ghost use Rattle.model.specs.Fair.{marked, marks_in_range};
ghost use Rattle.model.specs.State.{fresh};
ghost use Rattle.layout.specs.Frame.{is_framed, is_fair_table};
ghost use Rattle.layout.specs.Fair.{fair_size, fair_bytes};
ghost use Rattle.layout.specs.Host.{filled};
ghost use Rattle.layout.specs.Table.{state_of, is_table};

use cell::Switch;
use fair_memory::write_no_memory;
use layout::{CORE_AT, FAIR_BYTES, FAIR_NUMBER, MEMORY_AT, TABLE_BYTES, run, word};
use layout_table::header;

// Whether the bytes have the length and the number of a table, a number of ports, and marks below it.
pub fn is_framed(table: &[u8], number: u32) -> bool
    ensures { result ≡ is_framed number table.now }
{
    if table.len() != FAIR_BYTES {
        return false;
    }
    if word::read_u32(table, 0) != number {
        return false;
    }
    let ports = word::read_u32(table, CORE_AT + header::PORTS_AT);
    if !Switch::ports_in_range(ports) {
        return false;
    }
    marks_in_range(ports, word::read_u32(table, MEMORY_AT))
}

// Whether marks are only at outputs below the number of ports.
pub fn marks_in_range(ports: u32, marks: u32) -> bool
    requires { ports ≤ port_limit }
    ensures { result ≡ marks_in_range ports marks }
{
    marks < 1 << ports
}

// Whether the bytes are a table of the crossbar.
pub fn is_fair_table(table: &[u8]) -> bool
    ensures { result ≡ is_fair_table table.now }
{
    if !is_framed(table, FAIR_NUMBER) {
        return false;
    }
    slot_check::is_table(&table[CORE_AT..MEMORY_AT])
}

// The table of a fresh switch, put into the first bytes of a buffer: no rank was given, and no cell has left.
pub fn write_fresh(ports: u32, first: u32, marks: u32, number: u32, table: &mut [u8])
    requires { fair_size ≤ length table.old }
    ensures { table.new
        ≡ filled (fair_bytes number (marked marks (fresh ports first))) table.old }
{
    word::write_u32(table, 0, number);
    header::write_fresh(Switch::fresh(ports, first), &mut table[CORE_AT..MEMORY_AT]);
    write_no_memory(&mut table[MEMORY_AT..FAIR_BYTES], marks);
}

// The cells of an older table, put into the first bytes of a buffer: no output is fair.
pub fn write_older(core: &[u8], number: u32, table: &mut [u8])
    requires { (is_table core.now ≡ true) × (fair_size ≤ length table.old) }
    ensures { table.new
        ≡ filled (fair_bytes number (marked 0 (state_of core.now))) table.old }
{
    word::write_u32(table, 0, number);
    run::copy(core, 0, table, CORE_AT, TABLE_BYTES);
    write_no_memory(&mut table[MEMORY_AT..FAIR_BYTES], 0);
}
