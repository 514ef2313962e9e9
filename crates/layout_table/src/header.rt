// The header of a table: the number of the layout, the ports, the clock, four bytes of zero, and for each input the
// count of its entries, a byte each. A caller shows that the bytes have a table's length; they may be any.
ghost use Rattle.std.specs.Prelude.{◌≡◌, ◌+◌, ◌*◌, ◌≤◌, ◌<◌, length, set};
ghost use Rattle.cell.specs.Limits.{port_limit, section_room};
ghost use Rattle.model.specs.State.{fresh};
ghost use Rattle.layout.specs.Number.{bytes_of};
ghost use Rattle.layout.specs.Table.{table_size, encode};
ghost use Rattle.layout.specs.Entry.{clock_in, count_in};
ghost use Rattle.layout.specs.Host.{filled};
ghost use Rattle.layout.specs.Code.{put, ports_in};

use cell::Switch;
use layout::{CELLS, TABLE_BYTES, run, word};

// The number of the layout.
pub const LAYOUT: u32 = 1;

// Where each of them stands.
pub const LAYOUT_AT: usize = 0;

pub const PORTS_AT: usize = 4;

const CLOCK_AT: usize = 8;

pub const ZEROS_AT: usize = 12;

const COUNTS_AT: usize = 16;

// The number of ports.
pub fn ports_of(bytes: &[u8]) -> usize
    requires { length bytes.now ≡ table_size }
    ensures { result ≡ ports_in bytes.now }
{
    word::read_u32(bytes, PORTS_AT) as usize
}

// The clock: the number of the next slot.
pub fn clock_of(bytes: &[u8]) -> u32
    requires { length bytes.now ≡ table_size }
    ensures { result ≡ clock_in bytes.now }
{
    word::read_u32(bytes, CLOCK_AT)
}

pub fn write_clock(bytes: &mut [u8], clock: u32)
    requires { length bytes.old ≡ table_size }
    ensures { bytes.new ≡ put 8 4 (bytes_of 4 clock) bytes.old }
{
    word::write_u32(bytes, CLOCK_AT, clock);
}

// How many entries an input has.
pub fn count_of(bytes: &[u8], input: usize) -> usize
    requires { (length bytes.now ≡ table_size) × (input < port_limit) }
    ensures { result ≡ count_in bytes.now input }
{
    bytes[COUNTS_AT + input] as usize
}

pub fn write_count(bytes: &mut [u8], input: usize, count: usize)
    requires { (length bytes.old ≡ table_size) × (input < port_limit) × (count < 256) }
    ensures { bytes.new ≡ set bytes.old (16 + input) count }
{
    bytes[COUNTS_AT + input] = count as u8;
}

// The number behind the last entry of an input.
pub fn end_of(table: &[u8], input: usize) -> usize
    requires { (length table.now ≡ table_size) × (input < port_limit) }
    ensures { result ≡ section_room * input + count_in table.now input }
{
    CELLS * input + count_of(table, input)
}

// The table of a fresh switch, put into the first bytes of a buffer: its header, and zeros.
pub fn write_fresh(switch: Switch, table: &mut [u8])
    requires { table_size ≤ length table.old }
    ensures { table.new
        ≡ filled (encode (fresh switch.ports switch.clock)) table.old }
{
    run::clear(table, 0, TABLE_BYTES);
    word::write_u32(table, LAYOUT_AT, LAYOUT);
    word::write_u32(table, PORTS_AT, switch.ports);
    word::write_u32(table, CLOCK_AT, switch.clock);
}
