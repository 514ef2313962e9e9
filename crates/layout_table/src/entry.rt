// The fields of a table's records. The record k = 64 * input + position stands at byte 32 + 16 * k.
// A caller shows that the bytes have a table's length and that there is such a record; the bytes may be any.
ghost use Rattle.std.specs.Prelude.{◌≡◌, ◌+◌, ◌%◌, ◌<◌, ◌≤◌, length, set};
ghost use Rattle.cell.specs.Order.{key};
ghost use Rattle.cell.specs.Limits.{port_limit};
ghost use Rattle.layout.specs.Table.{table_size, place_of, entry_bytes, entry_limit, entry_size};
ghost use Rattle.layout.specs.Entry.{entry_at};
ghost use Rattle.layout.specs.Code.{place_byte_at, record_start, record_at, put, HasEntry};
ghost use Rattle.layout_table.specs.CodeEntries.{entry_with, flow_word, flow_number};

use cell::Cell;
use layout::{CELLS, ENTRY_BYTES, HEADER_BYTES};

// The byte of a place: in the list, at the crosspoint, in the output's buffer. Kept as bytes, not an enum: `write_place` takes
// any byte, and `place_of` gives any.
pub const LISTED: u8 = 1;

pub const CROSSED: u8 = 2;

pub const BUFFERED: u8 = 3;

// The cell of a record.
pub fn cell_of(bytes: &[u8], k: usize) -> Cell
    requires { HasEntry bytes.now k }
    ensures { result ≡ (entry_at bytes.now k).cell }
{
    Cell {
        input: (k / CELLS) as u32,
        output: output_of(bytes, k) as u32,
        flow: flow_of(bytes, k) as u32,
        rank: rank_of(bytes, k),
        tag: tag_of(bytes, k),
        slot: slot_of(bytes, k),
    }
}

pub fn output_of(bytes: &[u8], k: usize) -> u8
    requires { HasEntry bytes.now k }
    ensures { result ≡ (entry_at bytes.now k).cell.output }
{
    bytes[start_of(k)]
}

pub fn flow_of(bytes: &[u8], k: usize) -> u8
    requires { HasEntry bytes.now k }
    ensures { result ≡ (entry_at bytes.now k).cell.flow }
{
    bytes[start_of(k) + 1]
}

// The number of a cell's flow among those of its input: two entries of one section are of one flow exactly if these
// are equal.
pub fn flow_word(c: Cell) -> u16
    requires { (c.output < 256) × (c.flow < 256) }
    ensures { result ≡ flow_word c }
{
    (c.output + 256 * c.flow) as u16
}

// That of an entry: the first two bytes of its record.
pub fn flow_word_of(bytes: &[u8], k: usize) -> u16
    requires { HasEntry bytes.now k }
    ensures { (result ≡ flow_word (entry_at bytes.now k).cell)
        × ((entry_at bytes.now k).cell.output < 256) }
{
    output_of(bytes, k) as u16 + 256 * flow_of(bytes, k) as u16
}

// The number of an entry's flow among the 128 that its input can have.
pub fn flow_number(bytes: &[u8], k: usize) -> usize
    requires has_entry { HasEntry bytes.now k }
    requires k_bound { ((entry_at bytes.now k).cell.output < port_limit) × ((entry_at bytes.now k).cell.flow < 8) }
    ensures { (result ≡ flow_number (entry_at bytes.now k)) × (result < 128) }
{
    8 * output_of(bytes, k) as usize + flow_of(bytes, k) as usize
}

// The byte of its place.
pub fn place_of(bytes: &[u8], k: usize) -> u8
    requires { HasEntry bytes.now k }
    ensures { (result ≡ place_byte_at bytes.now k) × (place_of result ≡ (entry_at bytes.now k).place) }
{
    bytes[start_of(k) + 2]
}

// Moves an entry: the byte of its place is written.
pub fn write_place(bytes: &mut [u8], k: usize, place: u8)
    requires { HasEntry bytes.old k }
    ensures { bytes.new ≡ set bytes.old (record_start k + 2) place }
{
    bytes[start_of(k) + 2] = place;
}

pub fn rank_of(bytes: &[u8], k: usize) -> u32
    requires { HasEntry bytes.now k }
    ensures { result ≡ (entry_at bytes.now k).cell.rank }
{
    layout::word::read_u32(bytes, start_of(k) + 4)
}

pub fn tag_of(bytes: &[u8], k: usize) -> u32
    requires { HasEntry bytes.now k }
    ensures { result ≡ (entry_at bytes.now k).cell.tag }
{
    layout::word::read_u32(bytes, start_of(k) + 8)
}

pub fn slot_of(bytes: &[u8], k: usize) -> u32
    requires { HasEntry bytes.now k }
    ensures { result ≡ (entry_at bytes.now k).cell.slot }
{
    layout::word::read_u32(bytes, start_of(k) + 12)
}

// The low byte of its slot. Not the slot's remainder: the compiler would load the slot in two parts.
pub fn slot_byte_of(bytes: &[u8], k: usize) -> u8
    requires { HasEntry bytes.now k }
    ensures { result ≡ (entry_at bytes.now k).cell.slot % 256 }
{
    bytes[start_of(k) + 12]
}

// The key of its cell's output priority.
pub fn key_of(bytes: &[u8], k: usize) -> u64
    requires { HasEntry bytes.now k }
    ensures { result ≡ key (entry_at bytes.now k).cell }
{
    cell::key(cell_of(bytes, k))
}

// The first byte of a record.
pub fn start_of(k: usize) -> usize
    requires { k < entry_limit }
    ensures { result ≡ record_start k }
{
    HEADER_BYTES + ENTRY_BYTES * k
}

// Writes an entry into a record.
pub fn write_entry(bytes: &mut [u8], k: usize, c: Cell, place: u8)
    requires has_entry { HasEntry bytes.old k }
    requires output_bound { (c.output < 256) × (c.flow < 256) × (1 ≤ place) × (place ≤ 3) }
    ensures { bytes.new
        ≡ put (record_start k) entry_size (entry_bytes (entry_with c place)) bytes.old }
{
    let at = start_of(k);
    layout::word::write_u32(bytes, at, c.output + 256 * c.flow + 65536 * place as u32);
    layout::word::write_u32(bytes, at + 4, c.rank);
    layout::word::write_u32(bytes, at + 8, c.tag);
    layout::word::write_u32(bytes, at + 12, c.slot);
}

// Copies a record over another.
pub fn copy_record(bytes: &mut [u8], from: usize, to: usize)
    requires { (length bytes.old ≡ table_size) × (from < entry_limit) × (to < entry_limit) }
    ensures { bytes.new
        ≡ put (record_start to) entry_size (record_at bytes.old from) bytes.old }
{
    let old = start_of(from);
    let new = start_of(to);
    let low = layout::word::read_u64(bytes, old);
    let high = layout::word::read_u64(bytes, old + 8);
    layout::word::write_u64(bytes, new, low);
    layout::word::write_u64(bytes, new + 8, high);
}
