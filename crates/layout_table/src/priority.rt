// Output priority between the entries of a table, and the choice of an output between two of them.
ghost use Rattle.std.specs.Prelude.{◌≡◌, ◌<◌, length};
ghost use Rattle.cell.specs.Order.{over, key as cell_key};
ghost use Rattle.layout.specs.Code.{ports_in};
ghost use Rattle.layout.specs.Entry.{entry_at};
ghost use Rattle.layout.specs.Table.{table_size, entry_limit};
ghost use Rattle.layout_table.specs.CodeEntries.{better_of};

use crate::{entry, header};

// A number that no entry has. Kept as a number, not an Option: a slot keeps rows of u16 that hold either.
pub const NOWHERE: u16 = layout::ENTRIES as u16;

// The choice of an output between the cell that it would send so far and another one, by their numbers. Either may be
// none.
pub fn better(table: &[u8], held: u16, number: u16) -> u16
    requires { length table.now ≡ table_size }
    ensures { result ≡ better_of table.now held number }
{
    if number >= NOWHERE {
        return held;
    }
    if held >= NOWHERE {
        return number;
    }
    if is_over(table, number as usize, held) {
        return number;
    }
    held
}

// Whether an output sends the first of two cells first.
pub fn is_over(table: &[u8], k: usize, other: u16) -> bool
    requires { (length table.now ≡ table_size) × (k < entry_limit) × (other < entry_limit) }
    ensures { result ≡ over (ports_in table.now) (entry_at table.now k).cell
        (entry_at table.now other).cell }
{
    goes_first(
        table,
        entry::key_of(table, k),
        k,
        entry::key_of(table, other as usize),
        other as usize,
    )
}

// The same by the keys of both. Only where these are equal the ports and the cells are read.
pub fn goes_first(table: &[u8], key: u64, k: usize, rival: u64, other: usize) -> bool
    requires table_len { (length table.now ≡ table_size) × (k < entry_limit) × (other < entry_limit) }
    requires key_value { (key ≡ cell_key (entry_at table.now k).cell) × (rival ≡ cell_key (entry_at table.now other).cell) }
    ensures { result ≡ over (ports_in table.now) (entry_at table.now k).cell
        (entry_at table.now other).cell }
{
    if key != rival {
        return key < rival;
    }
    cell::wins_tie(
        header::ports_of(table) as u32,
        entry::cell_of(table, k),
        entry::cell_of(table, other),
    )
}
