// Whether bytes are the table of an output-queued switch, and whether they are an older one. The check of the cells
// tells where they wait, so the bytes are gone through once.
ghost use Rattle.std.specs.Prelude.{◌&&◌, ◌≡◌, eqb};
ghost use Rattle.laws.specs.Lists.{all?};
ghost use Rattle.model.specs.Oq.{all_buffered};
ghost use Rattle.layout.specs.CodeFair.{is_fair_oq_table};
ghost use Rattle.layout.specs.CodeOq.{is_oq_table};
ghost use Rattle.layout.specs.Table.{is_table, state_of};

use fair_table::is_framed;
use layout::word::read_u32;
use layout::{CORE_AT, FAIR_NUMBER_OQ, MEMORY_AT, OQ_NUMBER, OQ_NUMBER_BYTES, OQ_TABLE_BYTES};
use slot_check::sort_table;

// A framed table of cells that all wait in buffers.
pub(crate) fn is_fair_oq_table(table: &[u8]) -> bool
    ensures { result ≡ is_fair_oq_table table.now }
{
    is_framed(table, FAIR_NUMBER_OQ) && is_buffered(&table[CORE_AT..MEMORY_AT])
}

// The older table: the number, then a table in which every cell waits in a buffer.
pub(crate) fn is_oq_table(table: &[u8]) -> bool
    ensures { result ≡ is_oq_table table.now }
{
    table.len() == OQ_TABLE_BYTES
        && read_u32(table, 0) == OQ_NUMBER
        && is_buffered(&table[OQ_NUMBER_BYTES..])
}

// A table in which every cell waits in a buffer: none is in a list or at a crosspoint.
fn is_buffered(table: &[u8]) -> bool
    ensures { result ≡ (is_table table.now && all_buffered (state_of table.now)) }
{
    match sort_table(table) {
        Some(sets) => are_empty(&sets.listed) && are_empty(&sets.crossed),
        None => false,
    }
}

// Whether the set of each input is empty.
fn are_empty(sets: &[u64]) -> bool
    ensures { result ≡ all? (λ set. eqb set 0) sets.now }
{
    sets.iter().all(|set| *set == 0)
}
