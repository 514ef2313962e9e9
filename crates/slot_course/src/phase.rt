// Scope 3.2, scheduling: one phase. Its choices, its matching and its moves are crates of their own.
ghost use Rattle.std.specs.Prelude.{false, [], ◌≡◌, length};
ghost use Rattle.layout.specs.Table.{table_size, IsTable, encode, state_of};
ghost use Rattle.model.specs.Phase.{phase, waiting};
ghost use Rattle.slot_moves.specs.CodeMoved.{after_phase, OccupanciesOf};
ghost use Rattle.slot_view.specs.CodeViewed.{Viewed};
ghost use Rattle.slot_matching.specs.CodeFound.{numbers_of, Found, ToOutputs};

use layout::PORTS;
use layout_table::priority::NOWHERE;
use slot_choice::choose;
use slot_matching::{Matched, find_matching};
use slot_moves::move_cells;

// What a phase reports: the number of proposals that it made, and the occupancy of each output.
#[derive(Clone, Copy)]
pub struct Report {
    pub proposals: u32,
    pub occupancy: [u16; PORTS],
}

// Moves the cells as a phase does, and reports. The view of the table is kept.
pub fn phase(
    table: &mut [u8],
    listed: &mut [u64; PORTS],
    heads: &mut [u64; PORTS],
    cross: &mut [[u16; PORTS]; PORTS],
    keys: &mut [[u64; PORTS]; PORTS],
    best: &mut [u16; PORTS],
) -> Report
    requires { IsTable table.old × Viewed table.old listed.old heads.old cross.old keys.old best.old }
    ensures table_after { table.new ≡ encode (after_phase (state_of table.old)) }
    ensures viewed { Viewed table.new listed.new heads.new cross.new
        keys.new best.new }
    ensures proposals_value { result.proposals ≡ (phase (state_of table.old).ports
        (waiting (state_of table.old).sections)).proposals }
    ensures occupancies_of { OccupanciesOf (state_of table.old) result.occupancy }
{
    let choice = choose(table, listed, heads, cross, keys);
    let candidates = choice.candidates;
    let matched = matching_of(table, choice.urgent, candidates);
    let held = matched.held;
    let occupancy = move_cells(table, listed, heads, cross, keys, best, choice, held);
    Report {
        proposals: matched.proposals,
        occupancy,
    }
}

// Rule 4: nothing is matched where no cell is urgent.
fn matching_of(table: &[u8], urgent: bool, candidates: [u64; PORTS]) -> Matched
    requires table_len { (length table.now ≡ table_size) × ToOutputs table.now (numbers_of candidates) }
    requires candidates_value { urgent ≡ false → numbers_of candidates ≡ [] }
    ensures { Found table.now candidates result.held result.proposals }
{
    if !urgent {
        return Matched {
            held: [NOWHERE; PORTS],
            proposals: 0,
        };
    }
    find_matching(table, candidates)
}
