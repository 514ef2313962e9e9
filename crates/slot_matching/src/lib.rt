// Scope 3.6, rule 4: the matching of a phase, on sets of positions and the bytes of the table. Inputs propose one after
// the other, each in the order of its list, and an output keeps the best proposal so far; the input whose cell is
// refused goes on. In whatever order they are asked, the matching is the same.
#![tactic(auto)]

ghost use Rattle.std.specs.Prelude.{◌≡◌, ◌<◌, length};
ghost use Rattle.cell.specs.Limits.{port_limit};
ghost use Rattle.layout.specs.Table.{table_size};
ghost use Rattle.layout_table.specs.CodeEntries.{nowhere};
ghost use Rattle.slot_matching.specs.CodeFound.{numbers_of, output_at, ToOutputs, Found};
ghost use Rattle.slot_matching.specs.CodeProposing.{next_in, Refused, Proposed};

use layout::{CELLS, PORTS};
use layout_table::priority::NOWHERE;

// `held`: for each output the number of the cell that it holds, `NOWHERE` for none. `proposals`: how many proposals
// were made.
#[derive(Clone, Copy)]
pub struct Matched {
    pub held: [u16; PORTS],
    pub proposals: u32,
}

// The matching of the candidates, which are given as positions, a set for each input.
pub fn find_matching(table: &[u8], candidates: [u64; PORTS]) -> Matched
    requires table_len { length table.now ≡ table_size }
    requires to_outputs { ToOutputs table.now (numbers_of candidates) }
    ensures { Found table.now candidates result.held result.proposals }
{
    let mut left = candidates;
    let mut held = [NOWHERE; PORTS];
    let mut proposals: u32 = 0;
    for input in 0..PORTS {
        let mut asked = next_in(left[input], input);
        // A while: it asks until no cell is refused.
        while asked < NOWHERE {
            asked = propose(table, &mut left, &mut held, asked);
            proposals += 1;
        }
    }
    Matched { held, proposals }
}

// A cell is proposed to its output. The cell that is to be proposed next, by the input whose cell was refused;
// `NOWHERE` where none was refused or that input has none left.
fn propose(table: &[u8], left: &mut [u64; PORTS], held: &mut [u16; PORTS], k: u16) -> u16
    requires { (length table.now ≡ table_size) × (k < nowhere) × (output_at table.now k < port_limit) }
    ensures { Proposed table.now left.old held.old k
        left.new held.new result }
{
    let new = k as usize;
    let output = layout_table::entry::output_of(table, new) as usize;
    let holder = held[output];
    if holder >= NOWHERE {
        held[output] = k;
        return NOWHERE;
    }
    let old = holder as usize;
    if layout_table::priority::is_over(table, new, holder) {
        held[output] = k;
        return refuse(left, old);
    }
    refuse(left, new)
}

// Takes a cell away from the candidates of its input, and gives the next of them.
fn refuse(left: &mut [u64; PORTS], k: usize) -> u16
    requires { k < nowhere }
    ensures { Refused left.old k left.new result }
{
    let input = k / CELLS;
    let rest = sets::without(left[input], k % CELLS);
    left[input] = rest;
    next_in(rest, input)
}

// The first candidate of an input, `NOWHERE` for none.
fn next_in(set: u64, input: usize) -> u16
    requires { input < port_limit }
    ensures { result ≡ next_in set input }
{
    if set == 0 {
        return NOWHERE;
    }
    (CELLS * input + sets::first(set)) as u16
}
