// The best crosspoint cell of each output, which rule 3 asks for and from which rule 6 goes on. It is found by the keys
// of the cells at the crosspoints; where two have one key, the round of its slot decides between their inputs.
#![tactic(auto)]

ghost use Rattle.std.specs.Prelude.{◌≡◌, ◌+◌, ◌≤◌, ◌<◌, length};
ghost use Rattle.sets.specs.Sets.{positions};
ghost use Rattle.cell.specs.Limits.{port_limit};
ghost use Rattle.slot_leaders.specs.CodeKeys.{least_of_four, least_of, holders_of, LeastTo, FirstInRound, LeadingTo};

use layout::PORTS;
use layout_table::priority::NOWHERE;

// The best crosspoint cell of each output of a switch with so many ports, and its key. Nothing branches on a tie, as
// that would be guessed badly; the divisions stand in a loop of their own, in which they overlap.
pub fn best_of_each(
    ports: u32,
    cross: &[[u16; PORTS]; PORTS],
    keys: &[[u64; PORTS]; PORTS],
    best: &mut [u16; PORTS],
    least: &mut [u64; PORTS],
)
    requires ports_nonzero { (0 < ports) × (ports ≤ port_limit) }
    requires best_len { (length best.old ≡ port_limit) × (length least.old ≡ port_limit) }
    ensures { LeadingTo ports cross.now keys.now port_limit best.new
        least.new }
{
    let mut holders = [0; PORTS];
    least_of_each(keys, least, &mut holders);
    for output in 0..PORTS {
        let slot = (least[output] % 4294967296) as u32;
        let input = first_in_round(holders[output], cell::first_in_turn(ports, slot) as usize);
        best[output] = cross[input][output].min(NOWHERE);
    }
}

// The least key of each output, and the inputs whose cells have it.
fn least_of_each(keys: &[[u64; PORTS]; PORTS], least: &mut [u64; PORTS], holders: &mut [u64; PORTS])
    requires { (length least.old ≡ port_limit) × (length holders.old ≡ port_limit) }
    ensures { LeastTo keys.now port_limit least.new holders.new }
{
    for output in 0..PORTS {
        let row = &keys[output];
        let key = least_key(row);
        least[output] = key;
        holders[output] = holders_of(row, key);
    }
}

// The least key of an output, by its row. A tree of minima is made without branches, and a longer chain is not.
fn least_key(row: &[u64; PORTS]) -> u64
    ensures { result ≡ least_of row.now }
{
    let a = least_of_four(row, 0);
    let b = least_of_four(row, 4);
    let c = least_of_four(row, 8);
    let d = least_of_four(row, 12);
    a.min(b).min(c.min(d))
}

// The least of four keys of a row.
fn least_of_four(row: &[u64; PORTS], from: usize) -> u64
    requires { from + 4 ≤ port_limit }
    ensures { result ≡ least_of_four row.now from }
{
    let first = row[from].min(row[from + 1]);
    let second = row[from + 2].min(row[from + 3]);
    first.min(second)
}

// The inputs with a key in a row, as a set.
fn holders_of(row: &[u64; PORTS], key: u64) -> u64
    ensures { result ≡ holders_of row.now key }
{
    let mut holders = 0;
    for input in (0..PORTS).rev() {
        holders = sets::push(holders, row[input] == key);
    }
    holders
}

// The member of a set that comes first in the round that begins at `start`: the first from there on, or else the first
// of all.
fn first_in_round(set: u64, start: usize) -> usize
    requires { (0 < set) × (start < positions) }
    ensures { FirstInRound set start result }
{
    let late = sets::from(set, start);
    sets::first(if late != 0 { late } else { set })
}
