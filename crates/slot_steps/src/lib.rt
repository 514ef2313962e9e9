// Scope 3.7 and 3.8, rules 5 and 6, one cell at a time. For each rule a function chooses the number of a cell, 1,024 for
// none, and a function moves that cell: its place is written into the table at once, and the view of the table follows
// it.
#![tactic(auto)]

ghost use Rattle.std.specs.Prelude.{◌≡◌, ◌<◌, length};
ghost use Rattle.cell.specs.Limits.{port_limit};
ghost use Rattle.layout.specs.Entry.{entry_at};
ghost use Rattle.layout.specs.Table.{table_size, entry_limit};
ghost use Rattle.layout.specs.Code.{HasEntry};
ghost use Rattle.layout_table.specs.CodeEntries.{nowhere};
ghost use Rattle.slot_view.specs.CodeView.{cross_with, Square};
ghost use Rattle.slot_steps.specs.CodeSteps.{entered, left, left_heads, heads_left, straight_to, send_of, take_of};
ghost use Rattle.slot_steps.specs.CodeSteps.{Bound, Straight, Crossed, Taken};

use layout::{CELLS, PORTS};
use layout_table::entry::{BUFFERED, CROSSED, flow_word_of, key_of, output_of, write_place};
use layout_table::priority::{NOWHERE, better};
use slot_view::NO_KEY;

// The cell that goes straight to an output: the match that it holds, unless that is the scheduled cell of its input.
#[tactic(auto, unfolding(crate::specs::CodeSteps::straight_to))]
pub fn straight_number(scheduled: &[u16; PORTS], held: &[u16; PORTS], output: usize) -> u16
    requires { output < port_limit }
    ensures { result ≡ straight_to scheduled.now held.now output }
{
    let number = held[output];
    if number >= NOWHERE || number == scheduled[number as usize / CELLS] {
        NOWHERE
    } else {
        number
    }
}

// A straight cell goes to the buffer of its output, and its ports are marked.
pub fn straight_to(
    table: &mut [u8],
    listed: &mut [u64; PORTS],
    heads: &mut [u64; PORTS],
    best: &mut [u16; PORTS],
    inputs: &mut [bool; PORTS],
    outputs: &mut [bool; PORTS],
    number: u16,
    output: usize,
)
    requires table_len { (length table.old ≡ table_size) × (length listed.old ≡ port_limit) × (length heads.old ≡ port_limit)
        × (length best.old ≡ port_limit) × (length inputs.old ≡ port_limit) × (length outputs.old ≡ port_limit) }
    requires bound { Bound table.old number × (output < port_limit) }
    ensures { Straight table.old number output table.new
        listed.old listed.new heads.old heads.new
        best.old best.new inputs.old inputs.new
        outputs.old outputs.new }
{
    if number >= NOWHERE {
        return;
    }
    let k = number as usize;
    leave_list(table, listed, heads, k);
    enter(table, best, number);
    write_place(table, k, BUFFERED);
    inputs[k / CELLS] = true;
    outputs[output] = true;
}

// The cell that an input sends: its scheduled cell, unless one of its cells went straight.
#[tactic(auto, unfolding(crate::specs::CodeSteps::send_of))]
pub fn send_number(scheduled: &[u16; PORTS], straight: &[bool; PORTS], input: usize) -> u16
    requires { input < port_limit }
    ensures { result ≡ send_of straight.now scheduled.now input }
{
    if straight[input] {
        NOWHERE
    } else {
        scheduled[input]
    }
}

// A cell goes to its crosspoint.
pub fn send(
    table: &mut [u8],
    listed: &mut [u64; PORTS],
    heads: &mut [u64; PORTS],
    cross: &mut [[u16; PORTS]; PORTS],
    keys: &mut [[u64; PORTS]; PORTS],
    best: &mut [u16; PORTS],
    number: u16,
)
    requires table_len { (length table.old ≡ table_size) × (length listed.old ≡ port_limit) × (length heads.old ≡ port_limit)
        × (length best.old ≡ port_limit) × Square cross.old × Square keys.old }
    requires bound { Bound table.old number }
    ensures { Crossed table.old number table.new
        listed.old listed.new heads.old heads.new
        cross.old cross.new keys.old keys.new
        best.old best.new }
{
    if number >= NOWHERE {
        return;
    }
    let k = number as usize;
    leave_list(table, listed, heads, k);
    enter(table, best, number);
    let output = output_of(table, k) as usize;
    let key = key_of(table, k);
    fill(cross, keys, k / CELLS, output, number, key);
    write_place(table, k, CROSSED);
}

// The cell that an output takes: the best at its crosspoints, unless a straight cell came to it.
#[tactic(auto, unfolding(crate::specs::CodeSteps::take_of))]
pub fn pull_number(crossed: &[u16; PORTS], straight: &[bool; PORTS], output: usize) -> u16
    requires { output < port_limit }
    ensures { result ≡ take_of straight.now crossed.now output }
{
    if straight[output] {
        NOWHERE
    } else {
        crossed[output]
    }
}

// A cell goes from its crosspoint to the buffer of its output.
pub fn pull(
    table: &mut [u8],
    cross: &mut [[u16; PORTS]; PORTS],
    keys: &mut [[u64; PORTS]; PORTS],
    best: &mut [u16; PORTS],
    number: u16,
    output: usize,
)
    requires table_len { (length table.old ≡ table_size) × (length best.old ≡ port_limit) × Square cross.old
        × Square keys.old }
    requires bound { Bound table.old number × (output < port_limit) }
    ensures { Taken table.old number output table.new
        cross.old cross.new keys.old keys.new
        best.old best.new }
{
    if number >= NOWHERE {
        return;
    }
    let k = number as usize;
    fill(cross, keys, k / CELLS, output, NOWHERE, NO_KEY);
    enter(table, best, number);
    write_place(table, k, BUFFERED);
}

// What stands at a crosspoint, and its key.
#[tactic(auto, unfolding(slot_view::specs::CodeView::cross_with))]
fn fill(
    cross: &mut [[u16; PORTS]; PORTS],
    keys: &mut [[u64; PORTS]; PORTS],
    input: usize,
    output: usize,
    number: u16,
    key: u64,
)
    requires { Square cross.old × Square keys.old × (input < port_limit) × (output < port_limit) }
    ensures cross_after { cross.new ≡ cross_with cross.old input output number }
    ensures keys_after { keys.new ≡ cross_with keys.old output input key }
{
    cross[input][output] = number;
    keys[output][input] = key;
}

// A cell is the best of its output, unless the one so far is better.
#[tactic(auto, unfolding(crate::specs::CodeSteps::entered))]
fn enter(table: &[u8], best: &mut [u16; PORTS], number: u16)
    requires table_len { (length table.now ≡ table_size) × (length best.old ≡ port_limit) × (number < nowhere) }
    requires number_bound { (entry_at table.now number).cell.output < port_limit }
    ensures { best.new ≡ entered table.now best.old number }
{
    let output = output_of(table, number as usize) as usize;
    best[output] = better(table, best[output], number);
}

// A head leaves the list of its input.
#[tactic(auto, unfolding(crate::specs::CodeSteps::left, crate::specs::CodeSteps::left_heads))]
fn leave_list(table: &[u8], listed: &mut [u64; PORTS], heads: &mut [u64; PORTS], k: usize)
    requires { (length table.now ≡ table_size) × (length listed.old ≡ port_limit) × (length heads.old ≡ port_limit)
        × (k < entry_limit) }
    ensures listed_after { listed.new ≡ left listed.old k }
    ensures heads_after { heads.new ≡ left_heads table.now listed.old heads.old k }
{
    let input = k / CELLS;
    let list = listed[input];
    heads[input] = heads_left(table, list, heads[input], k);
    listed[input] = sets::without(list, k % CELLS);
}

// The heads that it leaves. The cells of a flow stand together in a list, so that the next head of its flow is the next
// cell of the list, if that is of its flow; nothing branches on that, as it would be guessed badly.
fn heads_left(table: &[u8], list: u64, heads: u64, k: usize) -> u64
    requires { HasEntry table.now k }
    ensures { result ≡ heads_left table.now list heads k }
{
    let j = k % CELLS;
    let others = sets::without(heads, j);
    let next = sets::first(sets::from(sets::without(list, j), j));
    if next >= CELLS {
        return others;
    }
    let same = flow_word_of(table, CELLS * (k / CELLS) + next) == flow_word_of(table, k);
    sets::with_if(others, next, same)
}
