// Scope 3.7 and 3.8, rules 5 and 6: the cells move. A cell that moves has its place written into the table at once, and
// the view of the table follows it.
// Each rule has a function that does for every port what `slot_steps` does for one. Before rule 6 moves any, the
// outputs' choice is made (`choose_crossed`).
#![tactic(auto)]

ghost use Rattle.std.specs.Prelude.{◌≡◌, ◌<◌, length};
ghost use Rattle.cell.specs.Limits.{port_limit};
ghost use Rattle.layout.specs.Table.{table_size, encode, state_of, IsTable};
ghost use Rattle.slot_view.specs.CodeScan.{Bests};
ghost use Rattle.slot_view.specs.CodeView.{Square};
ghost use Rattle.slot_view.specs.CodeViewed.{Viewed};
ghost use Rattle.slot_steps.specs.CodeSteps.{straight_to, send_of, take_of};
ghost use Rattle.slot_moves.specs.CodeMoved.{after_phase, Settled, OccupanciesOf};
ghost use Rattle.slot_moves.specs.CodeMoves.{AllBound, Straightened, Sent, Pulled, filled_at, Counted};

use layout::PORTS;
use layout_table::priority::NOWHERE;
use slot_steps::{pull, pull_number, send, send_number, straight_number, straight_to};
use slot_view::Choice;

// The ports of the straight cells: the inputs that they left, and the outputs that they went to.
#[derive(Clone, Copy)]
struct Marks {
    inputs: [bool; PORTS],
    outputs: [bool; PORTS],
}

// The choice of each output (rule 6): the best cell at its crosspoints, and how many of them hold a cell.
#[derive(Clone, Copy)]
struct OutputChoice {
    best: [u16; PORTS],
    occupancy: [u16; PORTS],
}

// Rules 5 and 6: the straight cells go, then the inputs send, then the outputs choose and take. `best` has the best
// buffered cell of each output, `choice.best` the best crosspoint cell before anything moves, and `held` the match of
// each output. Gives the occupancy of each output.
pub fn move_cells(
    table: &mut [u8],
    listed: &mut [u64; PORTS],
    heads: &mut [u64; PORTS],
    cross: &mut [[u16; PORTS]; PORTS],
    keys: &mut [[u64; PORTS]; PORTS],
    best: &mut [u16; PORTS],
    choice: Choice,
    held: [u16; PORTS],
) -> [u16; PORTS]
    requires table { IsTable table.old
        × Viewed table.old listed.old heads.old cross.old keys.old best.old }
    requires settled { Settled table.old choice.scheduled held × Bests table.old cross.old choice.best }
    ensures table_after { table.new ≡ encode (after_phase (state_of table.old)) }
    ensures viewed { Viewed table.new listed.new heads.new cross.new
        keys.new best.new }
    ensures table_2 { IsTable table.new }
    ensures occupancies_of { OccupanciesOf (state_of table.old) result }
{
    let Marks { inputs, outputs } = go_straight(
        table,
        listed,
        heads,
        best,
        &choice.scheduled,
        &held,
    );
    let mut crossed = choice.best;
    send_scheduled(
        table,
        listed,
        heads,
        cross,
        keys,
        &mut crossed,
        &choice.scheduled,
        &inputs,
    );
    let output_choice = choose_crossed(cross, crossed);
    pull_best(table, cross, keys, best, &output_choice.best, &outputs);
    output_choice.occupancy
}

// Rule 5: every matched urgent cell goes straight to its output buffer.
fn go_straight(
    table: &mut [u8],
    listed: &mut [u64; PORTS],
    heads: &mut [u64; PORTS],
    best: &mut [u16; PORTS],
    scheduled: &[u16; PORTS],
    held: &[u16; PORTS],
) -> Marks
    requires table_len { (length table.old ≡ table_size) × (length listed.old ≡ port_limit) × (length heads.old ≡ port_limit)
        × (length best.old ≡ port_limit) }
    requires all_bound { AllBound table.old (straight_to scheduled.now held.now) }
    ensures { Straightened (straight_to scheduled.now held.now) port_limit
        table.old table.new listed.old listed.new
        heads.old heads.new best.old best.new result.inputs result.outputs }
{
    let mut inputs = [false; PORTS];
    let mut outputs = [false; PORTS];
    for output in 0..PORTS {
        let number = straight_number(scheduled, held, output);
        straight_to(
            table,
            listed,
            heads,
            best,
            &mut inputs,
            &mut outputs,
            number,
            output,
        );
    }
    Marks { inputs, outputs }
}

// Rule 5: every input without a straight cell sends its scheduled cell to the crosspoint, where it may be the best of
// its output: `best` has the best crosspoint cell of each.
fn send_scheduled(
    table: &mut [u8],
    listed: &mut [u64; PORTS],
    heads: &mut [u64; PORTS],
    cross: &mut [[u16; PORTS]; PORTS],
    keys: &mut [[u64; PORTS]; PORTS],
    best: &mut [u16; PORTS],
    scheduled: &[u16; PORTS],
    straight: &[bool; PORTS],
)
    requires table_len { (length table.old ≡ table_size) × (length listed.old ≡ port_limit) × (length heads.old ≡ port_limit)
        × (length best.old ≡ port_limit) × Square cross.old × Square keys.old }
    requires all_bound { AllBound table.old (send_of straight.now scheduled.now) }
    ensures { Sent (send_of straight.now scheduled.now) port_limit
        table.old table.new listed.old listed.new
        heads.old heads.new cross.old cross.new
        keys.old keys.new best.old best.new }
{
    for input in 0..PORTS {
        let number = send_number(scheduled, straight, input);
        send(table, listed, heads, cross, keys, best, number);
    }
}

// Rule 6: the choice of each output, made when the inputs have sent and before any output takes, whether or not a
// straight cell came to it. `best` has the best crosspoint cell of each.
fn choose_crossed(cross: &[[u16; PORTS]; PORTS], best: [u16; PORTS]) -> OutputChoice
    ensures { (result.best ≡ best) × Counted cross.now port_limit result.occupancy }
{
    let mut occupancy = [0; PORTS];
    for output in 0..PORTS {
        occupancy[output] = occupancy_of(cross, output);
    }
    OutputChoice { best, occupancy }
}

// How many crosspoints of an output hold a cell. Nothing branches on that, so that the compiler counts for many outputs
// at once.
fn occupancy_of(cross: &[[u16; PORTS]; PORTS], output: usize) -> u16
    requires { output < port_limit }
    ensures { result ≡ filled_at cross.now port_limit output }
{
    let mut count = 0;
    for input in 0..PORTS {
        count += u16::from(cross[input][output] < NOWHERE);
    }
    count
}

// Rule 6: every output without a straight cell takes the best cell at its crosspoints, `crossed`, to its buffer,
// whose best cell is in `best`.
fn pull_best(
    table: &mut [u8],
    cross: &mut [[u16; PORTS]; PORTS],
    keys: &mut [[u64; PORTS]; PORTS],
    best: &mut [u16; PORTS],
    crossed: &[u16; PORTS],
    straight: &[bool; PORTS],
)
    requires table_len { (length table.old ≡ table_size) × (length best.old ≡ port_limit) × Square cross.old
        × Square keys.old }
    requires all_bound { AllBound table.old (take_of straight.now crossed.now) }
    ensures { Pulled (take_of straight.now crossed.now) port_limit
        table.old table.new cross.old cross.new
        keys.old keys.new best.old best.new }
{
    for output in 0..PORTS {
        let number = pull_number(crossed, straight, output);
        pull(table, cross, keys, best, number, output);
    }
}
