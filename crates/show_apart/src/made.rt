// Shows whose arrivals are made by rule.
ghost use Rattle.std.specs.Prelude.{◌<◌};

use crate::row::Row;
use crate::shadow::Start;
use crate::stage::Stage;
use std::io::Stdout;

pub(crate) fn show_all(out: Stdout) {
    let two = Start::with_ports(2);
    let all = Start::with_ports(16);
    let crowd = crowd_rows();
    show_made(out, "64th cell", two, 64, &crowd);
    show_made(out, "65th cell", two, 133, &crowd);
    let equal = equal_rows();
    show_made(out, "40 slots of equal ranks at 16 ports", all, 200, &equal);
    show_made(
        out,
        "40 slots of equal weights at 16 ports",
        all.with_fair(0xffff),
        200,
        &equal,
    );
    let rows = load_rows();
    show_made(out, "200 slots at 16 ports", all, 400, &rows);
    show_made(
        out,
        "200 slots at 16 ports, 8 outputs fair",
        all.with_fair(0x5555),
        400,
        &rows,
    );
}

// A show of so many slot calls, which tells its refusals, and its cells at the end.
fn show_made(out: Stdout, name: &str, start: Start, calls: u32, rows: &[Row]) {
    let mut stage = Stage::open(out, name, start, false);
    stage.play(calls, rows);
    stage.say_cells();
    stage.close();
}

// Input 1 keeps output 0 busy, so that the cells of input 0 stay: the 64th passes in call 63. A 65th is turned back
// in call 64, and passes in call 66, once an empty slot has sent one of the 64.
fn crowd_rows() -> [Row; 132] {
    let mut rows = [Row::default(); 132];
    for k in 0..132u32 {
        let call = k / 2 + k / 130;
        let input = k % 2;
        rows[k as usize] = Row {
            call,
            input,
            output: 0,
            flow: 0,
            rank: 9 - 9 * input,
            tag: call,
        };
    }
    rows
}

// Sixteen cells in each of forty slots, all of one rank, for four outputs.
fn equal_rows() -> [Row; 640] {
    let mut rows = [Row::default(); 640];
    let mut seed = 1;
    for k in 0..640u32 {
        let drawn = draw(&mut seed);
        rows[k as usize] = Row {
            call: k / 16,
            input: k % 16,
            output: drawn % 4,
            flow: drawn / 4 % 8,
            rank: 7,
            tag: k,
        };
    }
    rows
}

// Four outputs get three of four cells, and ranks cross: the rank of a flow rises with the slots from a start of its
// own.
fn load_rows() -> [Row; 1600] {
    let mut rows = [Row::default(); 1600];
    let mut seed = 1;
    for k in 0..1600u32 {
        rows[k as usize] = load_row(&mut seed, k / 8, k % 8);
    }
    rows
}

// Eight arrivals in a call.
pub(crate) fn load(seed: &mut u32, call: u32) -> [Row; 8]
    requires { call < 200 }
{
    let mut rows = [Row::default(); 8];
    for k in 0..8u32 {
        rows[k as usize] = load_row(seed, call, k);
    }
    rows
}

// An arrival at one of two inputs. Of 129 flows one is 8, which turns the slot back.
fn load_row(seed: &mut u32, call: u32, pair: u32) -> Row
    requires call_bound { call < 200 }
    requires pair_bound { pair < 8 }
{
    let input = 2 * pair + draw(seed) % 2;
    let output = load_output(draw(seed));
    let flow = draw(seed) % 129 / 16;
    Row {
        call,
        input,
        output,
        flow,
        rank: 2 * call + (7 * input + 5 * output + 11 * flow) % 64,
        tag: 8 * call + pair,
    }
}

fn load_output(drawn: u32) -> u32
    ensures { result < 16 }
{
    if drawn % 4 < 3 {
        drawn / 4 % 4
    } else {
        drawn / 4 % 16
    }
}

// The next number of a sequence that shows no order.
pub(crate) fn draw(seed: &mut u32) -> u32 {
    *seed = (75 * (*seed % 65537) + 74) % 65537;
    *seed
}
