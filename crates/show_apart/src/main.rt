// Scope 9, the shows without a star, and shows of our own, rehearsals with cues among them, on the proved switch
// against a shadow switch that was written apart: a line for each show, with what came of each call. A slot call that
// is turned back has its number and the record's place (0 where no record is at fault), a call of cues its number
// alone, and the calls after it go on as if it had not been.
#![tactic(auto)]

mod made;
mod rehearsal;
mod row;
mod say;
mod shadow;
mod shadow_cues;
mod stage;
mod wrong;

use layout::{ANSWER_BYTES, ARRIVAL_BYTES, FAIR_BYTES, TALLY_BYTES};
use row::{Row, rows};
use shadow::Start;
use stage::show;
use std::io::Stdout;

fn main(rt: HostRuntime) {
    let out = rt.stdout();
    bad_line(out);
    starts(out);
    lent(out);
    clock_end(out);
    records(out);
    ranks(out);
    matchings(out);
    weights(out);
    made::show_all(out);
    rehearsal::show_all(out);
}

// `rank=05` gives 9, by the reader.
fn bad_line(out: Stdout) {
    let text = b"ports=2\nfirst=0\nslot=0\nin=0\nout=1\nflow=0\nrank=05\n";
    let _ = match trace_reader::verify(text) {
        Ok(_) => println!(out; "rank=05: DIFFERS"),
        Err(bad) => { println!(out; "rank=05: {} at line {}", bad.refusal.number(), bad.line) }
    };
}

// 1 comes before 4, and 4 before 10.
fn starts(out: Stdout) {
    wrong::show_start(out, "start with 0 ports", 0, 1, &mut [7; FAIR_BYTES]);
    wrong::show_start(out, "start with 17 ports", 17, 0, &mut [7; FAIR_BYTES - 1]);
    wrong::show_start(
        out,
        "start with output 2 of 2 fair",
        2,
        4,
        &mut [7; FAIR_BYTES - 1],
    );
    wrong::show_start(
        out,
        "start with a mark at 31",
        16,
        1 << 31,
        &mut [7; FAIR_BYTES],
    );
    wrong::show_start(out, "start in 24679 bytes", 2, 3, &mut [7; FAIR_BYTES - 1]);
}

// 2 comes before 10.
fn lent(out: Stdout) {
    wrong::show_slot(
        out,
        "table of 0 ports",
        0,
        &[],
        &mut [0; ANSWER_BYTES],
        &mut [0; TALLY_BYTES],
    );
    wrong::show_slot(
        out,
        "arrivals of 19 bytes",
        2,
        &[0; ARRIVAL_BYTES - 1],
        &mut [0; ANSWER_BYTES - 1],
        &mut [0; TALLY_BYTES],
    );
    wrong::show_slot(
        out,
        "tally of 31 bytes",
        2,
        &[],
        &mut [0; ANSWER_BYTES - 1],
        &mut [0; TALLY_BYTES - 1],
    );
    wrong::show_slot(
        out,
        "answer of 583 bytes",
        2,
        &[],
        &mut [0; ANSWER_BYTES - 1],
        &mut [0; TALLY_BYTES],
    );
}

// 3, in the first slot and after the last.
fn clock_end(out: Stdout) {
    let rows = rows![[0, 0, 1, 0, 5, 1], [1, 1, 1, 0, 5, 2]];
    let two = Start::with_ports(2);
    show(
        out,
        "first slot 4294967295",
        two.in_slot(u32::MAX),
        2,
        &rows,
    );
    show(
        out,
        "first slot 4294967294",
        two.in_slot(u32::MAX - 1),
        3,
        &rows,
    );
}

// 4, 5 and 6. The first record at fault is named.
fn records(out: Stdout) {
    turned_back(
        out,
        "input 2 of 2 ports",
        rows![[1, 0, 1, 0, 1, 3], [1, 2, 0, 0, 1, 4]],
    );
    turned_back(
        out,
        "output 2 of 2 ports",
        rows![[1, 0, 2, 8, 1, 3], [1, 1, 0, 0, 1, 4]],
    );
    turned_back(out, "flow 8", rows![[1, 0, 1, 8, 1, 3], [1, 2, 1, 0, 1, 4]]);
    turned_back(
        out,
        "input 1 twice",
        rows![[1, 1, 1, 0, 1, 3], [1, 1, 1, 1, 1, 4]],
    );
}

// 7: rank 5 of input 0 waits.
fn ranks(out: Stdout) {
    turned_back(
        out,
        "rank 4 after 5",
        rows![[1, 0, 0, 0, 4, 3], [1, 1, 1, 0, 1, 4]],
    );
    turned_back(
        out,
        "rank 5 after 5",
        rows![[1, 0, 0, 0, 5, 3], [1, 1, 1, 0, 1, 4]],
    );
}

// Rank 5 of input 0 and rank 3 of input 1 come for output 0, then the two given records in call 1, then a cell for
// output 1.
fn turned_back(out: Stdout, name: &str, [first, second]: [Row; 2]) {
    let [before, with, after] = rows![[0, 0, 0, 0, 5, 1], [0, 1, 0, 0, 3, 2], [2, 0, 1, 0, 6, 5]];
    show(
        out,
        name,
        Start::with_ports(2),
        5,
        &[before, with, first, second, after],
    );
}

// Matchings, and the order of equal ranks.
fn matchings(out: Stdout) {
    let three = Start::with_ports(3);
    show(out, "several proposals", three, 6, &SEVERAL);
    show(
        out,
        "two urgent cells of a pair",
        Start::with_ports(4),
        10,
        &PAIR,
    );
    show(out, "scheduled over urgent", three, 7, &SCHEDULED);
    show(out, "equal ranks", three, 6, &EQUAL);
    show(out, "three inputs in turn", three, 27, &TURNS);
    show(
        out,
        "input 15 in slot 15",
        Start::with_ports(16).in_slot(15),
        5,
        &LAST_INPUT,
    );
    show(
        out,
        "equal ranks in the last slots",
        three.in_slot(u32::MAX - 3),
        4,
        &LAST_SLOTS,
    );
}

// Weights at fair outputs, ranks at the others; 14, and in which order it comes.
fn weights(out: Stdout) {
    let two = Start::with_ports(2);
    show(out, "ranks made of weights", two.with_fair(1), 7, &WEIGHTS);
    show(
        out,
        "output 1 fair, output 0 not",
        two.with_fair(2),
        7,
        &ONE_FAIR,
    );
    show(out, "no weights", two.with_fair(1), 8, &NO_WEIGHTS);
}

// Input 0 goes on from its own last rank or from the one that left, whichever is larger; so does its flow 1.
const WEIGHTS: [Row; 6] = rows![
    [0, 0, 0, 0, 1024, 1],
    [0, 1, 0, 0, 1, 2],
    [1, 0, 0, 0, 1024, 3],
    [2, 0, 0, 1, 3, 4],
    [4, 0, 0, 1, 1024, 5],
    [5, 1, 0, 0, 7, 6],
];

// In call 1 the rank of input 1 falls at output 0; at output 1 weights may.
const ONE_FAIR: [Row; 8] = rows![
    [0, 0, 0, 0, 9, 1],
    [0, 1, 0, 0, 2000, 2],
    [1, 0, 1, 0, 9, 3],
    [1, 1, 0, 0, 9, 4],
    [2, 0, 1, 0, 9, 5],
    [2, 1, 1, 0, 20, 6],
    [3, 0, 1, 0, 5, 7],
    [3, 1, 1, 0, 3, 8],
];

// 0 and 1,025 are no weights: 14 behind 5 and 6, and nothing is remembered of a slot that is turned back.
const NO_WEIGHTS: [Row; 10] = rows![
    [0, 0, 0, 0, 2, 1],
    [1, 0, 0, 0, 0, 2],
    [2, 0, 0, 0, 4, 3],
    [2, 1, 0, 0, 1025, 4],
    [3, 0, 0, 8, 0, 5],
    [4, 1, 0, 0, 2, 6],
    [4, 1, 0, 1, 0, 7],
    [5, 0, 0, 0, 4, 8],
    [5, 1, 1, 0, 0, 9],
    [6, 0, 0, 0, 4294967295, 10],
];

// In slot 1 both cells are matched: rank 4, which is urgent, loses to rank 3, and goes straight in the second phase.
const SEVERAL: [Row; 5] = rows![
    [0, 0, 0, 0, 9, 1],
    [0, 1, 0, 0, 1, 2],
    [0, 2, 0, 0, 2, 3],
    [1, 0, 0, 1, 4, 4],
    [1, 1, 0, 0, 3, 5],
];

// Two flows of a pair: in slot 2 ranks 6 and 3 of input 2 for output 0 are urgent at once, rank 6 first in the list.
const PAIR: [Row; 11] = rows![
    [0, 0, 0, 0, 7, 1],
    [0, 1, 0, 0, 3, 2],
    [0, 2, 0, 0, 8, 3],
    [0, 3, 0, 0, 7, 4],
    [1, 1, 0, 1, 2, 5],
    [1, 2, 0, 1, 3, 6],
    [1, 3, 0, 1, 1, 7],
    [2, 0, 0, 1, 4, 8],
    [2, 2, 0, 2, 6, 9],
    [2, 3, 0, 2, 5, 10],
    [3, 2, 1, 0, 9, 11],
];

// In slot 1 rank 4 is urgent, and loses to scheduled cells that stand first in their lists: to rank 2, and then, at
// the crosspoint, to rank 3.
const SCHEDULED: [Row; 6] = rows![
    [0, 0, 0, 0, 9, 1],
    [0, 1, 0, 0, 0, 2],
    [0, 2, 0, 0, 1, 3],
    [1, 0, 0, 1, 4, 4],
    [1, 1, 0, 0, 2, 5],
    [1, 2, 0, 0, 3, 6],
];

// The cell of the smaller slot; in slot 1 input 1 goes before input 0.
const EQUAL: [Row; 5] = rows![
    [0, 0, 0, 0, 1, 1],
    [0, 2, 0, 0, 4, 2],
    [1, 0, 0, 0, 4, 3],
    [1, 1, 0, 0, 4, 4],
    [2, 0, 0, 1, 4, 5],
];

// Three cells of equal rank in each of slots 0 to 8. Those of a slot leave from input slot mod 3 on, also in later slots.
const TURNS: [Row; 27] = rows![
    [0, 0, 0, 0, 4, 0],
    [0, 1, 0, 0, 4, 1],
    [0, 2, 0, 0, 4, 2],
    [1, 0, 0, 0, 4, 3],
    [1, 1, 0, 0, 4, 4],
    [1, 2, 0, 0, 4, 5],
    [2, 0, 0, 0, 4, 6],
    [2, 1, 0, 0, 4, 7],
    [2, 2, 0, 0, 4, 8],
    [3, 0, 0, 0, 4, 9],
    [3, 1, 0, 0, 4, 10],
    [3, 2, 0, 0, 4, 11],
    [4, 0, 0, 0, 4, 12],
    [4, 1, 0, 0, 4, 13],
    [4, 2, 0, 0, 4, 14],
    [5, 0, 0, 0, 4, 15],
    [5, 1, 0, 0, 4, 16],
    [5, 2, 0, 0, 4, 17],
    [6, 0, 0, 0, 4, 18],
    [6, 1, 0, 0, 4, 19],
    [6, 2, 0, 0, 4, 20],
    [7, 0, 0, 0, 4, 21],
    [7, 1, 0, 0, 4, 22],
    [7, 2, 0, 0, 4, 23],
    [8, 0, 0, 0, 4, 24],
    [8, 1, 0, 0, 4, 25],
    [8, 2, 0, 0, 4, 26],
];

// Of equal cells of slot 15 that of input 15 goes first, then those of inputs 0, 1 and 14.
const LAST_INPUT: [Row; 4] = rows![
    [0, 0, 0, 0, 4, 1],
    [0, 1, 0, 0, 4, 2],
    [0, 14, 0, 0, 4, 3],
    [0, 15, 0, 0, 4, 4],
];

// Three equal cells in each of the last three slots, whose numbers are 0, 1 and 2 mod 3; each slot has an output of its
// own.
const LAST_SLOTS: [Row; 9] = rows![
    [0, 0, 0, 0, 4, 1],
    [0, 1, 0, 0, 4, 2],
    [0, 2, 0, 0, 4, 3],
    [1, 0, 1, 0, 4, 4],
    [1, 1, 1, 0, 4, 5],
    [1, 2, 1, 0, 4, 6],
    [2, 0, 2, 0, 4, 7],
    [2, 1, 2, 0, 4, 8],
    [2, 2, 2, 0, 4, 9],
];
