// What the program prints: a line for each show, a piece for each call. A write that fails is passed over.
ghost use Rattle.std.specs.Prelude.{◌<◌};

use crate::stage::{Answer, Tally};
use layout::word::read_u32;
use layout::{DEPARTURE_BYTES, FIRST_PROPOSALS, PORTS, SECOND_PROPOSALS};
use std::io::Stdout;

// The beginning of a line.
pub(crate) fn say_name(out: Stdout, name: &str) {
    let _ = print!(out; "{name}: ");
}

// The number of a refusal, and the record's place.
pub(crate) fn say_refusal(out: Stdout, outcome: u64) {
    let _ = print!(out; "{} at record {}, ", outcome % 256, outcome / 256);
}

// The departures and, if the first phase made any, the proposals of the two phases.
pub(crate) fn say_answer(out: Stdout, answer: &Answer) {
    if !say_departures(out, answer) {
        let _ = print!(out; "none");
    }
    let first = read_u32(answer, FIRST_PROPOSALS);
    let second = read_u32(answer, SECOND_PROPOSALS);
    if first != 0 {
        let _ = print!(out; " by proposals {first} and {second}");
    }
    let _ = print!(out; ", ");
}

// The departures, outputs rising. Whether there was one.
fn say_departures(out: Stdout, answer: &Answer) -> bool {
    let mut said = false;
    for output in 0..PORTS {
        if read_u32(answer, DEPARTURE_BYTES * output) != 0 {
            let before = if said { " and " } else { "" };
            say_departure(out, before, answer, output);
            said = true;
        }
    }
    said
}

// The departure at an output, behind a text.
fn say_departure(out: Stdout, before: &str, answer: &Answer, output: usize)
    requires { output < 16 }
{
    let at = DEPARTURE_BYTES * output;
    let rank = read_u32(answer, at + 16);
    let from = read_u32(answer, at + 4);
    let to = read_u32(answer, at + 8);
    let _ = print!(out; "{before}rank {rank} from {from} to {to}");
}

// A call of cues in words, and its result. A byte 0 is said as `\0`.
pub(crate) fn say_call(out: Stdout, call: &str, outcome: u32) {
    let _ = print!(out; "{}: {outcome}, ", call.escape_debug());
}

// The tally's cells.
pub(crate) fn say_cells(out: Stdout, tally: &Tally) {
    let arrived = read_u32(tally, 16);
    let departed = read_u32(tally, 24);
    let _ = print!(out; "cells in {arrived}, out {departed}, ");
}

// The end of a line.
pub(crate) fn say_verdict(out: Stdout, same: bool, text: &str) {
    let verdict = if same { text } else { "DIFFERS" };
    let _ = println!(out; "{verdict}");
}
