// Calls that are turned back for what they are lent, before any arrival is looked at. The shadow is not told of them.
use crate::row::{Row, rows};
use crate::say::{say_name, say_refusal, say_verdict};
use crate::shadow::Start;
use crate::stage::Stage;
use std::io::Stdout;

// A start that is turned back keeps the buffer, whose bytes are all 7.
pub(crate) fn show_start(out: Stdout, name: &str, ports: u32, fair: u32, buffer: &mut [u8]) {
    say_name(out, name);
    say_refusal(out, u64::from(crossbar::start(ports, 0, fair, buffer)));
    say_verdict(out, buffer.iter().all(|byte| *byte == 7), "buffer kept");
}

// A slot call that is turned back between good ones: with `ports` in the table where 2 is right, and the given arrivals,
// answer and tally.
pub(crate) fn show_slot(
    out: Stdout,
    name: &str,
    ports: u8,
    arrivals: &[u8],
    answer: &mut [u8],
    tally: &mut [u8],
) {
    let first = rows![[0, 0, 0, 0, 5, 1], [0, 1, 0, 0, 3, 2]];
    let second = rows![[0, 1, 1, 0, 4, 3]];
    let mut stage = Stage::open(out, name, Start::with_ports(2), true);
    stage.play(1, &first);
    stage.table[8] = ports;
    say_refusal(
        out,
        crossbar::slot(&mut stage.table, arrivals, answer, tally),
    );
    stage.table[8] = 2;
    stage.play(2, &second);
    stage.close();
}
