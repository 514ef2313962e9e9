// The proved switch and the shadow side by side: the same calls to both, and what they come to compared.
use crate::row::{Row, rows_of};
use crate::say::{say_answer, say_cells, say_name, say_refusal, say_verdict};
use crate::shadow::{Cell, Departures, Shadow, Start, TurnedBack};
use layout::word::read_u32;
use layout::{ANSWER_BYTES, DEPARTURE_BYTES, FAIR_BYTES, PORTS, TALLY_BYTES};
use std::io::Stdout;

// The bytes of a table, a tally and an answer.
pub(crate) type Table = [u8; FAIR_BYTES];

pub(crate) type Tally = [u8; TALLY_BYTES];

pub(crate) type Answer = [u8; ANSWER_BYTES];

// A show lends at most one record more than can be accepted.
const RECORDS: usize = PORTS + 1;

// The proved switch, by the bytes that its host keeps, and the shadow; whether all slots are told, or the refusals
// alone; and whether the two came to the same in all calls so far.
#[derive(Drop)]
pub(crate) struct Stage {
    pub(crate) out: Stdout,
    pub(crate) table: Table,
    pub(crate) tally: Tally,
    pub(crate) shadow: Shadow,
    pub(crate) aloud: bool,
    pub(crate) agree: bool,
}

// A show of so many slot calls on a fresh switch, told aloud.
pub(crate) fn show(out: Stdout, name: &str, start: Start, calls: u32, rows: &[Row]) {
    let mut stage = Stage::open(out, name, start, true);
    stage.play(calls, rows);
    stage.close();
}

impl Stage {
    // Both switches fresh, and a new line with the name of a show.
    pub(crate) fn open(out: Stdout, name: &str, start: Start, aloud: bool) -> Stage {
        let mut table = [0; FAIR_BYTES];
        say_name(out, name);
        crossbar::start(start.ports, start.first, start.fair, &mut table);
        Stage {
            out,
            table,
            tally: [0; TALLY_BYTES],
            shadow: Shadow::fresh(start),
            aloud,
            agree: true,
        }
    }

    // So many slot calls.
    pub(crate) fn play(&mut self, calls: u32, rows: &[Row]) {
        for call in 0..calls {
            self.slot(rows_of(rows, call));
        }
    }

    // A slot call to both, with as many rows as there is room for.
    pub(crate) fn slot(&mut self, rows: &[Row]) {
        let mut arrivals = [[[0; 4]; 5]; RECORDS];
        let mut answer = [0; ANSWER_BYTES];
        for (arrival, row) in arrivals.iter_mut().zip(rows) {
            *arrival = row.record();
        }
        let records = &arrivals[..rows.len().min(RECORDS)];
        let lent = records.as_flattened().as_flattened();
        let outcome = crossbar::slot(&mut self.table, lent, &mut answer, &mut self.tally);
        if outcome != 0 {
            say_refusal(self.out, outcome);
        } else if self.aloud {
            say_answer(self.out, &answer);
        }
        let right = is_right(outcome, &answer, self.shadow.slot(rows));
        self.agree = self.agree && right;
    }

    // The tally's cells.
    pub(crate) fn say_cells(&self) {
        say_cells(self.out, &self.tally);
    }

    // The end of a line.
    pub(crate) fn close(&self) {
        say_verdict(self.out, self.agree, "as the shadow says");
    }
}

// Whether the proved switch's outcome and its answer are what the shadow says.
fn is_right(outcome: u64, answer: &Answer, shadow: Result<Departures, TurnedBack>) -> bool {
    match shadow {
        Ok(departures) => outcome == 0 && has_departures(answer, &departures),
        Err(turned_back) => turned_back.is_said_by(outcome)
            && has_departures(answer, &[None; PORTS]),
    }
}

// Whether an answer has these departures, and no others.
fn has_departures(answer: &Answer, departures: &Departures) -> bool {
    for (output, departure) in departures.iter().enumerate() {
        for (k, number) in numbers_of(departure).iter().enumerate() {
            if read_u32(answer, DEPARTURE_BYTES * output + 4 * k) != *number {
                return false;
            }
        }
    }
    true
}

// The seven numbers of a departure: 1 and the cell, its tag before its slot; or zeros.
fn numbers_of(departure: &Option<Cell>) -> [u32; 7] {
    match departure {
        Some(cell) => [
            1,
            cell.input,
            cell.output,
            cell.flow,
            cell.rank,
            cell.tag,
            cell.slot,
        ],
        None => [0; 7],
    }
}
