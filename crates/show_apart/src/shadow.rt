// Scope 4, the PIFO switch, written plainly and apart from the crossbar: no lists, no crosspoints, no phases. All
// waiting cells stand in one flat array, in no order, and whatever is asked of them is searched for from end to end. At
// fair outputs (scope 15) it makes its own ranks, by division.
ghost use Rattle.std.specs.Prelude.{◌<◌, ◌≤◌};

use crate::row::Row;

// Sixteen inputs and outputs, eight flows of each pair, and 64 cells of each input that wait.
const PORTS: usize = 16;

const FLOWS: usize = 8;

const LIMIT: usize = 64;

const PLACES: usize = PORTS * LIMIT;

const GIVEN: usize = PORTS * PORTS * FLOWS;

// How a switch starts: its number of ports, the number of its first slot, and the marks of its fair outputs: bit o
// marks output o.
#[derive(Clone, Copy)]
pub(crate) struct Start {
    pub(crate) ports: u32,
    pub(crate) first: u32,
    pub(crate) fair: u32,
    ghost some_ports: { 0 < ports },
    ghost few_ports: { ports ≤ 16 },
}

impl Start {
    // In slot 0, and without fair outputs.
    pub(crate) fn with_ports(ports: u32) -> Start
        requires some_ports { 0 < ports }
        requires few_ports { ports ≤ 16 }
    {
        Start {
            ports,
            first: 0,
            fair: 0,
        }
    }

    // The same, in another slot.
    pub(crate) fn in_slot(self, first: u32) -> Start {
        Start {
            ports: self.ports,
            first,
            fair: self.fair,
        }
    }

    // The same, with fair outputs.
    pub(crate) fn with_fair(self, fair: u32) -> Start {
        Start {
            ports: self.ports,
            first: self.first,
            fair,
        }
    }
}

// Why the shadow turns a call back, by the numbers of scope 6.
#[derive(Clone, Copy)]
pub(crate) enum Refusal {
    ClockEnd = 3,
    NoSuchPort = 4,
    NoSuchFlow = 5,
    InputOrder = 6,
    RankOrder = 7,
    Full = 8,
    BadName = 11,
    CuesFull = 12,
    NoSuchCue = 13,
    BadWeight = 14,
    RankEnd = 15,
}

// Why a slot is turned back, and the place of the record at fault, counted from 1; 0 where no record is.
#[derive(Clone, Copy)]
pub(crate) struct TurnedBack {
    refusal: Refusal,
    record: usize,
}

impl TurnedBack {
    // Whether this is what the outcome of a slot call says.
    pub(crate) fn is_said_by(self, outcome: u64) -> bool {
        outcome % 256 == self.refusal as u64 && outcome / 256 == self.record as u64
    }
}

// A cell that waits, with its slot.
#[derive(Clone, Copy, PartialEq, Eq)]
pub(crate) struct Cell {
    pub(crate) input: u32,
    pub(crate) output: u32,
    pub(crate) flow: u32,
    pub(crate) rank: u32,
    pub(crate) tag: u32,
    pub(crate) slot: u32,
}

// What each output sends.
pub(crate) type Departures = [Option<Cell>; PORTS];

// A shadow switch: its number of ports, its clock and the marks of its fair outputs; the last rank that each fair
// output sent, and the last that each flow was given there; and the cells that wait.
#[derive(Clone, Copy)]
pub(crate) struct Shadow {
    ports: u32,
    clock: u32,
    fair: u32,
    left: [u32; PORTS],
    given: [u32; GIVEN],
    waiting: [Option<Cell>; PLACES],
    ghost some_ports: { 0 < ports },
    ghost few_ports: { ports ≤ 16 },
}

impl Shadow {
    // A switch in which no cell waits.
    pub(crate) fn fresh(start: Start) -> Shadow {
        Shadow {
            ports: start.ports,
            clock: start.first,
            fair: start.fair,
            left: [0; PORTS],
            given: [0; GIVEN],
            waiting: [None; PLACES],
        }
    }

    // The number of the next slot.
    pub(crate) fn clock(&self) -> u32 {
        self.clock
    }

    // Takes a slot, and answers what each output sends. A slot that is turned back changes nothing. The numbers of the
    // rows' calls are not looked at.
    pub(crate) fn slot(&mut self, rows: &[Row]) -> Result<Departures, TurnedBack> {
        let clock = self.clock;
        if clock == u32::MAX {
            return Err(TurnedBack {
                refusal: Refusal::ClockEnd,
                record: 0,
            });
        }
        let mut next = *self;
        let mut last = None;
        for (k, row) in rows.iter().enumerate() {
            if let Err(refusal) = next.take(row, last) {
                return Err(TurnedBack {
                    refusal,
                    record: k + 1,
                });
            }
            last = Some(row.input);
        }
        let departures = next.send();
        next.clock = clock + 1;
        *self = next;
        Ok(departures)
    }

    // The checks of a record, in their order, behind one of the input `last`. A record without a fault becomes a cell
    // that waits, of the rank made, which a fair output's flow is given.
    fn take(&mut self, row: &Row, last: Option<u32>) -> Result<(), Refusal> {
        if row.input >= self.ports || row.output >= self.ports {
            return Err(Refusal::NoSuchPort);
        }
        if row.flow >= 8 {
            return Err(Refusal::NoSuchFlow);
        }
        if last.is_some_and(|input| row.input <= input) {
            return Err(Refusal::InputOrder);
        }
        let rank = self.rank_of(row)?;
        if self.falls(row, rank) {
            return Err(Refusal::RankOrder);
        }
        if self.count_of(row.input) >= LIMIT {
            return Err(Refusal::Full);
        }
        self.store(row, rank);
        if self.is_fair(row.output) {
            self.given[flow_of(row)] = rank;
        }
        Ok(())
    }

    // Whether an output is fair.
    fn is_fair(&self, output: u32) -> bool
        requires { output < 16 }
    {
        (self.fair >> output) % 2 == 1
    }

    // The rank of a record's cell: the record's; or at a fair output the last rank, which is the larger of that which
    // the flow was given and that which the output sent, and the stride of the weight.
    fn rank_of(&self, row: &Row) -> Result<u32, Refusal>
        requires input_bound { row.now.input < 16 }
        requires output_bound { row.now.output < 16 }
        requires flow_bound { row.now.flow < 8 }
    {
        if !self.is_fair(row.output) {
            return Ok(row.rank);
        }
        if row.rank == 0 || row.rank > 1024 {
            return Err(Refusal::BadWeight);
        }
        let last = self.given[flow_of(row)].max(self.left[row.output as usize]);
        let stride = 1048576 / row.rank;
        last.checked_add(stride).ok_or(Refusal::RankEnd)
    }

    // Whether a cell of a record's flow waits with a higher rank.
    fn falls(&self, row: &Row, rank: u32) -> bool {
        self.waiting.iter().any(|place| {
            matches!(place, Some(cell) if cell.input == row.input
                && cell.output == row.output
                && cell.flow == row.flow
                && cell.rank > rank)
        })
    }

    // How many cells of an input wait.
    fn count_of(&self, input: u32) -> usize {
        self.waiting
            .iter()
            .filter(|place| matches!(place, Some(cell) if cell.input == input))
            .count()
    }

    // A record's cell, with the slot, at the first free place.
    fn store(&mut self, row: &Row, rank: u32) {
        let free = self.waiting.iter().position(|place| place.is_none());
        if let Some(place) = free {
            self.waiting[place] = Some(Cell {
                input: row.input,
                output: row.output,
                flow: row.flow,
                rank,
                tag: row.tag,
                slot: self.clock,
            });
        }
    }

    // Each output sends its first cell, if it has one.
    fn send(&mut self) -> Departures {
        let mut departures = [None; PORTS];
        for output in 0..PORTS {
            departures[output] = self.send_from(output);
        }
        departures
    }

    // The first cell for an output, whose place is free then. At a fair output its rank is remembered.
    fn send_from(&mut self, output: usize) -> Option<Cell>
        requires { output < 16 }
    {
        let first = self.first_for(output as u32)?;
        for place in &mut self.waiting {
            if *place == Some(first) {
                *place = None;
            }
        }
        if self.is_fair(output as u32) {
            self.left[output] = first.rank;
        }
        Some(first)
    }

    // The cell of highest output priority for an output: by rank, then slot, then the turn of its input.
    fn first_for(&self, output: u32) -> Option<Cell> {
        self.waiting
            .iter()
            .filter(|place| matches!(place, Some(cell) if cell.output == output))
            .filter_map(|place| *place)
            .min_by_key(|cell| (cell.rank, cell.slot, self.turn_of(cell)))
    }

    // How many inputs come before a cell's in its slot: input slot mod N is first, then the next, round to the start.
    fn turn_of(&self, cell: &Cell) -> u64 {
        let round = u64::from(self.ports);
        (u64::from(cell.input) + round - u64::from(cell.slot) % round) % round
    }
}

// The number of a record's flow: by input, then output, then flow.
// Kept as one number: a literal of a struct that has an array of arrays is not proved yet.
fn flow_of(row: &Row) -> usize
    requires input_bound { row.now.input < 16 }
    requires output_bound { row.now.output < 16 }
    requires flow_bound { row.now.flow < 8 }
    ensures { result < 2048 }
{
    (128 * row.input + 8 * row.output + row.flow) as usize
}
