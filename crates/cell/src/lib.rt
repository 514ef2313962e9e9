// What travels through the switch and what may be said of it: the cell, the arrival record, the order in
// which an output sends, the limits, and the refusals with their numbers.
#![tactic(auto)]

ghost use Rattle.std.specs.Prelude.{◌≡◌};
ghost use Rattle.cell.specs.Order.{first_in_turn, in_turn, wins_tie, key};
ghost use Rattle.cell.specs.Limits.{ports_in_range, flow_in_range, input_full};
ghost use Rattle.cell.specs.Refusal.{number};

// A cell in the switch. `slot` is the slot in which it was accepted.
#[derive(Clone, Copy, Default)]
pub struct Cell {
    pub input: u32,
    pub output: u32,
    pub flow: u32,
    pub rank: u32,
    pub tag: u32,
    pub slot: u32,
}

// A record of the arrivals that a slot is lent: any five numbers.
#[derive(Clone, Copy, Default)]
pub struct Arrival {
    pub input: u32,
    pub output: u32,
    pub flow: u32,
    pub rank: u32,
    pub tag: u32,
}

// What the caller counts: slots run, slots refused, cells in, cells out. A count at its top stays there.
#[derive(Clone, Copy, Default)]
pub struct Tally {
    pub run: u64,
    pub refused: u64,
    pub arrived: u64,
    pub departed: u64,
}

// Why a call is turned back, each with its number.
#[derive(Clone, Copy)]
pub enum Refusal {
    // bad size: N is not 1 to 16
    BadSize = 1,
    // broken table: the lent table or cue store is not sound, or its length is wrong
    BrokenTable = 2,
    // clock end: the clock is at 4,294,967,295
    ClockEnd = 3,
    // no such port: an input or an output is not below N
    NoSuchPort = 4,
    // no such flow: a flow is above 7
    NoSuchFlow = 5,
    // out of turn: an input is not above the one of the record before
    InputOrder = 6,
    // falling rank: a cell of higher rank of the same flow is in the switch
    RankOrder = 7,
    // full: 64 cells of this input are in the switch
    Full = 8,
    // bad line: the text breaks the grammar
    BadLine = 9,
    // short tray: the buffer for an answer is too short
    ShortBuffer = 10,
    // bad name: the name of a cue is not 1 to 8 lower-case letters
    BadName = 11,
    // cues full: four cues are held, and none of this name
    CuesFull = 12,
    // no such cue: no cue of this name is held
    NoSuchCue = 13,
    // bad weight: at a fair output the rank is not 1 to 1,024
    BadWeight = 14,
    // rank end: at a fair output the rank made passes 4,294,967,295
    RankEnd = 15,
}

impl Refusal {
    // The number of the refusal, as scope 6 gives it.
    pub fn number(self) -> u32
        ensures { result ≡ number self }
    {
        self as u32
    }
}

// What turns a slot back, and its record's place, from 1; 0 where it names none.
#[derive(Clone, Copy)]
pub struct Fault {
    pub refusal: Refusal,
    pub place: u32,
}

// The switch's size and its clock, the number of the next slot; and its limits. What they make of a table's room and of
// its bytes is in `layout`.
#[derive(Clone, Copy)]
pub struct Switch {
    pub ports: u32,
    pub clock: u32,
}

impl Switch {
    pub const PORTS: u32 = 16;

    pub const FLOWS: u32 = 8;

    // So many cells of an input may be in the switch. A table has room for `layout::CELLS` of them.
    pub const CELL_LIMIT: u32 = 64;

    // The clock at which no slot can run.
    pub const CLOCK_END: u32 = u32::MAX;

    // A switch of `ports` ports in which no slot has run.
    pub fn fresh(ports: u32, first: u32) -> Self
        ensures { (result.ports ≡ ports) × (result.clock ≡ first) }
    {
        Switch {
            ports,
            clock: first,
        }
    }

    // Whether a switch can have this many ports.
    #[tactic(auto, unfolding(crate::specs::Limits::ports_in_range))]
    pub fn ports_in_range(ports: u32) -> bool
        ensures { result ≡ ports_in_range ports }
    {
        (1..=Switch::PORTS).contains(&ports)
    }

    // Whether a flow has this number.
    pub fn flow_in_range(flow: u32) -> bool
        ensures { result ≡ flow_in_range flow }
    {
        flow < Switch::FLOWS
    }

    // Whether an input with this many cells in the switch may accept no more.
    pub fn input_full(cells: u32) -> bool
        ensures { result ≡ input_full cells }
    {
        Switch::CELL_LIMIT <= cells
    }
}

// Whether of two cells of equal rank and slot an output of a switch with so many ports sends `a` before `b`.
pub fn wins_tie(ports: u32, a: Cell, b: Cell) -> bool
    ensures { result ≡ wins_tie ports a b }
{
    in_turn(first_in_turn(ports, a.slot), a.input, b.input)
}

// The input that goes first in a slot.
pub fn first_in_turn(ports: u32, slot: u32) -> u32
    ensures { result ≡ first_in_turn ports slot }
{
    if ports == 0 {
        return slot;
    }
    slot % ports
}

// Whether input i comes before input j in the round that begins at `start`. How far an input stands above it, wrapping,
// is its place in the round.
pub fn in_turn(start: u32, i: u32, j: u32) -> bool
    ensures { result ≡ in_turn start i j }
{
    i.wrapping_sub(start) < j.wrapping_sub(start)
}

// Rank and slot of a cell as one number. An output sends the cell with the smaller one; `wins_tie` decides between
// equal ones. One comparison without a branch.
pub fn key(c: Cell) -> u64
    ensures { result ≡ key c }
{
    c.rank as u64 * 4294967296 + c.slot as u64
}
