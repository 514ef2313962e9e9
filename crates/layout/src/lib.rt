// The bytes of the table, of the arrivals, of the answer, of the tally and of the cue store: definitions in specs/ and
// laws in proofs/. Here are their sizes, for all code that reads or writes them, each made of the others.
#![tactic(auto)]

pub mod result;
pub mod run;
pub mod word;

use cell::Switch;

// The ports of the switch, as an index.
pub const PORTS: usize = Switch::PORTS as usize;

// The room of a section: so many cells of an input. The number of an entry is CELLS times its input and its position.
pub const CELLS: usize = 64;

// The room of a table. It is also the number of no entry.
pub const ENTRIES: usize = PORTS * CELLS;

// The bytes of a table: a header, and a record for each entry.
pub const HEADER_BYTES: usize = 32;

pub const ENTRY_BYTES: usize = 16;

pub const TABLE_BYTES: usize = HEADER_BYTES + ENTRIES * ENTRY_BYTES;

// The bytes of a switch's memory: the marks of its fair outputs, the rank that last left each output, and the last rank
// given to each flow, where they stand.
pub const WORD_BYTES: usize = 4;

pub const FLOWS: usize = PORTS * PORTS * Switch::FLOWS as usize;

pub const LEFT_AT: usize = WORD_BYTES;

pub const GIVEN_AT: usize = LEFT_AT + WORD_BYTES * PORTS;

pub const MEMORY_BYTES: usize = GIVEN_AT + WORD_BYTES * FLOWS;

// The bytes of the table that a host keeps: the number of its layout, then a table of cells, then a memory, where they
// stand. The number is the engine's own.
pub const FAIR_NUMBER: u32 = 2;

pub const FAIR_NUMBER_OQ: u32 = 102;

pub const CORE_AT: usize = WORD_BYTES;

pub const MEMORY_AT: usize = CORE_AT + TABLE_BYTES;

pub const FAIR_BYTES: usize = MEMORY_AT + MEMORY_BYTES;

// The bytes of the output-queued switch's older table: a number of its own, then a table.
pub const OQ_NUMBER: u32 = 101;

pub const OQ_NUMBER_BYTES: usize = 4;

pub const OQ_TABLE_BYTES: usize = OQ_NUMBER_BYTES + TABLE_BYTES;

// The bytes of an answer: a departure for each output, then the proposals of both phases, then those phases'
// occupancies, a number for each output, where they stand.
pub const DEPARTURE_BYTES: usize = 28;

pub const DEPARTURES_BYTES: usize = PORTS * DEPARTURE_BYTES;

pub const FIRST_PROPOSALS: usize = DEPARTURES_BYTES;

pub const SECOND_PROPOSALS: usize = FIRST_PROPOSALS + 4;

pub const FIRST_OCCUPANCY: usize = SECOND_PROPOSALS + 4;

pub const SECOND_OCCUPANCY: usize = FIRST_OCCUPANCY + PORTS * 4;

pub const ANSWER_BYTES: usize = SECOND_OCCUPANCY + PORTS * 4;

// The bytes of an arrival's record, and how many records are looked at: the inputs of a list rise, so that one more
// than there are ports has a fault or stands behind one.
pub const ARRIVAL_BYTES: usize = 20;

pub const HELD: usize = PORTS + 1;

// The bytes of a tally.
pub const TALLY_BYTES: usize = 32;

// The bytes of a cue store: a header, and for each of its places a name and a table.
pub const CUES: usize = 4;

pub const NAME_BYTES: usize = 8;

pub const STORE_HEADER_BYTES: usize = 16;

pub const PLACE_BYTES: usize = NAME_BYTES + FAIR_BYTES;

pub const STORE_BYTES: usize = STORE_HEADER_BYTES + CUES * PLACE_BYTES;

// The bytes of an older cue store, whose tables have no memory.
pub const OLD_PLACE_BYTES: usize = NAME_BYTES + TABLE_BYTES;

pub const OLD_STORE_BYTES: usize = STORE_HEADER_BYTES + CUES * OLD_PLACE_BYTES;
