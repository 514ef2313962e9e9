// The trace: one grammar, read by `trace_reader` and written by `trace_writer`. What a line, a block and a whole text
// mean is in specs/.
#![tactic(auto)]

use cell::Refusal;

// So many arrivals a block has at most, each of so many numbers: input, output, flow, rank, tag.
pub const BLOCK_LIMIT: u32 = 16;

pub const FIELDS: usize = 5;

// So many numbers a block's arrivals have at most, and with the slot's own line so many lines the block.
pub const NUMBERS: usize = BLOCK_LIMIT as usize * FIELDS;

pub const BLOCK_LINES: u32 = NUMBERS as u32 + 1;

// The key of a line, in a trace or in what the player writes.
#[derive(Clone, Copy)]
pub enum Key {
    Ports,
    First,
    Slot,
    In,
    Out,
    Flow,
    Rank,
    Tag,
    End,
    Refused,
    Line,
}

// What stands at the start of a text.
#[derive(Clone, Copy)]
pub enum Opening {
    // The number of ports, the first slot, and how many bytes the two lines have.
    Open(u32, u32, usize),
    // A refusal and its line, counted from 1.
    Refused(Refusal, u32),
    // More text is needed.
    Short,
}

// What stands after the header or a block.
#[derive(Clone, Copy)]
pub enum Answer {
    // A block: how many arrivals, bytes and lines it has.
    Slot(u32, usize, u32),
    // The line of `end`, and nothing after it.
    End,
    // A bad line, counted from 0 at the start of the piece.
    Bad(u32),
    // More text is needed.
    More,
}
