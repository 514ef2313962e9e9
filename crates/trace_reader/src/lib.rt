// Scope 7: the reader, a function for each rule of the grammar above a line, which stands over it. A text is lent and
// only read; what was read is handed on with its length, and the next reader gets the slice from there.
// No public function has a `requires`.
#![tactic(auto)]

ghost use Rattle.std.specs.Prelude.{true, false, [], ◌∷◌, ◌≡◌, ◌*◌, ◌≤◌, ◌<◌, length, drop};
ghost use Rattle.std.proofs.lemmas.List.Edits.{sets};
ghost use Rattle.trace.specs.declared.Key.TheVariants.{End};
ghost use Rattle.cell.specs.declared.Refusal.TheVariants.{BadLine};
ghost use Rattle.trace.specs.Contents.{block_limit, block_lines};
ghost use Rattle.trace.specs.Reader.{from, arrival, arrivals, begins, next, read};
ghost use Rattle.trace.specs.Piece.{known, decided, next_in, header_in, numbers_of, answer_of, opening_of};
ghost use Rattle.trace_reader.specs.Reading.{whole_arrivals, whole_of, numbers_after, verdict_of};
ghost use Rattle.trace_reader.specs.Code.{came_of, ahead, ended_of};

use cell::{Arrival, Refusal, Switch};
use trace::{Answer, BLOCK_LIMIT, BLOCK_LINES, FIELDS, Key, NUMBERS, Opening};
use trace_line_reader::{begins, read_line};

// The arrivals of a block, as an index.
const ARRIVALS: usize = BLOCK_LIMIT as usize;

// So many bytes are more than any block or header has.
const ENOUGH: usize = 2048;

// Why the grammar alone refuses a text, and at which line, counted from 1.
#[derive(Clone, Copy)]
pub struct BadText {
    pub refusal: Refusal,
    pub line: usize,
}

// text = header { block } end: the number of its slots
pub fn verify(text: &[u8]) -> Result<u32, BadText>
    ensures { result ≡ verdict_of (read text.now) }
{
    match read_header(text, true) {
        Opening::Open(_, first, used) => verify_blocks(&text[used..], first).map_err(bad_line),
        Opening::Refused(refusal, line) => Err(BadText {
            refusal,
            line: line as usize,
        }),
        // never: all of the text is there
        Opening::Short => Err(bad_line(1)),
    }
}

// A line that is not the expected key and number.
fn bad_line(line: usize) -> BadText
    ensures { result ≡ record { refusal = BadLine; line = line } }
{
    BadText {
        refusal: Refusal::BadLine,
        line,
    }
}

// header = ports-line first-line
pub fn read_header(text: &[u8], last: bool) -> Opening
    ensures { result ≡ opening_of text.now (header_in last text.now) }
{
    if !decided(text, last) {
        return Opening::Short;
    }
    let Some(ports) = read_line(text, Key::Ports) else {
        return Opening::Refused(Refusal::BadLine, 1);
    };
    if !Switch::ports_in_range(ports.number) {
        return Opening::Refused(Refusal::BadSize, 1);
    }
    let Some(first) = read_line(&text[ports.length..], Key::First) else {
        return Opening::Refused(Refusal::BadLine, 2);
    };
    Opening::Open(ports.number, first.number, ports.length + first.length)
}

// next = block | end. The numbers of the block's arrivals, of a bad block those that are whole before the fault, come
// first among the lent ones; the others are kept.
pub fn read_block(text: &[u8], clock: u32, last: bool, numbers: &mut [u32; NUMBERS]) -> Answer
    ensures value { result ≡ answer_of text.now (next_in last clock text.now) }
    ensures numbers_after { numbers.new ≡ numbers_after (whole_of clock (from 0 text.now))
        (next_in last clock text.now) numbers.old }
{
    if !decided(text, last) {
        return Answer::More;
    }
    if begins(text, Key::End) {
        return read_end(text, clock);
    }
    read_slot(text, clock, numbers)
}

// { block } end, from line 3 on: the number of the blocks, or the line at fault; no line has the number after
// 4,294,967,295
fn verify_blocks(text: &[u8], first: u32) -> Result<u32, usize>
    ensures { result ≡ ended_of first text.now }
{
    let mut numbers = [0u32; NUMBERS];
    let mut rest = text;
    let mut clock = first;
    let mut line: usize = 3;
    // A while: how long a block is, is not known before it is read. With this test the compiler sees one call of read_block, and
    // puts it in line.
    while !rest.is_empty() {
        match read_block(rest, clock, true, &mut numbers) {
            Answer::Slot(_, used, lines) => {
                line += lines as usize;
                clock = clock.checked_add(1).ok_or(line)?;
                rest = &rest[used..];
            }
            Answer::End => return Ok(clock - first),
            Answer::Bad(fault) => return Err(line + fault as usize),
            // never: all of the text is there
            Answer::More => return Err(line),
        }
    }
    // a line is missing
    Err(line)
}

// Whether the text is enough to decide by: it is all there, or more than any block can have.
fn decided(text: &[u8], last: bool) -> bool
    ensures { result ≡ decided last text.now }
{
    last || ENOUGH <= text.len()
}

// end = end-line, with the clock's number and nothing after it
fn read_end(text: &[u8], clock: u32) -> Answer
    requires { begins End (from 0 text.now) ≡ true }
    ensures { result ≡ answer_of text.now (known (next clock (from 0 text.now))) }
{
    let Some(end) = read_line(text, Key::End) else {
        return Answer::Bad(0);
    };
    if end.number != clock {
        return Answer::Bad(0);
    }
    if end.length < text.len() {
        return Answer::Bad(1);
    }
    Answer::End
}

// block = slot-line, with the clock's number, and at most 16 arrivals
fn read_slot(text: &[u8], clock: u32, numbers: &mut [u32; NUMBERS]) -> Answer
    requires { begins End (from 0 text.now) ≡ false }
    ensures value { result ≡ answer_of text.now (known (next clock (from 0 text.now))) }
    ensures numbers_after { numbers.new ≡ numbers_after (whole_of clock (from 0 text.now))
        (known (next clock (from 0 text.now))) numbers.old }
{
    let Some(slot) = read_line(text, Key::Slot) else {
        return Answer::Bad(0);
    };
    if slot.number != clock {
        return Answer::Bad(0);
    }
    read_arrivals(text, slot.length, numbers)
}

// { arrival }, up to the first line that does not begin `in=`
fn read_arrivals(text: &[u8], start: usize, numbers: &mut [u32; NUMBERS]) -> Answer
    requires { start ≤ length text.now }
    ensures value { result ≡ answer_of text.now
        (known (ahead (arrivals block_limit (from 1 (drop start text.now))))) }
    ensures numbers_after { numbers.new
        ≡ numbers_after (whole_arrivals block_limit (from 1 (drop start text.now)))
        (known (ahead (arrivals block_limit (from 1 (drop start text.now))))) numbers.old }
{
    let mut at = start;
    for k in 0..ARRIVALS {
        let rest = &text[at..];
        let line = (FIELDS * k + 1) as u32;
        if !begins(rest, Key::In) {
            return Answer::Slot(k as u32, at, line);
        }
        match read_arrival(rest, line) {
            Ok((arrival, length)) => {
                store(numbers, k, arrival);
                at += length;
            }
            Err(fault) => return Answer::Bad(fault),
        }
    }
    Answer::Slot(BLOCK_LIMIT, at, BLOCK_LINES)
}

// arrival = in-line out-line flow-line rank-line tag-line: the arrival and how many bytes its lines have, or the line
// at fault
fn read_arrival(text: &[u8], line: u32) -> Result<(Arrival, usize), u32>
    requires { line < block_lines }
    ensures { result ≡ came_of text.now (arrival (from line text.now)) }
{
    let input = read_line(text, Key::In).ok_or(line)?;
    let after_in = &text[input.length..];
    let output = read_line(after_in, Key::Out).ok_or(line + 1)?;
    let after_out = &after_in[output.length..];
    let flow = read_line(after_out, Key::Flow).ok_or(line + 2)?;
    let after_flow = &after_out[flow.length..];
    let rank = read_line(after_flow, Key::Rank).ok_or(line + 3)?;
    let after_rank = &after_flow[rank.length..];
    let tag = read_line(after_rank, Key::Tag).ok_or(line + 4)?;
    let arrival = Arrival {
        input: input.number,
        output: output.number,
        flow: flow.number,
        rank: rank.number,
        tag: tag.number,
    };
    let length = input.length + output.length + flow.length + rank.length + tag.length;
    Ok((arrival, length))
}

// The numbers of an arrival, at its place among those of its block.
fn store(numbers: &mut [u32; NUMBERS], k: usize, a: Arrival)
    requires { k < block_limit }
    ensures { numbers.new ≡ sets numbers.old (5 * k) (numbers_of (a ∷ [])) }
{
    let at = FIELDS * k;
    numbers[at] = a.input;
    numbers[at + 1] = a.output;
    numbers[at + 2] = a.flow;
    numbers[at + 3] = a.rank;
    numbers[at + 4] = a.tag;
}
