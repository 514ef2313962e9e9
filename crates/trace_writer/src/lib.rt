// The writer, scope 7.6: from contents to text. The `pour_..` put line after line, and answer the place after the text;
// a text poured into no bytes is measured. No function has a `requires`.
#![tactic(auto)]

ghost use Rattle.std.specs.Prelude.{◌≡◌, ◌++◌, length, get_or, drop};
ghost use Rattle.laws.specs.Lists.{all?};
ghost use Rattle.trace.specs.declared.Key.TheVariants.{Slot};
ghost use Rattle.trace.specs.Line.{line};
ghost use Rattle.trace.specs.Contents.{arrival_text, arrivals_text, slots_text, text};
ghost use Rattle.trace.specs.Flat.{arrival_at, arrivals_from, slots_from, fit_together, contents_of};
ghost use Rattle.trace.specs.Flat.{write_flat, output_of, buffer_after};
ghost use Rattle.trace_line_writer.specs.Writing.{Put};
ghost use Rattle.trace_line_writer.specs.Code.{Tried};
ghost use Rattle.trace_writer.specs.Code.{few, flat_has_text};

use cell::{Arrival, Refusal, Switch};
use trace::{BLOCK_LIMIT, FIELDS, Key};
use trace_line_writer::{TraceLine, put_five, put_lines, put_one};

// The clock's end, as a count of slots.
const CLOCK_END: usize = Switch::CLOCK_END as usize;

// The text of contents: the number of each slot's arrivals, and five numbers for each arrival, input, output, flow,
// rank, tag. A refusal, 1, then 9, then 10, writes nothing; bytes past the text are kept.
pub fn write(
    ports: u32,
    first: u32,
    counts: &[u32],
    numbers: &[u32],
    out: &mut [u8],
) -> Result<usize, Refusal>
    ensures value { result ≡ output_of
        (write_flat ports first counts.now numbers.now (length out.old)) }
    ensures out_after { out.new ≡ buffer_after
        (write_flat ports first counts.now numbers.now (length out.old))
        out.old }
{
    if !Switch::ports_in_range(ports) {
        return Err(Refusal::BadSize);
    }
    if !has_text(first, counts, numbers) {
        return Err(Refusal::BadLine);
    }
    let size = pour_contents(&mut out[..0], ports, first, counts, numbers);
    if out.len() < size {
        return Err(Refusal::ShortBuffer);
    }
    Ok(pour_contents(out, ports, first, counts, numbers))
}

// Whether the lists are the contents of some text.
#[tactic(auto, unfolding(crate::specs::Code::flat_has_text))]
fn has_text(first: u32, counts: &[u32], numbers: &[u32]) -> bool
    ensures { result ≡ flat_has_text first counts.now numbers.now }
{
    fit_together(counts, numbers)
        && blocks_fit(counts)
        && first as usize + counts.len() <= CLOCK_END
}

// Whether there are five numbers for each arrival that is counted.
fn fit_together(counts: &[u32], numbers: &[u32]) -> bool
    ensures { result ≡ fit_together counts.now numbers.now }
{
    let mut left = numbers.len();
    for &count in counts {
        let five = FIELDS * count as usize;
        if left < five {
            return false;
        }
        left -= five;
    }
    left == 0
}

// Whether no slot has too many arrivals.
fn blocks_fit(counts: &[u32]) -> bool
    ensures { result ≡ all? few counts.now }
{
    counts.iter().all(|count| *count <= BLOCK_LIMIT)
}

// text = ports-line first-line slots
fn pour_contents(out: &mut [u8], ports: u32, first: u32, counts: &[u32], numbers: &[u32]) -> usize
    ensures { Tried out.old 0
        (text (contents_of ports first counts.now numbers.now))
        out.new result }
{
    let header = [
        TraceLine::new(Key::Ports, ports),
        TraceLine::new(Key::First, first),
    ];
    let slots = put_lines(out, 0, &header);
    pour_slots(out, slots, first, counts, numbers)
}

// slots = block* end-line
fn pour_slots(out: &mut [u8], at: usize, first: u32, counts: &[u32], numbers: &[u32]) -> usize
    ensures { Tried out.old at
        (slots_text first (slots_from counts.now numbers.now))
        out.new result }
{
    let mut place = at;
    let mut left = numbers;
    for (i, &count) in counts.iter().enumerate() {
        place = pour_block(out, place, first as usize + i, count, left);
        left = numbers_from(left, FIELDS * count as usize);
    }
    let end = TraceLine {
        key: Key::End,
        number: first as usize + counts.len(),
    };
    put_one(out, place, end)
}

// block = slot-line arrival*
fn pour_block(out: &mut [u8], at: usize, clock: usize, count: u32, numbers: &[u32]) -> usize
    ensures { Tried out.old at
        (line Slot clock ++ arrivals_text (arrivals_from count numbers.now))
        out.new result }
{
    let slot = TraceLine {
        key: Key::Slot,
        number: clock,
    };
    let arrivals = put_one(out, at, slot);
    pour_arrivals(out, arrivals, count, numbers)
}

// arrival*
fn pour_arrivals(out: &mut [u8], at: usize, count: u32, numbers: &[u32]) -> usize
    ensures { Tried out.old at
        (arrivals_text (arrivals_from count numbers.now))
        out.new result }
{
    let mut place = at;
    let mut left = numbers;
    for _ in 0..count {
        place = put_arrival(out, place, arrival_at(left));
        left = numbers_from(left, FIELDS);
    }
    place
}

// arrival = in-line out-line fields
fn put_arrival(out: &mut [u8], at: usize, a: Arrival) -> usize
    ensures { Put out.old at (arrival_text a) out.new result }
{
    let lines = [
        TraceLine::new(Key::In, a.input),
        TraceLine::new(Key::Out, a.output),
        TraceLine::new(Key::Flow, a.flow),
        TraceLine::new(Key::Rank, a.rank),
        TraceLine::new(Key::Tag, a.tag),
    ];
    put_five(out, at, lines)
}

// The arrival that these numbers begin with.
#[tactic(auto, unfolding(trace::specs::Flat::arrival_at))]
pub fn arrival_at(numbers: &[u32]) -> Arrival
    ensures { result ≡ arrival_at numbers.now }
{
    Arrival {
        input: number_at(numbers, 0),
        output: number_at(numbers, 1),
        flow: number_at(numbers, 2),
        rank: number_at(numbers, 3),
        tag: number_at(numbers, 4),
    }
}

// A number, or 0 past the end.
fn number_at(numbers: &[u32], i: usize) -> u32
    ensures { result ≡ get_or numbers.now i 0 }
{
    numbers.get(i).copied().unwrap_or(0)
}

// The numbers from one on, or none past the end.
fn numbers_from(numbers: &[u32], from: usize) -> &[u32]
    ensures { result.now ≡ drop from numbers.now }
{
    &numbers[from.min(numbers.len())..]
}
