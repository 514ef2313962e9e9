// The lines that the player writes in a turn, and the records and the line's number that it reads off a block.
#![tactic(auto)]

ghost use Rattle.std.specs.Prelude.{◌++◌, ◌≡◌, ◌+◌, ◌*◌, ◌≤◌, length, take};
ghost use Rattle.cell.specs.Limits.{port_limit, clock_end};
ghost use Rattle.trace.specs.declared.Key.TheVariants.{Ports, First, Slot};
ghost use Rattle.trace.specs.Flat.{arrivals_from};
ghost use Rattle.trace.specs.Line.{line};
ghost use Rattle.trace.specs.Contents.{block_limit, block_numbers, block_lines};
ghost use Rattle.trace.specs.Lines.{departure_text, departures_text};
ghost use Rattle.trace_line_writer.specs.Writing.{Put};
ghost use Rattle.layout.specs.Answer.{departure_in, departures_in, departures_size, departure_size};
ghost use Rattle.player_text.specs.Player.{line_of};
ghost use Rattle.player_lines.specs.Writing.{departure_room, turn_room, Wrote};

use cell::Arrival;
use layout::HELD;
use trace::{FIELDS, Key};
use trace_line_writer::TraceLine;

// The first records of a block's numbers.
pub fn records_of(numbers: &[u32], count: usize) -> [Arrival; HELD]
    requires { (length numbers.now ≡ block_numbers) × (count ≤ block_limit) }
    ensures { take count result ≡ arrivals_from count numbers.now }
{
    let none = Arrival {
        input: 0,
        output: 0,
        flow: 0,
        rank: 0,
        tag: 0,
    };
    let mut records = [none; HELD];
    for n in 0..count {
        records[n] = trace_writer::arrival_at(&numbers[FIELDS * n..]);
    }
    records
}

// The line that a refusal names: the slot's own, or the first of the record's.
pub fn line_of(line: usize, place: u32) -> usize
    requires { line ≤ 3 + block_lines * clock_end }
    ensures { result ≡ line_of line place }
{
    if place == 0 {
        return line;
    }
    line + 1 + FIELDS * (place as usize - 1)
}

// The lines `ports` and `first`.
pub fn put_header(out: &mut [u8], ports: u32, first: u32) -> usize
    requires { turn_room ≤ length out.old }
    ensures { Wrote (line Ports ports ++ line First first) out.old out.new result }
{
    let lines = [
        TraceLine::new(Key::Ports, ports),
        TraceLine::new(Key::First, first),
    ];
    trace_line_writer::put_lines(out, 0, &lines)
}

// The line `slot`, and the departures of an answer.
pub fn put_slot(out: &mut [u8], clock: u32, answer: &[u8]) -> usize
    requires { (turn_room ≤ length out.old) × (departures_size ≤ length answer.now) }
    ensures { Wrote (line Slot clock ++ departures_text (departures_in port_limit answer.now))
        out.old out.new result }
{
    let at = trace_line_writer::put_line(out, 0, Key::Slot, clock);
    put_departures(out, at, answer)
}

// The departures of the sixteen outputs.
fn put_departures(out: &mut [u8], at: usize, answer: &[u8]) -> usize
    requires { (at + port_limit * departure_room ≤ length out.old) × (departures_size ≤ length answer.now) }
    ensures { Put out.old at (departures_text (departures_in port_limit answer.now))
        out.new result }
{
    let mut place = at;
    for output in 0..layout::PORTS {
        let start = layout::DEPARTURE_BYTES * output;
        let end = start + layout::DEPARTURE_BYTES;
        place = put_sent(out, place, &answer[start..end]);
    }
    place
}

// The departure of one output, if it sends a cell.
fn put_sent(out: &mut [u8], at: usize, sent: &[u8]) -> usize
    requires { length sent.now ≡ departure_size }
    ensures { Put out.old at (departure_text (departure_in sent.now)) out.new result }
{
    match layout_answer::departure_in(sent) {
        Some(c) => trace_line_writer::put_departure(out, at, c),
        None => at,
    }
}
