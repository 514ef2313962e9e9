// The bytes of a slot's answer: a departure for each of sixteen outputs, 1 and the fields of its cell or zeros, then
// the proposals of the two phases, then for each phase how many crosspoints of each output held a cell. A caller shows
// that the bytes are there.
#![tactic(auto)]

ghost use Rattle.std.specs.Prelude.{◌++◌, ◌≡◌, ◌+◌, ◌≤◌, length};
ghost use Rattle.laws.specs.CodeOptions.{option_of};
ghost use Rattle.cell.specs.Limits.{port_limit};
ghost use Rattle.layout.specs.Number.{bytes_of};
ghost use Rattle.layout.specs.Answer.{departure_size, departures_size, occupancies_size, answer_size, departure_bytes};
ghost use Rattle.layout.specs.Answer.{seven_bytes, words_bytes, cell_in, departure_in};
ghost use Rattle.layout.specs.Code.{put};
ghost use Rattle.layout_answer.specs.Code.{sent_in};

use cell::Cell;
use layout::{DEPARTURE_BYTES, FIRST_PROPOSALS, PORTS, SECOND_PROPOSALS, word};

// Puts the departure of an output: the cell that it sends, if it sends one.
pub fn write_departure(answer: &mut [u8], at: usize, sent: Option<Cell>)
    requires { at + departure_size ≤ length answer.old }
    ensures { answer.new
        ≡ put at departure_size (departure_bytes (option_of sent)) answer.old }
{
    match sent {
        Some(c) => write_seven(answer, at, 1, c),
        None => write_seven(answer, at, 0, Cell::default()),
    }
}

// Seven numbers of 32 bits one behind the other.
fn write_seven(answer: &mut [u8], at: usize, sent: u32, c: Cell)
    requires { at + departure_size ≤ length answer.old }
    ensures { answer.new ≡ put at departure_size (seven_bytes sent c) answer.old }
{
    word::write_u32(answer, at, sent);
    word::write_u32(answer, at + 4, c.input);
    word::write_u32(answer, at + 8, c.output);
    word::write_u32(answer, at + 12, c.flow);
    word::write_u32(answer, at + 16, c.rank);
    word::write_u32(answer, at + 20, c.tag);
    word::write_u32(answer, at + 24, c.slot);
}

// Puts the proposals of the two phases, the eight bytes behind the departures.
pub fn write_proposals(answer: &mut [u8], first: u32, second: u32)
    requires { answer_size ≤ length answer.old }
    ensures { answer.new
        ≡ put departures_size 8 (bytes_of 4 first ++ bytes_of 4 second) answer.old }
{
    word::write_u32(answer, FIRST_PROPOSALS, first);
    word::write_u32(answer, SECOND_PROPOSALS, second);
}

// Puts how many crosspoints of each output held a cell in a phase, a number for each of sixteen outputs.
pub fn write_occupancies(answer: &mut [u8], at: usize, held: &[u16; PORTS])
    requires { at + occupancies_size ≤ length answer.old }
    ensures { answer.new
        ≡ put at occupancies_size (words_bytes port_limit held.now) answer.old }
{
    for (output, n) in held.iter().enumerate() {
        word::write_u32(answer, at + 4 * output, u32::from(*n));
    }
}

// How many departures an answer has.
pub fn departures_in(answer: &[u8]) -> u64
    requires { departures_size ≤ length answer.now }
    ensures { result ≡ sent_in answer.now }
{
    let mut count = 0;
    for output in 0..PORTS {
        if word::read_u32(answer, DEPARTURE_BYTES * output) != 0 {
            count += 1;
        }
    }
    count
}

// The cell of a departure, if one leaves.
#[tactic(auto, using(crate::proofs::Departures::none_at_zero, crate::proofs::Departures::some_elsewhere))]
pub fn departure_in(sent: &[u8]) -> Option<Cell>
    requires { length sent.now ≡ departure_size }
    ensures { option_of result ≡ departure_in sent.now }
{
    if word::read_u32(sent, 0) == 0 {
        return None;
    }
    Some(cell_in(sent))
}

// The cell that stands in a departure, whether or not it says that one leaves.
pub fn cell_in(sent: &[u8]) -> Cell
    requires { length sent.now ≡ departure_size }
    ensures { result ≡ cell_in sent.now }
{
    Cell {
        input: word::read_u32(sent, 4),
        output: word::read_u32(sent, 8),
        flow: word::read_u32(sent, 12),
        rank: word::read_u32(sent, 16),
        tag: word::read_u32(sent, 20),
        slot: word::read_u32(sent, 24),
    }
}
