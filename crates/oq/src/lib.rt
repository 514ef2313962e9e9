// What a host calls of the output-queued switch: numbers and byte slices, no call with a condition on what it is lent. What a
// call comes to is a number, not a Result, as C is given it: the exports promise the clauses that stand here.
#![tactic(auto)]

mod check;
pub mod convert;
mod slot;

ghost use Rattle.std.specs.Prelude.{◌≡◌};
ghost use Rattle.layout.specs.Engine.{oq, start_call, buffer_after, check_call, slot_call, CallLeaves};
ghost use Rattle.layout.specs.Fair.{fair_number_oq};
ghost use Rattle.layout.specs.Host.{result_of};

use cell::Refusal;
use check::is_fair_oq_table;
use layout::result::result_of;
use layout::{ARRIVAL_BYTES, FAIR_NUMBER_OQ, TALLY_BYTES};
use layout_tally::{counted_by, read, write};
use slot::take_slot;

// Writes the table of a fresh switch into the first bytes of the buffer: 0. Output o is fair if bit o of `fair` is 1.
// Refuses with 1 a number of ports that is not 1 to 16, then with 4 a mark at an output that is not below it, then with
// 10 a buffer that is too short; a refusal writes nothing.
pub fn oq_start(ports: u32, first: u32, fair: u32, table: &mut [u8]) -> u32
    ensures value { result ≡ result_of (start_call ports first fair table.old) }
    ensures table_after { table.new ≡ buffer_after fair_number_oq table.old
        (start_call ports first fair table.old) }
{
    fair_table::start::start(ports, first, fair, FAIR_NUMBER_OQ, table)
}

// Whether the bytes are a table: 0, or 2. Nothing is written.
pub fn oq_check(table: &[u8]) -> u32
    ensures { result ≡ check_call oq table.now }
{
    if is_fair_oq_table(table) {
        return 0;
    }
    Refusal::BrokenTable.number()
}

// Takes a slot on the lent table with the lent arrivals: 0. The table is then the one after the slot, the first bytes
// of the answer's buffer are its departures, and the tally counts it. A refusal is its number and 256 times the
// record's place (from 1; 0 for 2, 10 and 3), the first one of: 2, the table is broken, the arrivals are no whole
// records or the tally has another length; 10, the buffer is too short for the departures; 3, the clock's end; record
// by record 4, 5, 6, 14, 15, 7, 8. A refused slot has no departures, and nothing of that is written: the answer's
// buffer keeps its bytes, and so does the table, which remembers nothing of it. The tally counts a refused slot; a
// tally of another length is kept too.
pub fn oq_slot(table: &mut [u8], arrivals: &[u8], answer: &mut [u8], tally: &mut [u8]) -> u64
    ensures { CallLeaves oq
        (slot_call oq table.old arrivals.now answer.old tally.old)
        table.old arrivals.now answer.old tally.old
        result table.new answer.new tally.new }
{
    // Such a tally can count nothing.
    if tally.len() != TALLY_BYTES {
        return Refusal::BrokenTable.number() as u64;
    }
    let before = read(tally);
    let checked = take_slot(table, arrivals, answer);
    let many = (arrivals.len() / ARRIVAL_BYTES) as u64;
    let after = counted_by(checked, many, answer, before);
    write(tally, after);
    result_of(checked)
}
