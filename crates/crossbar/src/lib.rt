// What the chassis host calls: numbers and byte slices, no call with a condition on what it is lent. What a call comes to is a
// number, not a Result, as C is given it: the exports promise the clauses that stand here. The calls of a
// switch are here, those of its cues in `cues`, and those for older tables and cue stores in `convert` and
// `convert_cues`.
#![tactic(auto)]

pub mod convert;
pub mod convert_cues;
pub mod cues;

ghost use Rattle.std.specs.Prelude.{◌≡◌};
ghost use Rattle.layout.specs.Engine.{crossbar, start_call, buffer_after, check_call, slot_call, CallLeaves};
ghost use Rattle.layout.specs.Fair.{fair_number};
ghost use Rattle.layout.specs.Host.{result_of};

use cell::Refusal;
use fair_table::is_fair_table;
use layout::result::result_of;
use layout::{FAIR_NUMBER, TALLY_BYTES};

// Writes the table of a fresh switch into the first bytes of the buffer: 0. Output o is fair if bit o of `fair` is 1.
// Refuses with 1 a number of ports that is not 1 to 16, then with 4 a mark at an output that is not below it, then with
// 10 a buffer that is too short; a refusal writes nothing.
pub fn start(ports: u32, first: u32, fair: u32, table: &mut [u8]) -> u32
    ensures value { result ≡ result_of (start_call ports first fair table.old) }
    ensures table_after { table.new ≡ buffer_after fair_number table.old
        (start_call ports first fair table.old) }
{
    fair_table::start::start(ports, first, fair, FAIR_NUMBER, table)
}

// Whether the bytes are a table: 0, or 2. Nothing is written.
pub fn check(table: &[u8]) -> u32
    ensures { result ≡ check_call crossbar table.now }
{
    if is_fair_table(table) {
        return 0;
    }
    Refusal::BrokenTable.number()
}

// Takes a slot on the lent table with the lent arrivals: 0. The table is then the one after the slot, the first bytes
// of the answer's buffer are its answer, and the tally counts it. A refusal is its number and 256 times the record's
// place (from 1; 0 for 2, 10 and 3), the first one of: 2, the table is broken, the arrivals are no whole records or
// the tally has another length; 10, the buffer is too short for the answer; 3, the clock's end; record by record 4, 5,
// 6, at a fair output 14 and 15, then 7 and 8. A refused slot has no departures and proposal counts 0, and nothing of
// that is written: the answer's buffer keeps its bytes, and so does the table. The tally counts a refused slot; a tally
// of another length is kept too.
pub fn slot(table: &mut [u8], arrivals: &[u8], answer: &mut [u8], tally: &mut [u8]) -> u64
    ensures { CallLeaves crossbar
        (slot_call crossbar table.old arrivals.now answer.old tally.old)
        table.old arrivals.now answer.old tally.old
        result table.new answer.new tally.new }
{
    // Such a tally can count nothing.
    if tally.len() != TALLY_BYTES {
        return Refusal::BrokenTable.number() as u64;
    }
    result_of(fair_slot::slot(table, arrivals, answer, tally))
}
