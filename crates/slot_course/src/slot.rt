// Scope 3, one slot, on the table of a sound state from where its cells have arrived: the two phases and departure.
ghost use Rattle.std.specs.Prelude.{◌≡◌, ◌≤◌, length, replicate};
ghost use Rattle.cell.specs.Limits.{port_limit};
ghost use Rattle.model.specs.Crossbar.{answer_of};
ghost use Rattle.layout.specs.Answer.{answer_bytes, answer_size};
ghost use Rattle.layout.specs.Host.{filled};
ghost use Rattle.layout.specs.Table.{IsTable, encode, state_of};
ghost use Rattle.layout_table.specs.CodeEntries.{nowhere};
ghost use Rattle.slot_course.specs.Code.{course_of, Scheduled, SetsIn};

use crate::phase::{Report, phase};
use layout::{FIRST_OCCUPANCY, PORTS, SECOND_OCCUPANCY};
use layout_answer::{write_occupancies, write_proposals};
use layout_table::priority::NOWHERE;
use slot_departure::depart;
use slot_loading::load;
use slot_view::{NO_KEY, Sets};

// Scheduling is done twice.
const PHASES: usize = 2;

// The course of a slot whose cells have arrived and whose clock has risen, with the sets of its cells by place.
pub fn run(table: &mut [u8], sets: &mut Sets, answer: &mut [u8])
    requires table { IsTable table.old × (answer_size ≤ length answer.old) }
    requires sets_in { SetsIn table.old sets.old }
    ensures table_after { table.new ≡ encode (course_of (state_of table.old)).switch }
    ensures answer_after { answer.new
        ≡ filled (answer_bytes (answer_of (course_of (state_of table.old)))) answer.old }
    ensures kept { (sets.new.crossed ≡ sets.old.crossed) × (sets.new.buffered ≡ sets.old.buffered) }
{
    let mut best = [NOWHERE; PORTS];
    let reports = schedule(table, sets, &mut best);
    depart(table, &best, answer);
    write_proposals(answer, reports[0].proposals, reports[1].proposals);
    write_occupancies(answer, FIRST_OCCUPANCY, &reports[0].occupancy);
    write_occupancies(answer, SECOND_OCCUPANCY, &reports[1].occupancy);
}

// The two phases, on a view of the table that is made once, from the sets of its cells by place, and what each reports.
// `best` is lent with no cell in it and gets the best buffered cell of each output.
fn schedule(table: &mut [u8], sets: &mut Sets, best: &mut [u16; PORTS]) -> [Report; PHASES]
    requires table { IsTable table.old × (best.old ≡ replicate port_limit nowhere) }
    requires sets_in { SetsIn table.old sets.old }
    ensures scheduled { Scheduled (state_of table.old) table.new best.new result }
    ensures kept { (sets.new.crossed ≡ sets.old.crossed) × (sets.new.buffered ≡ sets.old.buffered) }
{
    let mut cross = [[NOWHERE; PORTS]; PORTS];
    let mut keys = [[NO_KEY; PORTS]; PORTS];
    load(table, sets, &mut cross, &mut keys, best);
    let none = Report {
        proposals: 0,
        occupancy: [0; PORTS],
    };
    let mut reports = [none; PHASES];
    for n in 0..PHASES {
        reports[n] = phase(
            table,
            &mut sets.listed,
            &mut sets.heads,
            &mut cross,
            &mut keys,
            best,
        );
    }
    reports
}
