// The player: a trace in, its departures out, one turn after the other, on either switch. Whoever drives it lends the
// text that is there so far, the bytes of the table and a buffer, and keeps the stage and the number of the next line
// between the turns. Its theorems are on the definitions: both switches write the text that the PIFO switch would, and
// turn by turn it is the same text however the trace arrives.
#![tactic(auto)]

ghost use Rattle.std.specs.Prelude.{◌≡◌, ◌+◌, ◌*◌, ◌≤◌, length};
ghost use Rattle.trace.specs.Flat.{arrivals_from};
ghost use Rattle.trace.specs.Piece.{next_in, header_in};
ghost use Rattle.trace.specs.Contents.{block_limit, block_numbers, block_lines};
ghost use Rattle.layout.specs.Answer.{answer_size};
ghost use Rattle.layout.specs.Arrivals.{held_limit};
ghost use Rattle.layout.specs.Entry.{clock_in};
ghost use Rattle.layout.specs.Table.{state_of, table_size};
ghost use Rattle.player_lines.specs.Writing.{turn_room};
ghost use Rattle.player_text.specs.Turn.{header_turn, next_turn, turn};
ghost use Rattle.player_turns.specs.declared.Engine.{Engine};
ghost use Rattle.player_turns.specs.Turns.{machine_of, TableOf, standing, Took, Stands};
ghost use Rattle.player_turns.specs.Code.{Turned, Closed, SlotLeft, SlotPlayed};

use cell::{Arrival, Fault, Refusal, Switch};
use layout_table::header::write_fresh;
use trace::{Answer, Key, Opening};

// What one turn can write at most: the line of a slot, and sixteen departures of five lines.
const TURN_ROOM: usize = 16 + layout::PORTS * 76;

// Which switch plays the slots. Kept as an enum, not a type parameter: the theorems are on either (`machine_of`,
// player_turns/specs/Turns).
#[derive(Clone, Copy)]
pub enum Engine {
    Crossbar,
    Oq,
}

// Where the player stands: before the header; before a block or the end; or behind all that it writes, where the trace
// was played to its end or was turned back.
#[derive(Clone, Copy)]
pub enum Stage {
    Opening,
    Playing,
    Ended,
    TurnedBack,
}

// What a turn leaves: the stage, the number of the next line, how many bytes of the text it took and how many it wrote.
#[derive(Clone, Copy)]
pub struct Turn {
    pub stage: Stage,
    pub line: usize,
    pub used: usize,
    pub written: usize,
}

// What became of a block's slot, with the number of bytes written: it ran, or it was refused. Both cases carry that number
// alone, so a Result would not say which is which.
#[derive(Clone, Copy)]
enum Played {
    Ran(usize),
    Stopped(usize),
}

// Plays the header, a block or the end, if the text that is there is enough; `last` says that no more will come.
pub fn take_turn(
    engine: Engine,
    stage: Stage,
    line: usize,
    text: &[u8],
    last: bool,
    table: &mut [u8],
    out: &mut [u8],
) -> Turn
    requires stands { Stands engine stage line table.old }
    requires turn_room_in_bounds { turn_room ≤ length out.old }
    ensures { Turned engine
        (turn (machine_of engine) last (standing stage line table.old) text.now)
        text.now table.old out.old table.new out.new
        result.stage result.line result.used result.written }
{
    match stage {
        Stage::Opening => header_turn(text, last, table, out),
        Stage::Playing => next_turn(engine, line, text, last, table, out),
        Stage::Ended => over(Stage::Ended, 0),
        Stage::TurnedBack => over(Stage::TurnedBack, 0),
    }
}

// Takes turns until one writes nothing or the buffer may be too short for another.
pub fn take_turns(
    engine: Engine,
    stage: Stage,
    line: usize,
    text: &[u8],
    last: bool,
    table: &mut [u8],
    out: &mut [u8],
) -> Turn
    requires { Stands engine stage line table.old }
    ensures { Took engine last (standing stage line table.old)
        text.now table.old out.old table.new out.new
        result.stage result.line result.used result.written }
{
    let mut stage = stage;
    let mut line = line;
    let mut used = 0;
    let mut written = 0;
    // A while: how much room a turn takes is not known before it.
    while TURN_ROOM <= out.len() - written {
        let turn = take_turn(
            engine,
            stage,
            line,
            &text[used..],
            last,
            table,
            &mut out[written..],
        );
        stage = turn.stage;
        line = turn.line;
        used += turn.used;
        written += turn.written;
        if turn.written == 0 {
            break;
        }
    }
    Turn {
        stage,
        line,
        used,
        written,
    }
}

// The turn at the header, which is the same on either switch.
fn header_turn(text: &[u8], last: bool, table: &mut [u8], out: &mut [u8]) -> Turn
    requires table_len { length table.old ≡ table_size }
    requires turn_room_in_bounds { turn_room ≤ length out.old }
    ensures { (engine : Engine)
        → Turned engine (header_turn (machine_of engine) text.now (header_in last text.now))
        text.now table.old out.old table.new out.new
        result.stage result.line result.used result.written }
{
    match trace_reader::read_header(text, last) {
        Opening::Open(ports, first, used) => {
            write_fresh(Switch::fresh(ports, first), table);
            let written = player_lines::put_header(out, ports, first);
            Turn {
                stage: Stage::Playing,
                line: 3,
                used,
                written,
            }
        }
        Opening::Refused(refusal, fault) => {
            let written = trace_line_writer::put_refusal(out, 0, refusal, fault as usize);
            over(Stage::TurnedBack, written)
        }
        Opening::Short => Turn {
            stage: Stage::Opening,
            line: 1,
            used: 0,
            written: 0,
        },
    }
}

// The turn at a block or the end.
fn next_turn(
    engine: Engine,
    line: usize,
    text: &[u8],
    last: bool,
    table: &mut [u8],
    out: &mut [u8],
) -> Turn
    requires table_of { TableOf engine table.old }
    requires line_bound { line ≤ 3 + block_lines * clock_in table.old }
    requires turn_room_in_bounds { turn_room ≤ length out.old }
    ensures { Turned engine
        (next_turn (machine_of engine) line (state_of table.old) text.now
        (next_in last (clock_in table.old) text.now))
        text.now table.old out.old table.new out.new
        result.stage result.line result.used result.written }
{
    let clock = layout_table::header::clock_of(table);
    let mut numbers = [0u32; trace::NUMBERS];
    match trace_reader::read_block(text, clock, last, &mut numbers) {
        Answer::Slot(count, used, lines) => {
            match play_slot(engine, line, clock, count, &numbers, table, out) {
                Played::Ran(written) => Turn {
                    stage: Stage::Playing,
                    line: line + lines as usize,
                    used,
                    written,
                },
                Played::Stopped(written) => over(Stage::TurnedBack, written),
            }
        }
        Answer::End => over(
            Stage::Ended,
            trace_line_writer::put_line(out, 0, Key::End, clock),
        ),
        Answer::Bad(k) => {
            let written = trace_line_writer::put_refusal(
                out,
                0,
                Refusal::BadLine,
                line + k as usize,
            );
            over(Stage::TurnedBack, written)
        }
        Answer::More => Turn {
            stage: Stage::Playing,
            line,
            used: 0,
            written: 0,
        },
    }
}

// The last turn, and each after it: it leaves the text alone, and no line is next.
fn over(stage: Stage, written: usize) -> Turn
    ensures { Closed stage written result.stage result.line result.used result.written }
{
    Turn {
        stage,
        line: 0,
        used: 0,
        written,
    }
}

// Runs the slot of a block, and writes its lines; or writes the refusal. Of the numbers five for each arrival count.
fn play_slot(
    engine: Engine,
    line: usize,
    clock: u32,
    count: u32,
    numbers: &[u32],
    table: &mut [u8],
    out: &mut [u8],
) -> Played
    requires table_of { TableOf engine table.old }
    requires clock_value { (clock ≡ clock_in table.old) × (line ≤ 3 + block_lines * clock) }
    requires numbers_len { (length numbers.now ≡ block_numbers) × (count ≤ block_limit) }
    requires turn_room_in_bounds { turn_room ≤ length out.old }
    ensures { SlotPlayed
        ((machine_of engine).slot (state_of table.old) (arrivals_from count numbers.now))
        clock line table.old out.old table.new out.new result }
{
    let many = count as usize;
    let records = player_lines::records_of(numbers, many);
    let mut answer = [0u8; layout::ANSWER_BYTES];
    match slot_on(engine, table, &records[..many], &mut answer) {
        Ok(()) => Played::Ran(player_lines::put_slot(out, clock, &answer)),
        Err(fault) => {
            Played::Stopped(trace_line_writer::put_refusal(
                out,
                0,
                fault.refusal,
                player_lines::line_of(line, fault.place),
            ))
        }
    }
}

// Takes a slot of the engine on its table.
fn slot_on(
    engine: Engine,
    table: &mut [u8],
    records: &[Arrival],
    answer: &mut [u8],
) -> Result<(), Fault>
    requires table_of { TableOf engine table.old }
    requires answer_size_in_bounds { answer_size ≤ length answer.old }
    requires many_le_held_limit { length records.now ≤ held_limit }
    ensures { SlotLeft ((machine_of engine).slot (state_of table.old) records.now)
        table.old result table.new answer.new }
{
    match engine {
        Engine::Crossbar => slot_call::sound_slot(table, records, answer),
        Engine::Oq => oq_slot::sound_slot(table, records, answer),
    }
}
