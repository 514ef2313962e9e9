// Scope 3.3 to 3.6, rules 1 to 4: which cells a phase schedules, which are urgent, and which are matched. Rule 3
// asks for the best crosspoint cells of the outputs, and rule 6 goes on from them.
// Entry k of a table is a cell of input k / 64. The view of the table is only read.
#![tactic(auto)]

ghost use Rattle.std.specs.Prelude.{◌≡◌, ℕ, ◌<◌, length, get_or, replicate};
ghost use Rattle.cell.specs.Limits.{port_limit};
ghost use Rattle.model.specs.Phase.{is_urgent, crosspoint_empty, crosspoints};
ghost use Rattle.layout.specs.Code.{ports_in};
ghost use Rattle.layout_table.specs.CodeEntries.{nowhere};
ghost use Rattle.slot_view.specs.CodeView.{places_in, waiting_in, Square, Agrees};
ghost use Rattle.slot_view.specs.CodeScan.{Readable};
ghost use Rattle.slot_view.specs.CodeViewed.{head_set, ListsOf, Keyed, Chosen};
ghost use Rattle.slot_choice.specs.CodeWalk.{KeysKnown, BestKnown, CellAt, cell_at, scheduled_at, Scanned};
ghost use Rattle.slot_choice.specs.CodeWalk.{ScannedAll, entered, Entered};

use layout::{CELLS, PORTS};
use layout_table::priority::NOWHERE;
use slot_view::{Choice, NO_KEY};

// What leads at the crosspoints: the keys of the cells there, and the best cell of each output with its key.
#[derive(Clone, Copy)]
struct Leaders<'a> {
    keys: &'a [[u64; PORTS]; PORTS],
    best: &'a [u16; PORTS],
    least: &'a [u64; PORTS],
}

// What the walk finds: the number of the scheduled cell, 1,024 where there is none, and the positions of the urgent
// cells.
#[derive(Clone, Copy)]
struct Found {
    scheduled: u16,
    urgent: u64,
}

// Rules 1 to 4. Nothing is matched where no cell is urgent.
pub fn choose(
    table: &[u8],
    listed: &[u64; PORTS],
    heads: &[u64; PORTS],
    cross: &[[u16; PORTS]; PORTS],
    keys: &[[u64; PORTS]; PORTS],
) -> Choice
    requires readable { Readable table.now }
    requires lists_of { ListsOf table.now (places_in table.now) listed.now heads.now }
    requires square { Square cross.now × Agrees table.now (places_in table.now) cross.now
        × Keyed table.now cross.now keys.now }
    ensures { Chosen table.now cross.now result.urgent result.scheduled result.candidates
        result.best }
{
    let mut best = [NOWHERE; PORTS];
    let mut least = [0; PORTS];
    slot_leaders::best_of_each(
        layout_table::header::ports_of(table) as u32,
        cross,
        keys,
        &mut best,
        &mut least,
    );
    let leaders = Leaders {
        keys,
        best: &best,
        least: &least,
    };
    let mut scheduled = [NOWHERE; PORTS];
    let mut candidates = [0; PORTS];
    let urgent = scan_each(table, heads, leaders, &mut scheduled, &mut candidates);
    if urgent {
        enter_scheduled(listed, &scheduled, &mut candidates);
    }
    Choice {
        urgent,
        scheduled,
        candidates,
        best,
    }
}

// Rules 1 to 3 for each input, and whether some cell is urgent.
fn scan_each(
    table: &[u8],
    heads: &[u64; PORTS],
    leaders: Leaders,
    scheduled: &mut [u16; PORTS],
    urgent: &mut [u64; PORTS],
) -> bool
    requires best_known { BestKnown table.now leaders.keys.now leaders.best.now leaders.least.now }
    requires by_index { (input : ℕ) → input < port_limit → get_or heads.now input 0
        ≡ head_set table.now (places_in table.now) input }
    requires scheduled_value { (scheduled.old ≡ replicate port_limit nowhere) × (urgent.old ≡ replicate port_limit 0) }
    ensures { ScannedAll table.now scheduled.new urgent.new result }
{
    let mut some = false;
    for input in 0..layout_table::header::ports_of(table) {
        let found = scan(table, heads[input], leaders, input);
        scheduled[input] = found.scheduled;
        urgent[input] = found.urgent;
        some |= found.urgent != 0;
    }
    some
}

// Rules 1 to 3 for an input, along the heads of its list. The first whose crosspoint is empty is scheduled; up to there
// a head is asked with none, since it stands before the one to come, and from there on with that. Nothing branches on
// which heads are urgent, as that would be guessed badly. Kept as whiles: they go down a set, and count no index.
fn scan(table: &[u8], heads: u64, leaders: Leaders, input: usize) -> Found
    requires best_known { BestKnown table.now leaders.keys.now leaders.best.now leaders.least.now }
    requires input_bound { (input < ports_in table.now) × (heads ≡ head_set table.now (places_in table.now) input) }
    ensures { Scanned table.now input result.scheduled result.urgent }
{
    let mut urgent = 0;
    let mut left = heads;
    while left != 0 {
        let position = sets::first(left);
        if is_ready(table, leaders.keys, input, position) {
            break;
        }
        left = sets::rest(left);
        let member = is_urgent(table, leaders, input, position, CELLS);
        urgent = sets::with_if(urgent, position, member);
    }
    let scheduled = sets::first(left);
    while left != 0 {
        let position = sets::first(left);
        left = sets::rest(left);
        let member = is_urgent(table, leaders, input, position, scheduled);
        urgent = sets::with_if(urgent, position, member);
    }
    Found {
        scheduled: if scheduled < CELLS {
            (CELLS * input + scheduled) as u16
        } else {
            NOWHERE
        },
        urgent,
    }
}

// Rule 2 for a head, by its position in the section of its input: its crosspoint is empty.
fn is_ready(table: &[u8], keys: &[[u64; PORTS]; PORTS], input: usize, position: usize) -> bool
    requires keys_known { KeysKnown table.now keys.now }
    requires cell_at { CellAt table.now input position }
    ensures { result ≡ crosspoint_empty (crosspoints (waiting_in table.now))
        (cell_at table.now input position) }
{
    let output = layout_table::entry::output_of(table, CELLS * input + position) as usize;
    keys[output][input] == NO_KEY
}

// Rule 3 for a head, by its position, and for any scheduled cell of its input, by its own; 64 or more stands for none.
// The tests are those of Pan and Yang, section 4.2, in the order of their text. No branch is taken on the first, as it
// would be guessed badly.
fn is_urgent(
    table: &[u8],
    leaders: Leaders,
    input: usize,
    position: usize,
    scheduled: usize,
) -> bool
    requires best_known { BestKnown table.now leaders.keys.now leaders.best.now leaders.least.now }
    requires cell_at { CellAt table.now input position }
    ensures { result ≡ is_urgent (ports_in table.now) (crosspoints (waiting_in table.now))
        (scheduled_at table.now input scheduled) (cell_at table.now input position) }
{
    let k = CELLS * input + position;
    let output = layout_table::entry::output_of(table, k) as usize;
    let key = layout_table::entry::key_of(table, k);
    // Whether it is blocked: its crosspoint holds a cell of lower output priority. Of one input the keys decide.
    let held = leaders.keys[output][input];
    let blocked = (key < held) & (held != NO_KEY);
    // Its place: before the scheduled cell.
    if position >= scheduled {
        return false;
    }
    // The crosspoints of its output: over every cell there, so over the best.
    let rival = leaders.least[output];
    if key == rival {
        let best = leaders.best[output] as usize;
        let first = layout_table::priority::goes_first(table, key, k, rival, best);
        return blocked & first;
    }
    blocked & (key < rival)
}

// Rule 4 for each input, where some cell is urgent.
fn enter_scheduled(listed: &[u64; PORTS], scheduled: &[u16; PORTS], candidates: &mut [u64; PORTS])
    requires { length candidates.old ≡ port_limit }
    ensures { Entered listed.now scheduled.now candidates.old port_limit
        candidates.new }
{
    for input in 0..PORTS {
        candidates[input] = enter(listed[input], scheduled[input], candidates[input]);
    }
}

// The scheduled cell of an input is matched if it stands first in its list, and otherwise the urgent cells are. None of
// its input is urgent where it stands first.
fn enter(listed: u64, scheduled: u16, urgent: u64) -> u64
    ensures { result ≡ entered listed scheduled urgent }
{
    if scheduled >= NOWHERE {
        return urgent;
    }
    let position = scheduled as usize % CELLS;
    if sets::first(listed) != position {
        return urgent;
    }
    sets::with(0, position)
}
