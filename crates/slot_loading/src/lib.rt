// The view of a table, which a slot makes once: the cells of each input by their places, as sets, with the heads of
// its list; then from these the crosspoints with the keys of their cells, and the best cell in each output's buffer.
// What is asked of each place is a loop over its set. The check hands the sets on; for a table that was not checked
// one pass over each input's entries makes them.
#![tactic(auto)]

ghost use Rattle.std.specs.Prelude.{cond, ◌≡◌, ℕ, ◌+◌, ◌*◌, ◌<◌, get_or};
ghost use Rattle.cell.specs.Order.{key as cell_key};
ghost use Rattle.cell.specs.Limits.{section_room, port_limit};
ghost use Rattle.layout.specs.Table.{IsTable};
ghost use Rattle.layout.specs.Entry.{entry_at};
ghost use Rattle.layout.specs.Code.{ports_in};
ghost use Rattle.layout_table.specs.CodeEntries.{better_of};
ghost use Rattle.slot_view.specs.CodeView.{InTable, places_in};
ghost use Rattle.slot_view.specs.CodeViewed.{key_at, listed_set, head_set, crossed_set, buffered_set, Buffered};
ghost use Rattle.slot_view.specs.CodeViewed.{SetsOf, Occupied, Blank};
ghost use Rattle.slot_loading.specs.Code.{Sorted, Crossed, CrossedBelow, BestBelow};

use layout::{CELLS, PORTS};
use slot_view::{NO_KEY, Sets};

// Above every flow word: no Option, so that a flow is compared with the last one by one test.
const NO_FLOW: u16 = u16::MAX;

// The cells of an input by their places, as sets of positions.
#[derive(Clone, Copy)]
struct Places {
    listed: u64,
    crossed: u64,
    buffered: u64,
}

// Sorts the cells of each input by their places.
pub fn fill_sets(table: &[u8]) -> Sets
    requires { IsTable table.now }
    ensures { SetsOf table.now (places_in table.now) result.listed result.heads result.crossed result.buffered }
{
    let mut sets = Sets::EMPTY;
    for input in 0..layout_table::header::ports_of(table) {
        let places = sort(table, input);
        sets.listed[input] = places.listed;
        sets.heads[input] = heads_of(table, input, places.listed);
        sets.crossed[input] = places.crossed;
        sets.buffered[input] = places.buffered;
    }
    sets
}

// The crosspoints with their keys, and the best buffered cell of each output, from the sets. The arrays are lent blank.
pub fn load(
    table: &[u8],
    sets: &Sets,
    cross: &mut [[u16; PORTS]; PORTS],
    keys: &mut [[u64; PORTS]; PORTS],
    best: &mut [u16; PORTS],
)
    requires table { IsTable table.now }
    requires by_index { (input : ℕ) → input < port_limit → get_or sets.now.crossed input 0
        ≡ crossed_set table.now (places_in table.now) input }
    requires by_index_2 { (input : ℕ) → input < port_limit → get_or sets.now.buffered input 0
        ≡ buffered_set table.now (places_in table.now) input }
    requires blank { Blank cross.old keys.old best.old }
    ensures { Occupied table.now cross.new keys.new best.new }
{
    let mut rivals = [NO_KEY; PORTS];
    for input in 0..layout_table::header::ports_of(table) {
        load_crossed(table, input, sets.crossed[input], cross, keys);
        load_buffered(table, input, sets.buffered[input], best, &mut rivals);
    }
}

// One pass over the entries of an input, from the last to the first, so that the digits of their places can be pushed
// into sets: 1 in the list, 2 at the crosspoint, 3 in the buffer.
fn sort(table: &[u8], input: usize) -> Places
    requires table { IsTable table.now }
    requires input_bound { input < ports_in table.now }
    ensures { Sorted table.now (places_in table.now) input result.listed result.crossed
        result.buffered }
{
    let first = CELLS * input;
    let mut low = 0;
    let mut high = 0;
    for k in (first..layout_table::header::end_of(table, input)).rev() {
        let place = layout_table::entry::place_of(table, k);
        low = sets::push(low, place % 2 == 1);
        high = sets::push(high, place / 2 % 2 == 1);
    }
    Places {
        listed: sets::minus(low, high),
        crossed: sets::minus(high, low),
        buffered: sets::both(low, high),
    }
}

// The heads of a list. Its cells of a flow stand together, so a cell is a head if the one before it is of another flow.
// Nothing branches on that, as it would be guessed badly.
fn heads_of(table: &[u8], input: usize, listed: u64) -> u64
    requires table { IsTable table.now }
    requires input_bound { input < ports_in table.now }
    requires listed_value { listed ≡ listed_set table.now (places_in table.now) input }
    ensures { result ≡ head_set table.now (places_in table.now) input }
{
    let mut heads = 0;
    let mut last = NO_FLOW;
    let mut left = listed;
    // A while: it goes down a set and counts no index.
    while left != 0 {
        let j = sets::first(left);
        let flow = layout_table::entry::flow_word_of(table, CELLS * input + j);
        heads = sets::with_if(heads, j, flow != last);
        last = flow;
        left = sets::rest(left);
    }
    heads
}

// The crossed cells of an input.
fn load_crossed(
    table: &[u8],
    input: usize,
    crossed: u64,
    cross: &mut [[u16; PORTS]; PORTS],
    keys: &mut [[u64; PORTS]; PORTS],
)
    requires table { IsTable table.now }
    requires input_bound { input < ports_in table.now }
    requires crossed_value { crossed ≡ crossed_set table.now (places_in table.now) input }
    requires crossed_below { CrossedBelow table.now (places_in table.now) (section_room * input) cross.old keys.old }
    ensures { CrossedBelow table.now (places_in table.now) (section_room * (input + 1))
        cross.new keys.new }
{
    let mut left = crossed;
    // A while: it goes down a set and counts no index.
    while left != 0 {
        cross_cell(table, CELLS * input + sets::first(left), cross, keys);
        left = sets::rest(left);
    }
}

// One of them: its number goes to its crosspoint, and its key to its output's.
fn cross_cell(
    table: &[u8],
    k: usize,
    cross: &mut [[u16; PORTS]; PORTS],
    keys: &mut [[u64; PORTS]; PORTS],
)
    requires table { IsTable table.now }
    requires crossed { Crossed table.now (places_in table.now) k }
    requires crossed_below { CrossedBelow table.now (places_in table.now) k cross.old keys.old }
    ensures { CrossedBelow table.now (places_in table.now) (k + 1) cross.new
        keys.new }
{
    let input = k / CELLS;
    let output = layout_table::entry::output_of(table, k) as usize;
    cross[input][output] = k as u16;
    keys[output][input] = layout_table::entry::key_of(table, k);
}

// The buffered cells of an input.
fn load_buffered(
    table: &[u8],
    input: usize,
    buffered: u64,
    best: &mut [u16; PORTS],
    rivals: &mut [u64; PORTS],
)
    requires table { IsTable table.now }
    requires input_bound { input < ports_in table.now }
    requires buffered_value { buffered ≡ buffered_set table.now (places_in table.now) input }
    requires best_below { BestBelow table.now (places_in table.now) (section_room * input) best.old rivals.old }
    ensures { BestBelow table.now (places_in table.now) (section_room * (input + 1))
        best.new rivals.new }
{
    let mut left = buffered;
    // A while: it goes down a set and counts no index.
    while left != 0 {
        choose_cell(table, CELLS * input + sets::first(left), best, rivals);
        left = sets::rest(left);
    }
}

// One buffered cell: it is the best of its output, unless the one so far is better. Nothing branches on that, as it
// would be guessed badly.
pub fn choose_cell(table: &[u8], k: usize, best: &mut [u16; PORTS], rivals: &mut [u64; PORTS])
    requires table { IsTable table.now }
    requires buffered { Buffered table.now (places_in table.now) (entry_at table.now k).cell.output k }
    requires best_below { BestBelow table.now (places_in table.now) k best.old rivals.old }
    ensures { BestBelow table.now (places_in table.now) (k + 1) best.new
        rivals.new }
{
    let output = layout_table::entry::output_of(table, k) as usize;
    let key = layout_table::entry::key_of(table, k);
    let held = best[output];
    let rival = rivals[output];
    let first = is_better(table, k, key, held, rival);
    best[output] = if first { k as u16 } else { held };
    rivals[output] = if first { key } else { rival };
}

// Whether an output sends a cell before the one that it would send so far, by their keys. That one may be none: no
// cell's key is equal to its key.
fn is_better(table: &[u8], k: usize, key: u64, held: u16, rival: u64) -> bool
    requires table { IsTable table.now }
    requires in_table { InTable table.now k }
    requires key_value { (key ≡ cell_key (entry_at table.now k).cell) × (rival ≡ key_at table.now held) }
    ensures { better_of table.now held k ≡ cond result k held }
{
    if key != rival {
        return key < rival;
    }
    layout_table::priority::goes_first(table, key, k, rival, held as usize)
}
