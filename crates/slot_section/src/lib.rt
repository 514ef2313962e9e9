// What is asked of the records of one input's section (scope 5.1), one function for each question: whether the unused
// records are zero, whether the others are entries, whether no two crossed ones go to one output, and whether the
// listed ones of each flow stand together. What a pass learns on its way, the places and the heads, is handed on.
#![tactic(auto)]

ghost use Rattle.std.specs.Prelude.{true, is_some, ◌≡◌, ℕ, ◌+◌, ◌%◌, ◌≤◌, eqb, length, IfSome};
ghost use Rattle.laws.specs.Lists.{all?, pairwise, between};
ghost use Rattle.cell.specs.Limits.{port_limit, section_room};
ghost use Rattle.model.specs.Sound.{together};
ghost use Rattle.layout.specs.Entry.{entry_at};
ghost use Rattle.layout.specs.Table.{table_size, entry_limit};
ghost use Rattle.layout.specs.Code.{HasEntry};
ghost use Rattle.slot_section.specs.Code.{is_entry, is_unused, in_range, in_reach, Collected, MarksBelow};
ghost use Rattle.slot_section.specs.Code.{entries_in, other_output, breaks_flow, heads_in};

use layout::word;
use layout_table::entry;

// What one pass over the entries of a section finds: whether two may have one slot, and the low and the high digits of
// their places, as sets of positions. `again` is no Option round the sets, which hold either way.
#[derive(Clone, Copy)]
pub struct Places {
    pub again: bool,
    pub low: u64,
    pub high: u64,
}

// Whether the cells of each flow stand together, and which of them are the first of their flow.
// No Option round the heads: what they are is promised where the flows are not together too (heads_value).
#[derive(Clone, Copy)]
pub struct Flows {
    pub together: bool,
    pub heads: u64,
}

// So many unused records are gathered together: their number is known, and the processor's wide registers serve.
const BLOCK: usize = 8;

// The number of no flow: no Option, so that a flow is compared with the last one by one test.
const NO_FLOW: usize = 128;

// The bits of a record's first four bytes that no entry has: those of an output above 15, a flow above 7 and a place
// above 3, and all of the fourth byte.
const SPARE_BITS: u32 = 0xfffc_f8f0;

// Whether each of these records is zero, of which there are at most those of a section. The bits of whole blocks are
// gathered, the last block's first, so that the block before it may reach into it; nothing else is looked at twice.
pub fn are_unused(bytes: &[u8], from: usize, to: usize) -> bool
    requires { (length bytes.now ≡ table_size) × (from ≤ to) × (to ≤ entry_limit) }
    ensures { result ≡ all? (is_unused bytes.now) (between from to) }
{
    if to < from + BLOCK {
        return bits_of(bytes, from, to) == 0;
    }
    let mut bits = bits_of(bytes, to - BLOCK, to);
    for k in (from..to - BLOCK).step_by(BLOCK) {
        bits |= bits_of(bytes, k, k + BLOCK);
    }
    bits == 0
}

// The bits of these records.
fn bits_of(bytes: &[u8], from: usize, to: usize) -> u64
    requires { (length bytes.now ≡ table_size) × (from ≤ to) × (to ≤ entry_limit) }
    ensures { eqb result 0 ≡ all? (is_unused bytes.now) (between from to) }
{
    let mut bits = 0;
    for k in from..to {
        bits |= record_bits(bytes, k);
    }
    bits
}

// The bits of a record.
fn record_bits(bytes: &[u8], k: usize) -> u64
    requires { HasEntry bytes.now k }
    ensures { eqb result 0 ≡ is_unused bytes.now k }
{
    word::read_u64(bytes, entry::start_of(k)) | word::read_u64(bytes, entry::start_of(k) + 8)
}

// One pass over the entries of a section, from the last to the first, so that the digits of their places can be pushed
// into sets. The low bytes of their slots are marked: where one is met again, two entries may have one slot. The first
// words are gathered, and asked for spare bits once, as the places are: a test that no sound table fails need not cost
// instructions at each cell. Without spare bits a place is at most 3, and in one of the sets it is not 0. `None` if a
// record is no entry.
pub fn collect(
    bytes: &[u8],
    ports: u32,
    clock: u32,
    from: usize,
    to: usize,
    mark: u8,
    marks: &mut [u8; 256],
) -> Option<Places>
    requires bytes_len { (length bytes.now ≡ table_size) × (from ≤ to) × (to ≤ entry_limit) × (to ≤ from + section_room) }
    requires ports_le_port_limit { (ports ≤ port_limit) × MarksBelow mark marks.old }
    ensures entries { is_some result ≡ all? (is_entry ports clock bytes.now) (between from to) }
    ensures collected { IfSome result (λ p. Collected bytes.now from to p.again p.low p.high) }
    ensures marks_below { MarksBelow (mark + 1) marks.new }
{
    let mut again = false;
    let mut bits = 0;
    let mut low = 0;
    let mut high = 0;
    for k in (from..to).rev() {
        if !in_reach(bytes, ports, clock, k) {
            return None;
        }
        bits |= word::read_u32(bytes, entry::start_of(k));
        let byte = entry::slot_byte_of(bytes, k) as usize;
        again |= marks[byte] == mark;
        marks[byte] = mark;
        let place = entry::place_of(bytes, k);
        low = sets::push(low, place % 2 == 1);
        high = sets::push(high, place / 2 % 2 == 1);
    }
    let plain = bits & SPARE_BITS == 0;
    let placed = sets::size(sets::either(low, high)) == to - from;
    if !(plain & placed) {
        return None;
    }
    Some(Places { again, low, high })
}

// Whether the output of a record is one of the switch's, and its slot before the clock.
fn in_reach(bytes: &[u8], ports: u32, clock: u32, k: usize) -> bool
    requires { HasEntry bytes.now k }
    ensures { result ≡ in_reach ports clock (entry_at bytes.now k) }
{
    if ports <= entry::output_of(bytes, k) as u32 {
        return false;
    }
    entry::slot_of(bytes, k) < clock
}

// Whether no two of the entries at these positions go to one output. The outputs passed are a set; nothing branches on
// them, as that would be guessed badly.
pub fn crosspoints_differ(bytes: &[u8], first: usize, crossed: u64) -> bool
    requires bytes_len { (length bytes.now ≡ table_size) × (first + section_room ≤ entry_limit) }
    requires crossed_value { all? in_range (entries_in bytes.now first crossed) ≡ true }
    ensures { result ≡ pairwise other_output (entries_in bytes.now first crossed) }
{
    let mut twice = false;
    let mut outputs = 0;
    let mut left = crossed;
    while left != 0 {
        let output = entry::output_of(bytes, first + sets::first(left)) as usize;
        twice |= sets::has(outputs, output);
        outputs = sets::with(outputs, output);
        left = sets::rest(left);
    }
    !twice
}

// Whether of the entries at these positions the cells of each flow stand together in output priority, and which are the
// first of their flow. They are of one input, so none ties with another, whatever the number of ports. `last` is the flow
// of the entry before; the flows passed are marked. Nothing branches on them, as that would be guessed badly.
pub fn flows_together(
    bytes: &[u8],
    first: usize,
    listed: u64,
    mark: u8,
    marks: &mut [u8; 256],
) -> Flows
    requires bytes_len { (length bytes.now ≡ table_size) × (first + section_room ≤ entry_limit) × (first % section_room ≡ 0) }
    requires listed_value { all? in_range (entries_in bytes.now first listed) ≡ true }
    requires marks_below { MarksBelow mark marks.old }
    ensures by_index { (ports : ℕ) → result.together ≡ together ports (entries_in bytes.now first listed) }
    ensures heads_value { result.heads ≡ heads_in bytes.now first listed }
    ensures marks_below_2 { MarksBelow (mark + 1) marks.new }
{
    let mut broken = false;
    let mut heads = 0;
    let mut last = NO_FLOW;
    let mut last_key = 0;
    let mut left = listed;
    while left != 0 {
        let position = sets::first(left);
        let k = first + position;
        let flow = entry::flow_number(bytes, k);
        let key = entry::key_of(bytes, k);
        let met = marks[flow] == mark;
        broken |= breaks_flow(flow == last, key <= last_key, met);
        heads = sets::with_if(heads, position, !met);
        marks[flow] = mark;
        last = flow;
        last_key = key;
        left = sets::rest(left);
    }
    Flows {
        together: !broken,
        heads,
    }
}

// Whether an entry breaks its flow: the one before it is of its flow and does not go first, or is of another flow and
// its own was met before.
fn breaks_flow(same: bool, early: bool, met: bool) -> bool
    ensures { result ≡ breaks_flow same early met }
{
    same & early | !same & met
}
