// Whether bytes are a table: those of one sound state (scope 5.1). The header first, then input by
// input the count, the unused records, the entries in one pass, and what is asked of the entries together. The
// questions on a section's records are those of `slot_section`; the slots that may be the same are compared here. The
// sets of positions that the check makes of the sections are handed on.
#![tactic(auto)]

ghost use Rattle.std.specs.Prelude.{not, ◌||◌, is_some, ◌≡◌, ◌+◌, ◌-◌, ◌*◌, ◌/◌, ◌%◌, ◌<◌, ◌≤◌, length, IfSome};
ghost use Rattle.laws.specs.Lists.{some?, all?, pairwise, between};
ghost use Rattle.cell.specs.Limits.{port_limit, section_room};
ghost use Rattle.model.specs.Sound.{other_slot};
ghost use Rattle.layout.specs.Entry.{entry_at, count_in};
ghost use Rattle.layout.specs.Table.{table_size, is_table, entry_limit};
ghost use Rattle.layout.specs.Code.{entries_between};
ghost use Rattle.slot_section.specs.Code.{entries_in, MarksBelow};
ghost use Rattle.slot_check.specs.Code.{is_section, room_of, are_sound, same_slot, Sorts};
ghost use Rattle.slot_check.specs.Handed.{Handed};

use cell::Switch;
use layout::{CELLS, PORTS, TABLE_BYTES, word};
use layout_table::{entry, header};

// The cells of each input by their places, as sets of positions, and the heads of its list.
#[derive(Clone, Copy)]
pub struct Sets {
    pub listed: [u64; PORTS],
    pub heads: [u64; PORTS],
    pub crossed: [u64; PORTS],
    pub buffered: [u64; PORTS],
}

impl Sets {
    // No cell at any place.
    pub const EMPTY: Sets = Sets {
        listed: [0; PORTS],
        heads: [0; PORTS],
        crossed: [0; PORTS],
        buffered: [0; PORTS],
    };
}

// The same of one input.
#[derive(Clone, Copy)]
struct Sorted {
    listed: u64,
    heads: u64,
    crossed: u64,
    buffered: u64,
}

// Whether the bytes are a table.
pub fn is_table(bytes: &[u8]) -> bool
    ensures { result ≡ is_table bytes.now }
{
    sort_table(bytes).is_some()
}

// The cells of a table by their places; `None` if the bytes are no table.
pub fn sort_table(bytes: &[u8]) -> Option<Sets>
    ensures value { is_some result ≡ is_table bytes.now }
    ensures handed { IfSome result (λ s. Handed bytes.now s.listed s.heads s.crossed s.buffered) }
{
    if bytes.len() != TABLE_BYTES {
        return None;
    }
    if word::read_u32(bytes, header::LAYOUT_AT) != header::LAYOUT {
        return None;
    }
    let ports = word::read_u32(bytes, header::PORTS_AT);
    if !Switch::ports_in_range(ports) {
        return None;
    }
    if word::read_u32(bytes, header::ZEROS_AT) != 0 {
        return None;
    }
    sort_sections(bytes, ports, header::clock_of(bytes))
}

// The sets of the sixteen sections; `None` unless each is one of a table. The marks serve all of them: each pass over a
// section has a greater mark of its own, so they are cleared once.
fn sort_sections(bytes: &[u8], ports: u32, clock: u32) -> Option<Sets>
    requires { (length bytes.now ≡ table_size) × (ports ≤ port_limit) }
    ensures value { is_some result ≡ all? (is_section ports clock bytes.now) (between 0 port_limit) }
    ensures handed { IfSome result (λ s. Handed bytes.now s.listed s.heads s.crossed s.buffered) }
{
    let mut sets = Sets::EMPTY;
    let mut marks = [0u8; 256];
    for input in 0..PORTS {
        let section = sort_section(bytes, ports, clock, input, &mut marks)?;
        sets.listed[input] = section.listed;
        sets.heads[input] = section.heads;
        sets.crossed[input] = section.crossed;
        sets.buffered[input] = section.buffered;
    }
    Some(sets)
}

// The sets of an input's section; `None` unless it is one of a table. An input that the switch does not have has no
// entries.
fn sort_section(
    bytes: &[u8],
    ports: u32,
    clock: u32,
    input: usize,
    marks: &mut [u8; 256],
) -> Option<Sorted>
    requires bytes_len { (length bytes.now ≡ table_size) × (ports ≤ port_limit) × (input < port_limit) }
    requires marks_below { MarksBelow (2 * input + 1) marks.old }
    ensures sound_value { is_some result ≡ is_section ports clock bytes.now input }
    ensures sorts { IfSome result (λ s. Sorts bytes.now input (count_in bytes.now input) s.listed s.heads s.crossed s.buffered) }
    ensures marks_below_2 { MarksBelow (2 * input + 3) marks.new }
{
    let count = header::count_of(bytes, input);
    if room(ports, input) < count {
        return None;
    }
    let first = CELLS * input;
    let end = first + count;
    if !slot_section::are_unused(bytes, end, first + CELLS) {
        return None;
    }
    sort_entries(
        bytes,
        ports,
        clock,
        first,
        end,
        (2 * input + 1) as u8,
        marks,
    )
}

// How many entries an input may have.
fn room(ports: u32, input: usize) -> usize
    ensures { result ≡ room_of ports input }
{
    if input < ports as usize { CELLS } else { 0 }
}

// The sets of the records of a section from the first up to an end; `None` unless they are sound entries, one by one
// and together.
fn sort_entries(
    bytes: &[u8],
    ports: u32,
    clock: u32,
    first: usize,
    end: usize,
    mark: u8,
    marks: &mut [u8; 256],
) -> Option<Sorted>
    requires bytes_len { (length bytes.now ≡ table_size) × (ports ≤ port_limit) × (mark < 255) × MarksBelow mark marks.old }
    requires section_room_bound { (first + section_room ≤ entry_limit) × (first % section_room ≡ 0) }
    requires first_le_end { (first ≤ end) × (end ≤ first + section_room) }
    ensures sound_value { is_some result ≡ are_sound ports clock bytes.now first end }
    ensures sorts { IfSome result (λ s. Sorts bytes.now (first / section_room) (end - first) s.listed s.heads s.crossed s.buffered) }
    ensures marks_below { MarksBelow (mark + 2) marks.new }
{
    let places = slot_section::collect(bytes, ports, clock, first, end, mark, marks)?;
    if !slots_differ(bytes, places.again, first, end) {
        return None;
    }
    let crossed = sets::minus(places.high, places.low);
    if !slot_section::crosspoints_differ(bytes, first, crossed) {
        return None;
    }
    let listed = sets::minus(places.low, places.high);
    let flows = slot_section::flows_together(bytes, first, listed, mark + 1, marks);
    if !flows.together {
        return None;
    }
    Some(Sorted {
        listed,
        heads: flows.heads,
        crossed,
        buffered: sets::both(places.low, places.high),
    })
}

// Whether no two entries have one slot; asked only if two may. Entries are compared whose slots have one low byte,
// and no others: `met` has the positions of those passed, byte by byte.
fn slots_differ(bytes: &[u8], may: bool, first: usize, end: usize) -> bool
    requires bytes_len { (length bytes.now ≡ table_size) × (first + section_room ≤ entry_limit) }
    requires first_le_end { (first ≤ end) × (end ≤ first + section_room) }
    ensures { result ≡ (not may || pairwise other_slot (entries_between bytes.now first end)) }
{
    if !may {
        return true;
    }
    let mut met = [0u64; 256];
    for k in first..end {
        let byte = entry::slot_byte_of(bytes, k) as usize;
        let others = met[byte];
        if shares_slot(bytes, k, first, others) {
            return false;
        }
        met[byte] = sets::with(others, k - first);
    }
    true
}

// Whether an entry has the slot of one at these positions.
fn shares_slot(bytes: &[u8], k: usize, first: usize, others: u64) -> bool
    requires { (length bytes.now ≡ table_size) × (k < entry_limit) × (first + section_room ≤ entry_limit) }
    ensures { result
        ≡ some? (same_slot (entry_at bytes.now k)) (entries_in bytes.now first others) }
{
    let slot = entry::slot_of(bytes, k);
    let mut left = others;
    // A while: it goes down a set and counts no index.
    while left != 0 {
        if entry::slot_of(bytes, first + sets::first(left)) == slot {
            return true;
        }
        left = sets::rest(left);
    }
    false
}
