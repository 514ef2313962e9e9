// Fair ranks, on the bytes of a memory: the rank that a record gets, and what an accepted slot leaves in the memory.
#![tactic(auto)]

ghost use Rattle.std.specs.Prelude.{true, false, List, map, ◌≡◌, ◌≤◌, ◌<◌, length, get_or};
ghost use Rattle.laws.specs.Lists.{all?};
ghost use Rattle.cell.specs.Limits.{port_limit};
ghost use Rattle.cell.specs.declared.Arrival.{Arrival};
ghost use Rattle.model.specs.CodeFair.{rankable};
ghost use Rattle.model.specs.Fair.{flow_index, made_rank, make, bad_weight, rank_end, remembered};
ghost use Rattle.layout.specs.Answer.{departure_size, departures_size, departure_in, departures_in};
ghost use Rattle.layout.specs.Memory.{memory_size, memory_of};
ghost use Rattle.fair_ranks.specs.Code.{last_rank, with_record, with_records, with_departure, with_departures};

use cell::{Arrival, Switch};
use layout::{DEPARTURE_BYTES, FLOWS, PORTS};

// A weight is 1 to 1,024.
const WEIGHTS: u32 = 1024;

// The largest rank.
const RANK_TOP: u64 = u32::MAX as u64;

// The flows of an output of an input, and those of an input.
const OUTPUT_FLOWS: usize = Switch::FLOWS as usize;

const INPUT_FLOWS: usize = PORTS * OUTPUT_FLOWS;

// Refusal 14: whether a record for a fair output has a weight that is not 1 to 1,024.
#[tactic(auto, unfolding(model::specs::Fair::bad_weight, model::specs::Fair::weight_in_range))]
pub fn bad_weight(memory: &[u8], a: Arrival) -> bool
    requires { length memory.now ≡ memory_size }
    ensures { result ≡ bad_weight (memory_of memory.now) a }
{
    fair_memory::is_marked(memory, a.output) && !matches!(a.rank, 1..=WEIGHTS)
}

// Refusal 15: whether the rank of a record for a fair output would be past the largest. Its weight is not bad.
pub fn rank_end(memory: &[u8], a: Arrival) -> bool
    requires { length memory.now ≡ memory_size }
    ensures { bad_weight (memory_of memory.now) a ≡ false
        → result ≡ rank_end (memory_of memory.now) a }
{
    RANK_TOP < made_rank(memory, a)
}

// The rank of a record's cell. At a fair output a stride is put on the last rank; elsewhere the record has it.
pub fn made_rank(memory: &[u8], a: Arrival) -> u64
    requires { length memory.now ≡ memory_size }
    ensures { bad_weight (memory_of memory.now) a ≡ false
        → result ≡ made_rank (memory_of memory.now) a }
{
    if fair_memory::is_marked(memory, a.output) {
        u64::from(last_rank(memory, a)) + u64::from(fair_strides::stride(a.rank))
    } else {
        u64::from(a.rank)
    }
}

// The larger of the last rank given to a record's flow and the rank of the last cell that left its output.
#[tactic(auto, unfolding(crate::specs::Code::last_rank))]
fn last_rank(memory: &[u8], a: Arrival) -> u32
    requires { length memory.now ≡ memory_size }
    ensures { result ≡ last_rank (memory_of memory.now) a }
{
    let given = last_given(memory, a);
    let left = last_left(memory, a.output as usize);
    given.max(left)
}

// The last rank given to a record's flow: 0 for one that no switch has.
fn last_given(memory: &[u8], a: Arrival) -> u32
    requires { length memory.now ≡ memory_size }
    ensures { result ≡ get_or (memory_of memory.now).given (flow_index a) 0 }
{
    let index = flow_index(a);
    if index < FLOWS {
        fair_memory::given_of(memory, index)
    } else {
        0
    }
}

// The rank of the last cell that left an output: 0 for one that no switch has.
fn last_left(memory: &[u8], output: usize) -> u32
    requires { length memory.now ≡ memory_size }
    ensures { result ≡ get_or (memory_of memory.now).left output 0 }
{
    if output < PORTS {
        fair_memory::left_of(memory, output)
    } else {
        0
    }
}

// Where the rank given to a record's flow stands.
#[tactic(auto, unfolding(model::specs::Fair::flow_index))]
fn flow_index(a: Arrival) -> usize
    ensures { result ≡ flow_index a }
{
    INPUT_FLOWS * (a.input as usize) + (OUTPUT_FLOWS * (a.output as usize) + a.flow as usize)
}

// A record with its rank, where one can be made: then nothing of it is lost in 32 bits.
pub fn make(memory: &[u8], a: Arrival) -> Arrival
    requires { length memory.now ≡ memory_size }
    ensures { rankable (memory_of memory.now) a ≡ true
        → result ≡ make (memory_of memory.now) a }
{
    Arrival {
        rank: (made_rank(memory, a) % (RANK_TOP + 1)) as u32,
        ..a
    }
}

// Gives each record its rank.
pub fn make_ranks(memory: &[u8], records: &mut [Arrival])
    requires memory_len { length memory.now ≡ memory_size }
    requires all_rankable { all? (rankable (memory_of memory.now)) records.old ≡ true }
    ensures { records.new ≡ map (make (memory_of memory.now)) records.old }
{
    for a in records.iter_mut() {
        *a = make(memory, *a);
    }
}

// What an accepted slot leaves in the memory, by its records with their ranks and by its answer.
pub fn remember(memory: &mut [u8], made: &[Arrival], answer: &[u8])
    requires { (length memory.old ≡ memory_size) × (departures_size ≤ length answer.now) }
    ensures { (records : List Arrival)
        → made.now ≡ map (make (memory_of memory.old)) records
        → memory_of memory.new
        ≡ remembered (memory_of memory.old) records (departures_in port_limit answer.now) }
{
    remember_records(memory, made);
    remember_departures(memory, answer);
}

// The ranks of the records, each the last one given to its flow.
fn remember_records(memory: &mut [u8], made: &[Arrival])
    requires { length memory.old ≡ memory_size }
    ensures { memory_of memory.new ≡ with_records (memory_of memory.old) made.now }
{
    for a in made {
        remember_record(memory, *a);
    }
}

// The rank of a record. Only a fair output remembers.
fn remember_record(memory: &mut [u8], a: Arrival)
    requires { length memory.old ≡ memory_size }
    ensures { memory_of memory.new ≡ with_record (memory_of memory.old) a }
{
    let index = flow_index(a);
    if fair_memory::is_marked(memory, a.output) && index < FLOWS {
        fair_memory::write_given(memory, index, a.rank);
    }
}

// The ranks of the cells that left the sixteen outputs.
fn remember_departures(memory: &mut [u8], answer: &[u8])
    requires { (length memory.old ≡ memory_size) × (departures_size ≤ length answer.now) }
    ensures { memory_of memory.new
        ≡ with_departures (memory_of memory.old) (departures_in port_limit answer.now) }
{
    for output in 0..PORTS {
        let start = DEPARTURE_BYTES * output;
        let end = start + DEPARTURE_BYTES;
        remember_departure(memory, output, &answer[start..end]);
    }
}

// The rank of the cell that left an output, if one did. Only a fair output remembers.
fn remember_departure(memory: &mut [u8], output: usize, sent: &[u8])
    requires { (length memory.old ≡ memory_size) × (output < port_limit)
        × (length sent.now ≡ departure_size) }
    ensures { memory_of memory.new
        ≡ with_departure (memory_of memory.old) output (departure_in sent.now) }
{
    let Some(c) = layout_answer::departure_in(sent) else {
        return;
    };
    if fair_memory::is_marked(memory, output as u32) {
        fair_memory::write_left(memory, output, c.rank);
    }
}
