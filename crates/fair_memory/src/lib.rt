// The memory of a switch in its bytes: the marks of its fair outputs, the rank that last left each output, and the last
// rank given to each flow, each a number of 32 bits. A caller shows that the bytes are there.
#![tactic(auto)]

ghost use Rattle.std.specs.Prelude.{◌≡◌, ◌<◌, length, get_or};
ghost use Rattle.cell.specs.Limits.{port_limit};
ghost use Rattle.model.specs.Fair.{is_fair, no_memory, flow_count};
ghost use Rattle.layout.specs.Memory.{memory_size, memory_bytes, memory_of};
ghost use Rattle.fair_memory.specs.Code.{with_left, with_given};

use layout::{GIVEN_AT, LEFT_AT, MEMORY_BYTES, WORD_BYTES, run, word};

// The marks: output o is fair if bit o is 1.
pub fn marks_of(memory: &[u8]) -> u32
    requires { length memory.now ≡ memory_size }
    ensures { result ≡ (memory_of memory.now).fair }
{
    word::read_u32(memory, 0)
}

// Whether an output is marked. An output that has no bit is not.
pub fn is_marked(memory: &[u8], output: u32) -> bool
    requires { length memory.now ≡ memory_size }
    ensures { result ≡ is_fair (memory_of memory.now) output }
{
    let marks = marks_of(memory);
    if output < 32 {
        return (marks >> output) % 2 == 1;
    }
    false
}

// The rank of the last cell that left an output.
pub fn left_of(memory: &[u8], output: usize) -> u32
    requires { (length memory.now ≡ memory_size) × (output < port_limit) }
    ensures { result ≡ get_or (memory_of memory.now).left output 0 }
{
    word::read_u32(memory, LEFT_AT + WORD_BYTES * output)
}

// The last rank given to a flow.
pub fn given_of(memory: &[u8], index: usize) -> u32
    requires { (length memory.now ≡ memory_size) × (index < flow_count) }
    ensures { result ≡ get_or (memory_of memory.now).given index 0 }
{
    word::read_u32(memory, GIVEN_AT + WORD_BYTES * index)
}

// Puts the rank of the last cell that left an output.
pub fn write_left(memory: &mut [u8], output: usize, rank: u32)
    requires { (length memory.old ≡ memory_size) × (output < port_limit) }
    ensures { memory_of memory.new
        ≡ with_left (memory_of memory.old) output rank }
{
    word::write_u32(memory, LEFT_AT + WORD_BYTES * output, rank);
}

// Puts the last rank given to a flow.
pub fn write_given(memory: &mut [u8], index: usize, rank: u32)
    requires { (length memory.old ≡ memory_size) × (index < flow_count) }
    ensures { memory_of memory.new
        ≡ with_given (memory_of memory.old) index rank }
{
    word::write_u32(memory, GIVEN_AT + WORD_BYTES * index, rank);
}

// Puts a memory with no rank.
pub fn write_no_memory(memory: &mut [u8], marks: u32)
    requires { length memory.old ≡ memory_size }
    ensures { memory.new ≡ memory_bytes (no_memory marks) }
{
    word::write_u32(memory, 0, marks);
    run::clear(memory, LEFT_AT, MEMORY_BYTES - LEFT_AT);
}
