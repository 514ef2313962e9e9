// What bench/ times: proved functions, to which `bench_reader_c` gives names that C can call.
#![tactic(auto)]

ghost use Rattle.std.specs.Prelude.{◌≡◌};
ghost use Rattle.trace.specs.Reader.{read};
ghost use Rattle.bench_reader.specs.Slots.{slots_or};

// What stands for the slots of a text that is refused: more than any text has.
const REFUSED: u64 = 4294967296;

// The number of slots of a text that the grammar accepts, 4,294,967,296 for any other.
// Kept as one number: C gets no other answer from it.
pub fn crossbar_trace_slots(text: &[u8]) -> u64
    ensures { result ≡ slots_or 4294967296 (read text.now) }
{
    match trace_reader::verify(text) {
        Ok(slots) => u64::from(slots),
        Err(_) => REFUSED,
    }
}
