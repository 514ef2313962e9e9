// What bench/ times, under the name that C calls.
#![tactic(auto)]

ghost use Rattle.std.specs.Prelude.{◌≡◌};
ghost use Rattle.trace.specs.Reader.{read};
ghost use Rattle.bench_reader.specs.Slots.{slots_or};

#[unsafe(no_mangle)]
pub extern "C" fn crossbar_trace_slots(text: &[u8]) -> u64
    ensures { result ≡ slots_or 4294967296 (read text.now) }
{
    bench_reader::crossbar_trace_slots(text)
}
