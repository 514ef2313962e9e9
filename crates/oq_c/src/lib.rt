// The calls of `oq` under the names that C calls, as include/oq.h has them. Each promises what the call of `oq` does.
#![tactic(auto)]

ghost use Rattle.std.specs.Prelude.{◌≡◌};
ghost use Rattle.layout.specs.Engine.{oq, start_call, buffer_after, check_call, slot_call, CallLeaves};
ghost use Rattle.layout.specs.Fair.{fair_number_oq};
ghost use Rattle.layout.specs.Host.{result_of};
ghost use Rattle.layout.specs.Older.{convert_call};
ghost use Rattle.layout.specs.Oq.{decode_oq};

#[unsafe(no_mangle)]
pub extern "C" fn oq_start(ports: u32, first: u32, fair: u32, table: &mut [u8]) -> u32
    ensures value { result ≡ result_of (start_call ports first fair table.old) }
    ensures table_after { table.new ≡ buffer_after fair_number_oq table.old
        (start_call ports first fair table.old) }
{
    oq::oq_start(ports, first, fair, table)
}

#[unsafe(no_mangle)]
pub extern "C" fn oq_check(table: &[u8]) -> u32
    ensures { result ≡ check_call oq table.now }
{
    oq::oq_check(table)
}

#[unsafe(no_mangle)]
pub extern "C" fn oq_slot(
    table: &mut [u8],
    arrivals: &[u8],
    answer: &mut [u8],
    tally: &mut [u8],
) -> u64
    ensures { CallLeaves oq
        (slot_call oq table.old arrivals.now answer.old tally.old)
        table.old arrivals.now answer.old tally.old
        result table.new answer.new tally.new }
{
    oq::oq_slot(table, arrivals, answer, tally)
}

#[unsafe(no_mangle)]
pub extern "C" fn oq_convert(old: &[u8], table: &mut [u8]) -> u32
    ensures value { result ≡ result_of (convert_call decode_oq old.now table.old) }
    ensures table_after { table.new ≡ buffer_after fair_number_oq table.old
        (convert_call decode_oq old.now table.old) }
{
    oq::convert::oq_convert(old, table)
}
