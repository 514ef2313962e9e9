// The calls of `crossbar` under the names that C calls, as include/crossbar.h has them. Each promises what the call of
// `crossbar` does.
#![tactic(auto)]

ghost use Rattle.std.specs.Prelude.{◌≡◌};
ghost use Rattle.layout.specs.Cues.{store_call, store_buffer, store_check_call, set_call, drop_call, return_call};
ghost use Rattle.layout.specs.Cues.{store_after, table_returned, convert_cues_call};
ghost use Rattle.layout.specs.Engine.{crossbar, start_call, buffer_after, check_call, slot_call, CallLeaves};
ghost use Rattle.layout.specs.Fair.{fair_number};
ghost use Rattle.layout.specs.Host.{result_of};
ghost use Rattle.layout.specs.Older.{convert_call};
ghost use Rattle.layout.specs.Table.{decode};

#[unsafe(no_mangle)]
pub extern "C" fn start(ports: u32, first: u32, fair: u32, table: &mut [u8]) -> u32
    ensures value { result ≡ result_of (start_call ports first fair table.old) }
    ensures table_after { table.new ≡ buffer_after fair_number table.old
        (start_call ports first fair table.old) }
{
    crossbar::start(ports, first, fair, table)
}

#[unsafe(no_mangle)]
pub extern "C" fn check(table: &[u8]) -> u32
    ensures { result ≡ check_call crossbar table.now }
{
    crossbar::check(table)
}

#[unsafe(no_mangle)]
pub extern "C" fn slot(
    table: &mut [u8],
    arrivals: &[u8],
    answer: &mut [u8],
    tally: &mut [u8],
) -> u64
    ensures { CallLeaves crossbar
        (slot_call crossbar table.old arrivals.now answer.old tally.old)
        table.old arrivals.now answer.old tally.old
        result table.new answer.new tally.new }
{
    crossbar::slot(table, arrivals, answer, tally)
}

#[unsafe(no_mangle)]
pub extern "C" fn convert(old: &[u8], table: &mut [u8]) -> u32
    ensures value { result ≡ result_of (convert_call decode old.now table.old) }
    ensures table_after { table.new ≡ buffer_after fair_number table.old
        (convert_call decode old.now table.old) }
{
    crossbar::convert::convert(old, table)
}

#[unsafe(no_mangle)]
pub extern "C" fn convert_cues(old: &[u8], store: &mut [u8]) -> u32
    ensures value { result ≡ result_of (convert_cues_call old.now store.old) }
    ensures store_after { store.new ≡ store_buffer store.old
        (convert_cues_call old.now store.old) }
{
    crossbar::convert_cues::convert_cues(old, store)
}

#[unsafe(no_mangle)]
pub extern "C" fn cue_start(store: &mut [u8]) -> u32
    ensures value { result ≡ result_of (store_call store.old) }
    ensures store_after { store.new ≡ store_buffer store.old (store_call store.old) }
{
    crossbar::cues::cue_start(store)
}

#[unsafe(no_mangle)]
pub extern "C" fn cue_check(store: &[u8]) -> u32
    ensures { result ≡ store_check_call store.now }
{
    crossbar::cues::cue_check(store)
}

#[unsafe(no_mangle)]
pub extern "C" fn cue_set(table: &[u8], store: &mut [u8], name: &[u8]) -> u32
    ensures value { result ≡ result_of (set_call table.now store.old name.now) }
    ensures store_after { store.new ≡ store_after store.old
        (set_call table.now store.old name.now) }
{
    crossbar::cues::cue_set(table, store, name)
}

#[unsafe(no_mangle)]
pub extern "C" fn cue_drop(store: &mut [u8], name: &[u8]) -> u32
    ensures value { result ≡ result_of (drop_call store.old name.now) }
    ensures store_after { store.new ≡ store_after store.old
        (drop_call store.old name.now) }
{
    crossbar::cues::cue_drop(store, name)
}

#[unsafe(no_mangle)]
pub extern "C" fn cue_return(table: &mut [u8], store: &[u8], name: &[u8]) -> u32
    ensures value { result ≡ result_of (return_call table.old store.now name.now) }
    ensures table_after { table.new ≡ table_returned table.old
        (return_call table.old store.now name.now) }
{
    crossbar::cues::cue_return(table, store, name)
}
