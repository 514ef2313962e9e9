// The calls of cues: up to four, each under a name, hold the whole switch, clock and memory included, in a cue store that
// the host keeps. No call is lent a tally, so none is wound back. What a call comes to is a number, as C is given it.
ghost use Rattle.std.specs.Prelude.{◌≡◌, MatchResult};
ghost use Rattle.layout.specs.Cues.{store_call, store_buffer, store_check_call, set_call, drop_call, return_call};
ghost use Rattle.layout.specs.Cues.{store_after, table_returned};
ghost use Rattle.layout.specs.Host.{result_of};
ghost use Rattle.fair_table.specs.Results.{number_of_result};
ghost use Rattle.crossbar.specs.CodeHeldPlace.{HeldAt, HeldNowhere};

use cell::Refusal;
use cue_store::check::is_store;
use cue_store::name::number_of;
use cue_store::place::{clear_cue, place_for, place_of, read_cue, write_cue, write_no_cues};
use fair_table::is_fair_table;
use fair_table::results::number_of_result;
use layout::STORE_BYTES;

// Writes a cue store in which no cue is held into the first bytes of the buffer: 0. Refuses with 10 a buffer that is too
// short, and then writes nothing.
pub fn cue_start(store: &mut [u8]) -> u32
    ensures value { result ≡ result_of (store_call store.old) }
    ensures store_after { store.new ≡ store_buffer store.old (store_call store.old) }
{
    if store.len() < STORE_BYTES {
        return Refusal::ShortBuffer.number();
    }
    write_no_cues(store);
    0
}

// Whether the bytes are a cue store: 0, or 2. Nothing is written.
pub fn cue_check(store: &[u8]) -> u32
    ensures { result ≡ store_check_call store.now }
{
    if is_store(store) {
        return 0;
    }
    Refusal::BrokenTable.number()
}

// Sets a cue: it holds the lent switch, under the lent name, and a cue that had this name is replaced: 0. Refuses with 2
// a table or a store that is broken, then with 11 a name that is not 1 to 8 lower-case letters, then with 12 a new name
// where four cues are held. A refusal writes nothing.
pub fn cue_set(table: &[u8], store: &mut [u8], name: &[u8]) -> u32
    ensures value { result ≡ result_of (set_call table.now store.old name.now) }
    ensures store_after { store.new ≡ store_after store.old
        (set_call table.now store.old name.now) }
{
    number_of_result(set(table, store, name))
}

// The same with the refusal as it is.
fn set(table: &[u8], store: &mut [u8], name: &[u8]) -> Result<(), Refusal>
    ensures value { number_of_result result ≡ result_of (set_call table.now store.old name.now) }
    ensures store_after { store.new ≡ store_after store.old
        (set_call table.now store.old name.now) }
{
    if !is_fair_table(table) {
        return Err(Refusal::BrokenTable);
    }
    if !is_store(store) {
        return Err(Refusal::BrokenTable);
    }
    let Some(number) = number_of(name) else {
        return Err(Refusal::BadName);
    };
    let Some(place) = place_for(store, number) else {
        return Err(Refusal::CuesFull);
    };
    write_cue(store, place, number, table);
    Ok(())
}

// Drops a cue, and its place is free: 0. Refuses with 2 a store that is broken, then with 11 a name that is not 1 to 8
// lower-case letters, then with 13 one that is not held. A refusal writes nothing.
pub fn cue_drop(store: &mut [u8], name: &[u8]) -> u32
    ensures value { result ≡ result_of (drop_call store.old name.now) }
    ensures store_after { store.new ≡ store_after store.old
        (drop_call store.old name.now) }
{
    number_of_result(drop(store, name))
}

// The same with the refusal as it is.
fn drop(store: &mut [u8], name: &[u8]) -> Result<(), Refusal>
    ensures value { number_of_result result ≡ result_of (drop_call store.old name.now) }
    ensures store_after { store.new ≡ store_after store.old
        (drop_call store.old name.now) }
{
    let place = held_place(store, name)?;
    clear_cue(store, place);
    Ok(())
}

// Returns to a cue: the lent table becomes that of the switch it holds, clock included, and the cue stays: 0. Refuses
// with 2 a table or a store that is broken, then with 11 a name that is not 1 to 8 lower-case letters, then with 13 one
// that is not held. A refusal writes nothing.
pub fn cue_return(table: &mut [u8], store: &[u8], name: &[u8]) -> u32
    ensures value { result ≡ result_of (return_call table.old store.now name.now) }
    ensures table_after { table.new ≡ table_returned table.old
        (return_call table.old store.now name.now) }
{
    number_of_result(return_to(table, store, name))
}

// The same with the refusal as it is.
fn return_to(table: &mut [u8], store: &[u8], name: &[u8]) -> Result<(), Refusal>
    ensures value { number_of_result result ≡ result_of (return_call table.old store.now name.now) }
    ensures table_after { table.new ≡ table_returned table.old
        (return_call table.old store.now name.now) }
{
    if !is_fair_table(table) {
        return Err(Refusal::BrokenTable);
    }
    let place = held_place(store, name)?;
    read_cue(store, place, table);
    Ok(())
}

// The place of the cue that is held under a name. Refuses with 2 a store that is broken, then with 11 a name that is
// not 1 to 8 lower-case letters, then with 13 one that is not held.
fn held_place(store: &[u8], name: &[u8]) -> Result<usize, Refusal>
    ensures { MatchResult result (HeldAt store.now name.now) (HeldNowhere store.now name.now) }
{
    if !is_store(store) {
        return Err(Refusal::BrokenTable);
    }
    let Some(number) = number_of(name) else {
        return Err(Refusal::BadName);
    };
    let Some(place) = place_of(store, number) else {
        return Err(Refusal::NoSuchCue);
    };
    Ok(place)
}
