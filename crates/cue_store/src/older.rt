// An older cue store in the new layout: each place has its name, and behind it its table with a memory in which no output
// is fair and no rank is remembered.
ghost use Rattle.std.specs.Prelude.{◌≡◌, ◌<◌, length};
ghost use Rattle.model.specs.Cues.{cue_limit};
ghost use Rattle.layout.specs.Code.{put};
ghost use Rattle.layout.specs.Cues.{store_size, place_size, old_store_size};
ghost use Rattle.cue_store.specs.Code.{place_start};
ghost use Rattle.cue_store.specs.CodeOlder.{old_place_start, old_place_at, number_for, new_place, new_store};
ghost use Rattle.cue_store.specs.CodeOlder.{is_old_store, Converted};

use crate::check::is_store;
use crate::place::start_of;
use layout::{
    CORE_AT, CUES, FAIR_NUMBER, MEMORY_AT, MEMORY_BYTES, NAME_BYTES, OLD_PLACE_BYTES,
    OLD_STORE_BYTES, STORE_HEADER_BYTES, TABLE_BYTES, run, word,
};
use layout_table::header;

// Whether the bytes are an older store; if they are, its cues are then written in the lent one. It is one exactly if what
// is written is a store.
pub fn read_older(old: &[u8], store: &mut [u8]) -> bool
    requires { length store.old ≡ store_size }
    ensures value { result ≡ is_old_store old.now }
    ensures converted { Converted old.now store.new }
{
    if old.len() != OLD_STORE_BYTES {
        return false;
    }
    if word::read_u32(old, 0) != header::LAYOUT {
        return false;
    }
    write_new(old, store);
    is_store(store)
}

// Writes the places of an older store in the new layout, whatever they are.
fn write_new(old: &[u8], store: &mut [u8])
    requires { (length old.now ≡ old_store_size) × (length store.old ≡ store_size) }
    ensures { store.new ≡ new_store old.now }
{
    word::write_u32(store, 0, FAIR_NUMBER);
    run::copy(old, 4, store, 4, 12);
    for k in 0..CUES {
        write_place(old, k, store);
    }
}

// Writes one of them.
fn write_place(old: &[u8], k: usize, store: &mut [u8])
    requires { (length old.now ≡ old_store_size) × (length store.old ≡ store_size) × (k < cue_limit) }
    ensures { store.new
        ≡ put (place_start k) place_size (new_place (old_place_at old.now k)) store.old }
{
    let from = old_start_of(k);
    let at = start_of(k);
    let table = at + NAME_BYTES;
    let number = number_for(word::read_u64(old, from));
    run::copy(old, from, store, at, NAME_BYTES);
    word::write_u32(store, table, number);
    run::copy(old, from + NAME_BYTES, store, table + CORE_AT, TABLE_BYTES);
    run::clear(store, table + MEMORY_AT, MEMORY_BYTES);
}

// The first byte of an older place.
fn old_start_of(k: usize) -> usize
    requires { k < cue_limit }
    ensures { result ≡ old_place_start k }
{
    STORE_HEADER_BYTES + OLD_PLACE_BYTES * k
}

// The number of the table at a place whose name has this number: a free place is zeros.
#[tactic(auto, unfolding(crate::specs::CodeOlder::number_for))]
fn number_for(name: u64) -> u32
    ensures { result ≡ number_for name }
{
    if name == 0 {
        return 0;
    }
    FAIR_NUMBER
}
