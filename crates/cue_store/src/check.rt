// Whether bytes are a cue store: those of cues with names well formed, no two alike, and sound tables.
ghost use Rattle.std.specs.Prelude.{◌≡◌, ◌<◌, length};
ghost use Rattle.model.specs.Cues.{cue_limit};
ghost use Rattle.layout.specs.Cues.{store_size, is_store};
ghost use Rattle.cue_store.specs.Code.{is_header, is_place};

use crate::name::is_name;
use crate::place::{name_at, place_of, start_of};
use layout::{CUES, FAIR_BYTES, FAIR_NUMBER, NAME_BYTES, STORE_BYTES, run, word};

// Whether the bytes are a cue store.
pub fn is_store(store: &[u8]) -> bool
    ensures { result ≡ is_store store.now }
{
    if store.len() != STORE_BYTES {
        return false;
    }
    if !is_header(store) {
        return false;
    }
    for k in 0..CUES {
        if !is_place(store, k) {
            return false;
        }
    }
    true
}

// Whether a store begins so: the layout's number, then zeros.
fn is_header(store: &[u8]) -> bool
    requires { length store.now ≡ store_size }
    ensures { result ≡ is_header store.now }
{
    if word::read_u32(store, 0) != FAIR_NUMBER {
        return false;
    }
    run::is_clear(store, 4, 12)
}

// Whether a place is free and zeros, or has a name that no place before it has, and a table.
fn is_place(store: &[u8], k: usize) -> bool
    requires { (length store.now ≡ store_size) × (k < cue_limit) }
    ensures { result ≡ is_place store.now k }
{
    let number = name_at(store, k);
    let at = start_of(k) + NAME_BYTES;
    if number == 0 {
        return run::is_clear(store, at, FAIR_BYTES);
    }
    if !is_name(number) {
        return false;
    }
    // The first place of this name, which is k or one before it.
    let found = place_of(store, number).unwrap_or(CUES);
    if found < k {
        return false;
    }
    fair_table::is_fair_table(&store[at..at + FAIR_BYTES])
}
