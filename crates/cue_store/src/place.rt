// The places of a cue store. Place k stands at byte 16 + 24688 * k: a name in eight bytes, then a table.
// A caller shows that the bytes have a store's length and that there is such a place; the bytes may be any.
ghost use Rattle.std.specs.Prelude.{◌≡◌, ◌++◌, ◌<◌, ◌≤◌, length, replicate, MatchOption};
ghost use Rattle.model.specs.Cues.{cue_limit, no_cues};
ghost use Rattle.layout.specs.Code.{put};
ghost use Rattle.layout.specs.Cues.{store_size, place_size, store_bytes};
ghost use Rattle.layout.specs.Fair.{fair_size};
ghost use Rattle.layout.specs.Host.{filled};
ghost use Rattle.layout.specs.Number.{bytes_of};
ghost use Rattle.cue_store.specs.Code.{place_start, name_at, table_at, place_of, place_for};

use layout::{
    CUES, FAIR_BYTES, FAIR_NUMBER, NAME_BYTES, PLACE_BYTES, STORE_BYTES, STORE_HEADER_BYTES, run,
    word,
};

// The first byte of a place.
pub fn start_of(k: usize) -> usize
    requires { k < cue_limit }
    ensures { result ≡ place_start k }
{
    STORE_HEADER_BYTES + PLACE_BYTES * k
}

// The number of the name at a place; 0 where it is free.
pub fn name_at(store: &[u8], k: usize) -> u64
    requires { (length store.now ≡ store_size) × (k < cue_limit) }
    ensures { result ≡ name_at store.now k }
{
    word::read_u64(store, start_of(k))
}

// The first place whose name has this number, if there is one. The number 0 finds the lowest free place.
pub fn place_of(store: &[u8], number: u64) -> Option<usize>
    requires { length store.now ≡ store_size }
    ensures { MatchOption result (place_of store.now number ≡ cue_limit)
        (λ k. (k ≡ place_of store.now number) × (k < cue_limit)) }
{
    for k in 0..CUES {
        if name_at(store, k) == number {
            return Some(k);
        }
    }
    None
}

// The place that a cue takes whose name has this number: the one that has it, else the lowest free one, if there is one.
pub fn place_for(store: &[u8], number: u64) -> Option<usize>
    requires { length store.now ≡ store_size }
    ensures { MatchOption result (place_for store.now number ≡ cue_limit)
        (λ k. (k ≡ place_for store.now number) × (k < cue_limit)) }
{
    match place_of(store, number) {
        Some(held) => Some(held),
        None => place_of(store, 0),
    }
}

// Puts a cue at a place: its name, and the switch's table.
pub fn write_cue(store: &mut [u8], k: usize, number: u64, table: &[u8])
    requires { (length store.old ≡ store_size) × (k < cue_limit) × (length table.now ≡ fair_size) }
    ensures { store.new
        ≡ put (place_start k) place_size (bytes_of 8 number ++ table.now) store.old }
{
    let at = start_of(k);
    word::write_u64(store, at, number);
    run::copy(table, 0, store, at + NAME_BYTES, FAIR_BYTES);
}

// Frees a place.
pub fn clear_cue(store: &mut [u8], k: usize)
    requires { (length store.old ≡ store_size) × (k < cue_limit) }
    ensures { store.new
        ≡ put (place_start k) place_size (replicate place_size 0) store.old }
{
    run::clear(store, start_of(k), PLACE_BYTES);
}

// Copies the table of a place over the lent one.
pub fn read_cue(store: &[u8], k: usize, table: &mut [u8])
    requires { (length store.now ≡ store_size) × (k < cue_limit) × (length table.old ≡ fair_size) }
    ensures { table.new ≡ table_at store.now k }
{
    run::copy(store, start_of(k) + NAME_BYTES, table, 0, FAIR_BYTES);
}

// A store in which no cue is held, put into the first bytes of a buffer.
pub fn write_no_cues(store: &mut [u8])
    requires { store_size ≤ length store.old }
    ensures { store.new ≡ filled (store_bytes no_cues) store.old }
{
    run::clear(store, 0, STORE_BYTES);
    word::write_u32(store, 0, FAIR_NUMBER);
}
