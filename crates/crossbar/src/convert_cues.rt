// The call that writes an older cue store in the new layout.
ghost use Rattle.std.specs.Prelude.{◌≡◌};
ghost use Rattle.layout.specs.Cues.{convert_cues_call, store_buffer};
ghost use Rattle.layout.specs.Host.{result_of};
ghost use Rattle.fair_table.specs.Results.{number_of_result};

use cell::Refusal;
use cue_store::older::read_older;
use fair_table::results::number_of_result;
use layout::{STORE_BYTES, run};

// Writes the cues of an older store, with no output fair and all else kept, into the first bytes of the buffer: 0. Refuses
// with 2 bytes that are no older store, then with 10 a buffer that is too short. A refusal writes nothing.
pub fn convert_cues(old: &[u8], store: &mut [u8]) -> u32
    ensures value { result ≡ result_of (convert_cues_call old.now store.old) }
    ensures store_after { store.new ≡ store_buffer store.old
        (convert_cues_call old.now store.old) }
{
    number_of_result(write(old, store))
}

// The same with the refusal as it is.
fn write(old: &[u8], store: &mut [u8]) -> Result<(), Refusal>
    ensures value { number_of_result result ≡ result_of (convert_cues_call old.now store.old) }
    ensures store_after { store.new ≡ store_buffer store.old
        (convert_cues_call old.now store.old) }
{
    let mut new = [0; STORE_BYTES];
    if !read_older(old, &mut new) {
        return Err(Refusal::BrokenTable);
    }
    if store.len() < STORE_BYTES {
        return Err(Refusal::ShortBuffer);
    }
    run::copy(&new, 0, store, 0, STORE_BYTES);
    Ok(())
}
