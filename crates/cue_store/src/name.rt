// Names of cues. A name of up to eight bytes is a number of 64 bits, the first byte the least significant; so two are
// compared at once. 0 is the number of no name.
ghost use Rattle.std.specs.Prelude.{◌≡◌, ◌≢◌, MatchOption};
ghost use Rattle.model.specs.Cues.{is_letter};
ghost use Rattle.cue_store.specs.Names.{name_number, is_name};

use layout::NAME_BYTES;

// The number of a name, if it is 1 to 8 lower-case letters.
pub fn number_of(name: &[u8]) -> Option<u64>
    ensures { MatchOption result (name_number name.now ≡ 0)
        (λ n. (n ≡ name_number name.now) × (n ≢ 0)) }
{
    if name.len() > NAME_BYTES {
        return None;
    }
    let mut number = 0;
    for &letter in name.iter().rev() {
        if !is_letter(letter) {
            return None;
        }
        number = 256 * number + u64::from(letter);
    }
    if number == 0 {
        return None;
    }
    Some(number)
}

// Whether a number is that of a name: letters, at least one, then zeros.
pub fn is_name(number: u64) -> bool
    ensures { result ≡ is_name number }
{
    if number == 0 {
        return false;
    }
    let mut rest = number;
    // Kept as a while: a zero before the last letter is no letter, and the zeros behind it are none of what is left.
    while rest > 0 {
        if !is_letter((rest % 256) as u8) {
            return false;
        }
        rest = rest / 256;
    }
    true
}

// Whether a byte is a letter, a to z.
#[tactic(auto, unfolding(model::specs::Cues::is_letter))]
fn is_letter(b: u8) -> bool
    ensures { result ≡ is_letter b }
{
    b.is_ascii_lowercase()
}
