// The tally: four counts, each 64 bits wide, of which each slot call changes some. As bytes it takes 32.
#![tactic(auto)]

ghost use Rattle.std.specs.Prelude.{◌≡◌, ◌≤◌, length};
ghost use Rattle.cell.specs.Checked.{no_fault};
ghost use Rattle.layout.specs.Answer.{departures_size};
ghost use Rattle.layout.specs.TallyBytes.{tally_of, tally_bytes, tally_size};
ghost use Rattle.layout_tally.specs.CodeCounted.{counted_by};
ghost use Rattle.layout_tally.specs.Counted.{counted_as};

use cell::{Fault, Tally};
use layout_answer::departures_in;

// Counts a slot in the lent tally.
pub fn count(tally: &mut Tally, ran: bool, arrivals: u64, departures: u64)
    ensures { tally.new ≡ counted_as ran arrivals departures tally.old }
{
    *tally = counted(*tally, ran, arrivals, departures);
}

// The tally after a slot: an accepted one counts itself, its arrivals and its departures, a refused one only itself. A
// count at its top stays there.
pub fn counted(t: Tally, ran: bool, arrivals: u64, departures: u64) -> Tally
    ensures { result ≡ counted_as ran arrivals departures t }
{
    if ran {
        Tally {
            run: t.run.saturating_add(1),
            arrived: t.arrived.saturating_add(arrivals),
            departed: t.departed.saturating_add(departures),
            ..t
        }
    } else {
        Tally {
            refused: t.refused.saturating_add(1),
            ..t
        }
    }
}

// The tally after a slot with so many records: one that ran counts them and the departures of its answer, a refused one
// only itself.
#[tactic(auto, unfolding(crate::specs::Counted::counted_as, crate::specs::CodeCounted::counted_by))]
pub fn counted_by(checked: Result<(), Fault>, arrivals: u64, answer: &[u8], t: Tally) -> Tally
    requires { checked ≡ no_fault → departures_size ≤ length answer.now }
    ensures { result ≡ counted_by checked arrivals answer.now t }
{
    match checked {
        Ok(()) => counted(t, true, arrivals, departures_in(answer)),
        Err(_) => counted(t, false, 0, 0),
    }
}

// The tally that the bytes are.
pub fn read(bytes: &[u8]) -> Tally
    requires { length bytes.now ≡ tally_size }
    ensures { result ≡ tally_of bytes.now }
{
    Tally {
        run: layout::word::read_u64(bytes, 0),
        refused: layout::word::read_u64(bytes, 8),
        arrived: layout::word::read_u64(bytes, 16),
        departed: layout::word::read_u64(bytes, 24),
    }
}

// Puts a tally into its bytes.
pub fn write(bytes: &mut [u8], t: Tally)
    requires { length bytes.old ≡ tally_size }
    ensures { bytes.new ≡ tally_bytes t }
{
    layout::word::write_u64(bytes, 0, t.run);
    layout::word::write_u64(bytes, 8, t.refused);
    layout::word::write_u64(bytes, 16, t.arrived);
    layout::word::write_u64(bytes, 24, t.departed);
}
