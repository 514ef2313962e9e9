// The records of lent arrivals, read from their bytes.
#![tactic(auto)]

ghost use Rattle.std.specs.Prelude.{◌≡◌, ◌+◌, ◌*◌, ◌/◌, ◌≤◌, min, length, take};
ghost use Rattle.layout.specs.Arrivals.{arrival_size, arrivals_of, held_limit};
ghost use Rattle.layout_arrivals.specs.Code.{arrival_at};

use cell::Arrival;
use layout::{ARRIVAL_BYTES, HELD};

// The first records of the bytes, those that are looked at.
pub fn read_records(arrivals: &[u8]) -> [Arrival; HELD]
    ensures { take (min (length arrivals.now / arrival_size) held_limit) result
        ≡ arrivals_of (min (length arrivals.now / arrival_size) held_limit) arrivals.now }
{
    let end = few(arrivals.len() / ARRIVAL_BYTES);
    let mut records = [Arrival::default(); HELD];
    for n in 0..end {
        records[n] = record_at(arrivals, n);
    }
    records
}

// The record at a place.
fn record_at(arrivals: &[u8], k: usize) -> Arrival
    requires { arrival_size * k + arrival_size ≤ length arrivals.now }
    ensures { result ≡ arrival_at arrivals.now k }
{
    let at = ARRIVAL_BYTES * k;
    Arrival {
        input: layout::word::read_u32(arrivals, at),
        output: layout::word::read_u32(arrivals, at + 4),
        flow: layout::word::read_u32(arrivals, at + 8),
        rank: layout::word::read_u32(arrivals, at + 12),
        tag: layout::word::read_u32(arrivals, at + 16),
    }
}

// How many of so many records are looked at. Inputs rise and are below 16, so that the seventeenth record, if there is
// one, has a fault or stands behind one.
pub fn few(count: usize) -> usize
    ensures { result ≡ min count held_limit }
{
    count.min(HELD)
}
