// Runs of bytes in a byte string. A caller shows that the bytes are there.
ghost use Rattle.std.specs.Prelude.{◌≡◌, ◌+◌, ◌≤◌, length, take, drop, replicate};
ghost use Rattle.layout.specs.Number.{same_bytes};
ghost use Rattle.layout.specs.Code.{put};

// Zeros, so many from a place on.
pub fn clear(bytes: &mut [u8], at: usize, count: usize)
    requires { at + count ≤ length bytes.old }
    ensures { bytes.new ≡ put at count (replicate count 0) bytes.old }
{
    bytes[at..at + count].fill(0);
}

// Whether so many bytes from a place on are zeros.
pub fn is_clear(bytes: &[u8], at: usize, count: usize) -> bool
    requires { at + count ≤ length bytes.now }
    ensures { result ≡ same_bytes (replicate count 0) (take count (drop at bytes.now)) }
{
    bytes[at..at + count].iter().all(|b| *b == 0)
}

// Copies so many bytes from a place of one byte string to a place of another.
pub fn copy(from: &[u8], start: usize, bytes: &mut [u8], at: usize, count: usize)
    requires { (start + count ≤ length from.now) × (at + count ≤ length bytes.old) }
    ensures { bytes.new
        ≡ put at count (take count (drop start from.now)) bytes.old }
{
    // Kept by hand: for the library's copy the compiler calls memmove, which the archives for C ask of nobody.
    for i in 0..count {
        bytes[at + i] = from[start + i];
    }
}
