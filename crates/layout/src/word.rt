// Numbers in a byte string, the least significant byte first. A caller shows that the bytes are there.
ghost use Rattle.std.specs.Prelude.{◌≡◌, ◌+◌, ◌≤◌, length, take, drop};
ghost use Rattle.layout.specs.Number.{word, number_at, bytes_of};
ghost use Rattle.layout.specs.Code.{put};

// The number of 32 bits at a place.
pub fn read_u32(bytes: &[u8], at: usize) -> u32
    requires { at + 4 ≤ length bytes.now }
    ensures { result ≡ word bytes.now at }
{
    u32::from_le_bytes(read_bytes::<4>(bytes, at))
}

// The number of 64 bits at a place.
pub fn read_u64(bytes: &[u8], at: usize) -> u64
    requires { at + 8 ≤ length bytes.now }
    ensures { result ≡ number_at 8 at bytes.now }
{
    u64::from_le_bytes(read_bytes::<8>(bytes, at))
}

// Puts a number of 32 bits at a place.
pub fn write_u32(bytes: &mut [u8], at: usize, n: u32)
    requires { at + 4 ≤ length bytes.old }
    ensures { bytes.new ≡ put at 4 (bytes_of 4 n) bytes.old }
{
    write_bytes::<4>(bytes, at, &n.to_le_bytes());
}

// Puts a number of 64 bits at a place.
pub fn write_u64(bytes: &mut [u8], at: usize, n: u64)
    requires { at + 8 ≤ length bytes.old }
    ensures { bytes.new ≡ put at 8 (bytes_of 8 n) bytes.old }
{
    write_bytes::<8>(bytes, at, &n.to_le_bytes());
}

// So many bytes from a place on. Compiled, a read of a number is one load, and a write one store.
fn read_bytes<const N: usize>(bytes: &[u8], at: usize) -> [u8; N]
    requires { at + N ≤ length bytes.now }
    ensures { result ≡ take N (drop at bytes.now) }
{
    let mut part = [0; N];
    part.copy_from_slice(&bytes[at..at + N]);
    part
}

// Puts so many bytes at a place.
fn write_bytes<const N: usize>(bytes: &mut [u8], at: usize, part: &[u8; N])
    requires { at + N ≤ length bytes.old }
    ensures { bytes.new ≡ put at N part.now bytes.old }
{
    bytes[at..at + N].copy_from_slice(part);
}
