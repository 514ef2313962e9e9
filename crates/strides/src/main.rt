// Prints the strides of the weights, one a line, from w = 1. It divides: the constant table of `fair_strides` is
// compared with what is printed.
#![tactic(auto)]

ghost use Rattle.std.specs.Prelude.{◌≡◌};
ghost use Rattle.strides.specs.Text.{strides_text};

use std::io;

// The bytes of all lines.
const BYTES: usize = 5235;

fn main(rt: HostRuntime) -> io::Result<()> {
    let lines = text();
    rt.stdout().write_all(&lines)
}

// The lines, written from the last to the first.
pub fn text() -> [u8; BYTES]
    ensures { result ≡ strides_text }
{
    let mut out = [0u8; BYTES];
    let mut place = BYTES;
    for weight in (1..=1024).rev() {
        place -= 1;
        out[place] = b'\n';
        place = trace_line_writer::write_number(&mut out, place, 1048576 / weight);
    }
    out
}
