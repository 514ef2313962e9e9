// The text of a key, for the reader and the writer of a line.
#![tactic(auto)]

ghost use Rattle.std.specs.Prelude.{◌≡◌};
ghost use Rattle.trace.specs.Line.{key_text};

use trace::Key;

// What a key is in a text: its name and `=`.
#[tactic(auto, unfolding(trace::specs::Line::key_text, trace::specs::Line::key_name, trace::specs::Ascii::ascii))]
pub fn key_text(key: Key) -> &'static [u8]
    ensures { result.now ≡ key_text key }
{
    match key {
        Key::Ports => b"ports=",
        Key::First => b"first=",
        Key::Slot => b"slot=",
        Key::In => b"in=",
        Key::Out => b"out=",
        Key::Flow => b"flow=",
        Key::Rank => b"rank=",
        Key::Tag => b"tag=",
        Key::End => b"end=",
        Key::Refused => b"refused=",
        Key::Line => b"line=",
    }
}
