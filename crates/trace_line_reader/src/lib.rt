// Scope 7.1: a line is read. The text is lent and only read.
// No function has a `requires`.
#![tactic(auto)]

ghost use Rattle.std.specs.Prelude.{◌≡◌, drop};
ghost use Rattle.trace.specs.Line.{read_line};
ghost use Rattle.trace.specs.Reader.{from, begins};
ghost use Rattle.trace_line_reader.specs.Reading.{line_of};
ghost use Rattle.trace_line_reader.specs.Code.{read_body};

use trace::Key;
use trace_key::key_text;

// What stands at the start of a text: the number of a line, and how many bytes were read for it.
#[derive(Clone, Copy)]
pub struct Line {
    pub number: u32,
    pub length: usize,
}

// line = key "=" number "\n"
// Always inlined, so that a constant key is compared as one.
#[inline(always)]
pub fn read_line(text: &[u8], key: Key) -> Option<Line>
    ensures { result ≡ line_of text.now (read_line key text.now) }
{
    let mark = key_text(key);
    // Kept by hand, with an index: by strip_prefix and an iterator over the digits most traces are read 18 to 27 % slower.
    // A line has more behind its key; with this test first the compiler drops those of starts_with and read_number.
    if text.len() <= mark.len() {
        return None;
    }
    if !text.starts_with(mark) {
        return None;
    }
    read_number(text, mark.len())
}

// Whether the text begins with this key and `=`.
pub fn begins(text: &[u8], key: Key) -> bool
    ensures { result ≡ begins key (from 0 text.now) }
{
    text.starts_with(key_text(key))
}

// number "\n" from a place of the text; number = "0" | digit { digit }, the first not "0", at most 4294967295
#[inline(always)]
fn read_number(text: &[u8], start: usize) -> Option<Line>
    ensures { result ≡ line_of text.now (read_body (drop start text.now)) }
{
    if text.len() <= start {
        return None;
    }
    let first = text[start];
    if !first.is_ascii_digit() {
        return None;
    }
    let mut number = u32::from(first - b'0');
    for at in start + 1..text.len() {
        let byte = text[at];
        // first, since most bytes are digits
        if !byte.is_ascii_digit() {
            if byte == b'\n' {
                return Some(Line {
                    number,
                    length: at + 1,
                });
            }
            return None;
        }
        if number == 0 {
            return None;
        }
        let more = 10 * u64::from(number) + u64::from(byte - b'0');
        // Kept by hand: with u32::try_from a trace is read 7 to 28 % slower.
        if u64::from(u32::MAX) < more {
            return None;
        }
        number = more as u32;
    }
    None
}
