// Scope 7.1: lines are written, those of a text and those that the player writes. Each function that puts a text
// answers the place after it, and a place past the end of the buffer says that the text does not fit. The public ones
// put all of a text or nothing of it. A text that fits is written from its end to its start with no test of the room:
// the `write_..` below ask for the room, which every caller has measured, and answer where the text starts. One of them
// is public, for a text of numbers alone. No other function has a `requires`.
#![tactic(auto)]

ghost use Rattle.std.specs.Prelude.{◌≡◌, length};
ghost use Rattle.std.proofs.Math.Option.{some};
ghost use Rattle.trace.specs.Line.{key_text, decimal, line};
ghost use Rattle.trace.specs.Lines.{departure_text, refusal_text};
ghost use Rattle.trace_line_writer.specs.Writing.{line_of, lines_text, place_after, Ends, Put};
ghost use Rattle.trace_line_writer.specs.Code.{Room, Written};

use cell::{Cell, Refusal};
use trace::Key;
use trace_key::key_text;

// A line to be put: its key and its number. A number may count the lines of a text, which can be more than 32 bits hold.
#[derive(Clone, Copy)]
pub struct TraceLine {
    pub key: Key,
    pub number: usize,
}

impl TraceLine {
    // The line of a number of 32 bits.
    pub fn new(key: Key, n: u32) -> TraceLine
        ensures { result ≡ line_of key n }
    {
        TraceLine {
            key,
            number: n as usize,
        }
    }
}

// A line, if it fits.
pub fn put_line(out: &mut [u8], at: usize, key: Key, n: u32) -> usize
    ensures { Put out.old at (line key n) out.new result }
{
    put_one(out, at, TraceLine::new(key, n))
}

// A line that is made already, if it fits. Its number may be more than 32 bits hold. Always inlined: the compiler then sees
// the key at each call, and a line takes half as long as by `put_lines`.
#[inline(always)]
pub fn put_one(out: &mut [u8], at: usize, l: TraceLine) -> usize
    ensures { Put out.old at (line l.key l.number) out.new result }
{
    let end = line_end(at, l.key, l.number);
    if out.len() < end {
        return end;
    }
    write_line(out, end, l.key, l.number);
    end
}

// The lines of a departure, `out`, `in`, `flow`, `rank`, `tag`, if they fit.
pub fn put_departure(out: &mut [u8], at: usize, cell: Cell) -> usize
    ensures { Put out.old at (departure_text (some cell)) out.new result }
{
    let lines = [
        TraceLine::new(Key::Out, cell.output),
        TraceLine::new(Key::In, cell.input),
        TraceLine::new(Key::Flow, cell.flow),
        TraceLine::new(Key::Rank, cell.rank),
        TraceLine::new(Key::Tag, cell.tag),
    ];
    put_five(out, at, lines)
}

// The lines of a refusal, `refused` and `line`, the line at fault, if they fit.
pub fn put_refusal(out: &mut [u8], at: usize, refusal: Refusal, fault: usize) -> usize
    ensures { Put out.old at (refusal_text refusal fault) out.new result }
{
    let lines = [
        TraceLine::new(Key::Refused, refusal.number()),
        TraceLine {
            key: Key::Line,
            number: fault,
        },
    ];
    put_lines(out, at, &lines)
}

// Line after line, if all of them fit: they are measured from the first on, and written from the last on.
pub fn put_lines(out: &mut [u8], at: usize, lines: &[TraceLine]) -> usize
    ensures { Put out.old at (lines_text lines.now) out.new result }
{
    let mut end = at;
    for l in lines {
        end = line_end(end, l.key, l.number);
    }
    if out.len() < end {
        return end;
    }
    let mut start = end;
    for l in lines.iter().rev() {
        start = write_line(out, start, l.key, l.number);
    }
    end
}

// Five lines, those of a cell, if all of them fit. Always inlined and kept line by line: the compiler then sees the keys at
// each call. By `put_lines`, which looks a key's text up in a loop, the player takes 11 % longer.
#[inline(always)]
pub fn put_five(out: &mut [u8], at: usize, lines: [TraceLine; 5]) -> usize
    ensures { Put out.old at (lines_text lines) out.new result }
{
    let [first, second, third, fourth, fifth] = lines;
    let second_at = line_end(at, first.key, first.number);
    let third_at = line_end(second_at, second.key, second.number);
    let fourth_at = line_end(third_at, third.key, third.number);
    let fifth_at = line_end(fourth_at, fourth.key, fourth.number);
    let end = line_end(fifth_at, fifth.key, fifth.number);
    if out.len() < end {
        return end;
    }
    write_line(out, second_at, first.key, first.number);
    write_line(out, third_at, second.key, second.number);
    write_line(out, fourth_at, third.key, third.number);
    write_line(out, fifth_at, fourth.key, fourth.number);
    write_line(out, end, fifth.key, fifth.number);
    end
}

// How many bytes a line has.
pub fn line_length(key: Key, n: usize) -> usize
    ensures { result ≡ length (line key n) }
{
    key_text(key).len() + digits(n) + 1
}

// line = key `=` number line-feed
fn write_line(out: &mut [u8], end: usize, key: Key, n: usize) -> usize
    requires { Room (line key n) end (length out.old) }
    ensures { Written out.old end (line key n) out.new result }
{
    let feed = end - 1;
    out[feed] = b'\n';
    let number = write_number(out, feed, n);
    write_text(out, number, key_text(key))
}

// The decimal digits of a number.
pub fn write_number(out: &mut [u8], end: usize, n: usize) -> usize
    requires { Room (decimal n) end (length out.old) }
    ensures { Written out.old end (decimal n) out.new result }
{
    let mut rest = n;
    let mut place = end;
    loop {
        place -= 1;
        // The leading digit is what is left at last, and needs no division; each other digit takes one.
        if rest < 10 {
            out[place] = b'0' + rest as u8;
            return place;
        }
        let tens = rest / 10;
        out[place] = b'0' + (rest - 10 * tens) as u8;
        rest = tens;
    }
}

// Any text.
fn write_text(out: &mut [u8], end: usize, text: &[u8]) -> usize
    requires { Room text.now end (length out.old) }
    ensures { Written out.old end text.now out.new result }
{
    let start = end - text.len();
    // Kept by hand: for the library's copy the compiler calls memmove, which the archives for C ask of nobody.
    for i in 0..text.len() {
        out[start + i] = text[i];
    }
    start
}

// The place after a line.
fn line_end(at: usize, key: Key, n: usize) -> usize
    ensures { Ends at (line key n) result }
{
    place_after(at, line_length(key, n))
}

// How many decimal digits a number has.
fn digits(n: usize) -> usize
    ensures { result ≡ length (decimal n) }
{
    let mut rest = n;
    let mut count = 1;
    // Kept as a while: how often it runs depends on the digits, and the library has no logarithm to base ten.
    while 100 <= rest {
        rest /= 100;
        count += 2;
    }
    if rest < 10 { count } else { count + 1 }
}

// The place after `size` bytes.
pub fn place_after(at: usize, size: usize) -> usize
    ensures { result ≡ place_after at size }
{
    at.saturating_add(size)
}
