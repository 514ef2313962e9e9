// Good and damaged texts through the trace's reader and writer, a line for each. The damage stands at the first, a
// middle and the last line. A write that fails is passed over.
#![tactic(auto)]

use cell::Refusal;
use std::io::Stdout;

fn main(rt: HostRuntime) {
    let output = rt.stdout();
    accepted(output);
    first_lines(output);
    second_lines(output);
    middle_lines(output);
    last_lines(output);
    long_texts(output);
    written(output);
}

// Texts that the writer makes of some contents.
fn accepted(output: Stdout) {
    read(
        output,
        b"whole",
        b"ports=2\nfirst=0\nslot=0\nin=0\nout=1\nflow=0\nrank=5\ntag=10\nslot=1\nend=2\n",
    );
    read(
        output,
        b"no slots",
        b"ports=16\nfirst=4294967295\nend=4294967295\n",
    );
}

// Damage in the line of `ports`.
fn first_lines(output: Stdout) {
    read(output, b"empty text", b"");
    read(output, b"unfinished first line", b"ports=17");
    read(output, b"too many ports", b"ports=17\nrubbish");
    read(output, b"no ports", b"ports=0\nfirst=0\nend=0\n");
    read(
        output,
        b"ports past 32 bits",
        b"ports=4294967296\nfirst=0\nend=0\n",
    );
    read(
        output,
        b"leading zero in the first line",
        b"ports=02\nfirst=0\nend=0\n",
    );
    read(output, b"carriage return", b"ports=2\r\nfirst=0\nend=0\n");
}

// Damage in the line of `first` and right after the header.
fn second_lines(output: Stdout) {
    read(output, b"plus sign", b"ports=2\nfirst=+0\nend=0\n");
    read(output, b"NUL byte", b"ports=2\nfirst=0\0\nend=0\n");
    read(output, b"missing first", b"ports=2\n");
    read(
        output,
        b"first past 32 bits",
        b"ports=2\nfirst=4294967296\nend=0\n",
    );
    read(
        output,
        b"text stops after the header",
        b"ports=2\nfirst=0\n",
    );
    read(
        output,
        b"slot out of order",
        b"ports=2\nfirst=7\nslot=8\nend=9\n",
    );
}

// Damage in a block.
fn middle_lines(output: Stdout) {
    read(
        output,
        b"leading zero in an arrival",
        b"ports=2\nfirst=0\nslot=0\nin=0\nout=1\nflow=0\nrank=05\ntag=1\nend=1\n",
    );
    read(
        output,
        b"rank and tag exchanged",
        b"ports=2\nfirst=0\nslot=0\nin=0\nout=1\nflow=0\ntag=5\nrank=1\nend=1\n",
    );
    read(
        output,
        b"key by its first letter",
        b"ports=2\nfirst=0\nslot=0\ni=0\n",
    );
    read(
        output,
        b"block goes on with in=",
        b"ports=2\nfirst=0\nslot=0\nin=\n",
    );
    read(
        output,
        b"arrival cut off",
        b"ports=2\nfirst=0\nslot=0\nin=0\nout=1\n",
    );
}

// Damage at the end.
fn last_lines(output: Stdout) {
    read(output, b"wrong end", b"ports=2\nfirst=0\nslot=0\nend=2\n");
    read(
        output,
        b"unfinished end",
        b"ports=2\nfirst=0\nslot=0\nend=1",
    );
    read(
        output,
        b"a byte after end",
        b"ports=2\nfirst=0\nslot=0\nend=1\n\n",
    );
    read(
        output,
        b"a slot past the last",
        b"ports=2\nfirst=4294967295\nslot=4294967295\nend=4294967296\n",
    );
}

// A number of four thousand digits, and a line that begins `in=` after the 16th arrival.
fn long_texts(output: Stdout) {
    let mut digits = [b'1'; 4007];
    digits[0] = b'p';
    digits[1] = b'o';
    digits[2] = b'r';
    digits[3] = b't';
    digits[4] = b's';
    digits[5] = b'=';
    digits[4006] = b'\n';
    read(output, b"four thousand digits", &digits);
    read(
        output,
        b"a 17th arrival",
        b"ports=1\nfirst=0\nslot=0\n\
        in=0\nout=0\nflow=0\nrank=0\ntag=0\nin=0\nout=0\nflow=0\nrank=0\ntag=0\n\
        in=0\nout=0\nflow=0\nrank=0\ntag=0\nin=0\nout=0\nflow=0\nrank=0\ntag=0\n\
        in=0\nout=0\nflow=0\nrank=0\ntag=0\nin=0\nout=0\nflow=0\nrank=0\ntag=0\n\
        in=0\nout=0\nflow=0\nrank=0\ntag=0\nin=0\nout=0\nflow=0\nrank=0\ntag=0\n\
        in=0\nout=0\nflow=0\nrank=0\ntag=0\nin=0\nout=0\nflow=0\nrank=0\ntag=0\n\
        in=0\nout=0\nflow=0\nrank=0\ntag=0\nin=0\nout=0\nflow=0\nrank=0\ntag=0\n\
        in=0\nout=0\nflow=0\nrank=0\ntag=0\nin=0\nout=0\nflow=0\nrank=0\ntag=0\n\
        in=0\nout=0\nflow=0\nrank=0\ntag=0\nin=0\nout=0\nflow=0\nrank=0\ntag=0\n\
        in=0\nout=0\nflow=0\nrank=0\ntag=0\nend=1\n",
    );
}

// Contents through the writer.
fn written(output: Stdout) {
    let counts = [1u32, 0];
    let numbers = [0u32, 1, 0, 5, 10];
    write(output, b"contents written", 2, 0, &counts, &numbers);
    write(output, b"ports out of range", 17, 0, &counts, &numbers);
    write(
        output,
        b"slot past the last",
        2,
        4294967294,
        &counts,
        &numbers,
    );
    write(output, b"numbers missing", 2, 0, &counts, &numbers[..4]);
    let crowd = [17u32];
    let many = [0u32; 85];
    write(output, b"seventeen arrivals", 2, 0, &crowd, &many);
}

// What reading the text by the grammar comes to.
fn read(output: Stdout, name: &[u8], text: &[u8]) {
    print(output, name);
    match trace_reader::verify(text) {
        Ok(_) => print(output, b": accepted\n"),
        Err(bad) => {
            print(output, b": ");
            refused(output, bad.refusal, bad.line);
        }
    }
}

// What the writer makes of the contents in a buffer of 256 bytes.
fn write(output: Stdout, name: &[u8], ports: u32, first: u32, counts: &[u32], numbers: &[u32]) {
    let mut out = [0u8; 256];
    print(output, name);
    match trace_writer::write(ports, first, counts, numbers, &mut out) {
        Ok(length) => {
            print(output, b":\n");
            print_first(output, &out, length);
        }
        Err(refusal) => {
            print(output, b": ");
            refused(output, refusal, 0);
        }
    }
}

// The refusal's two lines.
fn refused(output: Stdout, refusal: Refusal, line: usize) {
    let mut out = [0u8; 64];
    let end = trace_line_writer::put_refusal(&mut out, 0, refusal, line);
    print_first(output, &out, end);
}

// The first bytes of a buffer, if it has so many.
fn print_first(output: Stdout, out: &[u8], end: usize) {
    if end <= out.len() {
        print(output, &out[..end]);
    }
}

fn print(output: Stdout, text: &[u8]) {
    let _ = output.write_all(text);
}
