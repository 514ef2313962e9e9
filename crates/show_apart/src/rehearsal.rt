// Rehearsals (scope 13): the proved switch with its cue store and the shadow with cues of its own, side by side. Both
// are given the same slots, settings, drops and returns, and what these come to is compared.
use crate::made::{draw, load};
use crate::row::{Row, rows, rows_of};
use crate::say::say_call;
use crate::shadow::{Refusal, Start};
use crate::shadow_cues::Cues;
use crate::stage::Stage;
use layout::word::read_u32;
use layout::{CUES, NAME_BYTES, PLACE_BYTES, STORE_BYTES, STORE_HEADER_BYTES};
use std::io::Stdout;

pub(crate) fn show_all(out: Stdout) {
    let three = Start::with_ports(3);
    // Three slots are played twice: the cells that leave are more than those that came.
    rehearse(
        out,
        "a rehearsal",
        three,
        "slot 1,set a,slot 2,slot 3,slot 4,return a,slot 2,slot 3,slot 4,return a,slot 0",
        &TWICE,
    );
    // e has no place before a is dropped, and b is as it was set the second time.
    rehearse(
        out,
        "four cues",
        three,
        "slot 1,set a,slot 0,set b,slot 0,set c,slot 2,set d,set e,slot 3,set b,drop a,slot 0,set e,return a,\
          return b,slot 0,return c,slot 0,return d,slot 0,return e,slot 0,drop a",
        &FOUR,
    );
    // Bytes next to a and z among them. A bad name is told from a fifth cue, and a name from its beginning.
    rehearse(
        out,
        "names of cues",
        three,
        "set ,set abcdefghi,set A,set a1,set \0,set a\0,set {,set `,slot 1,set z,slot 0,set abcdefgh,set y,set x,\
          set ,set abcdefghi,set A,set a1,set \0,set a\0,set {,set `,set a,drop A,return a1,return abcdefg,drop ,\
          return z,slot 0,return abcdefgh,slot 0",
        &FOUR,
    );
    // The clock goes back too.
    rehearse(
        out,
        "a return after the clock's end",
        Start::with_ports(2).in_slot(u32::MAX - 1),
        "set a,slot 1,slot 0,return a,slot 1,slot 0",
        &LAST,
    );
    // A return winds back what was remembered too.
    rehearse(
        out,
        "a rehearsal of weights",
        three.with_fair(5),
        "slot 1,set a,slot 2,slot 3,slot 0,set b,return a,slot 2,slot 3,slot 0,return b,slot 3,return a,slot 3",
        &TWICE,
    );
    let all = Start::with_ports(16);
    show_made(out, "a rehearsal of 200 calls at 16 ports", all);
    show_made(
        out,
        "a rehearsal of 200 calls at 16 fair ports",
        all.with_fair(0xffff),
    );
}

// The cue holds ranks 2 and 9 of output 0, rank 9 at its crosspoint. In slot 2 that one blocks rank 4, which is urgent.
const TWICE: [Row; 8] = rows![
    [1, 0, 0, 0, 9, 1],
    [1, 1, 0, 0, 1, 2],
    [1, 2, 0, 0, 2, 3],
    [2, 0, 0, 1, 4, 4],
    [2, 1, 0, 0, 3, 5],
    [2, 2, 1, 0, 5, 6],
    [3, 0, 2, 0, 6, 7],
    [4, 1, 1, 0, 2, 8],
];

// All are for output 0, which sends them by rank: what it sends after a return tells which cue that was.
const FOUR: [Row; 7] = rows![
    [1, 0, 0, 0, 1, 1],
    [1, 1, 0, 0, 2, 2],
    [1, 2, 0, 0, 3, 3],
    [2, 0, 0, 0, 4, 4],
    [2, 1, 0, 0, 5, 5],
    [3, 0, 0, 0, 8, 6],
    [3, 2, 0, 0, 6, 7],
];

// Two cells for the last slot that can run.
const LAST: [Row; 2] = rows![[1, 0, 1, 0, 5, 1], [1, 1, 1, 0, 6, 2]];

// A call of a rehearsal: a slot with the rows of a number, or a call of cues with a name.
#[derive(Clone, Copy)]
enum Call {
    Slot(u32),
    Set(&'static str),
    Drop(&'static str),
    Return(&'static str),
}

impl Call {
    // The call that a text says: `slot` with a number, or `set`, `drop` or `return` with a name.
    fn parse(text: &'static str) -> Option<Call> {
        if let Some(number) = text.strip_prefix("slot ") {
            return Some(Call::Slot(number.parse().ok()?));
        }
        if let Some(name) = text.strip_prefix("set ") {
            return Some(Call::Set(name));
        }
        if let Some(name) = text.strip_prefix("drop ") {
            return Some(Call::Drop(name));
        }
        text.strip_prefix("return ").map(Call::Return)
    }
}

// A rehearsal on a fresh switch, told aloud. The calls are a text, with a comma between two. A slot has the arrivals of
// the rows that begin with its number, and none does with 0.
fn rehearse(out: Stdout, name: &str, start: Start, calls: &'static str, rows: &[Row]) {
    let mut rehearsal = Rehearsal::open(out, name, start, true);
    for text in calls.split(',') {
        match Call::parse(text) {
            Some(Call::Slot(number)) => rehearsal.stage.slot(rows_of(rows, number)),
            Some(Call::Set(name)) => say_call(out, text, rehearsal.set(name)),
            Some(Call::Drop(name)) => say_call(out, text, rehearsal.drop(name)),
            Some(Call::Return(name)) => say_call(out, text, rehearsal.return_to(name)),
            None => rehearsal.stage.agree = false,
        }
    }
    rehearsal.close();
}

// A rehearsal of 200 calls that are made by rule. It tells the slots that are turned back, and at the end how many
// returns were done.
fn show_made(out: Stdout, name: &str, start: Start) {
    let mut rehearsal = Rehearsal::open(out, name, start, false);
    let mut seed = 1;
    let mut returns: u32 = 0;
    for number in 0..200 {
        match made_call(&mut seed, number) {
            Call::Slot(_) => rehearsal.stage.slot(&load(&mut seed, number)),
            Call::Set(name) => {
                rehearsal.set(name);
            }
            Call::Drop(name) => {
                rehearsal.drop(name);
            }
            Call::Return(name) => {
                if rehearsal.return_to(name) == 0 {
                    returns += 1;
                }
            }
        }
    }
    let _ = print!(out; "returns {returns}, ");
    rehearsal.close();
}

// Of sixteen calls eight are slots, four set a cue, one drops one and three return, by one of five names: so that some
// have no free place, and some no such cue.
fn made_call(seed: &mut u32, number: u32) -> Call {
    let drawn = draw(seed);
    let name = ["a", "b", "c", "d", "e"][(drawn / 16 % 5) as usize];
    match drawn % 16 {
        0..=7 => Call::Slot(number),
        8..=11 => Call::Set(name),
        12 => Call::Drop(name),
        _ => Call::Return(name),
    }
}

// The two switches, the proved one's cue store, and the shadow's cues. The result of a call of cues is the proved
// switch's.
#[derive(Drop)]
struct Rehearsal {
    stage: Stage,
    store: [u8; STORE_BYTES],
    cues: Cues,
}

impl Rehearsal {
    // All fresh.
    fn open(out: Stdout, name: &str, start: Start, aloud: bool) -> Rehearsal {
        let mut store = [0; STORE_BYTES];
        crossbar::cues::cue_start(&mut store);
        Rehearsal {
            stage: Stage::open(out, name, start, aloud),
            store,
            cues: Cues::none(),
        }
    }

    // Sets a cue.
    fn set(&mut self, name: &'static str) -> u32 {
        let result = crossbar::cues::cue_set(&self.stage.table, &mut self.store, name.as_bytes());
        let right = self.cues.set(name, &self.stage.shadow);
        self.compare(result, right)
    }

    // Drops a cue.
    fn drop(&mut self, name: &str) -> u32 {
        let result = crossbar::cues::cue_drop(&mut self.store, name.as_bytes());
        let right = self.cues.drop(name);
        self.compare(result, right)
    }

    // Returns to a cue.
    fn return_to(&mut self, name: &str) -> u32 {
        let result = crossbar::cues::cue_return(
            &mut self.stage.table,
            &self.store,
            name.as_bytes(),
        );
        let right = self.cues.return_to(name, &mut self.stage.shadow);
        self.compare(result, right)
    }

    // The number of the proved switch. Where the shadow has another the two differ.
    fn compare(&mut self, outcome: u32, right: Result<(), Refusal>) -> u32 {
        let number = right.map_or_else(|refusal| refusal as u32, |_| 0);
        self.stage.agree = self.stage.agree && outcome == number;
        outcome
    }

    // The end of a line. The two agree if they do so in every call, in the clock and in which name is at which place.
    fn close(&mut self) {
        let clocks = read_u32(&self.stage.table, 12) == self.stage.shadow.clock();
        let cues = crossbar::cues::cue_check(&self.store) == 0 && self.has_same_names();
        self.stage.agree = self.stage.agree && clocks && cues;
        self.stage.say_cells();
        self.stage.close();
    }

    // Whether the places of the store have the names of the shadow's cues.
    fn has_same_names(&self) -> bool {
        for place in 0..CUES {
            let at = STORE_HEADER_BYTES + PLACE_BYTES * place;
            if !is_name(&self.store[at..at + NAME_BYTES], self.cues.name_at(place)) {
                return false;
            }
        }
        true
    }
}

// Whether the bytes of a place are those of a name, and zeros behind it. A free place has zeros alone.
fn is_name(bytes: &[u8], name: &str) -> bool {
    let letters = name.as_bytes();
    bytes
        .iter()
        .enumerate()
        .all(|(k, byte)| *byte == letters.get(k).copied().unwrap_or(0))
}
