// What the steps of a slot share: the choice of a phase, the sets of a table's cells by their places, which its check
// makes, and in specs/ the view of a table.
#![tactic(auto)]

use layout::PORTS;
pub use slot_check::Sets;

// Above the key of every cell. Kept as a number, not an Option: it is compared like a key, without a branch, and theorems
// name it (`Keyed`, slot_view/specs/CodeViewed).
pub const NO_KEY: u64 = u64::MAX;

// The choice of a phase, rules 1 to 4: whether a cell is urgent; for each input its scheduled cell, and the positions
// of those of its cells that are matched; and for each output the best cell at its crosspoints. `NOWHERE` stands for
// no cell. `urgent` is no Option round the rest, which is asked for where no cell is urgent too.
#[derive(Clone, Copy)]
pub struct Choice {
    pub urgent: bool,
    pub scheduled: [u16; PORTS],
    pub candidates: [u64; PORTS],
    pub best: [u16; PORTS],
}
