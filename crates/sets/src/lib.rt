// Sets of positions below 64 as the bits of a number: position j is a member exactly if bit j is set. The set with no
// member is 0, so a loop over a set takes its first member and goes on with the rest while the rest is not 0: it counts
// no index.
#![tactic(auto)]

ghost use Rattle.std.specs.Prelude.{cond, ◌≡◌, ◌<◌, ◌^◌};
ghost use Rattle.sets.specs.Sets.{has, pushed, minus, both, first_of};
ghost use Rattle.sets.specs.Sets.{size_of, either};
ghost use Rattle.sets.specs.Code.{with_one, without_one, below, from, opened, rest_of};

// Whether a position is a member.
pub fn has(set: u64, j: usize) -> bool
    requires { j < 64 }
    ensures { result ≡ has set j }
{
    (set >> j) % 2 == 1
}

// The set with each member one position later, and position 0 a member or not: how a pass over positions from the last
// to the first makes a set.
pub fn push(set: u64, member: bool) -> u64
    requires { set < 2 ^ 63 }
    ensures { result ≡ pushed set member }
{
    2 * set + u64::from(member)
}

// The set with a position in it.
pub fn with(set: u64, j: usize) -> u64
    requires { j < 64 }
    ensures { result ≡ with_one set j }
{
    set | (1 << j)
}

// The same if a test passes, without a branch on it.
pub fn with_if(set: u64, j: usize, member: bool) -> u64
    requires { j < 64 }
    ensures { result ≡ cond member (with_one set j) set }
{
    set | (u64::from(member) << j)
}

// The set with a position not in it.
pub fn without(set: u64, j: usize) -> u64
    requires { j < 64 }
    ensures { result ≡ without_one set j }
{
    set & !(1 << j)
}

// The members of `a` that `b` does not have.
pub fn minus(a: u64, b: u64) -> u64
    ensures { result ≡ minus a b }
{
    a & !b
}

// The members that `a` and `b` both have.
pub fn both(a: u64, b: u64) -> u64
    ensures { result ≡ both a b }
{
    a & b
}

// The members that `a` or `b` has.
pub fn either(a: u64, b: u64) -> u64
    ensures { result ≡ either a b }
{
    a | b
}

// The members before a position.
pub fn below(set: u64, j: usize) -> u64
    requires { j < 64 }
    ensures { result ≡ below set j }
{
    set & ((1 << j) - 1)
}

// The members from a position on.
pub fn from(set: u64, j: usize) -> u64
    requires { j < 64 }
    ensures { result ≡ from set j }
{
    set & !((1 << j) - 1)
}

// The set whose members from a position on stand one later, so that the position is free.
pub fn open(set: u64, j: usize) -> u64
    requires { (j < 64) × (set < 2 ^ 63) }
    ensures { result ≡ opened set j }
{
    below(set, j) | push(from(set, j), false)
}

// The first member; 64 where there is none.
pub fn first(set: u64) -> usize
    ensures { result ≡ first_of set }
{
    set.trailing_zeros() as usize
}

// The set without its first member.
pub fn rest(set: u64) -> u64
    requires { 0 < set }
    ensures { result ≡ rest_of set }
{
    set & (set - 1)
}

// How many members there are.
pub fn size(set: u64) -> usize
    ensures { result ≡ size_of set }
{
    set.count_ones() as usize
}
