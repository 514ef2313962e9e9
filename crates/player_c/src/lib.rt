// The programs of `player` under the names that C calls. C hands over no streams, since they take no bytes, and declares
// `uint32_t crossbar_player(size_t words, const uint8_t *word, size_t length)`, and `oq_player` likewise.
#![tactic(auto)]

ghost use Rattle.player.specs.Program.{request_of, Answered};

use std::io::{Stderr, Stdin, Stdout};

#[unsafe(no_mangle)]
pub extern "C" fn crossbar_player(
    input: Stdin,
    output: Stdout,
    error: Stderr,
    words: usize,
    word: &[u8],
) -> u32
    ensures { Answered (request_of words word.now) result }
{
    player::crossbar_player(input, output, error, words, word)
}

#[unsafe(no_mangle)]
pub extern "C" fn oq_player(
    input: Stdin,
    output: Stdout,
    error: Stderr,
    words: usize,
    word: &[u8],
) -> u32
    ensures { Answered (request_of words word.now) result }
{
    player::oq_player(input, output, error, words, word)
}
