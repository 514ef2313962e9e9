// The player as two programs, one for each switch: the arguments in, an exit status out. They answer --help and
// --version, or play a trace from standard input to standard output, a window of text at a time.
#![tactic(auto)]

ghost use Rattle.std.specs.Prelude.{◌≡◌, ◌-◌, ◌≤◌, length, take, IfOk};
ghost use Rattle.player.specs.Program.{request_of, Answered, Told};
ghost use Rattle.player.specs.CodeWindow.{moved, Filled};
ghost use Rattle.player.specs.Code.{Finished, status_of};

use player_turns::{Engine, Stage, take_turns};
use std::io::{Read, Stderr, Stdin, Stdout};

// The bytes that the window holds, and those that are gathered before they are written.
const BUFFER_BYTES: usize = 65536;

// A program: the switch that it plays on, and where it reads, writes and complains. The streams take no bytes.
#[derive(Clone, Copy)]
struct Player {
    engine: Engine,
    input: Stdin,
    output: Stdout,
    error: Stderr,
}

// What the arguments ask for.
#[derive(Clone, Copy)]
enum Request {
    Play,
    Help,
    Version,
    Unknown,
}

// Why a program gives up.
#[derive(Clone, Copy)]
enum Failure {
    Arguments,
    Reading,
    Writing,
    Length,
}

impl Failure {
    // What is said of it on standard error.
    fn complaint(self) -> &'static [u8] {
        match self {
            Failure::Arguments => b"unknown argument, or more than one: try --help\n",
            Failure::Reading => b"cannot read standard input\n",
            Failure::Writing => b"cannot write standard output\n",
            Failure::Length => b"the trace is too long\n",
        }
    }
}

// How many bytes of text the window has, and whether no more will come: no Option, since there is text either way.
#[derive(Clone, Copy)]
struct Filling {
    filled: usize,
    last: bool,
}

// The program on the crossbar: the standard streams, how many arguments there are, and the first of them, or no bytes. The
// result is the exit status: 0, the trace was played to its end, or the help or the version was written; 1, it was refused;
// 2, reading or writing failed, or the arguments are wrong.
pub fn crossbar_player(
    input: Stdin,
    output: Stdout,
    error: Stderr,
    words: usize,
    word: &[u8],
) -> u32
    ensures { Answered (request_of words word.now) result }
{
    let player = Player {
        engine: Engine::Crossbar,
        input,
        output,
        error,
    };
    player.answer(words, word)
}

// The same on the output-queued switch.
pub fn oq_player(input: Stdin, output: Stdout, error: Stderr, words: usize, word: &[u8]) -> u32
    ensures { Answered (request_of words word.now) result }
{
    let player = Player {
        engine: Engine::Oq,
        input,
        output,
        error,
    };
    player.answer(words, word)
}

// By the arguments.
#[tactic(auto, using(crate::proofs::Requests::asks_nothing, crate::proofs::Requests::asks_much))]
fn request_of(words: usize, word: &[u8]) -> Request
    ensures { result ≡ request_of words word.now }
{
    if words == 0 {
        return Request::Play;
    }
    if words > 1 {
        return Request::Unknown;
    }
    if word == b"--help".as_slice() {
        return Request::Help;
    }
    if word == b"--version".as_slice() {
        return Request::Version;
    }
    Request::Unknown
}

impl Player {
    // By what is asked for.
    #[tactic(auto, unfolding(crate::specs::Program::Answered))]
    fn answer(self, words: usize, word: &[u8]) -> u32
        ensures { Answered (request_of words word.now) result }
    {
        match request_of(words, word) {
            Request::Play => self.play(),
            Request::Help => self.tell(self.usage()),
            Request::Version => self.tell(self.version()),
            Request::Unknown => self.fail(Failure::Arguments),
        }
    }

    fn usage(self) -> &'static [u8] {
        match self.engine {
            Engine::Crossbar => {
                b"usage: crossbar-player < trace\n\
                   \x20      crossbar-player --help | --version\n\
                   Plays a trace of arrivals through a buffered crossbar switch and writes the departures.\n\
                   Exit status: 0 the trace was played to its end; 1 it was refused, as the last two lines say;\n\
                   2 reading or writing failed, or the arguments are wrong.\n\
                   The manual is crossbar-player(1).\n"
            }
            Engine::Oq => {
                b"usage: oq-player < trace\n\
                   \x20      oq-player --help | --version\n\
                   Plays a trace of arrivals through an output-queued switch and writes the departures.\n\
                   Exit status: 0 the trace was played to its end; 1 it was refused, as the last two lines say;\n\
                   2 reading or writing failed, or the arguments are wrong.\n\
                   The manual is oq-player(1).\n"
            }
        }
    }

    fn version(self) -> &'static [u8] {
        match self.engine {
            Engine::Crossbar => b"crossbar-player 3.0.0\ntable layout 2\n",
            Engine::Oq => b"oq-player 3.0.0\noutput-queued table layout 102\n",
        }
    }

    // Its name, as a complaint begins.
    fn name(self) -> &'static [u8] {
        match self.engine {
            Engine::Crossbar => b"crossbar-player: ",
            Engine::Oq => b"oq-player: ",
        }
    }

    // Writes a text on standard output.
    fn tell(self, text: &[u8]) -> u32
        ensures { Told result }
    {
        match self.output.write_all(text) {
            Ok(()) => 0,
            Err(_) => self.fail(Failure::Writing),
        }
    }

    // Writes a complaint on standard error, behind the program's name.
    fn fail(self, failure: Failure) -> u32
        ensures { result ≡ 2 }
    {
        let _ = self.error.write_all(self.name());
        let _ = self.error.write_all(failure.complaint());
        2
    }

    // Plays standard input to standard output.
    #[tactic(auto, using(crate::proofs::Ending::status_few))]
    fn play(self) -> u32
        ensures { result ≤ 2 }
    {
        match self.take_rounds() {
            Ok(stage) => status_of(stage),
            Err(failure) => self.fail(failure),
        }
    }

    // Plays by rounds: text is read behind that which is left, turns are taken on it, and what they wrote is written out.
    // A round that writes nothing ends it, and the stage says how.
    fn take_rounds(self) -> Result<Stage, Failure>
        ensures { IfOk result (λ stage. Finished stage) }
    {
        let mut table = [0u8; layout::TABLE_BYTES];
        let mut window = [0u8; BUFFER_BYTES];
        let mut out = [0u8; BUFFER_BYTES];
        let mut stage = Stage::Opening;
        let mut line = 1;
        let mut filled = 0;
        let mut last = false;
        // a bound on the rounds that no input reaches, so that the loop is seen to end
        'rounds: for _ in 0..u64::MAX {
            let filling = fill(self.input, &mut window, filled, last)?;
            filled = filling.filled;
            last = filling.last;
            let turn = take_turns(
                self.engine,
                stage,
                line,
                &window[..filled],
                last,
                &mut table,
                &mut out,
            );
            stage = turn.stage;
            line = turn.line;
            if turn.written == 0 {
                return Ok(stage);
            }
            if self.output.write_all(&out[..turn.written]).is_err() {
                return Err(Failure::Writing);
            }
            close_up(&mut window, turn.used, filled);
            filled -= turn.used;
        }
        Err(Failure::Length)
    }
}

// The status of a trace that was played, by where the player stands at the end.
#[tactic(auto, unfolding(crate::specs::Code::status_of))]
fn status_of(stage: Stage) -> u32
    requires { Finished stage }
    ensures { result ≡ status_of stage }
{
    match stage {
        Stage::Ended => 0,
        Stage::Opening | Stage::Playing | Stage::TurnedBack => 1,
    }
}

// Reads behind the text that is there until the window is full or the input ends; after the end nothing. A read may fail.
fn fill(
    mut input: Stdin,
    window: &mut [u8],
    mut filled: usize,
    last: bool,
) -> Result<Filling, Failure>
    requires { filled ≤ length window.old }
    ensures kept { take filled window.new ≡ take filled window.old }
    ensures text { IfOk result (λ filling. Filled filled window.new filling.filled filling.last) }
{
    if last {
        return Ok(Filling { filled, last });
    }
    // A while: how much a read brings is not known before it.
    while filled < window.len() {
        match input.read(&mut window[filled..]) {
            Ok(0) => return Ok(Filling { filled, last: true }),
            Ok(count) => filled += count,
            Err(_) => return Err(Failure::Reading),
        }
    }
    Ok(Filling { filled, last })
}

// Moves the text from a place up to another to the front.
#[tactic(auto, unfolding(crate::specs::CodeWindow::moved))]
fn close_up(window: &mut [u8], from: usize, to: usize)
    requires { (from ≤ to) × (to ≤ length window.old) }
    ensures { window.new ≡ moved from (to - from) window.old }
{
    window.copy_within(from..to, 0);
}
