// The program treenum: reads lines from standard input and prints one line for each. A line of digits is a number, answered by
// its term; any other line is a term, answered by its number. The table is the source paper's.
//
// Answers are gathered, and written when the list may have no room for one more, and before each read. All reading and writing is by the crate
// `streams`, by one handle with its log, which `main` makes: no other crate that this one stands on reads or writes (tests/one_log).
#![tactic(auto)]

ghost use Rattle.std.specs.Prelude.{List, ℕ};
ghost use Rattle.line.specs.Feeding.{Holds};
ghost use Rattle.streams.specs.Parts.{Wrote};
ghost use Rattle.treenum.specs.Treenum.{printed_for};
ghost use Rattle.treenum.specs.Run.{Feeds, Ran};

use line::{LONGEST_LINE, Line, Lists};
use std::io;
use std::process::ExitCode;
use streams::{Reason, Stdio};

// The rows of Figure 3, the accepting list, and the names of the symbols 1 and 2.
const STATES: u64 = 5;

const ROWS: [u16; 42] = [
    1, 0, 0, 2, 1, 0, 1, 2, 2, 0, 0, 2, 2, 2, 0, 1, 1, 3, 2, 1, 0, 1, 3, 2, 1, 1, 2, 3, 2, 1, 1, 1,
    4, 2, 2, 2, 2, 4, 3, 2, 3, 1,
];

const ACCEPTING: [u16; 2] = [2, 4];

const NAMES: [u8; 4] = *b"a\nb\n";

const PAPER: Lists<'static> = Lists {
    states: STATES,
    rows: &ROWS,
    accepting: &ACCEPTING,
    names: &NAMES,
};

// The most bytes of one read.
const PART: usize = 16384;

// The room of what is to be printed: so many bytes, and one answer more.
const ROOM: usize = PART + LONGEST_LINE;

// Why a run ends before all is answered: a read failed; a write failed; or there were more reads than can be counted.
#[derive(Clone, Copy, Debug)]
enum Failure {
    Read(io::Error),
    Write(io::Error),
    TooManyReads,
}

// A line so far, and the list in which what is to be printed is gathered.
#[derive(Drop)]
struct Answers {
    line: Line,
    out: [u8; ROOM],
}

impl Answers {
    // Feeds the bytes of a read, and writes what is to be printed.
    fn feed_all(&mut self, bytes: &[u8], stdio: &mut Stdio) -> io::Result<()>
        ensures { (held : List ℕ) → Holds held self.old.line
            → Feeds held bytes.now result self.new.line stdio.old.log stdio.new.log }
    {
        let mut i = 0;
        while i < bytes.len() {
            let fed = PAPER.gather(&mut self.line, bytes, i, &mut self.out);
            stdio.write_part(&self.out[..fed.count])?;
            i = fed.next;
        }
        Ok(())
    }

    // Writes what is to be printed where the input ends.
    fn finish(&mut self, stdio: &mut Stdio) -> io::Result<()>
        ensures { (held : List ℕ) → Holds held self.old.line → Wrote stdio.old.log stdio.new.log (printed_for held) result }
    {
        let n = PAPER.last_line(&self.line, &mut self.out);
        stdio.write_part(&self.out[..n])
    }
}

// The whole run: reads the input to its end, and writes what is to be printed for each part of it before the next read, unless a read or a write fails.
fn run(stdio: &mut Stdio) -> Result<(), Failure>
    ensures { Ran result stdio.old.log stdio.new.log }
{
    let mut chunk = [0u8; PART];
    let mut answers = Answers {
        line: Line::new(),
        out: [0; ROOM],
    };
    for _ in 0..u64::MAX {
        match stdio.read_part(&mut chunk) {
            Ok(Some(n)) => answers
                .feed_all(&chunk[..n], stdio)
                .map_err(Failure::Write)?,
            Ok(None) => return answers.finish(stdio).map_err(Failure::Write),
            Err(reason) => return Err(Failure::Read(reason)),
        }
    }
    Err(Failure::TooManyReads)
}

fn main(rt: HostRuntime) -> ExitCode {
    let mut stdio = Stdio::new(rt);
    match run(&mut stdio) {
        Ok(()) => return ExitCode::SUCCESS,
        Err(Failure::Read(error)) => stdio.say_failed(b"treenum: cannot read", Reason(error)),
        Err(Failure::Write(error)) => stdio.say_failed(b"treenum: cannot write", Reason(error)),
        Err(Failure::TooManyReads) => stdio.say(b"treenum: the input has not ended\n"),
    }
    ExitCode::FAILURE
}
