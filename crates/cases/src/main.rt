// Reads test cases from standard input, one a line, and prints the library's answer to each, one a line.
//
// A line is decimal numbers with one blank between two. The first is the operation:
//
//     1 states k e1 .. ek m a1 .. am               check the table of these row entries and accepting entries
//     2 states k e1 .. ek m a1 .. am l t1 .. tl    number the tree t in the table
//     3 states k e1 .. ek m a1 .. am n l x1 .. xl  write the tree of the number n in the table into the lent list x
//     4 k n1 .. nk m t1 .. tm l x1 .. xl           read the term t over the names n into the lent list x
//     5 k n1 .. nk m t1 .. tm l x1 .. xl           write the tree t over the names n into the lent list x
//
// From the third number on, `99999 c k v1 .. vk` is short for c numbers: v1 to vk in turn, over and over. So the
// number 99999 itself is `99999 1 1 99999`.
//
// A check is answered by `total N`, the others by `result N`; a refusal is `refused`, its number and its place.
// After an answer to 3, 4 or 5 comes what the lent list then holds: `;` and its entries, or, if there are
// more than 64, `;`, their count, `entries` and their digest. Any other line prints `bad line`, and so does one
// with a number that does not fit (names and texts: 8 bits; rows, accepting entries and trees: 16; all
// others: 64), a list of more than 66,000, or more than 80,000 numbers, or 80,002 with the short forms written out.
#![tactic(auto)]

ghost use Rattle.std.specs.Prelude.{◌+◌, ◌*◌, ◌^◌, ◌<◌, length, IfSome, SomeIff};

use model::Answer;
use std::alloc::{AllocError, AllocFailed, Global};
use std::io;
use std::io::{BufWriter, Read, Write};

// The numbers of a line as it is read, and with its short forms written out.
const ROOM: usize = 80000;

const WHOLE: usize = 80002;

// The entries of a list.
const LIST: usize = 66000;

// The number with which a short form begins.
const SHORT: u64 = 99999;

// Why a line is not answered: it is no case; or there is no memory, or a write failed.
#[derive(Clone, Copy, Debug)]
enum Stop {
    NoCase,
    Io(io::Error),
}

impl From<io::Error> for Stop {
    fn from(error: io::Error) -> Stop {
        Stop::Io(error)
    }
}

impl From<AllocError> for Stop {
    fn from(error: AllocError) -> Stop {
        Stop::Io(error.into())
    }
}

impl<T: Drop> From<AllocFailed<T>> for Stop {
    fn from(failed: AllocFailed<T>) -> Stop {
        Stop::Io(failed.into())
    }
}

// The numbers of a case that are not read yet.
#[derive(Clone, Copy)]
struct Numbers<'a> {
    rest: &'a [u64],
}

impl<'a> Numbers<'a> {
    fn number(&mut self) -> Result<u64, Stop> {
        let (number, rest) = self.rest.split_first().ok_or(Stop::NoCase)?;
        self.rest = rest;
        Ok(*number)
    }

    // The list `k x1 .. xk`, of entries that fit.
    fn list<T: TryFrom<u64> + Drop>(&mut self, alloc: Global) -> Result<Vec<T>, Stop>
    where
        T::Error: Drop,
    {
        let k = self.number()? as usize;
        let (values, rest) = self.rest.split_at_checked(k).ok_or(Stop::NoCase)?;
        if values.len() > LIST {
            return Err(Stop::NoCase);
        }
        self.rest = rest;
        values
            .iter()
            .map(|x| T::try_from(*x))
            .collect::<Result<Vec<T>, T::Error>>(alloc)?
            .map_err(|_| Stop::NoCase)
    }

    fn table(&mut self, alloc: Global) -> Result<Table, Stop> {
        Ok(Table {
            states: self.number()?,
            rows: self.list(alloc)?,
            accepting: self.list(alloc)?,
        })
    }

    // There are no more.
    fn end(self) -> Result<(), Stop> {
        if self.rest.is_empty() {
            Ok(())
        } else {
            Err(Stop::NoCase)
        }
    }
}

#[derive(Drop)]
struct Table {
    states: u64,
    rows: Vec<u16>,
    accepting: Vec<u16>,
}

// An operation with what it is given, a lent list last.
#[derive(Drop)]
enum Case {
    Check(Table),
    Number(Table, Vec<u16>),
    Write(Table, u64, Vec<u16>),
    ReadTerm(Vec<u8>, Vec<u8>, Vec<u16>),
    WriteTerm(Vec<u8>, Vec<u16>, Vec<u8>),
}

impl Case {
    // The case that the numbers are, their short forms written out.
    fn read(alloc: Global, numbers: &[u64]) -> Result<Case, Stop> {
        let mut numbers = Numbers { rest: numbers };
        let case = match numbers.number()? {
            1 => Case::Check(numbers.table(alloc)?),
            2 => Case::Number(numbers.table(alloc)?, numbers.list(alloc)?),
            3 => Case::Write(
                numbers.table(alloc)?,
                numbers.number()?,
                numbers.list(alloc)?,
            ),
            4 => Case::ReadTerm(
                numbers.list(alloc)?,
                numbers.list(alloc)?,
                numbers.list(alloc)?,
            ),
            5 => Case::WriteTerm(
                numbers.list(alloc)?,
                numbers.list(alloc)?,
                numbers.list(alloc)?,
            ),
            _ => return Err(Stop::NoCase),
        };
        numbers.end()?;
        Ok(case)
    }

    fn answer<W: Write>(self, out: &mut W) -> io::Result<()> {
        match self {
            Case::Check(t) => say(
                out,
                "total",
                operations::check(t.states, t.rows.as_slice(), t.accepting.as_slice()),
            ),
            Case::Number(t, tree) => say(
                out,
                "result",
                operations::number(
                    t.states,
                    t.rows.as_slice(),
                    t.accepting.as_slice(),
                    tree.as_slice(),
                ),
            ),
            Case::Write(t, number, mut lent) => {
                let answer = operations::write(
                    t.states,
                    t.rows.as_slice(),
                    t.accepting.as_slice(),
                    number,
                    lent.as_mut_slice(),
                );
                say_lent(out, answer, lent.as_slice())
            }
            Case::ReadTerm(names, text, mut lent) => {
                let answer = term::read_term(
                    names.as_slice(),
                    text.as_slice(),
                    lent.as_mut_slice(),
                );
                say_lent(out, answer, lent.as_slice())
            }
            Case::WriteTerm(names, tree, mut lent) => {
                let answer = term::write_term(
                    names.as_slice(),
                    tree.as_slice(),
                    lent.as_mut_slice(),
                );
                say_lent(out, answer, lent.as_slice())
            }
        }
    }
}

// An answer; `what` is said of a result.
fn say<W: Write>(out: &mut W, what: &str, answer: Answer) -> io::Result<()> {
    match answer {
        Ok(n) => write!(out, "{what} {n}"),
        Err(refusal) => write!(out, "{refusal}"),
    }
}

// An answer, and what the lent list holds after it: its entries or, if there are many, how many and their digest.
fn say_lent<T: Copy + Into<u16>, W: Write>(
    out: &mut W,
    answer: Answer,
    list: &[T],
) -> io::Result<()> {
    say(out, "result", answer)?;
    out.write_all(b";")?;
    let n = list.len();
    if n <= 64 {
        for x in list {
            let entry: u16 = (*x).into();
            write!(out, " {entry}")?;
        }
        return Ok(());
    }
    let digest = list.iter().fold(0, |digest: u64, x| {
        (digest % 4294967291 * 65599 + u64::from((*x).into())) % 4294967291
    });
    // in these pieces, as what is written is cut where the buffer is full
    write!(out, " {n}")?;
    out.write_all(b" entries")?;
    write!(out, " {digest}")
}

// Numbers that a line stands for: values that come in turn, over and over, until there are so many.
#[derive(Clone, Copy)]
struct Run<'a> {
    values: &'a [u64],
    count: usize,
}

// What stands at the front of a line, and the rest of the line. Gives nothing where the line is empty, or a short form is cut or has no values.
fn split_run(line: &[u64]) -> Option<(Run, &[u64])>
    ensures { IfSome result (λ r. (0 < length r.0.values.now) × (length r.1.now < length line.now)) }
{
    match line {
        [SHORT, count, k, rest @ ..] if 0 < *k => {
            let (values, rest) = rest.split_at_checked(*k as usize)?;
            let count = *count as usize;
            Some((Run { values, count }, rest))
        }
        [] | [SHORT, ..] => None,
        _ => {
            let (values, rest) = line.split_at(1);
            Some((Run { values, count: 1 }, rest))
        }
    }
}

// The numbers of a line, the short forms written out.
fn write_out(alloc: Global, line: &[u64]) -> Result<Vec<u64>, Stop> {
    let mut numbers = Vec::new(alloc);
    let (first, mut rest) = line.split_at(line.len().min(2));
    numbers.extend_from_slice(first)?;
    while !rest.is_empty() {
        let (run, after) = split_run(rest).ok_or(Stop::NoCase)?;
        if run.count > WHOLE.saturating_sub(numbers.len()) {
            return Err(Stop::NoCase);
        }
        numbers.extend(run.values.iter().cycle().take(run.count))?;
        rest = after;
    }
    Ok(numbers)
}

// The number with one decimal digit more, if it fits.
fn grow(value: u64, digit: u8) -> Option<u64>
    ensures { SomeIff result (value * 10 + digit < 2 ^ 64) (value * 10 + digit) }
{
    value.checked_mul(10)?.checked_add(u64::from(digit))
}

// A line so far.
#[derive(Drop)]
struct Line {
    // its whole numbers; nothing in a spoilt line
    numbers: Option<Vec<u64>>,
    // the number that is being read, if it has a digit
    open: Option<u64>,
}

impl Line {
    // A line without bytes.
    fn new(alloc: Global) -> Line {
        Line {
            numbers: Some(Vec::new(alloc)),
            open: None,
        }
    }

    fn is_empty(&self) -> bool {
        self.open.is_none() && self.numbers.as_ref().is_some_and(|n| n.is_empty())
    }

    // A byte more, which is to be a digit.
    fn add(&mut self, b: u8) {
        self.open = if b.is_ascii_digit() {
            grow(self.open.unwrap_or(0), b - b'0')
        } else {
            None
        };
        if self.open.is_none() {
            self.numbers = None;
        }
    }

    // The number that is being read ends here.
    fn close(&mut self) -> Result<(), AllocError> {
        match (self.open.take(), &mut self.numbers) {
            (Some(n), Some(numbers)) if numbers.len() < ROOM => numbers.push(n)?,
            _ => self.numbers = None,
        }
        Ok(())
    }
}

// The input's lines, each answered where it ends.
#[derive(Drop)]
struct Lines<W> {
    alloc: Global,
    out: W,
    line: Line,
}

impl<W: Write> Lines<W> {
    fn new(alloc: Global, out: W) -> Lines<W> {
        Lines {
            alloc,
            out,
            line: Line::new(alloc),
        }
    }

    // The answer to the line.
    fn answer(&mut self) -> Result<(), Stop> {
        let line = self.line.numbers.as_ref().ok_or(Stop::NoCase)?;
        let numbers = write_out(self.alloc, line.as_slice())?;
        Case::read(self.alloc, numbers.as_slice())?.answer(&mut self.out)?;
        Ok(())
    }

    // The line ends here.
    fn end(&mut self) -> io::Result<()> {
        self.line.close()?;
        match self.answer() {
            Ok(()) => self.out.write_all(b"\n")?,
            Err(Stop::NoCase) => self.out.write_all(b"bad line\n")?,
            Err(Stop::Io(error)) => return Err(error),
        }
        self.line = Line::new(self.alloc);
        Ok(())
    }

    // More bytes.
    fn feed(&mut self, bytes: &[u8]) -> io::Result<()> {
        for b in bytes {
            match *b {
                b'\n' => self.end()?,
                b' ' => self.line.close()?,
                b => self.line.add(b),
            }
        }
        Ok(())
    }

    // No byte more. A line of no bytes is none.
    fn last(&mut self) -> io::Result<()> {
        if self.line.is_empty() {
            Ok(())
        } else {
            self.end()
        }
    }
}

// The answers to the lines that a read ends are written before the next read.
fn main(rt: HostRuntime) -> io::Result<()> {
    let alloc = rt.alloc();
    let mut input = rt.stdin();
    let mut lines = Lines::new(alloc, BufWriter::new(alloc, rt.stdout())?);
    let mut bytes = [0u8; 65536];
    for _ in 0..u64::MAX {
        let n = input.read(&mut bytes)?;
        if n == 0 {
            lines.last()?;
            return lines.out.flush();
        }
        lines.feed(&bytes[..n])?;
        lines.out.flush()?;
    }
    Ok(())
}

#[cfg(test)]
mod tests {
    use super::*;
    use std::test::Fail;

    // What is printed for an input.
    fn printed(alloc: Global, input: &[u8]) -> io::Result<Vec<u8>> {
        let mut lines = Lines::new(alloc, Vec::new(alloc));
        lines.feed(input)?;
        lines.last()?;
        Ok(lines.out)
    }

    #[test]
    fn memory_is_enough(rt: HostRuntime) -> Result<(), Fail> {
        let alloc = rt.alloc();
        let checked = printed(
            alloc,
            b"1 1 3 1 0 0 1 0\n1 1 99999 1 1 3 1 0 0 1 0\n3 1 3 1 0 0 1 0 0 2 9 9",
        )?;
        assert_eq!(rt;
            checked.as_slice(),
            b"total 1\ntotal 1\nresult 2; 1 0\n".as_slice()
        );
        let bad = printed(
            alloc,
            b"\n 1\n18446744073709551616\n1 1 3 1 0 0 1 0 0\n1 1 99999 1 0",
        )?;
        assert_eq!(rt;
            bad.as_slice(),
            b"bad line\nbad line\nbad line\nbad line\nbad line\n".as_slice()
        );
        Ok(())
    }
}
