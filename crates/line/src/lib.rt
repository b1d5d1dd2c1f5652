// Lines: what is printed for the program's input, line by line, with any table and names list.
#![tactic(auto)]

ghost use Rattle.std.specs.Prelude.{◌≡◌, true, List, [], ◌∷◌, ◌++◌, ℕ, ◌+◌, ◌<◌, ◌≤◌, length, ltb, if◌then◌else◌};
ghost use Rattle.model.specs.Answers.{refused_by};
ghost use Rattle.term.specs.Written.{Put};
ghost use Rattle.line.specs.Lines.{decimal, printed};
ghost use Rattle.line.specs.Held.{no_end, with_digit, with_digits, longest_line, Holding, Begins, Answers, Ends, part};

use model::{Kind, Refusal};
use term::put_bytes;

// What a program answers by: a table and a names list.
#[derive(Clone, Copy, PartialEq, Eq, Debug)]
pub struct Lists<'a> {
    pub states: u64,
    pub rows: &'a [u16],
    pub accepting: &'a [u16],
    pub names: &'a [u8],
}

// The most bytes that answer one line.
pub const LONGEST_LINE: usize = 53249;

// A line so far: its first 4,096 bytes, how many bytes it has (4,097 stands for more), and the number that they make while all are digits. The
// largest number of 64 bits, which is below no total, stands for every number from there up.
// (Both stop at a largest value, and are no enums: a line that is longer is answered as one of 4,097 bytes is, and a number beyond as the largest, so
// a case `Longer` or `Beyond` would be one more to each `match`, with the same answer in it.)
#[derive(Clone, Copy, Debug)]
pub struct Line {
    text: [u8; 4096],
    len: usize,
    number: Option<u64>,
    ghost holding: { ∥ Holding text len number ∥₁ },
}

// After bytes were fed: the place of the next byte to feed, and how many bytes are to be printed.
#[derive(Clone, Copy, PartialEq, Eq, Debug)]
pub struct Fed {
    pub next: usize,
    pub count: usize,
}

// The number that digits make, with one byte more; none where that is no digit.
fn with_digit(n: u64, b: u8) -> Option<u64>
    ensures { result ≡ with_digit (Some n) b }
{
    if !b.is_ascii_digit() {
        return None;
    }
    Some(n.saturating_mul(10).saturating_add(u64::from(b - b'0')))
}

// The same with more bytes, one after another.
fn with_digits(number: Option<u64>, bytes: &[u8]) -> Option<u64>
    ensures { result ≡ with_digits number bytes.now }
{
    bytes.iter().try_fold(number?, |n, b| with_digit(n, *b))
}

// The place of the first byte that ends a line.
fn line_end(bytes: &[u8]) -> Option<usize>
    ensures { Ends bytes.now result }
{
    bytes.iter().position(|b| *b == b'\n')
}

impl Line {
    ghost use Rattle.line.specs.Feeding.{Holds};

    // A line without bytes.
    pub fn new() -> Line
        ensures { Holds [] result }
    {
        Line {
            text: [0; 4096],
            len: 0,
            number: Some(0),
        }
    }

    // Makes it a line without bytes.
    fn clear(&mut self)
        ensures { Holds [] self.new }
    {
        self.len = 0;
        self.number = Some(0);
    }

    // Adds bytes that end no line; `text` keeps the first 4,096.
    fn feed(&mut self, bytes: &[u8])
        requires { no_end bytes.now ≡ true }
        ensures { (held : List ℕ) → Holds held self.old → Holds (held ++ bytes.now) self.new }
    {
        let at = self.len.min(4096);
        let n = bytes.len().min(4096 - at);
        self.text[at..at + n].copy_from_slice(&bytes[..n]);
        self.number = with_digits(self.number, bytes);
        self.len = (self.len + bytes.len()).min(4097);
    }

    // The number that the line is, if it is one.
    fn number_of(&self) -> Option<u64>
        ensures { result ≡ (if ltb 0 self.now.len then self.now.number else None) }
    {
        if 0 < self.len { self.number } else { None }
    }
}

// Puts a number in decimal, then a byte, at a place; gives the place after them.
fn put_decimal(n: u64, mark: u8, at: usize, out: &mut [u8]) -> usize
    requires { at + 21 ≤ length out.old }
    ensures { Put out.old out.new (decimal n ++ mark ∷ []) at result × (result ≤ at + 21) }
{
    let mut digits = [0u8; 20];
    let k = io::decimal(n, &mut digits);
    let next = put_bytes(out, at, &digits[..k]);
    out[next] = mark;
    next + 1
}

// Puts the output line of a number at the front of `out`; gives its length.
fn put_number(n: u64, out: &mut [u8; LONGEST_LINE]) -> usize
    ensures { Begins out.new (decimal n ++ 10 ∷ []) result }
{
    put_decimal(n, b'\n', 0, out)
}

// Puts the output line of a refusal: its number and its place.
// (By hand: what the list then holds is promised, and no clause knows which bytes `write!` leaves in a slice.)
fn put_refusal(r: Refusal, out: &mut [u8; LONGEST_LINE]) -> usize
    ensures { Begins out.new (printed (refused_by r) decimal) result }
{
    let number = u64::from(u32::from(r.kind));
    let place = r.place;
    let a = put_bytes(out, 0, b"refused ");
    let b = put_decimal(number, b' ', a, out);
    put_decimal(place, b'\n', b, out)
}

impl Lists<'_> {
    ghost use Rattle.line.specs.Feeding.{Holds};
    ghost use Rattle.line.specs.Answered.{number_answer_of, term_answer_of, answer_of, output_of, PrintsFor};

    // Puts the output line that answers a number, its term, unless there is a refusal; the number's tree is written into `tree`.
    fn answer_number(
        &self,
        number: u64,
        tree: &mut [u16; 4096],
        out: &mut [u8; LONGEST_LINE],
    ) -> Result<usize, Refusal>
        ensures { Answers out.new (number_answer_of self.now number) result }
    {
        let count = operations::write(
            self.states,
            self.rows,
            self.accepting,
            number,
            tree,
        )? as usize;
        let end = term::write_term(self.names, &tree[..count], out)? as usize;
        out[end] = b'\n';
        Ok(end + 1)
    }

    // Puts the output line that answers a term, its number, unless there is a refusal; the term's tree is read into `tree`.
    fn answer_term(
        &self,
        text: &[u8],
        tree: &mut [u16; 4096],
        out: &mut [u8; LONGEST_LINE],
    ) -> Result<usize, Refusal>
        ensures { Answers out.new (term_answer_of self.now text.now) result }
    {
        let count = term::read_term(self.names, text, tree)? as usize;
        let number = operations::number(self.states, self.rows, self.accepting, &tree[..count])?;
        Ok(put_number(number, out))
    }

    // Puts the output line that answers an input line, unless there is a refusal; `tree` is a list to work in.
    fn answer_line(
        &self,
        line: &Line,
        tree: &mut [u16; 4096],
        out: &mut [u8; LONGEST_LINE],
    ) -> Result<usize, Refusal>
        ensures { (held : List ℕ) → Holds held line.now → Answers out.new (answer_of self.now held) result }
    {
        if let Some(number) = line.number_of() {
            return self.answer_number(number, tree, out);
        }
        if 4096 < line.len {
            return Err(Refusal::new(Kind::TextTooLong, 0));
        }
        self.answer_term(&line.text[..line.len], tree, out)
    }

    // Puts the output line that answers an input line, a refusal too.
    // (`out` is no array: tried, and where `gather` cuts one out of `out[filled..]` by `first_chunk_mut`, of the list afterwards only the length is
    // known, not that the answers before are still in it.)
    fn answer(&self, line: &Line, tree: &mut [u16; 4096], out: &mut [u8]) -> usize
        requires { longest_line ≤ length out.old }
        ensures within { result ≤ length out.new }
        ensures begins { (held : List ℕ) → Holds held line.now → Begins out.new (answer_of self.now held) result }
    {
        let room = out.first_chunk_mut().unwrap();
        match self.answer_line(line, tree, room) {
            Ok(count) => count,
            Err(refusal) => put_refusal(refusal, room),
        }
    }

    // Feeds the bytes from a place on, up to the end of a line or of the bytes. Where a line has ended, puts the output line that answers
    // it; `tree` is a list to work in. (`out`: as in `answer`. `tree` and `out` are no struct: one list to work in serves all lines, and each line
    // has another piece of `out`, so the struct would be made anew for each line, to be taken apart at the two calls that it ends in.)
    fn feed_line(
        &self,
        line: &mut Line,
        bytes: &[u8],
        from: usize,
        tree: &mut [u16; 4096],
        out: &mut [u8],
    ) -> Fed
        requires from_in_bounds { (from < length bytes.now) × (longest_line ≤ length out.old) }
        ensures from_lt_next { (from < result.next) × (result.next ≤ length bytes.now) }
        ensures within { result.count ≤ length out.new }
        ensures by_index { (held : List ℕ) → Holds held line.old
            → PrintsFor self.now held (part bytes.now from result.next) line.new out.new result.count }
    {
        let Some(end) = line_end(&bytes[from..]) else {
            line.feed(&bytes[from..]);
            return Fed {
                next: bytes.len(),
                count: 0,
            };
        };
        let end = from + end;
        line.feed(&bytes[from..end]);
        let n = self.answer(line, tree, out);
        line.clear();
        Fed {
            next: end + 1,
            count: n,
        }
    }

    // Feeds the bytes from a place on, line after line, to the end of the bytes or until the list may have no room for one answer more; puts what is to
    // be printed, one answer after another.
    // (`out` has its room by `requires`: as an array, its type would ask callers for its exact length.)
    pub fn gather(&self, line: &mut Line, bytes: &[u8], from: usize, out: &mut [u8]) -> Fed
        requires from_in_bounds { (from < length bytes.now) × (longest_line ≤ length out.old) }
        ensures from_lt_next { (from < result.next) × (result.next ≤ length bytes.now) }
        ensures within { result.count ≤ length out.new }
        ensures by_index { (held : List ℕ) → Holds held line.old
            → PrintsFor self.now held (part bytes.now from result.next) line.new out.new result.count }
    {
        let mut tree = [0u16; 4096];
        let mut i = from;
        let mut filled = 0;
        while i < bytes.len() && LONGEST_LINE <= out.len() - filled {
            let fed = self.feed_line(line, bytes, i, &mut tree, &mut out[filled..]);
            i = fed.next;
            filled += fed.count;
        }
        Fed {
            next: i,
            count: filled,
        }
    }

    // At the end of the input: puts the output line that answers a last line without byte 10, or nothing where that line is empty;
    // gives how many bytes are to be printed. (`out`: as in `gather`.)
    pub fn last_line(&self, line: &Line, out: &mut [u8]) -> usize
        requires longest_line_in_bounds { longest_line ≤ length out.old }
        ensures within { result ≤ length out.new }
        ensures begins { (held : List ℕ) → Holds held line.now → Begins out.new (output_of self.now held) result }
    {
        if line.len == 0 {
            return 0;
        }
        let mut tree = [0u16; 4096];
        self.answer(line, &mut tree, out)
    }
}
