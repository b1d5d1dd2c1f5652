// Standard input and standard output, with a log of what goes through them: the handle `Stdio` keeps the digest of its log, and contracts can then
// speak of the log. Outside of this crate no code can set that number, and only `read_part` and `write_part` change it.
//
// No contract says what the system read or wrote. So this is to be read here: that `read_part` makes one read, of standard input, and
// `write_part` hands its part once to a write of all of it, to standard output (`Write::write_all`), neither with a buffer; which answers are a
// failure; and that what is said goes to standard error. And of a program: that it makes one `Stdio`, and reads and writes by it alone.
#![tactic(auto)]

ghost use Rattle.std.specs.Prelude.{◌≡◌, ◌∷◌, ◌<◌, ℕ, [], length, map};
ghost use Rattle.streams.specs.declared.Entry.{Entry};
ghost use Rattle.streams.specs.Log.{entry_number, with_entry, digest_after, Logged};
ghost use Rattle.streams.specs.Parts.{Took, Wrote};

use std::fmt::Display;
use std::io::{Read, Stderr, Stdin, Stdout, Write};
use std::str::from_utf8;
use std::{fmt, io};

// The standard streams of the process, and the digest of the log of what went through them.
#[derive(Drop)]
pub struct Stdio {
    input: Stdin,
    output: Stdout,
    errors: Stderr,
    log: u64,
}

// An entry of the log.
#[derive(Clone, Copy, PartialEq, Eq, Debug)]
pub enum Entry {
    // a byte was read; a byte was handed to a write
    ByteRead(u8),
    ByteWritten(u8),
    // a read returned, with the bytes before this; one gave no bytes, which is the end of the input; one failed
    ReadReturned,
    EndOfInput,
    ReadFailed,
    // the last write failed: the bytes that were handed to it are the last before this, and any number of them may have been taken
    WriteFailed,
}

// The number of an entry: no two have the same.
impl From<Entry> for u64 {
    ghost from_gives = { λ e n. n ≡ entry_number e };

    fn from(entry: Entry) -> u64 {
        match entry {
            Entry::ByteRead(b) => u64::from(b),
            Entry::ByteWritten(b) => 256 + u64::from(b),
            Entry::ReadReturned => 512,
            Entry::EndOfInput => 513,
            Entry::ReadFailed => 514,
            Entry::WriteFailed => 515,
        }
    }
}

// The digest with one entry more, by its number.
fn with_entry(digest: u64, entry: Entry) -> u64
    ensures { result ≡ with_entry digest entry }
{
    (digest % 4294967296 * 16777619 + u64::from(entry) + 1) % 4294967296
}

// The digest with an entry more for each byte.
fn with_bytes<F: Fn(u8) -> Entry + Drop>(digest: u64, bytes: &[u8], entry: F) -> u64
    requires { F.IsAlwaysCallable entry }
    ensures { (e : ℕ → Entry) → ((b : ℕ) (r : Entry) → F.post entry b r → r ≡ e b)
        → result ≡ digest_after digest (map e bytes.now) }
{
    let mut d = digest;
    for b in bytes {
        d = with_entry(d, entry(*b));
    }
    d
}

impl Stdio {
    // With nothing in the log.
    pub fn new(rt: HostRuntime) -> Stdio
        ensures { result.log ≡ 0 }
    {
        Stdio {
            input: rt.stdin(),
            output: rt.stdout(),
            errors: rt.stderr(),
            log: 0,
        }
    }

    // Adds an entry to the log.
    #[tactic(auto, unfolding(crate::specs::Log::digest_after))]
    fn add(&mut self, entry: Entry)
        ensures { Logged self.old.log self.new.log (entry ∷ []) }
    {
        self.log = with_entry(self.log, entry);
    }

    // One read of standard input, into the part: how many bytes then stand at its front, or nothing where the input has ended.
    pub fn read_part(&mut self, part: &mut [u8]) -> io::Result<Option<usize>>
        requires { 0 < length part.old }
        ensures { Took self.old.log self.new.log part.new result }
    {
        match self.input.read(part) {
            Ok(0) => {
                self.add(Entry::EndOfInput);
                Ok(None)
            }
            Ok(n) => {
                self.log = with_bytes(self.log, &part[..n], Entry::ByteRead);
                self.add(Entry::ReadReturned);
                Ok(Some(n))
            }
            Err(reason) => {
                self.add(Entry::ReadFailed);
                Err(reason)
            }
        }
    }

    // Writes the part to standard output, all of it.
    pub fn write_part(&mut self, part: &[u8]) -> io::Result<()>
        ensures { Wrote self.old.log self.new.log part.now result }
    {
        self.log = with_bytes(self.log, part, Entry::ByteWritten);
        if let Err(reason) = self.output.write_all(part) {
            self.add(Entry::WriteFailed);
            return Err(reason);
        }
        Ok(())
    }

    // Says on standard error what failed and why.
    // (In pieces: each is tried, also after one that was not taken, where one `write!` of all would stop.)
    pub fn say_failed(&self, what: &[u8], reason: Reason) {
        self.say(what);
        self.say(b": ");
        let mut errors = self.errors;
        let _ = write!(errors, "{reason}");
        self.say(b"\n");
    }

    // Says the bytes on standard error.
    pub fn say(&self, line: &[u8]) {
        let mut errors = self.errors;
        let _ = errors.write_all(line);
    }
}

// Why a read or a write failed: the library's text, without the system's number for the error, which it adds in brackets.
#[derive(Clone, Copy, Debug)]
pub struct Reason(pub io::Error);

impl Display for Reason {
    fn fmt<W: fmt::Write>(&self, f: &mut fmt::Formatter<W>) -> fmt::Result {
        // (An array and what `write!` leaves of it: `to_string` and `String` would need the heap, which the program has none of.)
        let mut text = [0u8; 256];
        let mut room = &mut text[..];
        let _ = write!(room, "{}", self.0);
        let n = 256usize.saturating_sub(room.len());
        let words = from_utf8(&text[..n]).unwrap_or("");
        f.write_str(
            words
                .rsplit_once(" (os error ")
                .map_or(words, |(before, _)| before),
        )
    }
}
