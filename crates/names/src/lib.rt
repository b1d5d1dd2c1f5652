// Names lists: refusal 17, and the line with a name.
#![tactic(auto)]

ghost use Rattle.std.specs.Prelude.{◌≡◌, true, ◌+◌, ◌<◌, ◌≤◌, length, slice_index, drop, IfOk};
ghost use Rattle.std.proofs.Props.{props};
ghost use Rattle.model.specs.Answers.{Outcome};
ghost use Rattle.model.specs.Names.{is_letter, is_name_byte, all_name_bytes, same_name, line_at, how_many_names, names_then};
ghost use Rattle.chains.specs.Chains.{Clear};
ghost use Rattle.words.specs.Words.{is_list_byte};
ghost use Rattle.names.specs.NamesIndex.{caseless, all_inner, stretch, front_of, mixed, bucket_at, hash_of, StretchFrom, OnlyListBytes, name_end, name_found, Lined, NamesIndexed, Sought, Started, Falling, IsEmpty, names_check_then, NamesAnswer};

use chains::mixed;
use model::{Kind, Refusal};
use words::{foreign_bytes, inner_ahead, word_at, word_or_rest, words_alike};

// The most bytes of a list that keeps to the rules: 255 names of 24 bytes, each with byte 10.
const LONGEST_LIST: usize = 6375;

// Where a stretch of bytes from `-` to `z` ends, and its bucket of the index.
#[derive(Clone, Copy, PartialEq, Eq, Debug)]
pub struct Stretch {
    pub end: usize,
    pub bucket: usize,
}

// An ASCII letter.
#[tactic(auto, unfolding(model::specs::Names::is_letter))]
pub fn is_letter(b: u8) -> bool
    ensures { result ≡ is_letter b }
{
    b.is_ascii_alphabetic()
}

// A byte that may stand in a name: a letter, a digit, `-` or `_`.
#[tactic(auto, unfolding(model::specs::Names::is_letter, model::specs::Names::is_name_byte))]
pub fn is_name_byte(b: u8) -> bool
    ensures { result ≡ is_name_byte b }
{
    matches!(b, b'-' | b'_') || b.is_ascii_alphanumeric()
}

// A byte with the bit set by which a small letter differs from the capital one.
fn caseless(b: u8) -> u8
    ensures { result ≡ caseless b }
{
    b | 32
}

// Whether a name is equal to as many bytes from `-` to `z`, byte by byte. Such bytes are alike just if they are the same with the bit of the case
// set; byte 127, which is none of them, would be taken for `_`.
fn same_rest(a: &[u8], b: &[u8]) -> bool
    requires a_value { all_name_bytes a.now ≡ true }
    requires b_value { all_inner b.now ≡ true }
    requires same_len { length a.now ≡ length b.now }
    ensures { result ≡ same_name a.now b.now }
{
    a.iter().zip(b).all(|(x, y)| caseless(*x) == caseless(*y))
}

// Whether a name is equal to other bytes from `-` to `z`: eight bytes at a time, the rest byte by byte.
fn same_name(a: &[u8], b: &[u8]) -> bool
    requires a_value { all_name_bytes a.now ≡ true }
    requires b_value { all_inner b.now ≡ true }
    ensures { result ≡ same_name a.now b.now }
{
    if a.len() != b.len() {
        return false;
    }
    let (a_words, a_rest) = a.as_chunks::<8>();
    let (b_words, b_rest) = b.as_chunks::<8>();
    let same_words = a_words.iter().zip(b_words).all(|(x, y)| words_alike(
        word_at::<8>(x, 0),
        word_at::<8>(y, 0),
    ));
    same_words && same_rest(a_rest, b_rest)
}

// Whether all bytes are name bytes.
fn all_name_bytes(name: &[u8]) -> bool
    ensures { result ≡ all_name_bytes name.now }
{
    name.iter().all(|b| is_name_byte(*b))
}

// A byte that may stand in a names list: a name byte, or byte 10.
fn is_list_byte(b: u8) -> bool
    ensures { result ≡ is_list_byte b }
{
    is_name_byte(b) || b == b'\n'
}

// Whether only bytes that may stand in a names list do. A no says nothing: a list that is too long is not looked through.
fn only_list_bytes(names: &[u8]) -> bool
    ensures { result ≡ true → OnlyListBytes 0 names.now }
{
    if LONGEST_LIST < names.len() {
        return false;
    }
    let (words, rest) = names.as_chunks::<8>();
    let mut marks = 0;
    for word in words {
        marks |= foreign_bytes(u64::from_le_bytes(*word));
    }
    marks == 0 && rest.iter().all(|b| is_list_byte(*b))
}

// One word more in a hash.
fn mix(h: u64, w: u64) -> u64
    ensures { result ≡ mixed h w }
{
    mixed::<2146121005, 1540483477>(h, w)
}

// The bucket of a hash, one of 512.
fn bucket(h: u64) -> usize
    ensures { (result ≡ bucket_at h) × (result < 512) }
{
    (h % 4294967296 * 2654435769 % 4294967296 / 8388608) as usize
}

// A seed for the hash, from the list's bytes, sixteen at a time, as far as a list can keep to the rules. No answer depends on it; names that share a
// bucket by one seed do not by another.
pub fn list_seed(names: &[u8]) -> u64 {
    let (pairs, _) = names[..names.len().min(LONGEST_LIST)].as_chunks::<16>();
    let mut seed = 0;
    for (i, pair) in pairs.iter().enumerate() {
        seed = mix(
            seed ^ mix(16 * i as u64, word_at::<8>(pair, 8)),
            word_at::<8>(pair, 0),
        );
    }
    seed
}

// The hash of the first n bytes of a word, fewer than eight, after h.
fn mix_front(h: u64, w: u64, n: usize) -> u64
    requires { n < 8 }
    ensures { result ≡ mixed h (front_of n w) }
{
    mix(h, (w | 0x2020_2020_2020_2020) % (1 << (8 * n)))
}

// The stretch of bytes from `-` to `z` that begins at `at`: where it ends, and its bucket. The hash is taken by words, and begins with a seed.
pub fn stretch_at(bytes: &[u8], at: usize, seed: u64) -> Stretch
    requires { at ≤ length bytes.now }
    ensures { StretchFrom seed bytes.now at result }
{
    let mut h = seed;
    let mut i = at;
    // (Not a `for` over chunks: the end would be said twice, in the word that has another byte, and after the last one where none has.)
    loop {
        let w = word_or_rest(bytes, i);
        let n = inner_ahead(w);
        if n < 8 {
            return Stretch {
                end: i + n,
                bucket: bucket(mix_front(h, w, n)),
            };
        }
        h = mix(h, w | 0x2020_2020_2020_2020);
        i += 8;
    }
}

// A names list; where `clean` is true, only bytes that may stand in one are known to stand in it. (A bool: it is read as one side of an `||`, which two
// cases with names would make a `match`.)
#[derive(Clone, Copy, Debug)]
struct ListBytes<'a> {
    bytes: &'a [u8],
    clean: bool,
    ghost known: { clean ≡ true → OnlyListBytes 0 bytes.now } by { Prim.hlevel props },
}

impl<'a> ListBytes<'a> {
    // Where the name of the line that begins at `at` ends, if the line is a name followed by byte 10; `end` is where the stretch from there ends.
    fn name_end(&self, at: usize, end: usize) -> Option<usize>
        requires at_in_bounds { at < length self.now.bytes.now }
        requires end_value { (end ≡ at + length (stretch (drop at self.now.bytes.now))) × (end ≤ length self.now.bytes.now) }
        ensures { result ≡ name_end self.now.bytes.now at }
    {
        let name = &self.bytes[at..end];
        if self.bytes.get(end) != Some(&b'\n') || 24 < name.len() || !is_letter(self.bytes[at]) {
            return None;
        }
        (self.clean || all_name_bytes(name)).then_some(end)
    }
}

// The name on a line, as a part of the list.
pub fn name_at<'a>(names: &'a [u8], starts: &[u16; 256], n: usize, k: usize) -> &'a [u8]
    requires lined { Lined names.now starts.now n }
    requires k_lt_n { k < n }
    ensures { result.now ≡ (line_at names.now k).bytes }
{
    let from = usize::from(starts[k]);
    let end = usize::from(starts[k + 1]) - 1;
    &names[from..end]
}

// The first n lines of a names list, each of them a name: where each begins.
#[derive(Clone, Copy, Debug)]
pub struct NameLines<'a> {
    pub names: &'a [u8],
    pub starts: &'a [u16; 256],
    pub n: usize,
    ghost lined: { Lined names.now starts.now n } by { Prim.hlevel props },
}

impl<'a> NameLines<'a> {
    // The name on a line, as a part of the list.
    pub fn name(&self, k: usize) -> &'a [u8]
        requires { k < self.now.n }
        ensures { result.now ≡ (line_at self.now.names.now k).bytes }
    {
        name_at(self.names, self.starts, self.n, k)
    }
}

// Lines, no two of which have equal names, and the index of their names, by hashes that begin with a seed.
// (The chains of a bucket are links in an array, and not a map: the library has no heap.)
#[derive(Clone, Copy, Debug)]
pub struct NamesIndex<'a> {
    pub lines: NameLines<'a>,
    pub heads: &'a [u16; 512],
    pub next: &'a [u16; 256],
    pub seed: u64,
    ghost indexed: { NamesIndexed seed lines.names.now lines.starts.now heads.now next.now lines.n } by { Prim.hlevel props },
}

// The lines of a bucket, the last first: `link` is 1 more than the next one's number, or 0 at their end. (A number, and no Option: chains' laws of links
// are of numbers, as a row's link is a part of its word; of Options each law would be said through a function that makes the number again.)
#[derive(Clone, Copy, Debug)]
struct BucketLines<'a> {
    links: &'a [u16; 256],
    link: usize,
    ghost falling: { Falling links.now link } by { Prim.hlevel props },
}

impl Iterator for BucketLines<'_> {
    ghost use Rattle.names.specs.Walk.{lines_left, GivesLine};

    type Item = usize;

    ghost next_gives = { GivesLine };

    ghost remaining = { lines_left };

    fn next(&mut self) -> Option<usize> {
        let k = self.link.checked_sub(1)?;
        self.link = usize::from(self.links[k]);
        Some(k)
    }
}

// The line among the first n whose name is equal to this; b is the name's bucket, by the index of some seed.
pub fn find_name(
    names: &[u8],
    starts: &[u16; 256],
    heads: &[u16; 512],
    next: &[u16; 256],
    n: usize,
    b: usize,
    name: &[u8],
) -> Option<usize>
    requires sought { Sought names.now starts.now heads.now next.now n name.now b }
    requires name_value { all_inner name.now ≡ true }
    ensures { result ≡ name_found names.now n name.now }
{
    let lines = BucketLines {
        links: next,
        link: usize::from(heads[b]),
    };
    for k in lines {
        if same_name(name_at(names, starts, n, k), name) {
            return Some(k);
        }
    }
    None
}

impl NamesIndex<'_> {
    // The line whose name is equal to this; b is the name's bucket. (No one value for both: the hash begins with the seed of this index, so the two would
    // be tied by a `requires` still.)
    pub fn find(&self, b: usize, name: &[u8]) -> Option<usize>
        requires hashed { (b ≡ hash_of self.now.seed name.now) × (b < 512) }
        requires name_value { all_inner name.now ≡ true }
        ensures { result ≡ name_found self.now.lines.names.now self.now.lines.n name.now }
    {
        let NameLines { names, starts, n } = self.lines;
        find_name(names, starts, self.heads, self.next, n, b, name)
    }
}

// How many names the list has, or refusal 17 at the first faulty line. Where there is none, `starts` then holds where each line begins, and `heads` and
// `next` index the names.
pub fn check_names(
    names: &[u8],
    seed: u64,
    starts: &mut [u16; 256],
    heads: &mut [u16; 512],
    next: &mut [u16; 256],
) -> Result<usize, Refusal>
    requires started { Started starts.old }
    requires clear { Clear 512 256 heads.old next.old }
    ensures { NamesAnswer seed names.now starts.new heads.new next.new result }
{
    let list = ListBytes {
        bytes: names,
        clean: only_list_bytes(names),
    };
    // (Not a `for`: where the next line begins is known by this one's end, so the lines would be an iterator of their own, with what `next` gives and
    // what remains stated, for this one loop.)
    let mut n = 0;
    let mut at = 0;
    while at < names.len() {
        if 255 <= n {
            return Err(Refusal::new(Kind::FaultyNames, n));
        }
        let stretch = stretch_at(names, at, seed);
        let Some(end) = list.name_end(at, stretch.end) else {
            return Err(Refusal::new(Kind::FaultyNames, n));
        };
        let b = stretch.bucket;
        let lines = NameLines { names, starts, n };
        let index = NamesIndex {
            lines,
            heads,
            next,
            seed,
        };
        if index.find(b, &names[at..end]).is_some() {
            return Err(Refusal::new(Kind::FaultyNames, n));
        }
        next[n] = heads[b];
        n += 1;
        heads[b] = n as u16;
        at = end + 1;
        starts[n] = at as u16;
    }
    if n == 0 {
        return Err(Refusal::new(Kind::FaultyNames, 0));
    }
    Ok(n)
}

// A names list that keeps to the rules: all its lines, and their index.
#[derive(Clone, Copy, Debug)]
pub struct NamesList<'a> {
    pub index: NamesIndex<'a>,
    ghost whole: { index.lines.n ≡ how_many_names index.lines.names.now } by { Prim.hlevel props },
}

// Room for where the lines of a names list begin, and for the index of their names.
// `starts` and `next` stay two arrays: n lines have n + 1 starts and n links, and writing a term takes the starts alone.
#[derive(Drop)]
pub struct NamesRoom {
    pub starts: [u16; 256],
    pub heads: [u16; 512],
    pub next: [u16; 256],
}

impl NamesRoom {
    // Room with nothing in it.
    pub fn new() -> NamesRoom
        ensures { IsEmpty result }
    {
        NamesRoom {
            starts: [0; 256],
            heads: [0; 512],
            next: [0; 256],
        }
    }

    // The list, if it keeps to the rules, or refusal 17 at the first faulty line. The hashes begin with the seed, whichever it is.
    pub fn check<'a>(&'a mut self, names: &'a [u8], seed: u64) -> Result<NamesList<'a>, Refusal>
        requires { IsEmpty self.old }
        ensures decided { (o : Outcome) → names_check_then result o ≡ names_then names.now o }
        ensures of_names { IfOk result (λ l. l.index.lines.names.now ≡ names.now) }
        ensures of_seed { IfOk result (λ l. l.index.seed ≡ seed) }
    {
        let n = check_names(
            names,
            seed,
            &mut self.starts,
            &mut self.heads,
            &mut self.next,
        )?;
        let lines = NameLines {
            names,
            starts: &self.starts,
            n,
        };
        let index = NamesIndex {
            lines,
            heads: &self.heads,
            next: &self.next,
            seed,
        };
        Ok(NamesList { index })
    }
}
