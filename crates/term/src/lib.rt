// Terms: reading one into a tree, and writing a tree as one.
#![tactic(auto)]

ghost use Rattle.std.specs.Prelude.{◌≡◌, false, ◌+◌, ◌-◌, ◌^◌, ◌<◌, ◌≤◌, length, get_or, take, ltb, eqb};
ghost use Rattle.model.specs.Answers.{refused_by};
ghost use Rattle.model.specs.Names.{is_name_byte, name_of};
ghost use Rattle.model.specs.Tree.{WellFormed};
ghost use Rattle.model.specs.TermOperations.{fits_in, read_named, write_fits, write_formed, write_named};
ghost use Rattle.chains.specs.First.{first_with};
ghost use Rattle.scan.specs.TextState.{scanned};
ghost use Rattle.term.specs.Emit.{entry_text, closing, mark_after, entries_text};
ghost use Rattle.term.specs.Written.{Put, Front, EntriesNamed, Gave, ReadBy, WriteBy, ReadTerm, WriteTerm};
ghost use Rattle.term.specs.Pass.{Closing, Follows, unlisted_at, SymbolPut, Cleared, counted, Passed};

use model::{Answer, Kind, Refusal};
use names::{NameLines, NamesList, NamesRoom, list_seed, stretch_at};
use scan::scan_text;
use tree::{Step, check_tree};
use words::{put_word, word_at};

// A name that is due: its place, and how many brackets are open.
#[derive(Clone, Copy, PartialEq, Eq, Debug)]
pub struct Due {
    place: usize,
    depth: usize,
}

// What follows a name: so many bars, and then another name, or the text's end.
#[derive(Clone, Copy, PartialEq, Eq, Debug)]
pub struct After {
    bars: usize,
    due: Option<Due>,
}

// How many `)` stand at a place, no more than brackets are open.
fn closes(text: &[u8], at: usize, depth: usize) -> usize
    requires { at ≤ length text.now }
    ensures { Closing text.now at depth result }
{
    text[at..]
        .iter()
        .take(depth)
        .take_while(|b| **b == b')')
        .count()
}

// What follows the name that ends at a place, or refusal 19 where the text stops being a term.
fn after_name(text: &[u8], end: usize, depth: usize) -> Result<After, Refusal>
    requires { (end ≤ length text.now) × (is_name_byte (get_or text.now end 0) ≡ false) × (depth ≤ 65536) }
    ensures { Follows text.now end depth result }
{
    if text.get(end) == Some(&b'(') {
        let due = Some(Due {
            place: end + 1,
            depth: depth + 1,
        });
        return Ok(After { bars: 0, due });
    }
    let c = closes(text, end, depth);
    let i = end + c;
    let due = match text.get(i) {
        None if c == depth => None,
        Some(b',') if c < depth => Some(Due {
            place: i + 1,
            depth: depth - c,
        }),
        _ => return Err(Refusal::new(Kind::NotATerm, i)),
    };
    Ok(After { bars: c + 1, due })
}

// The entries of a tree, as many as there is room for, and how many it has. The bars are there: the room begins cleared.
#[derive(Drop)]
struct Entries {
    kept: [u8; 4096],
    count: usize,
}

impl Entries {
    // Keeps a symbol at a place, where there is room.
    fn keep(&mut self, at: usize, symbol: u8)
        ensures kept { SymbolPut self.old.kept self.new.kept at symbol }
        ensures count { self.new.count ≡ self.old.count }
    {
        if at < 4096 {
            self.kept[at] = symbol;
        }
    }

    // Puts them at the front of the list, where they are not too many and there is room.
    fn put_into(&self, tree: &mut [u16]) -> Answer
        ensures { Gave (fits_in 4096 self.now.count (length tree.old)) (take self.now.count self.now.kept) tree.old tree.new result }
    {
        if 4096 < self.count {
            return Err(Refusal::new(Kind::TermTreeTooLong, 0));
        }
        if tree.len() < self.count {
            return Err(Refusal::new(Kind::ShortTermTree, self.count));
        }
        self.put_front(tree);
        Ok(self.count as u64)
    }

    // Puts them at the front of the list. (By index: of a list whose places go through an adapter, as `iter_mut().zip(..)`, nothing is known at its end.)
    fn put_front(&self, tree: &mut [u16])
        requires { (self.now.count ≤ 4096) × (self.now.count ≤ length tree.old) }
        ensures { Front tree.old tree.new (take self.now.count self.now.kept) }
    {
        for (i, e) in self.kept[..self.count].iter().enumerate() {
            tree[i] = u16::from(*e);
        }
    }
}

// Reads the text, and adds the entries of its tree to none, or gives refusal 19 or 20.
// What is looked up is the stretch of bytes from `-` to `z`: if it is listed it is a name, and if not the scan decides. (The entries are lent cleared, and not
// given back: as a result their 4 KB would be copied. They are counted beside: a count that a push adds to goes through memory at each name, docs/LOOK-BACK.md.)
fn read_text(list: &NamesList, text: &[u8], entries: &mut Entries) -> Result<(), Refusal>
    requires short { length text.now ≤ 65536 }
    requires cleared { Cleared entries.old.kept × (entries.old.count ≡ 0) }
    ensures { Passed list.now.index.lines.names.now text.now entries.new.kept (counted entries.new.count result) }
{
    let mut count = entries.count;
    let mut depth = 0;
    let mut i = 0;
    loop {
        let stretch = stretch_at(text, i, list.index.seed);
        let end = stretch.end;
        let Some(k) = list.index.find(stretch.bucket, &text[i..end]) else {
            scan_text(text)?;
            return Err(Refusal::new(Kind::UnlistedName, i));
        };
        entries.keep(count, (k + 1) as u8);
        let after = after_name(text, end, depth)?;
        count += 1 + after.bars;
        let Some(due) = after.due else {
            entries.count = count;
            return Ok(());
        };
        depth = due.depth;
        i = due.place;
    }
}

// Reads a text by a names list that keeps to the rules.
fn read_named(list: &NamesList, text: &[u8], tree: &mut [u16]) -> Answer
    ensures { ReadBy (read_named 4096) list.now.index.lines.names.now text.now tree.old tree.new result }
{
    if 65536 < text.len() {
        return Err(Refusal::new(Kind::TextTooLong, 0));
    }
    let mut entries = Entries {
        kept: [0; 4096],
        count: 0,
    };
    read_text(list, text, &mut entries)?;
    entries.put_into(tree)
}

// Reads a term: gives the count of the tree's entries, which then stand at the front of the list.
pub fn read_term(names: &[u8], text: &[u8], tree: &mut [u16]) -> Answer
    ensures { ReadTerm names.now text.now tree.old tree.new result }
{
    let mut room = NamesRoom::new();
    let list = room.check(names, list_seed(names))?;
    read_named(&list, text, tree)
}

// The first entry that is a symbol above the count of names.
fn first_unnamed(tree: &[u16], n: usize) -> Option<usize>
    ensures { result ≡ first_with (λ i. ltb n (get_or tree.now i 0)) (length tree.now) }
{
    tree.iter().position(|e| n < usize::from(*e))
}

// The separator before a name that follows this entry: `,` after a bar, `(` after a symbol.
fn mark_after(e: u16) -> u8
    ensures { result ≡ mark_after e }
{
    match Step::from(e) {
        Step::Closes => b',',
        Step::Opens => b'(',
    }
}

// The name of a symbol.
#[tactic(auto, using(crate::proofs::EntryText::name_line, crate::proofs::EntryText::name_short))]
fn symbol_name<'a>(lines: &NameLines<'a>, e: u16) -> &'a [u8]
    requires { (0 < e) × (e ≤ lines.now.n) }
    ensures name { result.now ≡ name_of lines.now.names.now e }
    ensures short { length result.now ≤ 24 }
{
    lines.name(usize::from(e) - 1)
}

// How many bytes the first entry gives.
#[tactic(auto, using(crate::proofs::EntryText::first_bar, crate::proofs::EntryText::first_name))]
fn first_length(lines: &NameLines, e: u16) -> usize
    requires { e ≤ lines.now.n }
    ensures { (result ≡ length (entry_text lines.now.names.now 0 e)) × (result ≤ 25) }
{
    if e == 0 {
        0
    } else {
        symbol_name(lines, e).len()
    }
}

// 1 for a bar after a bar: it gives `)`.
#[tactic(auto, unfolding(crate::specs::Emit::closing))]
fn closing_length(before: u16, e: u16) -> usize
    ensures { result ≡ closing (mark_after before) e }
{
    usize::from(e == 0 && before == 0)
}

// How many bytes an entry gives after another one. A line has one byte more than its name, where the text has the separator; a bar has no line.
// (Not by a match, and what is counted in `first_length`, here and in `text_length` is not one struct, of a mark and a name, with what `put_first`,
// `put_entry_text` and `put_text` put: both tried. Writing terms of 255 names, a match takes 82 microseconds where this takes 66, and such a struct 0.98 of
// plain Rust's time where these take 0.74. The bar is 1.05 times the time before, bench/README.md.)
fn entry_length(lines: &NameLines, before: u16, e: u16) -> usize
    requires { e ≤ lines.now.n }
    ensures { (result ≡ length (entry_text lines.now.names.now (mark_after before) e)) × (result ≤ 25) }
{
    let next = usize::from(e);
    let line = usize::from(lines.starts[next]) - usize::from(lines.starts[next.saturating_sub(1)]);
    line + closing_length(before, e)
}

// How many bytes the tree's term has.
fn text_length(lines: &NameLines, tree: &[u16]) -> usize
    requires { EntriesNamed lines.now.n tree.now }
    ensures { result ≡ length (entries_text lines.now.names.now 0 tree.now) }
{
    let Some((first, rest)) = tree.split_first() else {
        return 0;
    };
    let mut sum = first_length(lines, *first);
    for (before, e) in tree.iter().zip(rest) {
        sum += entry_length(lines, *before, *e);
    }
    sum
}

// Puts bytes one by one over as many others, fewer than four. (No copy_from_slice: their number is not known when this is compiled, so it would call
// memmove, and the archive needs memset alone, README.md. By index: of a list whose places go through an adapter, as `iter_mut().zip(..)`, nothing is known
// at its end.)
fn put_few(to: &mut [u8], bytes: &[u8])
    requires { length to.old ≡ length bytes.now }
    ensures { to.new ≡ bytes.now }
{
    for (i, b) in bytes.iter().enumerate() {
        to[i] = *b;
    }
}

// Puts bytes over as many others, N at a time; the last N may overlap those before them. (By place, and not by `chunks` and copy_from_slice: as at `put_few`,
// the first through an adapter, the second by memmove. Here each N bytes are one load and one store. Not a `for` over `0..(len - 1) / N`: four turns were
// written out for a loop of at most two, docs/LOOK-BACK.md.)
fn put_words<const N: usize>(to: &mut [u8], bytes: &[u8])
    requires n_value { (0 < N) × (N ≤ 8) }
    requires same_len { length to.old ≡ length bytes.now }
    requires n_le_bytes { N ≤ length bytes.now }
    ensures { to.new ≡ bytes.now }
{
    let last = bytes.len() - N;
    let mut i = 0;
    while i < last {
        put_word::<N>(to, i, word_at::<N>(bytes, i));
        i += N;
    }
    put_word::<N>(to, last, word_at::<N>(bytes, last));
}

// Puts the bytes at a place; gives the place after them.
pub fn put_bytes(text: &mut [u8], at: usize, bytes: &[u8]) -> usize
    requires { at + length bytes.now ≤ length text.old }
    ensures { Put text.old text.new bytes.now at result }
{
    let after = at + bytes.len();
    let to = &mut text[at..after];
    if 8 <= bytes.len() {
        put_words::<8>(to, bytes);
    } else if 4 <= bytes.len() {
        put_words::<4>(to, bytes);
    } else {
        put_few(to, bytes);
    }
    after
}

// Puts the bytes that the first entry gives at the front of the list; gives the place after them.
#[tactic(auto, using(crate::proofs::EntryText::first_bar, crate::proofs::EntryText::first_name, crate::proofs::Pieces::put_none))]
fn put_first(lines: &NameLines, e: u16, text: &mut [u8]) -> usize
    requires e_le_n { e ≤ lines.now.n }
    requires e_in_bounds { length (entry_text lines.now.names.now 0 e) ≤ length text.old }
    ensures { Put text.old text.new (entry_text lines.now.names.now 0 e) 0 result }
{
    if e == 0 {
        0
    } else {
        put_bytes(text, 0, symbol_name(lines, e))
    }
}

// Puts the bytes that an entry gives after another one at a place; gives the place after them.
#[tactic(auto, using(crate::proofs::EntryText::after_bar, crate::proofs::EntryText::after_leaf, crate::proofs::EntryText::after_name, crate::proofs::EntryText::marked, crate::proofs::Pieces::put_one, crate::proofs::Pieces::put_none))]
fn put_entry_text(lines: &NameLines, before: u16, e: u16, text: &mut [u8], at: usize) -> usize
    requires e_le_n { e ≤ lines.now.n }
    requires e_in_bounds { at + length (entry_text lines.now.names.now (mark_after before) e) ≤ length text.old }
    ensures { Put text.old text.new (entry_text lines.now.names.now (mark_after before) e) at result }
{
    match e {
        0 if before == 0 => {
            text[at] = b')';
            at + 1
        }
        0 => at,
        _ => {
            text[at] = mark_after(before);
            put_bytes(text, at + 1, symbol_name(lines, e))
        }
    }
}

// Puts the tree's term at the front of the list.
fn put_text(lines: &NameLines, tree: &[u16], text: &mut [u8])
    requires entries_named { EntriesNamed lines.now.n tree.now }
    requires tree_in_bounds { length (entries_text lines.now.names.now 0 tree.now) ≤ length text.old }
    ensures { Front text.old text.new (entries_text lines.now.names.now 0 tree.now) }
{
    let Some((first, rest)) = tree.split_first() else {
        return;
    };
    let mut at = put_first(lines, *first, text);
    for (before, e) in tree.iter().zip(rest) {
        at = put_entry_text(lines, *before, *e, text, at);
    }
}

// Writes the term of a tree whose symbols are all named, where there is room.
fn write_fitting(lines: &NameLines, tree: &[u16], text: &mut [u8]) -> Answer
    requires entries_named { EntriesNamed lines.now.n tree.now }
    requires well_formed { WellFormed tree.now }
    ensures { WriteBy write_fits lines.now.names.now tree.now text.old text.new result }
{
    let needed = text_length(lines, tree);
    if text.len() < needed {
        return Err(Refusal::new(Kind::ShortTextList, needed));
    }
    put_text(lines, tree, text);
    Ok(needed as u64)
}

// Writes the term of a list that is a tree.
fn write_formed(list: &NamesList, tree: &[u16], text: &mut [u8]) -> Answer
    requires { WellFormed tree.now × (length tree.now ≤ 4096) }
    ensures { WriteBy write_formed list.now.index.lines.names.now tree.now text.old text.new result }
{
    match first_unnamed(tree, list.index.lines.n) {
        Some(place) => Err(Refusal::new(Kind::UnnamedSymbol, place)),
        None => write_fitting(&list.index.lines, tree, text),
    }
}

// Writes a term by a names list that keeps to the rules.
fn write_named(list: &NamesList, tree: &[u16], text: &mut [u8]) -> Answer
    ensures { WriteBy write_named list.now.index.lines.names.now tree.now text.old text.new result }
{
    check_tree(tree)?;
    write_formed(list, tree, text)
}

// Writes a tree as a term: gives the count of bytes, which then stand at the front of the list.
pub fn write_term(names: &[u8], tree: &[u16], text: &mut [u8]) -> Answer
    ensures { WriteTerm names.now tree.now text.old text.new result }
{
    let mut room = NamesRoom::new();
    let list = room.check(names, list_seed(names))?;
    write_named(&list, tree, text)
}
