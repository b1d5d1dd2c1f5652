// Counts of states and their longest trees, state by state, by one mark a state: it holds how many entries the state's longest tree has, how many
// bits its count needs, whether that is beyond 64 bits, and whether the state has no trees. Sums of sixteen marks keep these parts apart, so one
// sum over a row's arguments decides nearly every row without a tested product.
#![tactic(auto)]

ghost use Rattle.std.specs.Prelude.{slice_index, length, ◌≡◌, ◌+◌, ◌^◌, ◌<◌, ◌≤◌, ◌%◌, max, ltb, map, if◌then◌else◌};
ghost use Rattle.std.specs.Option.{unwrap_or};
ghost use Rattle.std.proofs.Props.{props};
ghost use Rattle.model.specs.Count.{sum, product};
ghost use Rattle.rows.specs.Words.{afters};
ghost use Rattle.rows.specs.Listed.{all_rows};
ghost use Rattle.counts.specs.Chain.{Chainable, Chained, ChainedRows, Onward};
ghost use Rattle.counts.specs.Marks.{long_in, over_in, ceiling, long_ceiling, Tells};
ghost use Rattle.counts.specs.Kept.{Is};
ghost use Rattle.counts.specs.States.{held, ArgsPlaced, Marked, Some, Fits, Weighable, weight_by, Countable, Summed, CountReady, CountedStates};

use rows::Rows;

// The parts of a mark: entries below the first, bits of the count from it on, the mark for a count beyond 64 bits, the mark for no trees.
// (A mark is a bare number: a row adds up to sixteen of them, and the sum is compared and taken apart as one mark is. A type would need an addition
// and an order, and sums a type of their own, as a sum of marks is no mark.)
const BIT: u64 = 1048576;

const BEYOND: u64 = 4294967296;

const EMPTY: u64 = 1099511627776;

// Longest trees are kept to this, the first number above their limit.
const LENGTH_CEILING: u64 = 4097;

// Rows chained by their targets: the first row of each state's chain, the links standing in the words.
// (A link is 1 more than a row's number, or 0 for none: an `Option<u16>` takes 4 bytes, and has no place in the 12 bits of a word that a link has, nor in
// the fixed 2 bytes for each state here.)
#[derive(Clone, Copy, Debug)]
pub struct ByTarget<'a> {
    pub rows: Rows<'a>,
    pub first: &'a [u16],
    ghost chained: { Chained (all_rows rows) first.now (afters rows.words.now) } by { Prim.hlevel props },
}

// The rows along a chain of links: their numbers and their words. The link is as it stands in the word of the row before.
#[derive(Clone, Copy, Debug)]
pub struct RowsOfState<'a> {
    pub words: &'a [u64],
    pub next: usize,
    ghost onward: { Onward words.now next } by { Prim.hlevel props },
}

impl Iterator for RowsOfState<'_> {
    ghost use Rattle.counts.specs.Walk.{rows_left, GivesRow};

    type Item = (usize, u64);

    ghost next_gives = { GivesRow };

    ghost remaining = { rows_left };

    fn next(&mut self) -> Option<(usize, u64)> {
        let r = self.next.checked_sub(1)?;
        let word = self.words[r];
        self.next = rows::after_in(word);
        Some((r, word))
    }
}

// What a state counts, or nothing if that is beyond 64 bits, and how many entries its longest tree has, kept to 4,097.
#[derive(Clone, Copy, Debug, PartialEq, Eq)]
struct Counted {
    count: Option<u64>,
    longest: u64,
}

// Whether a mark is of a state whose count is beyond 64 bits.
pub fn over_in(mark: u64) -> bool
    ensures { result ≡ over_in mark }
{
    4096 <= mark / BIT % BIT
}

// The entries of the longest tree in a mark, kept to 4,097.
pub fn long_in(mark: u64) -> u64
    ensures { result ≡ long_in mark }
{
    mark % BIT
}

// A sum of two counts, if it has 64 bits; nothing is a count beyond them.
fn plus(a: Option<u64>, b: Option<u64>) -> Option<u64>
    ensures { Is result (unwrap_or a ceiling + unwrap_or b ceiling) }
{
    a?.checked_add(b?)
}

// The sum of the values of the states in a list, if it has 64 bits.
pub fn sum_of(list: &[u16], values: &[u64]) -> Option<u64>
    requires { ArgsPlaced values.now list.now }
    ensures { Is result (sum (map (held values.now) list.now)) }
{
    list.iter()
        .try_fold(0u64, |w, a| w.checked_add(values[usize::from(*a)]))
}

// A number of bits that holds a count: 1 needs none.
fn bits_of(c: u64) -> u64
    requires { 0 < c }
    ensures { (c ≤ 2 ^ result) × (result ≤ 64) }
{
    u64::from(64 - (c - 1).leading_zeros())
}

// The mark of a state that counts so and whose longest tree has so many entries, kept to 4,097.
fn mark_of(count: Option<u64>, longest: u64) -> u64
    requires { longest ≤ long_ceiling }
    ensures { Tells result (unwrap_or count ceiling) longest }
{
    match count {
        Some(0) => EMPTY,
        Some(n) => BIT * bits_of(n) + longest,
        None => BEYOND + longest,
    }
}

// The marks of a row's arguments together, and 2 for the row's own entries.
fn row_sum(args: &[u16], marks: &[u64]) -> u64
    requires { Marked marks.now args.now }
    ensures { result ≡ 2 + sum (map (held marks.now) args.now) }
{
    args.iter().fold(2, |s, a| s + marks[usize::from(*a)])
}

// A product that is known to fit.
fn plain_product(args: &[u16], counts: &[u64]) -> u64
    requires { Fits counts.now args.now }
    ensures { result ≡ product (map (held counts.now) args.now) }
{
    args.iter().fold(1, |w, a| w * counts[usize::from(*a)])
}

// A product of counts none of which is 0, if it has 64 bits: what is beyond stays beyond.
fn wide_product(args: &[u16], counts: &[u64]) -> Option<u64>
    requires { Some counts.now args.now }
    ensures { Is result (product (map (held counts.now) args.now)) }
{
    args.iter()
        .try_fold(1u64, |w, a| w.checked_mul(counts[usize::from(*a)]))
}

// What a row counts whose marks together are s. An argument without trees comes first: then the row counts 0, whatever the others count. No product
// where s tells what it is, a plain one where s tells that it fits.
fn row_weight(s: u64, args: &[u16], counts: &[u64]) -> Option<u64>
    requires { Weighable s counts.now args.now }
    ensures { Is result (weight_by s (product (map (held counts.now) args.now))) }
{
    if EMPTY <= s {
        return Some(0);
    }
    if s < BIT {
        return Some(1);
    }
    if s < 64 * BIT {
        return Some(plain_product(args, counts));
    }
    if BEYOND <= s {
        return None;
    }
    wide_product(args, counts)
}

// The longer of what was found and the longest tree of a row whose marks together are s; a row with an argument without trees has none.
fn longer_of(long: u64, s: u64) -> u64
    ensures { result ≡ max long (if ltb s 1099511627776 then s % 1048576 else 0) }
{
    if s < EMPTY { long.max(s % BIT) } else { long }
}

// Chains the rows by their targets, in their order, by links in their words.
// (No method of `Rows` or of `ByTarget`, which borrow the words for reading: here words and first links are written, and a `ByTarget` can be made of
// them and of the pool only after.)
pub fn chain_rows(pool: &[u16], words: &mut [u64], first: &mut [u16])
    requires { Chainable pool.now words.old first.old }
    ensures { ChainedRows pool.now words.old first.old words.new first.new }
{
    for m in (0..words.len()).rev() {
        let w = words[m];
        let t = usize::from(rows::target_in(w));
        words[m] = rows::with_after(w, first[t]);
        first[t] = (m + 1) as u16;
    }
}

impl<'a> ByTarget<'a> {
    // The rows of state q, in their order.
    pub fn rows_of(&self, q: usize) -> RowsOfState<'a>
        requires { q < length self.now.first.now }
        ensures words { result.words.now ≡ self.now.rows.words.now }
        ensures first { result.next ≡ slice_index self.now.first.now q }
    {
        RowsOfState {
            words: self.rows.words,
            next: usize::from(self.first[q]),
        }
    }

    // Counts state q by its rows, and stores for each row what the state's earlier rows count together, kept to 64 bits.
    fn count_state(&self, counts: &[u64], marks: &[u64], sums: &mut [u64], q: usize) -> Counted
        requires { Countable (all_rows self.now.rows) self.now.first.now
            counts.now marks.now sums.old q }
        ensures { Summed (all_rows self.now.rows) counts.now marks.now q
            sums.old sums.new result }
    {
        let mut count = Some(0);
        let mut long: u64 = 0;
        for (r, word) in self.rows_of(q) {
            let args = rows::args_in(self.rows.pool, word);
            sums[r] = count.unwrap_or(u64::MAX);
            let s = row_sum(args, marks);
            count = plus(count, row_weight(s, args, counts));
            long = longer_of(long, s);
        }
        Counted {
            count,
            longest: long.min(LENGTH_CEILING),
        }
    }

    // Counts the states in turn from 0, whatever they count.
    // (In `counts` and `sums` a count beyond 64 bits is the largest number of 64 bits, and the state's mark tells it from that number: an
    // `Option<u64>` has 16 bytes, and these arrays, of a fixed size on the stack, would have twice theirs.)
    pub fn count_states(
        &self,
        states: usize,
        counts: &mut [u64],
        marks: &mut [u64],
        sums: &mut [u64],
    )
        requires { CountReady states (all_rows self.now.rows) self.now.first.now
            counts.old marks.old sums.old }
        ensures { CountedStates states (all_rows self.now.rows) counts.old marks.old
            sums.old counts.new marks.new sums.new }
    {
        for q in 0..states {
            let s = self.count_state(counts, marks, sums, q);
            counts[q] = s.count.unwrap_or(u64::MAX);
            marks[q] = mark_of(s.count, s.longest);
        }
    }
}
