// Writing the tree of a number of a table that passes.
#![tactic(auto)]

ghost use Rattle.std.specs.Prelude.{◌≡◌, ◌<◌, ◌≤◌, length};
ghost use Rattle.std.proofs.Props.{props};
ghost use Rattle.rows.specs.Words.{Inside, args_in};
ghost use Rattle.rows.specs.Listed.{all_rows};
ghost use Rattle.counts.specs.States.{held};
ghost use Rattle.unrank.specs.UnrankReady.{WriteReady};
ghost use Rattle.unrank.specs.Trees.{EntersBy, Shared, spot_entries, WroteSpot, spot_of};
ghost use Rattle.unrank.specs.Written.{WroteNumber, WroteBelow};

use counts::ByTarget;
use model::{Answer, Kind, Refusal};
use rows::Rows;

// The row in which a value falls: its word, what it counts, and the value less what the state's earlier rows count.
#[derive(Clone, Copy, PartialEq, Eq, Debug)]
struct Entered {
    word: u64,
    weight: u64,
    rest: u64,
}

// A state and a value in it.
#[derive(Clone, Copy, PartialEq, Eq, Debug)]
struct Spot {
    state: usize,
    value: u64,
}

// The children of a row: what each state counts; the children's states, the product of what these count, and what is left of the value for them.
#[derive(Clone, Copy, Debug)]
struct ChildrenOfRow<'a> {
    counts: &'a [u64],
    states: &'a [u16],
    weight: u64,
    rest: u64,
    ghost shared: { Shared counts.now states.now weight rest } by { Prim.hlevel props },
}

// Each child in its state with its value: for each divide the product by the child's count; its value is what is left divided by that.
impl Iterator for ChildrenOfRow<'_> {
    ghost use Rattle.unrank.specs.Walk.{children_left, GivesChild};

    type Item = Spot;

    ghost next_gives = { GivesChild };

    ghost remaining = { children_left };

    fn next(&mut self) -> Option<Spot> {
        let (first, later) = self.states.split_first()?;
        let state = usize::from(*first);
        let weight = self.weight / self.counts[state];
        let value = self.rest / weight;
        self.states = later;
        self.weight = weight;
        self.rest %= weight;
        Some(Spot { state, value })
    }
}

// A table that passes, as its check leaves it for writing: its rows chained by target, its accepting list, what each state counts, for each row what the
// rows before it with its target count, and the total. (The fact is truncated: `WriteReady` names the table's states, and the list with which they are
// counted.)
#[derive(Clone, Copy)]
pub struct TreeWriter<'a> {
    pub by_target: ByTarget<'a>,
    pub accepting: &'a [u16],
    pub counts: &'a [u64],
    pub sums: &'a [u64],
    pub total: u64,
    ghost ready: { ∥ WriteReady by_target.rows.pool.now by_target.rows.words.now accepting.now by_target.first.now counts.now sums.now total ∥₁ },
}

impl<'a> TreeWriter<'a> {
    // Puts together what the check of a table leaves, the lent list and the arrays at one lifetime.
    pub fn new(
        rows: Rows<'a>,
        first: &'a [u16],
        accepting: &'a [u16],
        counts: &'a [u64],
        sums: &'a [u64],
        total: u64,
    ) -> TreeWriter<'a>
        requires { WriteReady rows.pool.now rows.words.now accepting.now first.now counts.now sums.now total }
        ensures { (result.by_target.rows.pool.now ≡ rows.entry.pool.now) × (result.by_target.rows.words.now ≡ rows.entry.words.now) × (result.by_target.first.now ≡ first.now)
            × (result.accepting.now ≡ accepting.now) × (result.counts.now ≡ counts.now) × (result.sums.now ≡ sums.now) × (result.total ≡ total) }
    {
        let by_target = ByTarget { rows, first };
        TreeWriter {
            by_target,
            accepting,
            counts,
            sums,
            total,
        }
    }

    // The row of the state in which the value falls, by the sums along the chain of the state's rows.
    fn find_row(&self, spot: Spot) -> Entered
        requires { spot.value < held self.now.counts.now spot.state }
        ensures { EntersBy self.now.by_target.rows self.now.counts.now spot result }
    {
        let Spot { state, value } = spot;
        let mut rows = self.by_target.rows_of(state);
        let Some((_, mut word)) = rows.next() else {
            // a state that has a value has a row
            unreachable!()
        };
        let mut begin = 0;
        for (r, next) in rows {
            let end = self.sums[r];
            if value < end {
                return Entered {
                    word,
                    weight: end - begin,
                    rest: value - begin,
                };
            }
            word = next;
            begin = end;
        }
        Entered {
            word,
            weight: self.counts[state] - begin,
            rest: value - begin,
        }
    }

    // The children of a row that is entered.
    fn children_of(&self, row: Entered) -> ChildrenOfRow<'a>
        requires inside { Inside self.now.by_target.rows.pool.now row.word }
        requires shared { Shared self.now.counts.now (args_in self.now.by_target.rows.pool.now row.word) row.weight row.rest }
        ensures counts { result.counts.now ≡ self.now.counts.now }
        ensures states { result.states.now ≡ args_in self.now.by_target.rows.pool.now row.word }
        ensures parts { (result.weight ≡ row.weight) × (result.rest ≡ row.rest) }
    {
        ChildrenOfRow {
            counts: self.counts,
            states: rows::args_in(self.by_target.rows.pool, row.word),
            weight: row.weight,
            rest: row.rest,
        }
    }

    // How many entries the tree of a value in its state has.
    fn tree_length(&self, spot: Spot) -> usize
        requires { spot.value < held self.now.counts.now spot.state }
        ensures { result ≡ length (spot_entries (all_rows self.now.by_target.rows) self.now.counts.now spot) }
    {
        let row = self.find_row(spot);
        let mut n: usize = 2;
        for child in self.children_of(row) {
            n += self.tree_length(child);
        }
        n
    }

    // Writes the tree of a value in its state at the front of `out`, and gives how many entries it has.
    fn write_tree(&self, spot: Spot, out: &mut [u16]) -> usize
        requires value_below { spot.value < held self.now.counts.now spot.state }
        requires value_in_bounds { length (spot_entries (all_rows self.now.by_target.rows) self.now.counts.now spot) ≤ length out.old }
        ensures { WroteSpot (all_rows self.now.by_target.rows) self.now.counts.now spot out.old out.new result }
    {
        let row = self.find_row(spot);
        out[0] = rows::symbol_in(row.word);
        let mut at: usize = 1;
        for child in self.children_of(row) {
            at += self.write_tree(child, &mut out[at..]);
        }
        out[at] = 0;
        at + 1
    }

    // The accepting state in which the number falls, by the sums, and the value that is left there.
    fn find_state(&self, number: u64) -> Spot
        requires { number < self.now.total }
        ensures { result ≡ spot_of self.now.accepting.now self.now.counts.now number }
    {
        let mut value = number;
        for a in self.accepting {
            let state = usize::from(*a);
            if value < self.counts[state] {
                return Spot { state, value };
            }
            value -= self.counts[state];
        }
        // the number is below what the states count together
        unreachable!()
    }

    // Writes the tree of a number below the total where it fits.
    fn write_number(&self, number: u64, tree: &mut [u16]) -> Answer
        requires { number < self.now.total }
        ensures { WroteNumber (all_rows self.now.by_target.rows) self.now.accepting.now self.now.counts.now number
            tree.old tree.new result }
    {
        let spot = self.find_state(number);
        let needed = self.tree_length(spot);
        if tree.len() < needed {
            return Err(Refusal::new(Kind::ShortTreeList, needed));
        }
        self.write_tree(spot, tree);
        Ok(needed as u64)
    }

    // Writes the tree of a number.
    pub fn write(&self, number: u64, tree: &mut [u16]) -> Answer
        ensures { WroteBelow (all_rows self.now.by_target.rows) self.now.accepting.now self.now.counts.now self.now.total number
            tree.old tree.new result }
    {
        if self.total <= number {
            return Err(Refusal::new(Kind::NumberNotBelowTotal, 0));
        }
        self.write_number(number, tree)
    }
}
