// Numbering a tree of a table that passes.
#![tactic(auto)]

ghost use Rattle.std.specs.Prelude.{◌≡◌, ◌<◌, ◌≤◌, length};
ghost use Rattle.model.specs.Answers.{outcome};
ghost use Rattle.model.specs.Tree.{WellFormed};
ghost use Rattle.model.specs.Value.{horner};
ghost use Rattle.model.specs.Entries.{tree_then};
ghost use Rattle.counts.specs.States.{held};
ghost use Rattle.rank.specs.Machine.{formed, numbered};
ghost use Rattle.rank.specs.RankReady.{Foldable, Formable, Summable, RankReady};
ghost use Rattle.rank.specs.Stacked.{top_symbol, top_begin, top_states, top_values, with_open, with_closed};

use index::RowIndex;
use model::{Answer, Kind, Refusal};
use rows::Rows;
use tree::Step;

// The open nodes of a tree, each by its symbol in `opens` and how many states were waiting when it was opened in `begins`, and the states of closed ones
// that wait for their parent's bar, each with its value: the first `depth` of the one pair, and the first `waits` of the other. (Each is two lists, as
// document 01 names arrays of numbers, and the index takes a slice of states. The arrays are lent: a stack that owned them was tried, kept its counts in
// memory, and numbering took up to 1.08 times as long, where bench/README.md's bar is 1.05. They are lent as slices: an element of a `&mut [u16; 2048]`
// that `&self` reads, tried too, is not covered by the borrow checker.)
#[derive(Drop)]
struct Stack<'a> {
    opens: &'a mut [u16],
    begins: &'a mut [u16],
    depth: usize,
    waiting: &'a mut [u16],
    values: &'a mut [u64],
    waits: usize,
}

// A node whose bar is read: its symbol, and the states and the values of its children.
#[derive(Clone, Copy, PartialEq, Eq, Debug)]
struct Closing<'a> {
    symbol: u16,
    states: &'a [u16],
    values: &'a [u64],
}

impl Closing<'_> {
    // The children's values as one: for each child from the first, multiply by the count of its state and add its value.
    fn fold(self, counts: &[u64]) -> u64
        requires { Foldable counts.now self.states.now self.values.now }
        ensures { result ≡ horner (held counts.now) 0 self.entry.states.now self.entry.values.now }
    {
        let mut h: u64 = 0;
        for (q, v) in self.states.iter().zip(self.values) {
            h = h * counts[usize::from(*q)] + *v;
        }
        h
    }
}

// A table that passes, as its check leaves it for numbering: its rows and their index, its accepting list, what each used state counts, and for each
// row what the rows before it with its target count. (The fact is truncated: `RankReady` names what all states count, used or not.)
#[derive(Clone, Copy, Debug)]
pub struct Numbering<'a> {
    pub index: RowIndex<'a>,
    pub accepting: &'a [u16],
    pub counts: &'a [u64],
    pub sums: &'a [u64],
    ghost ready: { ∥ RankReady index.by index.rows.pool.now index.rows.words.now index.heads.now accepting.now counts.now sums.now ∥₁ },
}

impl<'a> Stack<'a> {
    // Opens a node with this symbol.
    fn open(&mut self, symbol: u16)
        requires { (self.old.depth < length self.old.opens.now) × (self.old.depth < length self.old.begins.now) × (self.old.waits ≤ 2048) }
        ensures { self.new ≡ with_open self.old symbol }
    {
        self.opens[self.depth] = symbol;
        self.begins[self.depth] = self.waits as u16;
        self.depth += 1;
    }

    // The node opened last, as its bar is read.
    fn top(&self) -> Closing<'_>
        requires { (0 < self.now.depth) × (self.now.depth ≤ length self.now.opens.now) × (self.now.depth ≤ length self.now.begins.now)
            × (top_begin self.now ≤ self.now.waits) × (self.now.waits ≤ length self.now.waiting.now) × (self.now.waits ≤ length self.now.values.now) }
        ensures { (result.symbol ≡ top_symbol self.now) × (result.states.now ≡ top_states self.now) × (result.values.now ≡ top_values self.now) }
    {
        let d = self.depth - 1;
        let b = usize::from(self.begins[d]);
        Closing {
            symbol: self.opens[d],
            states: &self.waiting[b..self.waits],
            values: &self.values[b..self.waits],
        }
    }

    // Closes the node opened last: its state and its value take the place of its children's.
    fn close(&mut self, q: u16, v: u64)
        requires { (0 < self.old.depth) × (self.old.depth ≤ length self.old.begins.now) × (top_begin self.old < length self.old.waiting.now)
            × (top_begin self.old < length self.old.values.now) }
        ensures { self.new ≡ with_closed self.old q v }
    {
        self.depth -= 1;
        let b = usize::from(self.begins[self.depth]);
        self.waiting[b] = q;
        self.values[b] = v;
        self.waits = b + 1;
    }
}

impl<'a> Numbering<'a> {
    ghost use Rattle.rank.specs.Numbered.{ClosableIn, node_in, machine_in};

    // Puts together what the check of a table leaves, the lent list and the arrays at one lifetime.
    pub fn new(
        rows: Rows<'a>,
        heads: &'a [u16],
        by: u64,
        accepting: &'a [u16],
        counts: &'a [u64],
        sums: &'a [u64],
    ) -> Numbering<'a>
        requires { RankReady by rows.pool.now rows.words.now heads.now accepting.now counts.now sums.now }
        ensures { (result.index.rows ≡ rows.entry) × (result.index.heads ≡ heads.entry) × (result.index.by ≡ by) × (result.accepting ≡ accepting.entry)
            × (result.counts ≡ counts.entry) × (result.sums ≡ sums.entry) }
    {
        Numbering {
            index: RowIndex { rows, heads, by },
            accepting,
            counts,
            sums,
        }
    }

    // The value of a closed node's tree in its state q, by its row k. An unused state counts 0, and no value is formed in it: 0 stands there, which
    // nothing reads as one. (No `Option`: document 01 names arrays [0; 2048] for the values, and of `Option<u64>` theirs would take 32 KB for 16.)
    fn value_in(&self, node: Closing<'_>, k: usize, q: u16) -> u64
        requires { Formable self.now.counts.now self.now.sums.now node.states.now node.values.now k q }
        ensures { result ≡ formed self.now.counts.now self.now.sums.now node.entry.states.now node.entry.values.now k q }
    {
        if self.counts[usize::from(q)] == 0 {
            return 0;
        }
        node.fold(self.counts) + self.sums[k]
    }

    // The state that a closed node's tree reaches, and its value there; or nothing if it reaches none.
    fn close(&self, node: Closing<'_>) -> Option<(u16, u64)>
        requires { ClosableIn self.now node.symbol node.states.now node.values.now }
        ensures { result ≡ node_in self.now node.entry.symbol node.entry.states.now node.entry.values.now }
    {
        let k = self.index.find(node.symbol, node.states)?;
        let q = rows::target_in(self.index.rows.words[k]);
        Some((q, self.value_in(node, k, q)))
    }

    // The number of a tree with this state and value; 14 at the given place if the state is not listed. The value is added last, so that no sum
    // goes beyond the total.
    fn number_in(&self, q: u16, value: u64, place: usize) -> Answer
        requires { Summable self.now.accepting.now self.now.counts.now q value }
        ensures { outcome result ≡ numbered self.now.accepting.now self.now.counts.now q value place }
    {
        let mut earlier: u64 = 0;
        for a in self.accepting {
            if *a == q {
                return Ok(value + earlier);
            }
            earlier += self.counts[usize::from(*a)];
        }
        Err(Refusal::new(Kind::NotAccepted, place))
    }

    // The number of a tree of at most 4,096 entries, entry by entry: an entry opens a node, or closes one whose children wait. At most 2,048 nodes are open
    // or waiting. (Its stack is set up at its start. In line in its caller, clang 22 sets it up behind the first tests, and loses what it holds in a register.)
    #[inline(never)]
    fn number_formed(&self, tree: &[u16]) -> Answer
        requires { WellFormed tree.now × (length tree.now ≤ 4096) }
        ensures { outcome result ≡ machine_in self.now tree.now }
    {
        let mut stack = Stack {
            opens: &mut [0; 2048],
            begins: &mut [0; 2048],
            depth: 0,
            waiting: &mut [0; 2048],
            values: &mut [0; 2048],
            waits: 0,
        };
        for (i, e) in tree.iter().enumerate() {
            match Step::from(*e) {
                Step::Opens => stack.open(*e),
                Step::Closes => {
                    let Some((q, v)) = self.close(stack.top()) else {
                        return Err(Refusal::new(Kind::NotAccepted, i));
                    };
                    stack.close(q, v);
                }
            }
        }
        self.number_in(stack.waiting[0], stack.values[0], tree.len() - 1)
    }

    // Numbers a tree.
    pub fn number(&self, tree: &[u16]) -> Answer
        ensures { outcome result ≡ tree_then tree.now (machine_in self.now tree.now) }
    {
        tree::check_tree(tree)?;
        self.number_formed(tree)
    }
}
