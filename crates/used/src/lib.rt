// Which states are used, and the limits that used states are held to.
#![tactic(auto)]

ghost use Rattle.std.specs.Prelude.{◌≡◌, ◌<◌, ◌≤◌, true, map, length, ltb};
ghost use Rattle.std.proofs.Props.{props};
ghost use Rattle.model.specs.Count.{product};
ghost use Rattle.model.specs.Reach.{is_among};
ghost use Rattle.rows.specs.Listed.{all_rows};
ghost use Rattle.counts.specs.States.{held};
ghost use Rattle.used.specs.Marked.{Placed, NoneEmpty, MarkedToo, RowPlaced, row_names, listed_by, AllMarked, PassedBy, TurnReady, Turned};
ghost use Rattle.used.specs.Limits.{limits_of, BeyondFrom, FaultReady, FirstUsed};
ghost use Rattle.used.specs.ByTarget.{PassReadyOf, FoundUsedOf, SettleReadyOf, SettledOf};
ghost use Rattle.used.specs.Settled.{RowsChained, RowsCleared, ClearReady, Cleared};

use counts::{ByTarget, RowsOfState};
use model::{Kind, Refusal};

// The most entries that a state's longest tree may have.
const LENGTH_LIMIT: u64 = 4096;

// The counts of the states, and whether every state has trees, which is asked for each row.
#[derive(Clone, Copy, Debug)]
struct Counts<'a> {
    counts: &'a [u64],
    full: bool,
    ghost some: { NoneEmpty full counts.now } by { Prim.hlevel props },
}

// Whether every state has trees.
fn none_empty(counts: &[u64]) -> bool
    ensures { NoneEmpty result counts.now }
{
    counts.iter().all(|c| *c != 0)
}

// Marks the states of a list that have trees. (A mark is a byte, any above 0, and no `bool`: first_fault and clear_unused are public and take such a list,
// and of callers a `bool` would ask more.)
fn mark_listed(list: &[u16], counts: &[u64], used: &mut [u8])
    requires { RowPlaced list.now counts.now used.old }
    ensures { MarkedToo (listed_by list.now counts.now) used.old used.new }
{
    for a in list {
        let q = usize::from(*a);
        if counts[q] != 0 {
            used[q] = 1;
        }
    }
}

// The place up to which, and at most up to m, every state that has trees is marked; the states below `low` are known to be so.
// (A place, and no Option of the first state without a mark: where all below m are marked, what both callers compare with is m.)
fn pass_marked(counts: &[u64], used: &[u8], low: usize, m: usize) -> usize
    requires { PassedBy counts.now used.now low m }
    ensures { AllMarked counts.now used.now result × (result ≤ m) }
{
    (low..m)
        .find(|n| counts[*n] != 0 && used[*n] == 0)
        .unwrap_or(m)
}

impl Counts<'_> {
    // Whether a row with these arguments counts more than 0; where every state has trees it does.
    fn row_counts(&self, args: &[u16]) -> bool
        requires { Placed (length self.now.counts.now) args.now }
        ensures { result ≡ ltb 0 (product (map (held self.now.counts.now) args.now)) }
    {
        self.full || args.iter().all(|a| self.counts[usize::from(*a)] != 0)
    }

    // Marks the arguments of a row, if it counts more than 0: then each of them has trees.
    fn mark_row(&self, args: &[u16], used: &mut [u8])
        requires { RowPlaced args.now self.now.counts.now used.old }
        ensures { MarkedToo (row_names self.now.counts.now args.now) used.old used.new }
    {
        if self.row_counts(args) {
            mark_listed(args, self.counts, used);
        }
    }

    // Marks the arguments of the rows of state q that count more than 0, up to the row after which every state below q that has trees is
    // marked.
    fn mark_rows(&self, by_target: &ByTarget, used: &mut [u8], low: usize, q: usize) -> usize
        requires { TurnReady (all_rows by_target.now.rows) by_target.now.first.now
            self.now.counts.now used.old low q }
        ensures { Turned (all_rows by_target.now.rows) self.now.counts.now q
            used.old used.new result }
    {
        let mut n = low;
        for (_, word) in by_target.rows_of(q) {
            if q <= n {
                return n;
            }
            let args = rows::args_in(by_target.rows.pool, word);
            self.mark_row(args, used);
            n = pass_marked(self.counts, used, n, q);
        }
        n
    }
}

// Marks the used states: the listed ones that have trees, and then, from the highest state down, the arguments of the rows of used
// states.
pub fn find_used(
    states: usize,
    accepting: &[u16],
    by_target: &ByTarget,
    counts: &[u64],
    used: &mut [u8],
)
    requires { PassReadyOf states by_target.now accepting.now counts.now used.old }
    ensures { FoundUsedOf states by_target.now accepting.now used.old used.new }
{
    let each = &counts[..states];
    let known = Counts {
        counts: each,
        full: none_empty(each),
    };
    mark_listed(accepting, each, used);
    let mut n = pass_marked(each, used, 0, states);
    for m in (0..states).rev() {
        if m < n {
            break;
        }
        if used[m] != 0 {
            n = known.mark_rows(by_target, used, n, m);
        }
    }
}

// Refuses state q if by its mark its count is above the limit, or else its longest tree is. The limit is the largest number of 64 bits: a count
// above it has a mark.
fn limits(q: usize, mark: u64) -> Result<(), Refusal>
    ensures { result ≡ limits_of q mark }
{
    if counts::over_in(mark) {
        return Err(Refusal::new(Kind::CountAboveLimit, q));
    }
    if LENGTH_LIMIT < counts::long_in(mark) {
        return Err(Refusal::new(Kind::LongestTreeAboveLimit, q));
    }
    Ok(())
}

// Refuses the first state from `from` on that is beyond a limit.
pub fn first_beyond(states: usize, marks: &[u64], from: usize) -> Result<(), Refusal>
    requires { states ≤ length marks.now }
    ensures { BeyondFrom states marks.now from result }
{
    for q in from..states {
        limits(q, marks[q])?;
    }
    Ok(())
}

// Refuses the first used state that is beyond a limit.
// (Beside first_beyond: one function for both would take the states as an iterator, here a `filter` with a closure, and its contract would say of an
// iterator of any kind which states it gives, for a loop of one line.)
pub fn first_fault(states: usize, marks: &[u64], used: &[u8]) -> Result<(), Refusal>
    requires { FaultReady states marks.now used.now }
    ensures { FirstUsed states marks.now used.now result }
{
    for q in 0..states {
        if used[q] != 0 {
            limits(q, marks[q])?;
        }
    }
    Ok(())
}

// Sets the sums of the rows of state q to 0.
// (Words and first links, and no ByTarget: clear_unused is public and takes the two lists, and a ByTarget would ask of its callers a pool too, in which
// each row's arguments stand.)
fn clear_rows(words: &[u64], first: &[u16], sums: &mut [u64], q: usize)
    requires { RowsChained words.now first.now sums.old q }
    ensures { RowsCleared words.now q sums.old sums.new }
{
    let rows = RowsOfState {
        words,
        next: usize::from(first[q]),
    };
    for (r, _) in rows {
        sums[r] = 0;
    }
}

// Sets the counts of unused states, and the sums of their rows, to 0.
pub fn clear_unused(
    states: usize,
    words: &[u64],
    first: &[u16],
    used: &[u8],
    counts: &mut [u64],
    sums: &mut [u64],
)
    requires { ClearReady states words.now first.now used.now counts.old sums.old }
    ensures { Cleared states words.now used.now counts.old counts.new sums.old sums.new }
{
    for q in 0..states {
        if used[q] == 0 {
            counts[q] = 0;
            clear_rows(words, first, sums, q);
        }
    }
}

// Finds the used states, and refuses the first of them that is beyond a limit. Where there is none the counts of unused states, and the sums of
// their rows, become 0.
fn settle_used(
    states: usize,
    accepting: &[u16],
    by_target: &ByTarget,
    counts: &mut [u64],
    marks: &[u64],
    used: &mut [u8],
    sums: &mut [u64],
) -> Result<(), Refusal>
    requires { SettleReadyOf states by_target.now accepting.now counts.old marks.now used.old sums.old }
    ensures { SettledOf true states by_target.now accepting.now counts.old counts.new sums.old sums.new result }
{
    find_used(states, accepting, by_target, counts, used);
    first_fault(states, marks, used)?;
    clear_unused(
        states,
        by_target.rows.words,
        by_target.first,
        used,
        counts,
        sums,
    );
    Ok(())
}

// Holds the used states to the limits. Where none is beyond them the counts of unused states, and the sums of their rows, become 0; this
// is left out where nothing is prepared and no state at all is beyond a limit.
pub fn settle(
    prepare: bool,
    states: usize,
    accepting: &[u16],
    by_target: &ByTarget,
    counts: &mut [u64],
    marks: &[u64],
    used: &mut [u8],
    sums: &mut [u64],
) -> Result<(), Refusal>
    requires { SettleReadyOf states by_target.now accepting.now counts.old marks.now used.old sums.old }
    ensures { SettledOf prepare states by_target.now accepting.now counts.old counts.new sums.old sums.new result }
{
    if prepare || first_beyond(states, marks, 0).is_err() {
        settle_used(states, accepting, by_target, counts, marks, used, sums)?;
    }
    Ok(())
}
