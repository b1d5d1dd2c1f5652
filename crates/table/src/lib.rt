// Checking a table.
#![tactic(auto)]

ghost use Rattle.std.specs.Prelude.{◌≡◌, ◌≤◌, map, length};
ghost use Rattle.model.specs.Answers.{outcome};
ghost use Rattle.model.specs.Count.{sum};
ghost use Rattle.counts.specs.States.{held, ArgsPlaced};
ghost use Rattle.index.specs.Hash.{Multiplier};
ghost use Rattle.table.specs.Checked.{Empty, RowsReady, RowsChecked, EntriesChecked, total_or11, StatesReady, StatesAnswer, Blank, CheckAnswer};

use counts::ByTarget;
use index::{ANY_LENGTH, TakeError, two};
use model::{Answer, Kind, Refusal};
use rows::Rows;

// How many rows there are, and the multiplier of their index.
#[derive(Clone, Copy, Debug, PartialEq, Eq)]
pub struct CheckedRows {
    pub count: usize,
    pub by: u64,
}

// What the internal check finds where a table passes: the total, and its rows.
#[derive(Clone, Copy, Debug, PartialEq, Eq)]
pub struct Checked {
    pub total: u64,
    pub rows: CheckedRows,
}

// The multiplier with which rows are first indexed.
const MULTIPLIER: u64 = 2654435769;

// The most rows of a bucket that are looked at then. A row that falls into a bucket with more makes it crowded.
const MOST: usize = 8;

// One number more in a digest. Which numbers it gives is of no account for any answer.
fn digest(h: u64, x: u64) -> u64 {
    chains::mixed::<2654435769, 2246822519>(h, x)
}

// A multiplier made from all entries of the rows, an odd one. Rows that share a bucket by one multiplier seldom do by another; there are rows that do
// by all, and they are compared one by one.
fn own_multiplier(rows: &[u16]) -> u64
    ensures { Multiplier result }
{
    let mut h = 0;
    let mut left = rows;
    while let [a, b, c, d, rest @ ..] = left {
        h = digest(h, two(*a, *b) + two(*c, *d) * 4294967296);
        left = rest;
    }
    for entry in left {
        h = digest(h, u64::from(*entry));
    }
    2147483649 + h % 536870911 * 2
}

// Tests the rows in turn by the grounds 2 to 6, and stores their words and their index. Where a bucket holds too many rows they are taken once more,
// with empty buckets and the table's own multiplier, however many rows fall into one bucket.
fn check_rows(
    states: u64,
    rows: &[u16],
    words: &mut [u64],
    heads: &mut [u16],
) -> Result<CheckedRows, Refusal>
    requires { RowsReady states rows.now words.old heads.old }
    ensures { RowsChecked states rows.now words.new heads.new result }
{
    let mut by = MULTIPLIER;
    let mut taken = index::take_rows(states, rows, by, MOST, words, heads);
    if taken == Err(TakeError::Crowded) {
        heads.fill(0);
        by = own_multiplier(rows);
        taken = index::take_rows(states, rows, by, ANY_LENGTH, words, heads);
    }
    match taken {
        Ok(count) => Ok(CheckedRows { count, by }),
        Err(TakeError::Refused(refusal)) => Err(refusal),
        // no bucket has more than 1,024 rows
        Err(TakeError::Crowded) => unreachable!(),
    }
}

// Refuses the first accepting entry that is no state or equals an earlier one: 7.
fn check_accepting(states: u64, accepting: &[u16]) -> Result<(), Refusal>
    requires { states ≤ 256 }
    ensures { EntriesChecked states accepting.now result }
{
    let mut seen = [false; 256];
    for (i, entry) in accepting.iter().enumerate() {
        let q = usize::from(*entry);
        if states <= u64::from(*entry) || seen[q] {
            return Err(Refusal::new(Kind::AcceptingEntry, i));
        }
        seen[q] = true;
    }
    Ok(())
}

// The total; or 11 where it is above the largest number of 64 bits.
#[tactic(auto, using(crate::proofs::Counting::total_told))]
fn total_of(accepting: &[u16], counts: &[u64]) -> Answer
    requires { ArgsPlaced counts.now accepting.now }
    ensures { outcome result ≡ total_or11 (sum (map (held counts.now) accepting.now)) }
{
    counts::sum_of(accepting, counts).ok_or(Refusal::new(Kind::TotalAboveLimit, 0))
}

// The rest of the check, from the states on, where the rows and the accepting list are without fault. Unless it is to prepare for numbering, used
// states need not be found where no state is beyond a limit.
// (`states` goes on beside the lists by state, which may have more places: count_states, settle and what they call are public, and promise what they do
// of such lists too; lists cut to `states` would ask their callers to cut them.)
fn check_states(
    prepare: bool,
    states: usize,
    pool: &[u16],
    accepting: &[u16],
    words: &mut [u64],
    first: &mut [u16],
    counts: &mut [u64],
    marks: &mut [u64],
    used: &mut [u8],
    sums: &mut [u64],
) -> Answer
    requires { StatesReady states pool.now words.old accepting.now first.old counts.old marks.old used.old sums.old }
    ensures { StatesAnswer prepare states pool.now words.old accepting.now words.new
        first.new counts.new sums.new result }
{
    counts::chain_rows(pool, words, first);
    let rows = Rows { pool, words };
    let by_target = ByTarget { rows, first };
    by_target.count_states(states, counts, marks, sums);
    used::settle(
        prepare, states, accepting, &by_target, counts, marks, used, sums,
    )?;
    total_of(accepting, counts)
}

// The check of a table, which leaves in the lent arrays what writing needs of one that passes, and what numbering needs if it is to prepare for that.
// (They stay apart, and no struct of `&mut`s: each step fills some of them and reads others, and its contract says of each what it then holds. `prepare`
// is a bool, here and in `used::settle`, where it is one side of `prepare || first_beyond(..).is_err()`: an enum of two cases would be matched there to
// one.)
pub fn check_into(
    prepare: bool,
    states: u64,
    rows: &[u16],
    accepting: &[u16],
    words: &mut [u64],
    heads: &mut [u16],
    first: &mut [u16],
    counts: &mut [u64],
    marks: &mut [u64],
    used: &mut [u8],
    sums: &mut [u64],
) -> Result<Checked, Refusal>
    requires { Blank states rows.now words.old heads.old first.old counts.old marks.old used.old sums.old }
    ensures { CheckAnswer prepare states rows.now accepting.now words.new heads.new
        first.new counts.new sums.new result }
{
    if 256 < states {
        return Err(Refusal::new(Kind::TooManyStates, 0));
    }
    let checked = check_rows(states, rows, words, heads)?;
    check_accepting(states, accepting)?;
    let total = check_states(
        prepare,
        states as usize,
        rows,
        accepting,
        &mut words[..checked.count],
        first,
        counts,
        marks,
        used,
        sums,
    )?;
    Ok(Checked {
        total,
        rows: checked,
    })
}
