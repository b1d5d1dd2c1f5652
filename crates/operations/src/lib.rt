// The operations on a table: checking it, numbering a tree, writing the tree of a number. What they set up stands here once, for any size of table.
#![tactic(auto)]

ghost use Rattle.std.specs.Prelude.{◌≡◌, ◌≤◌, ◌<◌, length};
ghost use Rattle.model.specs.Answers.{outcome};
ghost use Rattle.model.specs.Check.{check_outcome};
ghost use Rattle.model.specs.Number.{number_outcome};
ghost use Rattle.rows.specs.Walk.{Room};
ghost use Rattle.operations.specs.Answered.{task_prepares, AnsweredFor, WroteTree};

use model::Answer;
use rank::Numbering;
use rows::Rows;
use unrank::TreeWriter;

// What is asked of a table: its total, the number of a tree, or the tree of a number.
// (An enum, and no closure for what follows the check: the arrays are set up here, so each closure would take seven lists and state of each what the
// check leaves in it.)
#[derive(Clone, Copy, PartialEq, Eq, Debug)]
enum Task<'a> {
    Check,
    Number(&'a [u16]),
    Write(u64),
}

// A table as it is lent: its number of states, its rows and its accepting list.
#[derive(Clone, Copy, PartialEq, Eq, Debug)]
struct Table<'a> {
    states: u64,
    rows: &'a [u16],
    accepting: &'a [u16],
}

// Whether a task needs to know which states are used.
fn prepares(task: Task<'_>) -> bool
    ensures { result ≡ task_prepares task.entry }
{
    matches!(task, Task::Number(_))
}

// Answers with room for so many rows and states, and so many buckets.
fn answer_in<'a, const ROWS: usize, const STATES: usize, const HEADS: usize>(
    task: Task<'_>,
    table: Table<'a>,
    out: &mut [u16],
) -> Answer
    requires rows_room { Room ROWS (length table.rows.now) }
    requires states_room { table.states ≤ 256 → table.states ≤ STATES }
    requires sized { (0 < HEADS) × (HEADS ≤ 65536) }
    requires few { (ROWS ≤ 1024) × (STATES ≤ 256) }
    ensures { AnsweredFor task.entry table.entry out.old out.new result }
{
    let Table {
        states,
        rows,
        accepting,
    } = table;
    // arrays beside one another, and not of structs: what is said of words, counts and sums is said of lists of numbers, and each step of the check
    // borrows those that it writes
    let mut words = [0u64; ROWS];
    let mut heads = [0u16; HEADS];
    let mut first = [0u16; STATES];
    let mut counts = [0u64; STATES];
    let mut marks = [0u64; STATES];
    let mut used = [0u8; STATES];
    let mut sums = [0u64; ROWS];
    let checked = table::check_into(
        prepares(task),
        states,
        rows,
        accepting,
        &mut words,
        &mut heads,
        &mut first,
        &mut counts,
        &mut marks,
        &mut used,
        &mut sums,
    )?;
    let held = Rows {
        pool: rows,
        words: &words[..checked.rows.count],
    };
    match task {
        Task::Check => Ok(checked.total),
        Task::Number(tree) => {
            let numbering = Numbering::new(
                held,
                &heads,
                checked.rows.by,
                accepting,
                &counts,
                &sums,
            );
            numbering.number(tree)
        }
        Task::Write(number) => {
            let writer = TreeWriter::new(held, &first, accepting, &counts, &sums, checked.total);
            writer.write(number, out)
        }
    }
}

// Answers with as much room as the table needs: a row has at least three entries, and a table with more than 1,024 rows or 256 states is refused.
// (`out` is empty where a task writes no tree. It was tried as a part of `Task::Write`: no fact tells what an enum that is dropped at a `?`, or passed on
// whole, leaves behind the `&mut` in it.)
fn answer(task: Task<'_>, table: Table<'_>, out: &mut [u16]) -> Answer
    ensures { AnsweredFor task.entry table.entry out.old out.new result }
{
    if 1152 < table.rows.len() {
        return answer_in::<1024, 256, 1408>(task, table, out);
    }
    if table.states <= 64 && table.rows.len() <= 288 {
        return answer_in::<96, 64, 132>(task, table, out);
    }
    answer_in::<384, 256, 528>(task, table, out)
}

// Checks a table and gives its total.
pub fn check(states: u64, rows: &[u16], accepting: &[u16]) -> Answer
    ensures { outcome result ≡ check_outcome states rows.now accepting.now }
{
    let table = Table {
        states,
        rows,
        accepting,
    };
    answer(Task::Check, table, &mut [])
}

// Numbers a tree of a table.
pub fn number(states: u64, rows: &[u16], accepting: &[u16], tree: &[u16]) -> Answer
    ensures { outcome result ≡ number_outcome states rows.now accepting.now tree.now }
{
    let table = Table {
        states,
        rows,
        accepting,
    };
    answer(Task::Number(tree), table, &mut [])
}

// Writes the tree of a number.
pub fn write(states: u64, rows: &[u16], accepting: &[u16], number: u64, tree: &mut [u16]) -> Answer
    ensures { WroteTree states rows.now accepting.now number tree.old tree.new result }
{
    let table = Table {
        states,
        rows,
        accepting,
    };
    answer(Task::Write(number), table, tree)
}
