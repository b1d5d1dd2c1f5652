// The C interface: one exported function an operation (include/treenum.h).
#![tactic(auto)]

ghost use Rattle.std.specs.Prelude.{length};
ghost use Rattle.model.specs.Answers.{outcome};
ghost use Rattle.model.specs.Check.{check_outcome};
ghost use Rattle.model.specs.Number.{number_outcome};
ghost use Rattle.model.specs.Write.{write_outcome, write_list};
ghost use Rattle.model.specs.TermOperations.{read_term_outcome, read_term_list, write_term_outcome, write_term_list};
ghost use Rattle.treenum_c.specs.Returned.{Returned, Left};

use model::Answer;

// Returns 0 and puts the result, or returns the refusal's number and puts its place.
// (C has no `Result`: a C function returns one number, so it says here which of the two it is, and the other number is put where the caller tells.)
fn give(answer: Answer, value: &mut u64) -> u32
    ensures { Returned (outcome answer) result value.new }
{
    match answer {
        Ok(n) => {
            *value = n;
            0
        }
        Err(r) => {
            *value = r.place;
            u32::from(r.kind)
        }
    }
}

// Checks a table: returns 0 and puts the total, or returns the refusal's number and puts its place.
#[unsafe(no_mangle)]
pub extern "C" fn treenum_check(
    states: u64,
    rows: &[u16],
    accepting: &[u16],
    value: &mut u64,
) -> u32
    ensures { Returned (check_outcome states rows.now accepting.now) result value.new }
{
    give(operations::check(states, rows, accepting), value)
}

// Numbers a tree: returns 0 and puts its number, or returns the refusal's number and puts its place.
#[unsafe(no_mangle)]
pub extern "C" fn treenum_number(
    states: u64,
    rows: &[u16],
    accepting: &[u16],
    tree: &[u16],
    value: &mut u64,
) -> u32
    ensures { Returned (number_outcome states rows.now accepting.now tree.now) result value.new }
{
    give(operations::number(states, rows, accepting, tree), value)
}

// Writes the tree of a number: returns 0, puts the count of entries and leaves them at the front of the list; or returns the
// refusal's number, puts its place and leaves the list as it was.
#[unsafe(no_mangle)]
pub extern "C" fn treenum_write(
    states: u64,
    rows: &[u16],
    accepting: &[u16],
    number: u64,
    tree: &mut [u16],
    value: &mut u64,
) -> u32
    ensures { Left (write_outcome states rows.now accepting.now number (length tree.old))
        (write_list states rows.now accepting.now number tree.old)
        result value.new tree.new }
{
    give(
        operations::write(states, rows, accepting, number, tree),
        value,
    )
}

// Reads a term: returns 0, puts the count of the tree's entries and leaves them at the front of the list; or returns the
// refusal's number, puts its place and leaves the list as it was.
#[unsafe(no_mangle)]
pub extern "C" fn treenum_read_term(
    names: &[u8],
    text: &[u8],
    tree: &mut [u16],
    value: &mut u64,
) -> u32
    ensures { Left (read_term_outcome names.now text.now (length tree.old))
        (read_term_list names.now text.now tree.old)
        result value.new tree.new }
{
    give(term::read_term(names, text, tree), value)
}

// Writes a tree as a term: returns 0, puts the count of bytes and leaves them at the front of the list; or returns the
// refusal's number, puts its place and leaves the list as it was.
#[unsafe(no_mangle)]
pub extern "C" fn treenum_write_term(
    names: &[u8],
    tree: &[u16],
    text: &mut [u8],
    value: &mut u64,
) -> u32
    ensures { Left (write_term_outcome names.now tree.now (length text.old))
        (write_term_list names.now tree.now text.old)
        result value.new text.new }
{
    give(term::write_term(names, tree, text), value)
}
