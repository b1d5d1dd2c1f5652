// Rows as words: one row by the grounds 2 to 5, and one number a row for all that comes after.
#![tactic(auto)]

ghost use Rattle.std.specs.Prelude.{◌≡◌, ◌+◌, ◌^◌, ◌<◌, length};
ghost use Rattle.std.proofs.Props.{props};
ghost use Rattle.model.specs.Table.{args_at, Whole};
ghost use Rattle.model.specs.Check.{cut, too_many};
ghost use Rattle.rows.specs.Words.{a_row, word_of, with_after, symbol_in, target_in, next_in, after_in, args_in, Inside, Held};
ghost use Rattle.rows.specs.Walk.{above, out_by, row_fault, row_step};

use model::Kind;

// Rows as words: each holds a row whose arguments stand in the pool.
// (A word is a bare `u64`, read by the functions below, and no `struct Word(u64)` with methods: what is said of words, here and in each crate above, is said
// of lists of numbers, and of lists of structs each `get_or words r 0` would want a word in place of the 0, and each part in `Inside` and `nexts` a field.)
// (The links of the index and of the targets are parts of the words, and not lists beside them: memory is fixed, arrays on the stack, and two lists of
// links would be two more arrays of a place for each row. A link is 1 more than a row's number, or 0 for none: an Option has no place in its 12 bits.)
#[derive(Clone, Copy, Debug)]
pub struct Rows<'a> {
    pub pool: &'a [u16],
    pub words: &'a [u64],
    ghost held: { Held pool.now words.now (length words.now) } by { Prim.hlevel props },
}

// The word of a row whose arguments begin at `from` in the pool, with the index's link.
pub fn word(symbol: u16, count: usize, target: u16, from: usize, next: u16) -> u64
    requires { (symbol < 256) × (count < 256) × (target < 256) × (from < 65536) × (next < 4096) }
    ensures { result ≡ word_of symbol count target from next }
{
    u64::from(symbol)
        + count as u64 * 256
        + u64::from(target) * 65536
        + from as u64 * 16777216
        + u64::from(next) * 1099511627776
}

// The symbol in a word.
pub fn symbol_in(w: u64) -> u16
    ensures { result ≡ symbol_in w }
{
    (w % 256) as u16
}

// The target in a word.
pub fn target_in(w: u64) -> u16
    ensures { result ≡ target_in w }
{
    (w / 65536 % 256) as u16
}

// The link in a word that the index keeps: 1 more than a row's number, or 0.
pub fn next_in(w: u64) -> usize
    ensures { result ≡ next_in w }
{
    (w / 1099511627776 % 4096) as usize
}

// The link in a word to the next row of the same target: 1 more than its number, or 0.
pub fn after_in(w: u64) -> usize
    ensures { result ≡ after_in w }
{
    (w / 4503599627370496) as usize
}

// A word with its link to the next row of the same target, which it did not have.
pub fn with_after(w: u64, after: u16) -> u64
    requires { with_after w after < 2 ^ 64 }
    ensures { result ≡ with_after w after }
{
    w + u64::from(after) * 4503599627370496
}

// The arguments of the row of a word, as a part of the pool.
pub fn args_in(pool: &[u16], w: u64) -> &[u16]
    requires { Inside pool.now w }
    ensures { result.now ≡ args_in pool.now w }
{
    let from = (w / 16777216 % 65536) as usize;
    let end = from + (w / 256 % 256) as usize;
    &pool[from..end]
}

// One above the largest argument; 0 where there is none.
// (A loop: tried as `iter().max()` and as a `fold`, and checking 1,024 rows of 16 arguments took 1.2 times the time before, where bench/README.md's bar
// is 1.05.)
fn above_all(args: &[u16]) -> u64
    ensures { result ≡ above args.now }
{
    let mut top = 0;
    for arg in args {
        top = top.max(*arg);
    }
    if args.is_empty() {
        0
    } else {
        u64::from(top) + 1
    }
}

// Whether row i is beyond the 1,024th, or its n arguments are more than 16: 3.
#[tactic(auto, unfolding(model::specs::Check::too_many))]
fn is_too_many(i: usize, n: usize) -> bool
    ensures { result ≡ too_many i n }
{
    1024 <= i || 16 < n
}

// Whether the symbol, the target or an argument is out of range, where `top` is one above the largest argument: 4.
#[tactic(auto, unfolding(crate::specs::Walk::out_by))]
fn is_out(states: u64, symbol: u16, target: u16, top: u64) -> bool
    ensures { result ≡ out_by states symbol target top }
{
    symbol == 0 || 255 < symbol || states <= u64::from(target) || states < top
}

// Tests row i by the grounds 3 to 5.
pub fn row_fault(states: u64, i: usize, symbol: u16, target: u16, args: &[u16]) -> Result<(), Kind>
    ensures { result ≡ row_fault states i (a_row symbol target args.now) }
{
    if is_too_many(i, args.len()) {
        return Err(Kind::TooManyRowsOrArguments);
    }
    let top = above_all(args);
    if is_out(states, symbol, target, top) {
        return Err(Kind::NotInRange);
    }
    if u64::from(target) < top {
        return Err(Kind::ArgumentNotBelowTarget);
    }
    Ok(())
}

// Whether the packed row that begins at `at` is cut: 2.
#[tactic(auto, unfolding(model::specs::Check::cut))]
fn is_cut(rows: &[u16], at: usize) -> bool
    requires { at < length rows.now }
    ensures { result ≡ cut rows.now at }
{
    let left = rows.len() - at;
    left < 3 || left - 3 < usize::from(rows[at + 2])
}

// The arguments of the whole packed row that begins at `at`.
pub fn args_at(rows: &[u16], at: usize) -> &[u16]
    requires { Whole rows.now at }
    ensures { result.now ≡ args_at rows.now at }
{
    let from = at + 3;
    let end = from + usize::from(rows[at + 2]);
    &rows[from..end]
}

// Tests the packed row i, which begins at `at`, by the grounds 2 to 5.
pub fn step_row(states: u64, rows: &[u16], i: usize, at: usize) -> Result<(), Kind>
    requires { at < length rows.now }
    ensures { result ≡ row_step states rows.now i at }
{
    if is_cut(rows, at) {
        return Err(Kind::CutRow);
    }
    row_fault(states, i, rows[at], rows[at + 1], args_at(rows, at))
}
