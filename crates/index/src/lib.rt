// An index of rows: the row with a symbol and arguments, and the packed rows taken in turn by the grounds 2 to 6.
#![tactic(auto)]

ghost use Rattle.std.specs.Prelude.{◌≡◌, ◌+◌, ◌*◌, ◌/◌, ◌%◌, ◌<◌, ◌≤◌, length, get_or, drop};
ghost use Rattle.std.proofs.Props.{props};
ghost use Rattle.model.specs.Table.{same_list, row_is};
ghost use Rattle.rows.specs.Words.{row_in, row_held, nexts, Inside, Held};
ghost use Rattle.rows.specs.Listed.{all_rows};
ghost use Rattle.index.specs.Hash.{two, fours, mix, mix_all, hash_of, Multiplier, Sized};
ghost use Rattle.index.specs.Index.{found_by, row_found, Index, SoughtRow, Seeking, Enterable, EnteredRow};
ghost use Rattle.index.specs.Taken.{Takeable, Taken};
ghost use Rattle.index.specs.declared.TakeError.TheVariants.{Refused, Crowded as TakeCrowded};

use model::{Kind, Refusal};
use rows::Rows;

// As the most rows of a chain: any number, since there are at most 1,024 rows.
// (A number, and no Option for "no limit": the walk along a chain compares its steps with it at each row, where an Option would be taken apart first, and
// `find` would unwrap the answer as it does now.)
pub const ANY_LENGTH: usize = 2048;

// A chain of the index is longer than allowed.
#[derive(Clone, Copy, Debug, PartialEq, Eq)]
pub struct Crowded;

// Why rows were not taken: the first faulty one is refused, or a chain of the index is longer than allowed.
#[derive(Clone, Copy, Debug, PartialEq, Eq)]
pub enum TakeError {
    Refused(Refusal),
    Crowded,
}

impl From<Refusal> for TakeError {
    ghost from_gives = { λ f e. e ≡ Refused f };

    fn from(refusal: Refusal) -> TakeError {
        TakeError::Refused(refusal)
    }
}

impl From<Crowded> for TakeError {
    ghost from_gives = { λ _ e. e ≡ TakeCrowded };

    fn from(_crowded: Crowded) -> TakeError {
        TakeError::Crowded
    }
}

// Whether two argument lists of one length are equal.
// (Index by index: tried as `==` and as `zip` with `all`, and bench/README.md's table of equal polynomials took 1.2 to 1.4 times the time before; the bar
// there is 1.05.)
fn same(a: &[u16], b: &[u16]) -> bool
    requires { length a.now ≡ length b.now }
    ensures { result ≡ same_list a.now b.now }
{
    for i in 0..a.len() {
        if a[i] != b[i] {
            return false;
        }
    }
    true
}

// Two arguments as one number.
pub fn two(a: u16, b: u16) -> u64
    ensures { (result ≡ two a b) × (result < 4294967296) }
{
    u64::from(a) + u64::from(b) * 65536
}

// What rows are compared by: the symbol and the count of arguments, as they stand in a word, and the arguments.
#[derive(Clone, Copy, Debug)]
struct Key<'a> {
    front: u64,
    args: &'a [u16],
    ghost low: { front < 65536 },
    ghost counted: { front / 256 ≡ length args.now },
}

impl<'a> Key<'a> {
    fn new(symbol: u16, args: &'a [u16]) -> Key<'a>
        requires { (symbol < 256) × (length args.now < 256) }
        ensures front { result.front ≡ symbol + length args.now * 256 }
        ensures args { result.args.now ≡ args.now }
    {
        Key {
            front: u64::from(symbol) + args.len() as u64 * 256,
            args,
        }
    }

    // Whether the row of a word is such a row.
    fn row_is(&self, pool: &[u16], w: u64) -> bool
        requires { Inside pool.now w }
        ensures { result ≡ row_is (row_in pool.now w) (self.now.front % 256) self.now.args.now }
    {
        w % 65536 == self.front && same(rows::args_in(pool, w), self.args)
    }
}

// The hash of a key by a multiplier.
#[derive(Clone, Copy, Debug)]
struct Hash {
    by: u64,
    ghost multiplier: { Multiplier by },
}

impl Hash {
    // One number more in a hash.
    fn mixed(self, h: u32, x: u64) -> u32
        requires { x < 1103806595072 }
        ensures { result ≡ mix self.by h x }
    {
        ((u64::from(h) * self.by + x) % 4294967296) as u32
    }

    // The last arguments, at most three, in a hash.
    fn mix_rest(self, start: u32, args: &[u16]) -> u32
        requires { length args.now ≤ 3 }
        ensures { result ≡ mix_all self.by start (fours args.now) }
    {
        match args {
            [a, b, c, ..] => self.mixed(self.mixed(start, two(*a, *b)), u64::from(*c)),
            [a, b] => self.mixed(start, two(*a, *b)),
            [a] => self.mixed(start, u64::from(*a)),
            [] => start,
        }
    }

    // The bucket of rows with this key, of `size`.
    fn bucket(self, key: &Key, size: usize) -> usize
        requires { Sized size }
        ensures { (result ≡ hash_of self.by size key.now.front key.now.args.now) × (result < size) }
    {
        let mut h = key.front as u32;
        let mut left = key.args;
        while let [a, b, c, d, rest @ ..] = left {
            h = self.mixed(h, two(*a, *b) + two(*c, *d) * 256);
            left = rest;
        }
        let x = u64::from(self.mix_rest(h, left)) * self.by % 4294967296;
        (x * size as u64 / 4294967296) as usize
    }
}

// The row among the first n with this key, whose bucket is b, by at most so many steps along its chain.
// (Not over a RowIndex: enter_row seeks while the words and heads are being filled. Not a `for` over the rows of a chain: the iterator would be a type with
// a law of its own, that links lead to lower rows and which rows a step passes, to say once more what the invariant says of the one loop that walks here.)
fn seek(
    pool: &[u16],
    words: &[u64],
    heads: &[u16],
    n: usize,
    b: usize,
    most: usize,
    key: &Key,
) -> Result<Option<usize>, Crowded>
    requires { Seeking pool.now words.now heads.now n b key.now.front key.now.args.now }
    ensures { SoughtRow (found_by (row_held pool.now words.now) n (key.now.front % 256) key.now.args.now) most n result }
{
    let mut p = usize::from(heads[b]);
    let mut steps = 0;
    while 0 < p {
        if most <= steps {
            return Err(Crowded);
        }
        let w = words[p - 1];
        if key.row_is(pool, w) {
            return Ok(Some(p - 1));
        }
        p = rows::next_in(w);
        steps += 1;
    }
    Ok(None)
}

// Rows and their index: the first row of each bucket's chain, and the multiplier of the hash.
// (A first row is 1 more than a row's number, or 0 for none: an `Option<u16>` takes 4 bytes, and the arrays of buckets, fixed on the stack, have 2 for
// each.)
#[derive(Clone, Copy, Debug)]
pub struct RowIndex<'a> {
    pub rows: Rows<'a>,
    pub heads: &'a [u16],
    pub by: u64,
    ghost index: { Index by (all_rows rows) heads.now (nexts rows.words.now) } by { Prim.hlevel props },
}

impl<'a> RowIndex<'a> {
    // The row with this symbol and these arguments.
    pub fn find(&self, symbol: u16, args: &[u16]) -> Option<usize>
        ensures { result ≡ row_found (all_rows self.now.rows) symbol args.now }
    {
        if 16 < args.len() || 255 < symbol {
            return None;
        }
        let Rows { pool, words } = self.rows;
        let key = Key::new(symbol, args);
        let b = Hash { by: self.by }.bucket(&key, self.heads.len());
        seek(pool, words, self.heads, words.len(), b, ANY_LENGTH, &key).unwrap()
    }
}

// A row whose arguments stand in a pool, from entry `from` on.
#[derive(Clone, Copy, Debug)]
pub struct PooledRow<'a> {
    pub symbol: u16,
    pub target: u16,
    pub from: usize,
    pub args: &'a [u16],
}

// Puts row n behind the words of the rows before it, and enters it in their index, unless its chain has more than `most` rows; or refuses it, if it
// repeats one of them: 6.
pub fn enter_row(
    pool: &[u16],
    row: &PooledRow,
    n: usize,
    by: u64,
    most: usize,
    words: &mut [u64],
    heads: &mut [u16],
) -> Result<(), TakeError>
    requires { Enterable by pool.now words.old heads.old n row.now.symbol row.now.target row.now.from row.now.args.now }
    ensures { EnteredRow by most pool.now words.old heads.old words.new heads.new
        n row.now.symbol row.now.target row.now.from row.now.args.now result }
{
    let key = Key::new(row.symbol, row.args);
    let b = Hash { by }.bucket(&key, heads.len());
    if seek(pool, words, heads, n, b, most, &key)?.is_some() {
        return Err(TakeError::Refused(Refusal::new(Kind::RepeatedRow, n)));
    }
    words[n] = rows::word(row.symbol, row.args.len(), row.target, row.from, heads[b]);
    heads[b] = (n + 1) as u16;
    Ok(())
}

// Takes the packed rows in turn by the grounds 2 to 6, up to the first for which one holds or whose chain has more than `most` rows; leaves a word for
// each, and their index.
pub fn take_rows(
    states: u64,
    rows: &[u16],
    by: u64,
    most: usize,
    words: &mut [u64],
    heads: &mut [u16],
) -> Result<usize, TakeError>
    requires { Takeable by states rows.now words.old heads.old }
    ensures { Taken by most states rows.now words.new heads.new result }
{
    let mut at = 0;
    // not a `for`: each row's count of arguments says where the next row begins
    let mut n = 0;
    while at < rows.len() {
        rows::step_row(states, rows, n, at).map_err(|kind| Refusal::new(kind, n))?;
        let row = PooledRow {
            symbol: rows[at],
            target: rows[at + 1],
            from: at + 3,
            args: rows::args_at(rows, at),
        };
        enter_row(rows, &row, n, by, most, words, heads)?;
        at += 3 + row.args.len();
        n += 1;
    }
    Ok(n)
}
