// Eight bytes as one number, and what can be told of all eight by operations on it.
#![tactic(auto)]

ghost use Rattle.std.specs.Prelude.{◌≡◌, ◌+◌, ◌<◌, ◌≤◌, length};
ghost use Rattle.model.specs.Names.{lower};
ghost use Rattle.words.specs.Words.{lanes, marked, words_alike, inner_ahead, foreign, Word, WordPut};

// 1 in each of the eight bytes.
const ONES: u64 = 0x0101_0101_0101_0101;

// The top bit of each.
const TOP_BITS: u64 = 0x8080_8080_8080_8080;

// 128 in the place of each byte from FIRST to LAST, both below 128, and 0 in the others.
#[tactic(auto, using(crate::proofs::Formulas::between_is))]
fn bytes_between<const FIRST: u8, const LAST: u8>(x: u64) -> u64
    requires { (FIRST ≤ LAST) × (LAST < 128) }
    ensures { result ≡ lanes (marked FIRST LAST) 8 x }
{
    let low = x & 0x7f7f_7f7f_7f7f_7f7f;
    let reached = low + u64::from(128 - FIRST) * ONES;
    let passed = low + u64::from(127 - LAST) * ONES;
    (reached ^ passed) & !x & TOP_BITS
}

// Each of the eight bytes, a capital letter as the small one.
#[tactic(auto, using(crate::proofs::Formulas::fold_is, crate::proofs::Formulas::fold_fits))]
fn fold_word(x: u64) -> u64
    ensures { result ≡ lanes lower 8 x }
{
    x + bytes_between::<b'A', b'Z'>(x) / 4
}

// Whether two words are alike: in each of the eight places the bytes are the same, or one letter in its two cases.
#[tactic(auto, using(crate::proofs::Alike::words_is))]
pub fn words_alike(x: u64, y: u64) -> bool
    ensures { result ≡ words_alike x y }
{
    fold_word(x) == fold_word(y)
}

// How many bytes from `-` to `z` a word begins with.
#[tactic(auto, using(crate::proofs::Zeros::zeros_ahead))]
pub fn inner_ahead(x: u64) -> usize
    ensures { result ≡ inner_ahead 8 x }
{
    let outer = !bytes_between::<b'-', b'z'>(x) & TOP_BITS;
    (outer.trailing_zeros() / 8) as usize
}

// 128 in the place of each byte that may not stand in a names list, and 0 in the others.
#[tactic(auto, using(crate::proofs::Formulas::foreign_is))]
pub fn foreign_bytes(x: u64) -> u64
    ensures { result ≡ lanes foreign 8 x }
{
    let letters = bytes_between::<b'a', b'z'>(x | 0x20 * ONES);
    let digits = bytes_between::<b'0', b'9'>(x);
    let hyphens = bytes_between::<b'-', b'-'>(x);
    let underscores = bytes_between::<b'_', b'_'>(x);
    let tens = bytes_between::<b'\n', b'\n'>(x);
    !(letters | digits | hyphens | underscores | tens) & TOP_BITS
}

// N bytes as one number, the first byte the lowest: one load (bench/README.md says how that was seen).
pub fn word_at<const N: usize>(bytes: &[u8], at: usize) -> u64
    requires at_in_bounds { at + N ≤ length bytes.now }
    requires n_le_8 { N ≤ 8 }
    ensures { Word N at bytes.now result }
{
    let mut word = [0u8; 8];
    word[..N].copy_from_slice(&bytes[at..at + N]);
    u64::from_le_bytes(word)
}

// What is left of the bytes, fewer than eight, as one number. (Not as `word_at`: with a length that is not known when this is compiled,
// copy_from_slice calls memcpy, and the archive needs memset alone: README.md. A call, as it comes once a list: within the loop over a name's words
// it took registers, and checking 255 names took 5.1 microseconds in place of 4.5.)
#[inline(never)]
fn rest_at(bytes: &[u8], at: usize) -> u64
    requires { (at ≤ length bytes.now) × (length bytes.now < at + 8) }
    ensures { Word 8 at bytes.now result }
{
    let mut w = 0;
    for b in bytes[at..].iter().rev() {
        w = w * 256 + u64::from(*b);
    }
    w
}

// Eight bytes as one number, or what is left of them.
pub fn word_or_rest(bytes: &[u8], at: usize) -> u64
    requires { at ≤ length bytes.now }
    ensures { Word 8 at bytes.now result }
{
    if 8 <= bytes.len() - at {
        word_at::<8>(bytes, at)
    } else {
        rest_at(bytes, at)
    }
}

// Puts the N low bytes of a number, the lowest first: one store.
#[tactic(auto, using(crate::proofs::Placing::word_put))]
pub fn put_word<const N: usize>(text: &mut [u8], at: usize, w: u64)
    requires at_in_bounds { at + N ≤ length text.old }
    requires n_le_8 { N ≤ 8 }
    ensures { WordPut N text.old text.new at w }
{
    text[at..at + N].copy_from_slice(&w.to_le_bytes()[..N]);
}
