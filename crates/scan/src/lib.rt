// A text, read byte by byte: refusal 19.
#![tactic(auto)]

ghost use Rattle.std.specs.Prelude.{◌≡◌, ◌<◌, ◌≤◌, length};
ghost use Rattle.model.specs.Term.{in_name, after_term, step, may_end};
ghost use Rattle.scan.specs.TextState.{seen, seen_step, depth_of, place_of, scanned, not_a_term_at};

use model::{Kind, Refusal};
use names::{is_letter, is_name_byte};

// What has been read of a text, `depth` brackets being open.
#[derive(Clone, Copy, PartialEq, Eq, Debug)]
pub enum TextState {
    // a name must begin here
    Due { depth: usize },
    // so many bytes of a name have been read
    InName { depth: usize, bytes: usize },
    // the last byte was `)`
    Closed { depth: usize },
}

// Reads the byte after a whole term; nothing where no term can go on with it.
fn after_term(depth: usize, b: u8) -> Option<TextState>
    ensures { seen_step result ≡ after_term depth b }
{
    match b {
        b',' if 0 < depth => Some(TextState::Due { depth }),
        b')' if 0 < depth => Some(TextState::Closed { depth: depth - 1 }),
        _ => None,
    }
}

// Reads the byte after the first bytes of a name; nothing where no term can go on with it.
#[tactic(auto, using(crate::proofs::Laws::name_opens), unfolding(model::specs::Term::step))]
fn after_name(depth: usize, bytes: usize, b: u8) -> Option<TextState>
    requires { depth < 65536 }
    ensures { seen_step result ≡ step (in_name depth bytes) b }
{
    match b {
        b'(' => Some(TextState::Due { depth: depth + 1 }),
        _ if !is_name_byte(b) => after_term(depth, b),
        _ if bytes < 24 => Some(TextState::InName {
            depth,
            bytes: bytes + 1,
        }),
        _ => None,
    }
}

impl TextState {
    // Reads one byte; nothing where no term can go on with it.
    #[tactic(auto, unfolding(model::specs::Term::step))]
    fn step(self, b: u8) -> Option<TextState>
        requires { depth_of (seen self) < 65536 }
        ensures { seen_step result ≡ step (seen self) b }
    {
        match self {
            TextState::Due { depth } if is_letter(b) => Some(TextState::InName { depth, bytes: 1 }),
            TextState::Due { .. } => None,
            TextState::InName { depth, bytes } => after_name(depth, bytes, b),
            TextState::Closed { depth } => after_term(depth, b),
        }
    }

    // Whether the text may end here.
    fn may_end(self) -> bool
        ensures { result ≡ may_end (seen self) }
    {
        matches!(
            self,
            TextState::InName { depth: 0, .. } | TextState::Closed { depth: 0 }
        )
    }
}

// Refusal 19 at the first byte with which no term can go on, or at the text's length where it ends too soon.
pub fn scan_text(text: &[u8]) -> Result<(), Refusal>
    requires { length text.now ≤ 65536 }
    ensures { result ≡ not_a_term_at (place_of (scanned text.now)) }
{
    let mut r = TextState::Due { depth: 0 };
    for (i, b) in text.iter().enumerate() {
        r = r.step(*b).ok_or(Refusal::new(Kind::NotATerm, i))?;
    }
    if r.may_end() {
        Ok(())
    } else {
        Err(Refusal::new(Kind::NotATerm, text.len()))
    }
}
