// A tree's entries, read one by one: refusals 12 and 13.
#![tactic(auto)]

ghost use Rattle.std.specs.Prelude.{◌≡◌, ◌<◌, ◌≤◌};
ghost use Rattle.tree.specs.Reading.{fresh, step, step_of, end_of, Decides};

use model::{Kind, Refusal};

// How many nodes are open, and how many entries were read: the place of the next one.
#[derive(Clone, Copy, PartialEq, Eq, Debug)]
pub struct Reading {
    pub depth: usize,
    pub place: usize,
}

// What an entry that is read does: a symbol opens a node, a bar closes one.
#[derive(Clone, Copy, PartialEq, Eq, Debug)]
pub enum Step {
    Opens,
    Closes,
}

impl From<u16> for Step {
    ghost from_gives = { λ e s. s ≡ step e };

    fn from(e: u16) -> Step {
        if e == 0 { Step::Closes } else { Step::Opens }
    }
}

impl Reading {
    pub fn new() -> Self
        ensures { result ≡ fresh }
    {
        Reading { depth: 0, place: 0 }
    }

    // The reading after one entry more, or the entry's refusal.
    #[tactic(auto, unfolding(crate::specs::Reading::step_of))]
    pub fn entry(self, e: u16) -> Result<Self, Refusal>
        requires { (self.depth ≤ self.place) × (self.place < 4096) }
        ensures { result ≡ step_of self e }
    {
        // with no node open, nothing was read or the root's bar was
        if 255 < e || self.depth == 0 && (0 < self.place || e == 0) {
            return Err(Refusal::new(Kind::NotATree, self.place));
        }
        // one value in either case, and no branch that goes on: which entries are bars cannot be foreseen
        let depth = match Step::from(e) {
            Step::Opens => self.depth + 1,
            Step::Closes => self.depth - 1,
        };
        Ok(Reading {
            depth,
            place: self.place + 1,
        })
    }

    // After the last entry: the list is a tree, or ends too soon.
    #[tactic(auto, unfolding(crate::specs::Reading::end_of))]
    pub fn end(self) -> Result<(), Refusal>
        ensures { result ≡ end_of self }
    {
        let Reading { depth, place } = self;
        if place == 0 || 0 < depth {
            return Err(Refusal::new(Kind::NotATree, place));
        }
        Ok(())
    }
}

// Whether the list is a tree of at most 4,096 entries, or refused by 12 or 13.
#[tactic(auto, using(crate::proofs::Laws::begins, crate::proofs::Laws::too_long, crate::proofs::Laws::ended, crate::proofs::Laws::went_on))]
pub fn check_tree(tree: &[u16]) -> Result<(), Refusal>
    ensures { Decides tree.now result }
{
    if 4096 < tree.len() {
        return Err(Refusal::new(Kind::TreeTooLong, 0));
    }
    let mut s = Reading::new();
    for e in tree {
        s = s.entry(*e)?;
    }
    s.end()
}
