// How deep a paper is.
ghost use Rattle.std.specs.Prelude.{◌≡◌, ℕ, suc, max, ◌^◌, ◌<◌};
ghost use Rattle.papers.specs.Paper.{deep, all_deep, fields_deep};

use crate::fold::Fold;

// Reading for the depth. What is kept of the papers of a list, or of the fields of a record, is how deep the deepest is so far, 0 if there
// is none.
#[derive(Clone, Copy, Debug, PartialEq, Eq)]
pub struct Depth;

#[tactic(auto, unfolding(crate::specs::Paper::deep))]
impl Fold for Depth {
    type Value = u64;

    type Fields = u64;

    ghost of = { λ _. deep };

    ghost list_of = { λ _ _ deepest ds. suc (max deepest (all_deep ds)) };

    ghost record_of = { λ _ deepest fs. suc (max deepest (fields_deep fs)) };

    ghost has_room = { λ _ depth. depth < 2 ^ 64 };

    ghost room = { λ _ _ h. h };

    fn number(&self, number: u64) -> u64 {
        1
    }

    fn no_papers(&self) -> u64 {
        0
    }

    fn with_paper(&self, papers: u64, paper: u64) -> u64 {
        papers.max(paper)
    }

    fn list(&self, count: u64, papers: u64) -> u64 {
        papers + 1
    }

    fn no_fields(&self) -> u64 {
        0
    }

    fn with_field(&self, so_far: &mut u64, name: u64, inner: u64) {
        *so_far = (*so_far).max(inner);
    }

    fn record(&self, so_far: &u64) -> u64 {
        *so_far + 1
    }
}
