// What a round goes by: the two forms, what is asked of them, and what earlier rounds have found.
ghost use Rattle.std.specs.Prelude.{◌≡◌, ◌<◌, true};
ghost use Rattle.pairs.specs.Plain.{is_plain};

use crate::minimal::Minimal;
use crate::table::KINDS;
use forms::Asked;
use taking::SortedForm;

// Is there a paper that the first form takes as the kind asked and the second does not take as `other`? Of each kind of the first form `seen` has the
// minimal sets that were found so far, by papers at most `depth` deep.
#[derive(Drop)]
pub(crate) struct Round<'a, 'b> {
    pub(crate) one: Asked<'a>,
    pub(crate) two: SortedForm<'b>,
    pub(crate) other: usize,
    pub(crate) depth: usize,
    pub(crate) seen: [Minimal; KINDS],
    ghost one_plain: { is_plain one.form.room ≡ true },
    ghost two_plain: { is_plain two.form.room ≡ true },
    ghost other_there: { other < 4 },
}
