// What is asked of one form or of two, or the refusal that comes first: each check hands on its value, or leaves.
ghost use Rattle.std.specs.Prelude.{◌≡◌, ◌≤◌, true, false, length, IfOk, IfErr, MatchOption};
ghost use Rattle.papers.specs.Refusals.{number_of, place_of, told};
ghost use Rattle.forms.specs.declared.room.Room.TheVariants.{Plain};
ghost use Rattle.forms.specs.Asked.{one_asked, two_asked, one_kind, two_kinds, HasKind};
ghost use Rattle.forms.specs.Fits.{form_fits, FirstFault};
ghost use Rattle.forms.specs.Layout.{form_in};
ghost use Rattle.forms.specs.View.{form_of};

use crate::room::Room;
use crate::view::{Asked, FormView};
use papers::Refusal;

// How many kinds the form has, if the row is a form.
pub fn kinds_of(row: &[u64], room: Room) -> Option<usize>
    ensures { MatchOption result (form_fits room row.now ≡ false) (λ n. (form_fits room row.now ≡ true) × (n ≡ length (form_in room row.now))) }
{
    FormView::of(row, room).ok().map(|form| form.kinds())
}

// The kind asked of a form, if it has it.
fn kind_of<'a>(form: FormView<'a>, k: u64) -> Option<Asked<'a>>
    ensures { MatchOption result (length (form_of form.entry) ≤ k) (λ asked. (asked.form ≡ form.entry) × (asked.kind ≡ k)) }
{
    // An `if`, and no `then`, whose closure would have to say in a clause what the `if` shows.
    if k < form.kinds() as u64 {
        Some(Asked {
            form,
            kind: k as usize,
        })
    } else {
        None
    }
}

// The kind asked, if the row is a form that has it.
pub fn one_form<'a>(row: &'a [u64], room: Room, k: u64) -> Result<Asked<'a>, Refusal>
    ensures is { told (one_kind result) ≡ one_asked room row.now k }
    ensures row { IfOk result (λ asked. asked.form.row ≡ row.entry) }
    ensures room { IfOk result (λ asked. asked.form.room ≡ room) }
    ensures fits { IfOk result (λ asked. HasKind room row.now asked.kind) }
    ensures fault { IfErr result (λ e. number_of e ≡ 1 → FirstFault room row.now (place_of e)) }
{
    let form = FormView::of(row, room).map_err(Refusal::FirstForm)?;
    let Some(asked) = kind_of(form, k) else {
        return Err(Refusal::NoKind(k));
    };
    Ok(asked)
}

// The kinds asked, if both rows are forms that have them.
pub fn two_forms<'a, 'b>(
    one: &'a [u64],
    two: &'b [u64],
    k: u64,
    j: u64,
) -> Result<(Asked<'a>, Asked<'b>), Refusal>
    ensures is { told (two_kinds result) ≡ two_asked one.now two.now k j }
    ensures forms { IfOk result (λ asked. (asked.0.form.row ≡ one.entry) × (asked.0.form.room ≡ Plain) × (asked.1.form.row ≡ two.entry) × (asked.1.form.room ≡ Plain)) }
    ensures first { IfOk result (λ asked. HasKind Plain one.now asked.0.kind) }
    ensures second { IfOk result (λ asked. HasKind Plain two.now asked.1.kind) }
    ensures first_fault { IfErr result (λ e. number_of e ≡ 1 → FirstFault Plain one.now (place_of e)) }
    ensures second_fault { IfErr result (λ e. number_of e ≡ 2 → FirstFault Plain two.now (place_of e)) }
{
    let first_form = FormView::of(one, Room::Plain).map_err(Refusal::FirstForm)?;
    let second_form = FormView::of(two, Room::Plain).map_err(Refusal::SecondForm)?;
    let Some(first) = kind_of(first_form, k) else {
        return Err(Refusal::NoKind(k));
    };
    let Some(second) = kind_of(second_form, j) else {
        return Err(Refusal::NoKind(j));
    };
    Ok((first, second))
}
