// Sorting the ways of a form by their shape.
ghost use Rattle.std.specs.Prelude.{◌≡◌};
ghost use Rattle.forms.specs.View.{form_of};
ghost use Rattle.taking.specs.Groups.{Lists};
ghost use Rattle.taking.specs.Listing.{ways_of};

use crate::group::{Group, WayAt};
use crate::sorted::SortedForm;
use forms::FormView;
use papers::Shape;

impl<'a> SortedForm<'a> {
    // The form with its ways sorted: that each group has just the ways of its shape is in the type.
    pub fn new(form: FormView<'a>) -> SortedForm<'a>
        ensures { result.form ≡ form.entry }
    {
        SortedForm {
            form,
            numbers: group_of(form, Shape::Number),
            lists: group_of(form, Shape::List),
            records: group_of(form, Shape::Record),
        }
    }
}

// The ways of a form that have this shape, all of them and no others.
fn group_of(form: FormView<'_>, shape: Shape) -> Group
    ensures { Lists shape (form_of form.entry) (ways_of result) }
{
    let mut group = Group::new();
    // By number: a kind is its number, which a group keeps.
    for kind in 0..form.kinds() {
        for (way, shown) in form.ways_of(kind).enumerate() {
            if shown.read().shape() == shape {
                group.push(WayAt {
                    kind: kind as u8,
                    way: way as u8,
                });
            }
        }
    }
    group
}
