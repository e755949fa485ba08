// The ways of a kind and the places of a way, one after the other. They are two types, and not one over what it gives: each makes
// its own kind of item, and only the ways carry a fact, that each of them fits.
ghost use Rattle.std.specs.Iterator.{YieldsFirst, YieldsFirstBy, item_count};
ghost use Rattle.forms.specs.View.{way_of, ways_left, places_left};

use crate::layout;
use crate::view::{Places, WayView, Ways};
use crate::way::Place;

impl<'a> Iterator for Ways<'a> {
    type Item = WayView<'a>;

    ghost next_gives = { YieldsFirstBy way_of ways_left };

    ghost remaining = { item_count ways_left };

    fn next(&mut self) -> Option<WayView<'a>> {
        let (numbers, left) = self.left.split_first()?;
        self.left = left;
        Some(WayView { numbers })
    }
}

impl<'a> Iterator for Places<'a> {
    type Item = Place;

    ghost next_gives = { YieldsFirst places_left };

    ghost remaining = { item_count places_left };

    fn next(&mut self) -> Option<Place> {
        let (numbers, left) = self.left.split_first()?;
        self.left = left;
        Some(layout::place_of(numbers))
    }
}
