// The shape of a paper, and of what takes one: a number, a list or a record.
ghost use Rattle.std.specs.Prelude.{◌≡◌, ◌<◌, MatchResult};
ghost use Rattle.papers.specs.Telling.{shape_number};

#[derive(Clone, Copy, Debug, PartialEq, Eq)]
pub enum Shape {
    Number,
    List,
    Record,
}

// A number that stands for no shape.
#[derive(Clone, Copy, Debug, PartialEq, Eq)]
pub struct NoShape;

// The shape that a number stands for, as the start of a paper and as the tag of a form's way.
impl TryFrom<u64> for Shape {
    type Error = NoShape;

    ghost try_from_gives = { λ number r. MatchResult r (λ shape. shape_number shape ≡ number) (λ _. 2 < number) };

    fn try_from(number: u64) -> Result<Self, NoShape> {
        match number {
            0 => Ok(Shape::Number),
            1 => Ok(Shape::List),
            2 => Ok(Shape::Record),
            _ => Err(NoShape),
        }
    }
}
