// The shapes that a pile can have: so many END layers over the text.
ghost use Rattle.std.specs.Prelude.{◌≡◌, ◌≢◌, MatchResult, Some, codes};
ghost use Rattle.polling.specs.Shapes.{name_of};

use std::error::Error;
use std::fmt;
use std::str::FromStr;

#[derive(Clone, Copy, Debug, PartialEq, Eq)]
pub enum Shape {
    Bare,
    OneEnd,
    TwoEnds,
    ThreeEnds,
    FourEnds,
}

// The shape of a name, which says its layers, the bottom one first.
impl FromStr for Shape {
    ghost use Rattle.polling.specs.declared.shape.Shape.{Shape};

    type Err = UnknownShape;

    ghost from_str_gives = { λ name r. MatchResult r (λ s. name ≡ name_of s) (λ _. (s : Shape) → name ≢ name_of s) };

    fn from_str(name: &str) -> Result<Shape, UnknownShape> {
        match name {
            "-" => Ok(Shape::Bare),
            "E" => Ok(Shape::OneEnd),
            "EE" => Ok(Shape::TwoEnds),
            "EEE" => Ok(Shape::ThreeEnds),
            "EEEE" => Ok(Shape::FourEnds),
            _ => Err(UnknownShape),
        }
    }
}

// The text names no shape.
#[derive(Clone, Copy, Debug, PartialEq, Eq)]
pub struct UnknownShape;

impl fmt::Display for UnknownShape {
    ghost output = { λ _. Some (codes "no shape has this name") };

    fn fmt<W: fmt::Write>(&self, f: &mut fmt::Formatter<W>) -> fmt::Result {
        f.write_str("no shape has this name")
    }
}

impl Error for UnknownShape {}
