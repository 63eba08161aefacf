// Points turned.
ghost use Rattle.std.specs.Prelude.{◌≡◌};
ghost use Rattle.points.specs.Points.{quarter_turn, half_turn};

use crate::Point;

// The point turned by 90 degrees anticlockwise.
pub fn quarter_turn(p: Point) -> Point
    ensures { result ≡ quarter_turn p }
{
    Point { i: -p.q, q: p.i }
}

// The point turned by 180 degrees.
pub fn half_turn(p: Point) -> Point
    ensures { result ≡ half_turn p }
{
    Point { i: -p.i, q: -p.q }
}
