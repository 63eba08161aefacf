// The point of a label, and of each label of a run.
ghost use Rattle.std.specs.Prelude.{◌≡◌};
ghost use Rattle.points.specs.Points.{shifted, point_of, used_ok, in_phase_of, quadrature_of};
ghost use Rattle.points.specs.Needs.{Listed, Areas};

use crate::Point;
use crate::turns::quarter_turn;

// The number of BPSK, whose even symbols are turned.
pub const BPSK: u32 = 1;

// The lent lists of coordinates; a call tests that each label has its entry.
#[derive(Clone, Copy)]
pub struct Entries<'a> {
    pub in_phase: &'a [f32],
    pub quadrature: &'a [f32],
}

impl Entries<'_> {
    // The point of a label as symbol number `symbol`.
    #[tactic(auto, unfolding(crate::specs::Points::point_of))]
    pub fn point_of(self, modulation: u32, symbol: usize, label: usize) -> Point
        requires { Listed self.in_phase.now self.quadrature.now label }
        ensures { result ≡ point_of modulation symbol self.entry.in_phase.now self.entry.quadrature.now label }
    {
        let p = Point {
            i: self.in_phase[label],
            q: self.quadrature[label],
        };
        shift(modulation, symbol, p)
    }

    // Whether both entries of a label are finite.
    #[tactic(auto, using(crate::proofs::PointLaws::is_finite), unfolding(crate::specs::Points::used_ok))]
    pub fn used_ok(self, label: usize) -> bool
        requires { Listed self.in_phase.now self.quadrature.now label }
        ensures { result ≡ used_ok self.entry.in_phase.now self.entry.quadrature.now label }
    {
        self.in_phase[label].is_finite() && self.quadrature[label].is_finite()
    }
}

// A point as symbol number `symbol`.
#[tactic(auto, unfolding(crate::specs::Points::shifted))]
fn shift(modulation: u32, symbol: usize, p: Point) -> Point
    ensures { result ≡ shifted modulation symbol p }
{
    if modulation == BPSK && symbol % 2 == 0 {
        return quarter_turn(p);
    }
    p
}

// Puts the coordinates of the labels' points, the first label as symbol number `symbol`; by index, since of a zip over iter_mut
// a proof knows the length alone.
pub fn put_points(
    modulation: u32,
    symbol: u32,
    labels: &[u8],
    entries: Entries,
    i: &mut [f32],
    q: &mut [f32],
)
    requires { Areas labels.now entries.in_phase.now entries.quadrature.now i.old q.old }
    ensures i_after { i.new ≡ in_phase_of modulation symbol labels.now entries.entry.in_phase.now entries.entry.quadrature.now }
    ensures q_after { q.new ≡ quadrature_of modulation symbol labels.now entries.entry.in_phase.now entries.entry.quadrature.now }
{
    for (r, label) in labels.iter().enumerate() {
        let p = entries.point_of(modulation, symbol as usize + r, usize::from(*label));
        i[r] = p.i;
        q[r] = p.q;
    }
}
