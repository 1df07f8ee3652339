// The loops of a rotation.
// Kept: each loop runs over numbers, of which it makes the rows and columns of two entries; no slice has these in a row.
// Kept: `p < q` stands in three contracts, since p and q are one entry above the diagonal, by which rows and columns are read apart.
ghost use Rattle.std.specs.Prelude.{◌≡◌, ◌<◌, ◌≤◌, length};
ghost use Rattle.dual.specs.Rules.{dual_algebra, dual_records};
ghost use Rattle.matrices.specs.Matrix.{Square};
ghost use Rattle.rotations.specs.Rotation as rule;
ghost use Rattle.rotations.specs.Rotation.{turned_first, turned_second, turn_columns, turn_between, turn_rows, turn_above};

use super::Angle;
use super::cells::{get, put};
use dual::Dual;
use records::Record;

impl Angle {
    // g - s * (h + g * tau)
    #[tactic(auto, unfolding(crate::specs::Rotation::turned_first))]
    fn turned_first(self, g: Dual, h: Dual) -> Dual
        ensures { result ≡ turned_first dual_algebra self.s self.tau g h }
    {
        g.sub(self.s.mul(h.add(g.mul(self.tau))))
    }

    // h + s * (g - h * tau)
    #[tactic(auto, unfolding(crate::specs::Rotation::turned_second))]
    fn turned_second(self, g: Dual, h: Dual) -> Dual
        ensures { result ≡ turned_second dual_algebra self.s self.tau g h }
    {
        h.add(self.s.mul(g.sub(h.mul(self.tau))))
    }

    // The entries at (r, c) and (u, w), turned.
    #[tactic(auto, unfolding(crate::specs::Rotation::turn))]
    fn turn(self, n: usize, a: &mut [f64], r: usize, c: usize, u: usize, w: usize)
        requires square { Square 2 n a.old }
        requires first_in_matrix { (r < n) × (c < n) }
        requires second_in_matrix { (u < n) × (w < n) }
        ensures still_square { Square 2 n a.new }
        ensures a_after { dual_records a.new ≡ rule.turn dual_algebra n self.s self.tau r c u w (dual_records a.old) }
    {
        let g = get(n, a, r, c);
        let h = get(n, a, u, w);
        put(n, a, r, c, self.turned_first(g, h));
        put(n, a, u, w, self.turned_second(g, h));
    }

    // Columns p and q of the first rows.
    pub(crate) fn turn_columns(self, n: usize, a: &mut [f64], p: usize, q: usize, rows: usize)
        requires square { Square 2 n a.old }
        requires columns_in_matrix { (p < n) × (q < n) }
        requires rows_in_matrix { rows ≤ n }
        ensures still_square { Square 2 n a.new }
        ensures a_after { dual_records a.new ≡ turn_columns dual_algebra n self.s self.tau p q rows (dual_records a.old) }
    {
        for j in 0..rows {
            self.turn(n, a, j, p, j, q);
        }
    }

    // Row p and column q between them.
    fn turn_between(self, n: usize, a: &mut [f64], p: usize, q: usize)
        requires square { Square 2 n a.old }
        requires above_diagonal { (p < q) × (q < n) }
        ensures still_square { Square 2 n a.new }
        ensures a_after { dual_records a.new ≡ turn_between dual_algebra n self.s self.tau p q (dual_records a.old) }
    {
        for j in p + 1..q {
            self.turn(n, a, p, j, j, q);
        }
    }

    // Rows p and q beyond q.
    fn turn_rows(self, n: usize, a: &mut [f64], p: usize, q: usize)
        requires square { Square 2 n a.old }
        requires above_diagonal { (p < q) × (q < n) }
        ensures still_square { Square 2 n a.new }
        ensures a_after { dual_records a.new ≡ turn_rows dual_algebra n self.s self.tau p q (dual_records a.old) }
    {
        for j in q + 1..n {
            self.turn(n, a, p, j, q, j);
        }
    }

    // The entry (p, q) set to zero, and the part above the diagonal turned.
    #[tactic(auto, unfolding(crate::specs::Rotation::turn_above))]
    pub(crate) fn turn_above(self, n: usize, a: &mut [f64], p: usize, q: usize)
        requires square { Square 2 n a.old }
        requires above_diagonal { (p < q) × (q < n) }
        ensures still_square { Square 2 n a.new }
        ensures a_after { dual_records a.new ≡ turn_above dual_algebra n self.s self.tau p q (dual_records a.old) }
    {
        put(n, a, p, q, Dual::zero());
        self.turn_columns(n, a, p, q, p);
        self.turn_between(n, a, p, q);
        self.turn_rows(n, a, p, q);
    }

    // h from entry p to entry q.
    #[tactic(auto, unfolding(crate::specs::Rotation::shift))]
    pub(crate) fn shift(self, d: &mut [f64], p: usize, q: usize)
        requires p_held { p < length (dual_records d.old) }
        requires q_held { q < length (dual_records d.old) }
        ensures { dual_records d.new ≡ rule.shift dual_algebra p q self.h (dual_records d.old) }
    {
        let x = Dual::read(d, p);
        Dual::write(d, p, x.sub(self.h));
        let y = Dual::read(d, q);
        Dual::write(d, q, y.add(self.h));
    }
}
