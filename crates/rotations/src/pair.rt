// One entry above the diagonal, by what is chosen for it.
// Kept: p and q are the row and the column of one entry, by which both are read apart.
ghost use Rattle.std.specs.Prelude.{◌≡◌, ◌+◌, ◌<◌, ◌≤◌};
ghost use Rattle.dual.specs.Rules.{dual_algebra, dual_records};
ghost use Rattle.matrices.specs.Matrix.{cell};
ghost use Rattle.rotations.specs.Rotation as rule;
ghost use Rattle.rotations.specs.Buffers.{many_rotations, angle_parts, SameWork, work_of};

use super::cells::{get, put};
use super::work::Work;
use super::{Angle, Block, Choice};
use dual::Dual;
use records::Record;

impl<'a> Work<'a> {
    // The matrix's entry at row r, column c.
    pub fn entry(&self, r: usize, c: usize) -> Dual
        requires in_matrix { (r < self.now.n) × (c < self.now.n) }
        ensures { result ≡ cell dual_algebra self.now.n (dual_records self.now.a.now) r c }
    {
        get(self.n, self.a, r, c)
    }

    // Value number p, on the diagonal.
    pub fn value(&self, p: usize) -> Dual
        requires { p < self.now.n }
        ensures { result ≡ rule.item dual_algebra (dual_records self.now.d.now) p }
    {
        Dual::read(self.d, p)
    }

    // The whole rotation.
    fn rotate(&mut self, p: usize, q: usize, t: Angle)
        requires above_diagonal { (p < q) × (q < self.old.n) }
        requires countable { self.old.rotations < many_rotations }
        ensures same { SameWork self.old self.new }
        ensures work_after { work_of self.new ≡ rule.rotate dual_algebra self.old.n p q (angle_parts t) (work_of self.old) }
        ensures one_more { self.new.rotations ≡ self.old.rotations + 1 }
    {
        t.shift(self.zw, p, q);
        t.shift(self.d, p, q);
        t.turn_above(self.n, self.a, p, q);
        t.turn_columns(self.n, self.v, p, q, self.n);
        self.rotations += 1;
    }

    // The entry (p, q) of sweep it_num.
    pub fn pair(&mut self, thresh: f64, it_num: usize, p: usize, q: usize)
        requires above_diagonal { (p < q) × (q < self.old.n) }
        requires countable { self.old.rotations < many_rotations }
        ensures same { SameWork self.old self.new }
        ensures work_after { work_of self.new ≡ rule.pair dual_algebra self.old.n thresh it_num p q (work_of self.old) }
        ensures few { self.new.rotations ≤ self.old.rotations + 1 }
    {
        let block = Block {
            x: self.entry(p, q),
            dp: self.value(p),
            dq: self.value(q),
        };
        match block.choice(thresh, it_num) {
            Choice::Keep => {}
            Choice::Clear => put(self.n, self.a, p, q, Dual::zero()),
            Choice::Rotate => self.rotate(p, q, block.angle()),
        }
    }
}
