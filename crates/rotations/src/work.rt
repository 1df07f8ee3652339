// What a sweep works on.
ghost use Rattle.matrices.specs.Matrix.{Square};
ghost use Rattle.rotations.specs.Vector.{Vector};

// The matrix a, the vectors v, the diagonal d and what the diagonal gained zw, each of n by n or n records in lent floats; and the rotations so far.
#[derive(Drop)]
pub struct Work<'a> {
    pub n: usize,
    pub a: &'a mut [f64],
    pub v: &'a mut [f64],
    pub d: &'a mut [f64],
    pub zw: &'a mut [f64],
    pub rotations: usize,
    ghost matrix: { Square 2 n a.now },
    ghost vectors: { Square 2 n v.now },
    ghost values: { Vector n d.now },
    ghost gains: { Vector n zw.now },
}
