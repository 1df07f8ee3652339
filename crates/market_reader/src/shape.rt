// Which entries of a matrix a text has, and where each of them stands, column by column.
ghost use Rattle.std.specs.Prelude.{◌≡◌, ◌*◌, ◌≤◌, ◌<◌};
ghost use Rattle.refusals.specs.Largest as largest;
ghost use Rattle.market.specs.Format.{count_of};
ghost use Rattle.market.specs.Entries as Entries;
ghost use Rattle.market_reader.specs.Kinds.{is_symmetric};

// All entries, or the diagonal's and those below it.
#[derive(Clone, Copy)]
pub(crate) enum Symmetry {
    General,
    Symmetric,
}

// An n by n matrix that is read, and which of its entries the text has.
#[derive(Clone, Copy)]
pub(crate) struct Shape {
    pub n: usize,
    pub symmetry: Symmetry,
    ghost few: { n ≤ largest.n },
}

impl Shape {
    // How many entries there are.
    #[tactic(auto, unfolding(market::specs::Format::count_of))]
    pub fn count(self) -> usize
        ensures value { result ≡ count_of (is_symmetric self.symmetry) self.n }
        ensures few { result ≤ largest.n * largest.n }
    {
        match self.symmetry {
            Symmetry::General => self.n * self.n,
            Symmetry::Symmetric => self.n * (self.n + 1) / 2,
        }
    }

    // Which entry stands at row r, column c of the lower half.
    fn lower_place(self, r: usize, c: usize) -> usize
        requires { (c ≤ r) × (r < self.n) }
        ensures { result ≡ Entries.lower_place self.n r c }
    {
        c * self.n + r - c * (c + 1) / 2
    }

    // Which entry stands at row r, column c.
    #[tactic(auto, unfolding(market::specs::Entries::place_of))]
    pub fn place(self, r: usize, c: usize) -> usize
        requires { (r < self.n) × (c < self.n) }
        ensures { result ≡ Entries.place_of (is_symmetric self.symmetry) self.n r c }
    {
        match self.symmetry {
            Symmetry::General => c * self.n + r,
            Symmetry::Symmetric if c <= r => self.lower_place(r, c),
            Symmetry::Symmetric => self.lower_place(c, r),
        }
    }
}
