// Grids: where a cell stands, and which grids are accepted.
#![tactic(auto)]

ghost use Rattle.std.specs.Prelude.{IfOk, ◌≡◌, false, ◌||◌, ◌++◌, ◌*◌, ◌≤◌, ◌<◌, length, take, drop, replicate};
ghost use Rattle.refusal.specs.Answered.{refusal_of};
ghost use Rattle.relation.specs.Composition.{converse};
ghost use Rattle.grid.specs.Cells.{cell, put, put_both, some_empty};
ghost use Rattle.grid.specs.Accepted.{size_refusal, cell_refusal, grid_refusal, some_large, some_not_eq, unlike, some_unlike};
ghost use Rattle.grid.specs.Steps.{above_unlike};

use refusal::Refusal;

// The largest number of events, the set of all relations, and the set of eq alone.
pub const EVENTS: usize = 32;

pub const ALL: u16 = 8191;

pub const EQ: u16 = 4096;

// A cell became empty, so no placing meets the grid.
#[derive(Clone, Copy)]
pub struct Emptied;

// A grid of at most 32 events in the cells lent: there are n × n of them or more.
#[derive(Clone, Copy)]
pub struct Grid<'a> {
    pub cells: &'a [u16],
    pub n: usize,
    ghost few: { n ≤ 32 },
    ghost fits: { n * n ≤ length cells.now },
}

// Cell (i, j). This, `put` and `put_both` take the cells and n apart, for grids that are written, and their bounds stay
// clauses: with a `&mut` inside a struct, each contract would have to say when the loan ends.
#[tactic(auto, unfolding(crate::specs::Cells::cell))]
pub fn get(g: &[u16], n: usize, i: usize, j: usize) -> u16
    requires { (n ≤ 32) × (i < n) × (j < n) × (n * n ≤ length g.now) }
    ensures { result ≡ cell n g.now i j }
{
    g[i * n + j]
}

// Cell (i, j) becomes a.
#[tactic(auto, unfolding(crate::specs::Cells::put))]
fn put(g: &mut [u16], n: usize, i: usize, j: usize, a: u16)
    requires { (n ≤ 32) × (i < n) × (j < n) × (n * n ≤ length g.old) }
    ensures { g.new ≡ put n g.old i j a }
{
    g[i * n + j] = a;
}

// Cell (i, j) becomes a, and its mirror the converse.
pub fn put_both(g: &mut [u16], n: usize, i: usize, j: usize, a: u16)
    requires { (n ≤ 32) × (i < n) × (j < n) × (n * n ≤ length g.old) }
    ensures { g.new ≡ put_both converse n g.old i j a }
{
    let turned = relation::converse_of(a);
    put(g, n, i, j, a);
    put(g, n, j, i, turned);
}

// Some cell is empty. The loop goes on where one is found, so that the processor can look at eight cells at a time.
pub fn some_empty(g: &[u16]) -> bool
    ensures { result ≡ some_empty g.now }
{
    let mut found = false;
    for cell in g {
        found |= *cell == 0;
    }
    found
}

// Every cell becomes empty.
pub fn clear(g: &mut [u16])
    ensures { g.new ≡ replicate (length g.old) 0 }
{
    g.fill(0);
}

// The first m cells become those of another grid.
pub fn copy(to: &mut [u16], from: &[u16], m: usize)
    requires { (m ≤ length to.old) × (m ≤ length from.now) }
    ensures { to.new ≡ take m from.now ++ drop m to.old }
{
    to[..m].copy_from_slice(&from[..m]);
}

impl<'a> Grid<'a> {
    // A grid of n events, in just so many cells; else refusal 1 or 2.
    #[tactic(auto, unfolding(crate::specs::Accepted::size_refusal))]
    pub fn sized(cells: &'a [u16], n: usize) -> Result<Grid<'a>, Refusal>
        ensures refusal { refusal_of result ≡ size_refusal n cells.entry.now }
        ensures same { IfOk result (λ g. (g.n ≡ n) × (g.cells ≡ cells.entry)) }
    {
        if EVENTS < n {
            return Err(Refusal::TooManyEvents);
        }
        if cells.len() != n * n {
            return Err(Refusal::WrongLength);
        }
        Ok(Grid { cells, n })
    }

    // Cell (i, j). That an event is below n stays a clause, here and in other crates: n is a value, and no type knows it.
    pub fn get(self, i: usize, j: usize) -> u16
        requires { (i < self.n) × (j < self.n) }
        ensures { result ≡ cell self.entry.n self.entry.cells.now i j }
    {
        get(self.cells, self.n, i, j)
    }

    // Refusals 3, 4 and 5.
    #[tactic(auto, unfolding(crate::specs::Accepted::cell_refusal))]
    pub fn judge_cells(self) -> Result<(), Refusal>
        ensures { refusal_of result ≡ cell_refusal self.entry.n self.entry.cells.now }
    {
        if some_large(self.cells) {
            return Err(Refusal::SetTooLarge);
        }
        if self.some_not_eq() {
            return Err(Refusal::DiagonalNotEq);
        }
        if self.some_unlike() {
            return Err(Refusal::MirrorNotConverse);
        }
        Ok(())
    }

    // Some diagonal cell is not {eq}.
    fn some_not_eq(self) -> bool
        ensures { result ≡ some_not_eq self.entry.n self.entry.cells.now }
    {
        (0..self.n).any(|i| self.get(i, i) != EQ)
    }

    // Cell (j, i) is not the converse of cell (i, j). Where nothing is said of i to j, there is nothing to turn round.
    fn is_unlike(self, i: usize, j: usize) -> bool
        requires { (i < self.n) × (j < self.n) }
        ensures { result ≡ unlike self.entry.n self.entry.cells.now i j }
    {
        let set = self.get(i, j);
        let mirror = self.get(j, i);
        if set == ALL {
            return mirror != ALL;
        }
        mirror != relation::converse_of(set)
    }

    // Some cell of row i above the diagonal is not the converse of its mirror.
    fn row_unlike(self, i: usize) -> bool
        requires { i < self.n }
        ensures { result ≡ above_unlike self.entry.n self.entry.cells.now i }
    {
        (i + 1..self.n).any(|j| self.is_unlike(i, j))
    }

    // Some cell is not the converse of its mirror. The cells above the diagonal tell, as the others are all right so far.
    fn some_unlike(self) -> bool
        requires { (some_large self.cells.now ≡ false) × (some_not_eq self.n self.cells.now ≡ false) }
        ensures { result ≡ some_unlike self.entry.n self.entry.cells.now }
    {
        (0..self.n).any(|i| self.row_unlike(i))
    }
}

// Refusals 1 to 5 of a grid. The cells and n come apart, as to all public functions: C calls them so.
pub fn judge(g: &[u16], n: usize) -> Result<(), Refusal>
    ensures { refusal_of result ≡ grid_refusal n g.now }
{
    Grid::sized(g, n)?.judge_cells()
}

// Some cell is above 8191. As in `some_empty`, the loop goes on to the end.
fn some_large(g: &[u16]) -> bool
    ensures { result ≡ some_large g.now }
{
    let mut found = false;
    for cell in g {
        found |= ALL < *cell;
    }
    found
}
