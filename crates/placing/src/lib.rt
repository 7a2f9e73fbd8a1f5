// Placings: the checker, and the one placing without gaps of a scenario.
#![tactic(auto)]

ghost use Rattle.std.specs.Prelude.{IfOk, ◌≡◌, ◌+◌, ◌*◌, ◌≤◌, ◌<◌, length};
ghost use Rattle.std.specs.Int.Signed.{lt_z};
ghost use Rattle.relation.specs.Comparing.{more, rel_by, rel_from};
ghost use Rattle.refusal.specs.Answered.{refusal_of};
ghost use Rattle.placing.specs.Placing.{at, natural_of};
ghost use Rattle.placing.specs.Checking.{length_refusal, some_late, rest_refusal, check_refusal, CheckSays};
ghost use Rattle.placing.specs.Settling.{earlier, end_before, ends_before, relation_at, row_missed, some_missed, Settled};
ghost use Rattle.placing.specs.Steps.{order_of, most_ends, Counts, Belows, Numbers};

use grid::{EVENTS, Grid};
use refusal::Refusal;
use std::cmp::Ordering::{self, Equal, Greater, Less};

// The most ends that a placing has.
const ENDS: usize = 2 * EVENTS;

// The relations under which an end of X is before an end of Y: start or end of X, start or end of Y.
static EARLIER: [[u16; 2]; 2] = [[2581, 8181], [1, 341]];

// A grid, and the numbers of a placing: start then end, event by event.
#[derive(Clone, Copy)]
struct Placed<'a> {
    grid: Grid<'a>,
    numbers: &'a [i32],
    ghost long: { 2 * grid.n ≤ length numbers.now },
}

// Whether a placing meets every cell of a grid.
pub fn check_placing(g: &[u16], n: usize, placing: &[i32]) -> Result<bool, Refusal>
    ensures { CheckSays n g.now placing.now result }
{
    let placed = judged(g, n, placing)?;
    Ok(!placed.some_missed())
}

// A grid of n events with a placing, or room for one, of so many numbers; else refusal 1, 2 or 6.
#[tactic(auto, unfolding(crate::specs::Checking::length_refusal))]
pub fn sized<'a>(g: &'a [u16], n: usize, numbers: usize) -> Result<Grid<'a>, Refusal>
    ensures refusal { refusal_of result ≡ length_refusal n g.entry.now numbers }
    ensures same { IfOk result (λ x. (x.n ≡ n) × (x.cells ≡ g.entry)) }
{
    let grid = Grid::sized(g, n)?;
    if numbers != 2 * n {
        return Err(Refusal::PlacingLength);
    }
    Ok(grid)
}

// A grid of n events and a placing that can be checked; else refusal 1, 2, 6, 3, 4, 5 or 7, in this order.
#[tactic(auto, unfolding(crate::specs::Checking::check_refusal))]
fn judged<'a>(g: &'a [u16], n: usize, numbers: &'a [i32]) -> Result<Placed<'a>, Refusal>
    ensures refusal { refusal_of result ≡ check_refusal n g.entry.now numbers.entry.now }
    ensures same { IfOk result (λ x. (x.grid.n ≡ n) × (x.grid.cells ≡ g.entry) × (x.numbers ≡ numbers.entry)) }
{
    let grid = sized(g, n, numbers.len())?;
    let placed = Placed { grid, numbers };
    placed.judge_rest()?;
    Ok(placed)
}

// The relation of an event from a to b to one from c to d.
fn relation_of(a: i32, b: i32, c: i32, d: i32) -> usize
    ensures { result ≡ rel_by lt_z a b c d }
{
    match (b.cmp(&c), d.cmp(&a)) {
        (Less, _) => 0,
        (Equal, _) => 2,
        (Greater, Less) => 1,
        (Greater, Equal) => 3,
        (Greater, Greater) => sharing(a.cmp(&c), b.cmp(&d)),
    }
}

// The relation of two events that share some time, by their starts and their ends.
fn sharing(starts: Ordering, ends: Ordering) -> usize
    ensures { result ≡ rel_from more more (order_of starts) (order_of ends) }
{
    match (starts, ends) {
        (Less, Less) => 4,
        (Less, Equal) => 11,
        (Less, Greater) => 9,
        (Equal, Less) => 6,
        (Equal, Equal) => 12,
        (Equal, Greater) => 7,
        (Greater, Less) => 8,
        (Greater, Equal) => 10,
        (Greater, Greater) => 5,
    }
}

impl<'a> Placed<'a> {
    // The start and the end of event i. They stand side by side in one list of numbers, as the public functions and C hand it in.
    fn ends(self, i: usize) -> (i32, i32)
        requires { i < self.grid.n }
        ensures { (result.0 ≡ at self.entry.numbers.now (2 * i)) × (result.1 ≡ at self.entry.numbers.now (2 * i + 1)) }
    {
        (self.numbers[2 * i], self.numbers[2 * i + 1])
    }

    // Refusals 3, 4, 5 and 7.
    #[tactic(auto, unfolding(crate::specs::Checking::rest_refusal))]
    fn judge_rest(self) -> Result<(), Refusal>
        ensures { refusal_of result ≡ rest_refusal self.entry.grid.n self.entry.grid.cells.now self.entry.numbers.now }
    {
        self.grid.judge_cells()?;
        if self.some_late() {
            return Err(Refusal::StartNotBeforeEnd);
        }
        Ok(())
    }

    // Some start is not before its end.
    fn some_late(self) -> bool
        ensures { result ≡ some_late self.entry.grid.n (at self.entry.numbers.now) }
    {
        (0..self.grid.n).any(|i| {
            let (start, end) = self.ends(i);
            start >= end
        })
    }

    // The relation of event i to event j.
    fn relation_at(self, i: usize, j: usize) -> usize
        requires { (i < self.grid.n) × (j < self.grid.n) }
        ensures { result ≡ relation_at (at self.entry.numbers.now) i j }
    {
        let (a, b) = self.ends(i);
        let (c, d) = self.ends(j);
        relation_of(a, b, c, d)
    }

    // Some cell of row i has not the relation of its events.
    fn row_missed(self, i: usize) -> bool
        requires { i < self.grid.n }
        ensures { result ≡ row_missed self.entry.grid.n self.entry.grid.cells.now (at self.entry.numbers.now) i }
    {
        (0..self.grid.n).any(|j| !relation::has(self.grid.get(i, j), self.relation_at(i, j)))
    }

    // Some cell has not the relation of its events.
    fn some_missed(self) -> bool
        ensures { result ≡ some_missed self.entry.grid.n self.entry.grid.cells.now (at self.entry.numbers.now) }
    {
        (0..self.grid.n).any(|i| self.row_missed(i))
    }
}

// One of the four sets, by start (0) or end (1) of X and of Y.
fn earlier(e: usize, f: usize) -> u16
    requires { (e < 2) × (f < 2) }
    ensures { result ≡ earlier e f }
{
    EARLIER[e][f]
}

// End p is before end q, by the cell of their events.
fn is_before(grid: Grid, p: usize, q: usize) -> bool
    requires { (p < 2 * grid.n) × (q < 2 * grid.n) }
    ensures { result ≡ end_before grid.entry.n grid.entry.cells.now p q }
{
    grid.get(p / 2, q / 2) & earlier(p % 2, q % 2) != 0
}

// How many ends are before end p. By a loop: with `filter` and `count` over the range the goal stays open.
fn ends_before(grid: Grid, p: usize) -> usize
    requires { p < 2 * grid.n }
    ensures { result ≡ ends_before grid.entry.n grid.entry.cells.now p }
{
    let mut found = 0;
    for q in 0..2 * grid.n {
        if is_before(grid, q, p) {
            found += 1;
        }
    }
    found
}

// How many ends are before each end.
fn count_ends(grid: Grid) -> [usize; ENDS]
    ensures { Counts grid.entry.n grid.entry.cells.now result }
{
    let mut counts = [0; ENDS];
    for (p, count) in counts[..2 * grid.n].iter_mut().enumerate() {
        *count = ends_before(grid, p);
    }
    counts
}

// How many different counts are below each number up to as many as there are counts. By index: each number needs the one before it.
fn values_below(counts: &[usize]) -> [usize; ENDS + 1]
    requires { length counts.now ≤ most_ends }
    ensures { Belows (length counts.now) counts.now result }
{
    let mut belows = [0; ENDS + 1];
    for v in 0..counts.len() {
        belows[v + 1] = belows[v] + usize::from(counts.contains(&v));
    }
    belows
}

// The number of each end: how many different values are below its own. By index: of what `zip` over `iter_mut` writes the proof keeps
// nothing.
fn number_ends(grid: Grid) -> [i32; ENDS]
    ensures { Numbers grid.entry.n grid.entry.cells.now result }
{
    let counts = count_ends(grid);
    let belows = values_below(&counts[..2 * grid.n]);
    let mut numbers = [0; ENDS];
    for p in 0..2 * grid.n {
        numbers[p] = belows[counts[p]] as i32;
    }
    numbers
}

// Works out the one placing without gaps of a grid with one relation for each pair, and checks it: whether it meets every
// cell. Then it is in the room, and otherwise the room is as found.
pub fn settle(grid: Grid, room: &mut [i32]) -> bool
    requires { length room.old ≡ 2 * grid.n }
    ensures { Settled grid.entry.n grid.entry.cells.now room.old room.new result }
{
    let numbers = number_ends(grid);
    let placed = Placed {
        grid,
        numbers: &numbers,
    };
    if placed.some_late() || placed.some_missed() {
        return false;
    }
    room.copy_from_slice(&numbers[..2 * grid.n]);
    true
}

// A number of a placing without its sign, where it is not negative; else 0.
pub fn natural(x: i32) -> u32
    ensures { result ≡ natural_of x }
{
    u32::try_from(x).unwrap_or(0)
}
