// Looking for a placing of a grid.
#![tactic(auto)]

ghost use Rattle.std.specs.Prelude.{◌≡◌, [], Ok, ◌*◌, ◌≤◌, ◌<◌, length, take};
ghost use Rattle.grid.specs.Cells.{Held};
ghost use Rattle.refusal.specs.Answered.{refusal_of};
ghost use Rattle.grid.specs.Accepted.{Accepted};
ghost use Rattle.theory.specs.Fair.{Fair};
ghost use Rattle.theory.specs.Allen.{allen};
ghost use Rattle.theory.specs.Search.{closes_to};
ghost use Rattle.theory.specs.Tried.{tried_by};
ghost use Rattle.takes.specs.Steps.{ended};
ghost use Rattle.quick.specs.Steps.{ClosedGrid};
ghost use Rattle.search.specs.Rule.{try_at};
ghost use Rattle.search.specs.Answers.{search_refusal, Looks};
ghost use Rattle.search.specs.Steps.{Shows, Settles, Triable, Stands, Steps, Passes, goes_on, after};

use grid::Grid;
use refusal::Refusal;
use takes::{End, WaitingList};

// What the cells from one on came to.
#[derive(Clone, Copy)]
pub enum Outcome {
    Placed,
    None,
    GaveUp,
}

// The same, with the tries made.
#[derive(Clone, Copy)]
pub struct Looked {
    pub outcome: Outcome,
    pub tries: u32,
}

// Where the search stands: at cell (i, j) or past the last, with so many cells left and so many tries made.
#[derive(Clone, Copy)]
pub struct Stand {
    pub i: usize,
    pub j: usize,
    pub left: usize,
    pub tries: u32,
}

// The cell after (i, j), in row order.
fn after(n: usize, i: usize, j: usize) -> (usize, usize)
    requires { (n ≤ 32) × (i < j) × (j < n) }
    ensures { result ≡ after n i j }
{
    if j + 1 < n {
        (i, j + 1)
    } else {
        (i + 1, i + 2)
    }
}

impl Stand {
    // The next cell, with so many tries made.
    fn next(self, n: usize, tries: u32) -> Stand
        requires { (n ≤ 32) × (self.i < self.j) × (self.j < n) × (0 < self.left) }
        ensures { Steps n self tries result }
    {
        let (i, j) = after(n, self.i, self.j);
        Stand {
            i,
            j,
            left: self.left - 1,
            tries,
        }
    }
}

// Passes over the cells that have one relation alone, each for one try: on a closed grid such a try cuts nothing.
fn pass_decided(grid: Grid, from: Stand, allowance: u32) -> Stand
    requires { Stands grid.n allowance from × ClosedGrid grid.n grid.cells.now }
    ensures { Passes grid.entry.n allowance grid.entry.cells.now from result }
{
    let mut at = from;
    // A while loop: how many cells are passed is what it finds out.
    while 0 < at.left {
        if at.tries == allowance {
            return at;
        }
        let set = grid.get(at.i, at.j);
        if relation::without_lowest(set) != 0 {
            return at;
        }
        at = at.next(grid.n, at.tries + 1);
    }
    at
}

// One try: cuts cell (i, j) and its mirror to relation r on a copy of the grid, at the front of a room for a grid, and closes it there.
fn attempt(list: &mut WaitingList, grid: Grid, cut: &mut [u16], i: usize, j: usize, r: usize) -> End
    requires { (list.old ≡ []) × Triable grid.n i j r grid.cells.now × Held grid.n cut.old }
    ensures tried { tried_by (ended result (take (grid.entry.n * grid.entry.n) cut.new)) ≡ try_at grid.entry.n (i, j) r grid.entry.cells.now }
    ensures idle { list.new ≡ [] }
{
    let cells = grid.n * grid.n;
    grid::copy(cut, grid.cells, cells);
    quick::close_pair(list, &mut cut[..cells], grid.n, i, j, relation::mark(r))
}

// Decides the cells of a closed grid from a stand on. Past the last, the placing is written to the room. The cells and n come
// apart: of an argument that is a slice itself the compiler knows that the copy of a try shares no cell with it.
fn look(
    list: &mut WaitingList,
    g: &[u16],
    n: usize,
    from: Stand,
    allowance: u32,
    room: &mut [i32],
) -> Looked
    requires { (list.old ≡ []) × Stands n allowance from × ClosedGrid n g.now × (length room.old ≡ 2 * n) }
    ensures shows { Shows n allowance (goes_on n allowance g.now from) room.old result room.new }
    ensures idle { list.new ≡ [] }
{
    let grid = Grid { cells: g, n };
    let at = pass_decided(grid, from, allowance);
    if at.left == 0 {
        return settled(grid, at.tries, room);
    }
    let mut work = [0u16; 1024];
    let mut tries = at.tries;
    for r in 0..13 {
        if !relation::has(grid.get(at.i, at.j), r) {
            continue;
        }
        if tries == allowance {
            return Looked {
                outcome: Outcome::GaveUp,
                tries,
            };
        }
        tries += 1;
        let End::Closed(_) = attempt(list, grid, &mut work, at.i, at.j, r) else {
            continue;
        };
        let below = look(list, &work[..n * n], n, at.next(n, tries), allowance, room);
        let Outcome::None = below.outcome else {
            return below;
        };
        tries = below.tries;
    }
    Looked {
        outcome: Outcome::None,
        tries,
    }
}

// Past the last cell: the placing without gaps of the decided grid, if it meets every cell.
fn settled(grid: Grid, tries: u32, room: &mut [i32]) -> Looked
    requires { length room.old ≡ 2 * grid.n }
    ensures { Settles grid.entry.n tries grid.entry.cells.now room.old result room.new }
{
    let outcome = if placing::settle(grid, room) {
        Outcome::Placed
    } else {
        Outcome::None
    };
    Looked { outcome, tries }
}

// Copies a grid to the front of a working grid, and closes it there.
fn close_copy(list: &mut WaitingList, g: &[u16], work: &mut [u16], n: usize) -> End
    requires { (list.old ≡ []) × (length g.now ≡ n * n) × Fair allen n g.now × Held n work.old }
    ensures closed { tried_by (ended result (take (n * n) work.new)) ≡ closes_to allen n g.now }
    ensures idle { list.new ≡ [] }
{
    let cells = n * n;
    grid::copy(work, g, cells);
    quick::close_all(list, &mut work[..cells], n)
}

// Looks for a placing of an accepted grid: for rooms that know theirs to be one.
pub fn search_accepted(g: &[u16], n: usize, allowance: u32, room: &mut [i32]) -> Looked
    requires { Accepted n g.now × (length room.old ≡ 2 * n) }
    ensures { Looks n allowance g.now room.old (Ok result) room.new }
{
    let tries = 0;
    let nothing = Looked {
        outcome: Outcome::None,
        tries,
    };
    if grid::some_empty(g) {
        return nothing;
    }
    let mut list = WaitingList::new();
    let mut work = [0u16; 1024];
    let End::Closed(_) = close_copy(&mut list, g, &mut work, n) else {
        return nothing;
    };
    let cells = n * n;
    let first = Stand {
        i: 0,
        j: 1,
        left: (cells - n) / 2,
        tries,
    };
    look(&mut list, &work[..cells], n, first, allowance, room)
}

// Refusals 1, 2, 6, 3, 4 and 5 of a grid and a room of so many numbers.
fn judge(g: &[u16], n: usize, numbers: usize) -> Result<(), Refusal>
    ensures { refusal_of result ≡ search_refusal n g.now numbers }
{
    placing::sized(g, n, numbers)?.judge_cells()
}

// Looks for a placing of the grid of n events, with so many tries allowed; the room is for its 2 * n numbers.
pub fn find_placing(
    g: &[u16],
    n: usize,
    allowance: u32,
    room: &mut [i32],
) -> Result<Looked, Refusal>
    ensures { Looks n allowance g.now room.old result room.new }
{
    judge(g, n, room.len())?;
    Ok(search_accepted(g, n, allowance, room))
}
