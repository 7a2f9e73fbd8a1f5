// The takes of quick closing, from any waiting list: the core of both closing a given grid and a try of the search.
#![tactic(auto)]

ghost use Rattle.std.specs.Prelude.{◌≡◌, [], ◌*◌, ◌≤◌, ◌<◌, IfOk};
ghost use Rattle.relation.specs.Composition.{converse};
ghost use Rattle.grid.specs.Cells.{put_both, Held};
ghost use Rattle.theory.specs.Fair.{Fair};
ghost use Rattle.theory.specs.Allen.{allen};
ghost use Rattle.theory.specs.Line.{pair_of, Pairs, joins};
ghost use Rattle.theory.specs.Quick.{turns, run};
ghost use Rattle.theory.specs.Cuts.{from_of, to_of, cut_at};
ghost use Rattle.takes.specs.Steps.{Sees, Changes, Finds, stepped, ended};

use grid::Emptied;
use relation::Rows;
pub use waiting::WaitingList;

mod waiting;

// How a run of takes ended, with the takes made.
#[derive(Clone, Copy)]
pub enum End {
    Contradiction(usize),
    Closed(usize),
    Paused(usize),
}

// The number of a pair, smaller event first.
fn pair_of(a: usize, b: usize) -> usize
    requires { (a < 32) × (b < 32) }
    ensures { result ≡ pair_of a b }
{
    if a < b { a * 32 + b } else { b * 32 + a }
}

// Cell (a, b) and its mirror become v, and the pair joins.
pub fn write_cut(list: &mut WaitingList, g: &mut [u16], n: usize, a: usize, b: usize, v: u16)
    requires { (a < n) × (b < n) × Held n g.old }
    ensures cells { g.new ≡ put_both converse n g.old a b v }
    ensures joined { list.new ≡ joins (pair_of a b) list.old }
{
    grid::put_both(g, n, a, b, v);
    list.join(pair_of(a, b));
}

// The two events of the cell that cut c in the take of (i, j) cuts.
fn from_of(i: usize, c: usize) -> usize
    ensures { result ≡ from_of i c }
{
    if c % 2 == 0 { i } else { c / 2 }
}

fn to_of(j: usize, c: usize) -> usize
    ensures { result ≡ to_of j c }
{
    if c % 2 == 0 { c / 2 } else { j }
}

// A cut that changes its cell, by its number in the take, and what it leaves. Cut 2 * k is the first at k, 2 * k + 1 the second.
#[derive(Clone, Copy)]
pub struct Found {
    pub at: usize,
    pub set: u16,
}

// The take of (i, j), with the rows of that cell and of its mirror.
#[derive(Drop)]
struct Take {
    i: usize,
    j: usize,
    there: Rows,
    back: Rows,
}

impl Take {
    // The first cut at this event or a later one that changes something. Most cuts change nothing, and this only reads. Both cuts at k
    // are made in its own row, the first of them turned round: so the rows of (i, j) and of (j, i) serve for all k.
    fn cut_from(&self, g: &[u16], n: usize, from: usize) -> Option<Found>
        requires { Sees n g.now self.now × (from ≤ n) × Fair allen n g.now }
        ensures { Finds n self.now.i self.now.j g.now (from * 2) result }
    {
        for k in from..n {
            let ki = grid::get(g, n, k, self.i);
            let kj = grid::get(g, n, k, self.j);
            let first = ki & self.back.compose(kj);
            if first != ki {
                return Some(Found {
                    at: k * 2,
                    set: relation::converse_of(first),
                });
            }
            let second = kj & self.there.compose(ki);
            if second != kj {
                return Some(Found {
                    at: k * 2 + 1,
                    set: second,
                });
            }
        }
        None
    }

    // The first cut from c on that changes something.
    fn next_cut(&self, g: &[u16], n: usize, c: usize) -> Option<Found>
        requires { Sees n g.now self.now × (c ≤ n * 2) × Fair allen n g.now }
        ensures { Finds n self.now.i self.now.j g.now c result }
    {
        let k = c / 2;
        if c % 2 == 1 {
            let ki = grid::get(g, n, k, self.i);
            let kj = grid::get(g, n, k, self.j);
            let set = kj & self.there.compose(ki);
            if set != kj {
                return Some(Found { at: c, set });
            }
        }
        self.cut_from(g, n, k + c % 2)
    }

    // Makes a cut of the take.
    fn make_cut(
        &self,
        list: &mut WaitingList,
        g: &mut [u16],
        n: usize,
        cut: Found,
    ) -> Result<(), Emptied>
        requires { Sees n g.old self.now × (cut.at < n * 2) × Held n g.old × Pairs n list.old × Changes n self.now.i self.now.j g.old cut.at cut.set }
        ensures step { stepped result g.new list.new ≡ cut_at allen n self.now.i self.now.j cut.at g.old list.old }
        ensures pairs { Pairs n list.new }
    {
        let k = cut.at / 2;
        if k == self.i || k == self.j {
            return Ok(());
        }
        if cut.set == 0 {
            return Err(Emptied);
        }
        write_cut(
            list,
            g,
            n,
            from_of(self.i, cut.at),
            to_of(self.j, cut.at),
            cut.set,
        );
        Ok(())
    }
}

// One take of (i, j), cut by cut. By itself, since a function clears the room of its rows where it begins: of most pairs nothing is
// said, and they need none. `Fair`, `Sees` and `Pairs` stay clauses, here and in other crates: they hold of lent cells and
// of a list at a moment, and not of each.
fn take_cuts(
    list: &mut WaitingList,
    g: &mut [u16],
    n: usize,
    i: usize,
    j: usize,
) -> Result<(), Emptied>
    requires { (i < n) × (j < n) × (i ≡ j → ⊥) × Fair allen n g.old × Pairs n list.old }
    ensures step { stepped result g.new list.new ≡ turns allen n i j n 0 g.old list.old }
    ensures fair { IfOk result (λ _. Fair allen n g.new) }
    ensures pairs { Pairs n list.new }
{
    let take = Take {
        i,
        j,
        there: Rows::of(grid::get(g, n, i, j)),
        back: Rows::of(grid::get(g, n, j, i)),
    };
    let mut c = 0;
    // From one change to the next: what lies between is only read.
    while let Some(found) = take.next_cut(g, n, c) {
        take.make_cut(list, g, n, found)?;
        c = found.at + 1;
    }
    Ok(())
}

// One take of (i, j). Where nothing is said of i to j, it changes nothing.
fn take_pair(
    list: &mut WaitingList,
    g: &mut [u16],
    n: usize,
    i: usize,
    j: usize,
) -> Result<(), Emptied>
    requires { (i < n) × (j < n) × (i ≡ j → ⊥) × Fair allen n g.old × Pairs n list.old }
    ensures step { stepped result g.new list.new ≡ turns allen n i j n 0 g.old list.old }
    ensures fair { IfOk result (λ _. Fair allen n g.new) }
    ensures pairs { Pairs n list.new }
{
    if grid::get(g, n, i, j) == grid::ALL {
        return Ok(());
    }
    take_cuts(list, g, n, i, j)
}

// At most limit takes, after which nothing waits.
pub fn takes(list: &mut WaitingList, g: &mut [u16], n: usize, limit: usize) -> End
    requires { Fair allen n g.old × Pairs n list.old }
    ensures end { ended result g.new ≡ run allen n limit 0 g.old list.old }
    ensures idle { list.new ≡ [] }
{
    let mut t = 0;
    // The list grows as cells are cut, so that the takes are no range.
    while let Some(p) = list.leave() {
        if t == limit {
            list.clear();
            return End::Paused(t);
        }
        t += 1;
        if take_pair(list, g, n, p / 32, p % 32).is_err() {
            list.clear();
            return End::Contradiction(t);
        }
    }
    End::Closed(t)
}
