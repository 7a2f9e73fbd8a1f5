// Quick closing of a grid.
#![tactic(auto)]

ghost use Rattle.std.specs.Prelude.{◌≡◌, [], ◌*◌, ◌≤◌, length};
ghost use Rattle.relation.specs.Composition.{converse};
ghost use Rattle.grid.specs.Cells.{put_both};
ghost use Rattle.grid.specs.Accepted.{Accepted};
ghost use Rattle.theory.specs.Allen.{allen};
ghost use Rattle.theory.specs.Fair.{Fair};
ghost use Rattle.theory.specs.Line.{all_pairs};
ghost use Rattle.theory.specs.Search.{closes_to};
ghost use Rattle.theory.specs.Tried.{tried_by};
ghost use Rattle.takes.specs.Steps.{ended};
ghost use Rattle.quick.specs.Answers.{quick_rule, QuickCloses};
ghost use Rattle.quick.specs.Steps.{Shows, Cuttable};

use refusal::Refusal;
use takes::{End, WaitingList};

// So many takes always suffice to close a grid.
const ENOUGH: usize = 6448;

// Closes the lent grid of n events in at most limit takes: closed or contradiction with the takes made, paused with the limit, or a
// refusal.
pub fn quick_close(g: &mut [u16], n: usize, limit: usize) -> Result<End, Refusal>
    ensures { QuickCloses n limit g.old result g.new }
{
    grid::judge(g, n)?;
    Ok(close_accepted(g, n, limit))
}

// Closes an accepted grid.
fn close_accepted(g: &mut [u16], n: usize, limit: usize) -> End
    requires { Accepted n g.old }
    ensures { Shows n (quick_rule n limit g.old) result g.new }
{
    if grid::some_empty(g) {
        grid::clear(g);
        return End::Contradiction(0);
    }
    let mut list = WaitingList::new();
    all_waiting(&mut list, n);
    let end = takes::takes(&mut list, g, n, limit);
    if let End::Contradiction(_) = end {
        grid::clear(g);
    }
    end
}

// Closes a grid without an empty cell, however many takes it needs. Nothing waits before or afterwards, which stays a clause: it holds
// of the list at a moment.
pub fn close_all(list: &mut WaitingList, g: &mut [u16], n: usize) -> End
    requires { (list.old ≡ []) × (length g.old ≡ n * n) × Fair allen n g.old }
    ensures closed { tried_by (ended result g.new) ≡ closes_to allen n g.old }
    ensures idle { list.new ≡ [] }
{
    all_waiting(list, n);
    takes::takes(list, g, n, ENOUGH)
}

// Cuts cell (i, j) of a closed grid and its mirror to a set inside it, and closes from that pair alone. Nothing waits before or
// afterwards.
pub fn close_pair(
    list: &mut WaitingList,
    g: &mut [u16],
    n: usize,
    i: usize,
    j: usize,
    set: u16,
) -> End
    requires { (list.old ≡ []) × Cuttable n i j set g.old }
    ensures closed { tried_by (ended result g.new) ≡ closes_to allen n (put_both converse n g.old i j set) }
    ensures idle { list.new ≡ [] }
{
    takes::write_cut(list, g, n, i, j, set);
    takes::takes(list, g, n, ENOUGH)
}

// All pairs (i, j), i < j, join an empty list, row by row.
fn all_waiting(list: &mut WaitingList, n: usize)
    requires { (n ≤ 32) × (list.old ≡ []) }
    ensures { list.new ≡ all_pairs n }
{
    for i in 0..n {
        for j in i + 1..n {
            list.join(i * 32 + j);
        }
    }
}
