// Plain closing of a grid: sweeps over all routes until one changes nothing.
#![tactic(auto)]

ghost use Rattle.std.specs.Prelude.{Some, ◌≡◌, ◌≤◌, ◌<◌};
ghost use Rattle.grid.specs.Cells.{cell, Held};
ghost use Rattle.grid.specs.Accepted.{Accepted};
ghost use Rattle.theory.specs.Fair.{Fair};
ghost use Rattle.theory.specs.Allen.{allen};
ghost use Rattle.plain.specs.Answers.{PlainCloses};
ghost use Rattle.plain.specs.Routes.{OverTo, EventTo, AllTo, Finds, CutsFrom, Pass, Rests, Sweeps};

use grid::Emptied;
use refusal::Refusal;
use relation::Rows;

// How the closing of an accepted grid ends.
#[derive(Clone, Copy)]
pub enum End {
    Closed,
    Contradiction,
}

// Closes the lent grid of n events.
pub fn plain_close(g: &mut [u16], n: usize) -> Result<End, Refusal>
    ensures { PlainCloses n g.old result g.new }
{
    grid::judge(g, n)?;
    Ok(sweep_accepted(g, n))
}

// Sweeps an accepted grid, and clears it where a cell is or becomes empty.
fn sweep_accepted(g: &mut [u16], n: usize) -> End
    requires { Accepted n g.old }
    ensures { Sweeps n g.old result g.new }
{
    match sweep_to_rest(g, n) {
        Ok(()) => End::Closed,
        Err(Emptied) => {
            grid::clear(g);
            End::Contradiction
        }
    }
}

// Sweeps an accepted grid until a sweep changes nothing.
fn sweep_to_rest(g: &mut [u16], n: usize) -> Result<(), Emptied>
    requires { Accepted n g.old }
    ensures { Rests n g.old result g.new }
{
    if grid::some_empty(g) {
        return Err(Emptied);
    }
    // A loop: how many sweeps are needed is what it finds out.
    loop {
        let changed = sweep_all(g, n)?;
        if !changed {
            return Ok(());
        }
    }
}

// One sweep: whether it changed something.
fn sweep_all(g: &mut [u16], n: usize) -> Result<bool, Emptied>
    requires { Fair allen n g.old }
    ensures { Pass n (AllTo n n) g.old result g.new }
{
    let mut changed = false;
    for b in 0..n {
        changed |= sweep_to(g, n, b)?;
    }
    Ok(changed)
}

// The part of a sweep to event b.
fn sweep_to(g: &mut [u16], n: usize, b: usize) -> Result<bool, Emptied>
    requires { (b < n) × Fair allen n g.old }
    ensures { Pass n (EventTo n b n) g.old result g.new }
{
    let mut changed = false;
    for m in 0..n {
        changed |= sweep_over(g, n, m, b)?;
    }
    Ok(changed)
}

// The part of a sweep over event m to event b. The rows of (m, b) serve for all events that a route can come from. Where nothing is
// said of m to b, no route changes anything.
fn sweep_over(g: &mut [u16], n: usize, m: usize, b: usize) -> Result<bool, Emptied>
    requires { (m < n) × (b < n) × Fair allen n g.old }
    ensures { Pass n (OverTo n m b b) g.old result g.new }
{
    if m == b {
        return Ok(false);
    }
    let half = grid::get(g, n, m, b);
    if half == grid::ALL {
        return Ok(false);
    }
    let rows = Rows::of(half);
    match next_route(&rows, g, n, m, b, 0) {
        None => Ok(false),
        Some(first) => {
            cut_routes(&rows, g, n, m, b, first)?;
            Ok(true)
        }
    }
}

// Cuts the first route over m to b that changes its cell, and each after it that does. The first is looked for in sweep_over: most
// routes change nothing, and there the loop over them need not keep whether something changed.
fn cut_routes(
    rows: &Rows,
    g: &mut [u16],
    n: usize,
    m: usize,
    b: usize,
    first: (usize, u16),
) -> Result<(), Emptied>
    requires { (rows.now.set ≡ cell n g.old m b) × (m < n) × (b < n) × (m ≡ b → ⊥) × Finds n m b g.old 0 (Some first) × Fair allen n g.old }
    ensures { CutsFrom n m b g.old result g.new }
{
    let mut route = Some(first);
    // From one change to the next: what lies between is only read.
    while let Some((a, set)) = route {
        if set == 0 {
            return Err(Emptied);
        }
        grid::put_both(g, n, a, b, set);
        route = next_route(rows, g, n, m, b, a + 1);
    }
    Ok(())
}

// The first route over m to b from event k on that changes its cell: the event that it comes from, and what it leaves. Most routes
// change nothing, and this only reads.
fn next_route(
    rows: &Rows,
    g: &[u16],
    n: usize,
    m: usize,
    b: usize,
    k: usize,
) -> Option<(usize, u16)>
    requires { (rows.now.set ≡ cell n g.now m b) × (m < n) × (b < n) × (k ≤ b) × Held n g.now }
    ensures { Finds n m b g.now k result }
{
    for a in k..b {
        let whole = grid::get(g, n, a, b);
        let set = whole & rows.compose(grid::get(g, n, a, m));
        if set != whole {
            return Some((a, set));
        }
    }
    None
}
