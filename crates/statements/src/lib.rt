// The grid of a list of statements: the start, and what each statement cuts.
#![tactic(auto)]

ghost use Rattle.std.specs.Prelude.{◌≡◌, ◌*◌, ◌≤◌, ◌<◌, length, take};
ghost use Rattle.statements.specs.Grid.{start_grid, cut_by};

// Any for each pair, eq for an event to itself.
pub fn fill_start(g: &mut [u16], n: usize)
    requires { (n ≤ 32) × (n * n ≤ length g.old) }
    ensures { take (n * n) g.new ≡ start_grid n }
{
    g[..n * n].fill(grid::ALL);
    for i in 0..n {
        g[i * n + i] = grid::EQ;
    }
}

// A statement cuts cell (i, j) to its set, and the mirror with it.
pub fn cut(g: &mut [u16], n: usize, i: usize, j: usize, set: u16)
    requires { (n ≤ 32) × (i < n) × (j < n) × (n * n ≤ length g.old) }
    ensures { g.new ≡ cut_by n g.old (record { one = i; set = set; two = j }) }
{
    let old = grid::get(g, n, i, j);
    grid::put_both(g, n, i, j, old & set);
}
