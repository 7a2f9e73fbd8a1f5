// Sets of the thirteen relations: converse and composition.
#![tactic(auto)]

ghost use Rattle.std.specs.Prelude.{cond, ltb, ◌≡◌, ◌+◌, ◌-◌, ◌*◌, ◌%◌, ◌^◌, ◌<◌};
ghost use Rattle.std.specs.Int.Count.{count_trailing_zeros};
ghost use Rattle.refusal.specs.Answered.{said_of, unless_due};
ghost use Rattle.relation.specs.Meaning.{exchanged};
ghost use Rattle.relation.specs.Sets.{member};
ghost use Rattle.relation.specs.Composition.{entry, converse, compose};
ghost use Rattle.relation.specs.Packed.{picked_of, FourAt, PickedAt, RowsFrom, Marked, RowsOf};
ghost use Rattle.relation.specs.Answers.{how_many_sets, converse_said, compose_said};

mod table;

use refusal::Refusal;
use table::TABLE;

// The number of each relation with the two events exchanged.
static EXCHANGED: [u8; 13] = [1, 0, 3, 2, 5, 4, 7, 6, 9, 8, 11, 10, 12];

// A number as a set; refusal 3 for one above 8191.
fn set_of(a: u16) -> Result<u16, Refusal>
    ensures { said_of result ≡ unless_due (cond (ltb a how_many_sets) 0 3) a }
{
    if a < 8192 {
        Ok(a)
    } else {
        Err(Refusal::SetTooLarge)
    }
}

// The converse of a set; refusal 3 for a set above 8191.
pub fn converse(a: u16) -> Result<u16, Refusal>
    ensures { said_of result ≡ converse_said a }
{
    let set = set_of(a)?;
    Ok(converse_of(set))
}

// The composition of two sets; refusal 3 where one is above 8191.
pub fn compose(a: u16, b: u16) -> Result<u16, Refusal>
    ensures { said_of result ≡ compose_said a b }
{
    let first = set_of(a)?;
    let second = set_of(b)?;
    Ok(compose_of(first, second))
}

// A relation with the two events exchanged. Numbers are cast by `as`, here and in other crates: it is proved to lose nothing, and
// `from` gives each answer an equation more.
fn exchanged(r: usize) -> usize
    requires { r < 13 }
    ensures { result ≡ exchanged r }
{
    EXCHANGED[r] as usize
}

// Relation r is a member of a set. A relation is a number below 13, an index and a shift wherever it is used: a type round it would be
// opened at each use, so that it is below 13 stays a clause.
pub fn has(a: u16, r: usize) -> bool
    requires { r < 13 }
    ensures { result ≡ member r a }
{
    (a >> r) % 2 == 1
}

// The set of one relation.
pub fn mark(r: usize) -> u16
    requires { r < 13 }
    ensures { result ≡ 2 ^ r }
{
    1 << r
}

// A set without its lowest member. Taking 1 away changes that mark and those below it only, so the cut drops just that mark.
pub fn without_lowest(a: u16) -> u16
    requires { 0 < a }
    ensures { result ≡ a - 2 ^ count_trailing_zeros 16 a }
{
    a & (a - 1)
}

// A set x where r is a member of a, and else nothing.
fn given(a: u16, r: usize, x: u16) -> u16
    requires { r < 13 }
    ensures { result ≡ cond (member r a) x 0 }
{
    if has(a, r) { x } else { 0 }
}

// The converse of a set. All relations come in turn, and not its members: the processor can't foresee where a loop over the
// members ends, and a wrong guess costs more than the rest.
pub fn converse_of(a: u16) -> u16
    ensures { result ≡ converse a }
{
    let mut out = 0;
    for r in 0..13 {
        out |= given(a, r, mark(exchanged(r)));
    }
    out
}

// What relation r with relation s allows.
fn entry(r: usize, s: usize) -> u16
    requires { (r < 13) × (s < 13) }
    ensures { result ≡ entry r s }
{
    TABLE[r][s]
}

// Relations r to r + 3 with relation s: four sets in one number, with sixteen digits for each.
fn four_at(r: usize, s: usize) -> u64
    requires { (r + 3 < 13) × (s < 13) }
    ensures { FourAt r s result }
{
    let p = entry(r, s) as u64;
    let q = entry(r + 1, s) as u64;
    let v = entry(r + 2, s) as u64;
    let w = entry(r + 3, s) as u64;
    p + q * 65536 + v * 4294967296 + w * 281474976710656
}

// The union of those of four numbers that n marks. Where the four are known to the compiler, it keeps a table of the sixteen
// answers in memory.
fn picked(n: u16, p: u64, q: u64, v: u64, w: u64) -> u64
    ensures { result ≡ picked_of n p q v w }
{
    let k = n % 16;
    match k {
        0 => 0,
        1 => p,
        2 => q,
        3 => p | q,
        4 => v,
        5 => p | v,
        6 => q | v,
        7 => p | q | v,
        8 => w,
        9 => p | w,
        10 => q | w,
        11 => p | q | w,
        12 => v | w,
        13 => p | v | w,
        14 => q | v | w,
        _ => p | q | v | w,
    }
}

// All relations, in each of four sets that n marks. The product puts the four last digits of n sixteen apart.
fn marked(n: u16) -> u64
    ensures { Marked n result }
{
    let digits = (n % 16) as u64;
    (digits * 35185445863425 & 281479271743489) * 8191
}

// Four sets where b has eq, and else nothing.
fn where_eq(b: u16, four: u64) -> u64
    ensures { result ≡ cond (member 12 b) four 0 }
{
    if has(b, 12) { four } else { 0 }
}

// Those of relations s to s + 3 that n marks, after each of the relations r to r + 3. Both are constants, so that the compiler works
// the four numbers out.
fn picked_at<const R: usize, const S: usize>(n: u16) -> u64
    requires { (R + 3 < 13) × (S + 3 < 13) }
    ensures { PickedAt R S n result }
{
    picked(
        n,
        four_at(R, S),
        four_at(R, S + 1),
        four_at(R, S + 2),
        four_at(R, S + 3),
    )
}

// Relations r to r + 3, each with a set.
fn rows_from<const R: usize>(b: u16) -> u64
    requires { R + 3 < 13 }
    ensures { RowsFrom R b result }
{
    let first = picked_at::<R, 0>(b);
    let second = picked_at::<R, 4>(b / 16);
    let third = picked_at::<R, 8>(b / 256);
    first | second | third | where_eq(b, four_at(R, 12))
}

// The thirteen relations, each with a set: the twelve but eq four to a number, and the set itself, which is the row of eq.
#[derive(Clone, Copy)]
pub struct Rows {
    pub low: u64,
    pub middle: u64,
    pub high: u64,
    pub set: u16,
    ghost right: { RowsOf set low middle high },
}

impl Rows {
    // The rows of a set.
    pub fn of(set: u16) -> Rows
        ensures { result.set ≡ set }
    {
        let low = rows_from::<0>(set);
        let middle = rows_from::<4>(set);
        let high = rows_from::<8>(set);
        Rows {
            low,
            middle,
            high,
            set,
        }
    }

    // The composition of a set with that of the rows.
    pub fn compose(&self, a: u16) -> u16
        ensures { result ≡ compose a self.now.set }
    {
        let low = self.low & marked(a);
        let middle = self.middle & marked(a / 16);
        let high = self.high & marked(a / 256);
        let four = low | middle | high;
        let all = (four | four >> 16 | four >> 32 | four >> 48) % 8192;
        all as u16 | given(a, 12, self.set % 8192)
    }
}

// The composition of two sets, for a single call.
fn compose_of(a: u16, b: u16) -> u16
    ensures { result ≡ compose a b }
{
    Rows::of(b).compose(a)
}
