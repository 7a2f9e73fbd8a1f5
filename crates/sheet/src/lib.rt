// Sheets: read into a grid, or refused; the names handed back.
#![tactic(auto)]

ghost use Rattle.std.specs.Prelude.{◌≡◌, [], ◌+◌, ◌*◌, ◌≤◌, ◌<◌, length};
ghost use Rattle.words.specs.Words.{words};
ghost use Rattle.sheet.specs.Sheet.{most_events, contents, sheet};
ghost use Rattle.sheet.specs.Answers.{room_cells, Reads, NamePart};
ghost use Rattle.sheet.specs.Places.{Keeps, PlacedPart};
ghost use Rattle.sheet.specs.Steps.{parts_from, Begins, FirstSays, EntryHas, EntrySays, StatementHas, StatementSays, names, ContentsSay, BodySays, BodiesSay, SheetSays};

mod contents;

pub use contents::{Contents, Entry};
use grid::EVENTS;
use refusal::Refusal;
use text::NoNumber;

const MOST_BYTES: usize = 65536;

const MOST_STATEMENTS: usize = 999;

const ROOM_CELLS: usize = 1024;

pub const LF: u8 = b'\n';

const SPACE: u8 = b' ';

// Why a sheet was not taken, and the line that is at fault; 0 where none is.
#[derive(Clone, Copy)]
pub struct SheetRefusal {
    pub why: Refusal,
    pub line: usize,
}

// Where a line begins, and its number.
#[derive(Clone, Copy)]
struct Place {
    at: usize,
    line: usize,
}

// Line 1: the number of events, and where line 2 begins.
fn first_line(s: &[u8]) -> Result<(usize, usize), Refusal>
    ensures { FirstSays s.now result }
{
    let e = text::part_end(s, 0, LF);
    if e == s.len() {
        return Err(Refusal::LineForm);
    }
    match text::number_up_to(&s[..e], EVENTS) {
        Ok(n) => Ok((n, e + 1)),
        Err(NoNumber::Above) => Err(Refusal::TooManyEvents),
        Err(NoNumber::Not) => Err(Refusal::LineForm),
    }
}

// A line of the contents by itself: its name, and its number of statements.
fn entry_form<'a>(l: &'a [u8]) -> Option<(&'a [u8], usize)>
    ensures { EntryHas l.entry result }
{
    let k = text::two_parts(l, SPACE)?;
    let name = &l[..k];
    if !text::is_name(name) {
        return None;
    }
    let statements = text::number_up_to(&l[k + 1..], MOST_STATEMENTS).ok()?;
    Some((name, statements))
}

// The line that begins at a, after the contents so far: its event, and where the next line begins.
fn entry_line<'a>(contents: &Contents<'a>, a: usize) -> Result<(Entry<'a>, usize), Refusal>
    requires { a ≤ length contents.now.sheet.now }
    ensures { EntrySays contents.now a result }
{
    let s = contents.sheet;
    let e = text::part_end(s, a, LF);
    if e == s.len() {
        return Err(Refusal::LineForm);
    }
    let (name, statements) = entry_form(&s[a..e]).ok_or(Refusal::LineForm)?;
    if contents.find(name).is_some() {
        return Err(Refusal::NameTwice);
    }
    let entry = Entry {
        name,
        start: a,
        statements,
    };
    Ok((entry, e + 1))
}

// The n lines of the contents, of which the first is line 2 and begins at start; and where the next line begins. Into contents that
// are lent: to hand so many entries on takes longer than to read a short sheet.
fn contents_of(contents: &mut Contents, n: usize, start: usize) -> Result<usize, SheetRefusal>
    requires { (contents.old.n ≡ 0) × (n ≤ most_events) × Begins contents.old.sheet.now 1 start }
    ensures { ContentsSay words contents.old.sheet n start contents.new result }
{
    let mut a = start;
    for i in 0..n {
        // By `match`, here and below: of `map_err(|why| ..)?` the proof gets no facts.
        match entry_line(contents, a) {
            Ok((entry, next)) => {
                contents.add(entry);
                a = next;
            }
            Err(why) => {
                return Err(SheetRefusal { why, line: i + 2 });
            }
        }
    }
    Ok(a)
}

// A statement line by itself: the set of its words, and the other event's name.
fn statement_form<'a>(l: &'a [u8]) -> Option<(u16, &'a [u8])>
    ensures { StatementHas words l.now result }
{
    let k = text::two_parts(l, SPACE)?;
    let set = words::union_of(&l[..k])?;
    let other = &l[k + 1..];
    if text::is_name(other) {
        Some((set, other))
    } else {
        None
    }
}

// The line that begins at a, in the body of event i: its set, the other event, and where the next line begins.
fn statement_line(contents: &Contents, i: usize, a: usize) -> Result<(u16, usize, usize), Refusal>
    requires { a ≤ length contents.now.sheet.now }
    ensures { StatementSays words (names contents.now) i contents.now.sheet.now a result }
{
    let s = contents.sheet;
    let e = text::part_end(s, a, LF);
    if e == s.len() {
        return Err(Refusal::LineForm);
    }
    let (set, other) = statement_form(&s[a..e]).ok_or(Refusal::LineForm)?;
    let j = contents.find(other).ok_or(Refusal::NoSuchEvent)?;
    if j == i {
        return Err(Refusal::AboutItself);
    }
    Ok((set, j, e + 1))
}

// The body of event i, from its first line on; and where the next body begins.
fn body_of(
    contents: &Contents,
    i: usize,
    start: Place,
    g: &mut [u16],
) -> Result<Place, SheetRefusal>
    requires i_lt_n { (i < contents.now.n) × (contents.now.n * contents.now.n ≤ length g.old) }
    requires inside { (start.at ≤ length contents.now.sheet.now) × (start.line ≤ start.at + (most_events + 2)) }
    ensures { BodySays words contents.now i start g.old g.new result }
{
    let mut a = start.at;
    let lines = contents.entries[i].statements;
    for k in 0..lines {
        match statement_line(contents, i, a) {
            Ok((set, j, next)) => {
                statements::cut(g, contents.n, i, j, set);
                a = next;
            }
            Err(why) => {
                return Err(SheetRefusal {
                    why,
                    line: start.line + k,
                });
            }
        }
    }
    Ok(Place {
        at: a,
        line: start.line + lines,
    })
}

// The bodies of all events, from start on, after which nothing may stand.
fn bodies_of(contents: &Contents, start: usize, g: &mut [u16]) -> Result<(), SheetRefusal>
    requires { (contents.now.n * contents.now.n ≤ length g.old) × (start ≤ length contents.now.sheet.now) }
    ensures { BodiesSay words contents.now start g.old g.new result }
{
    let mut place = Place {
        at: start,
        line: contents.n + 2,
    };
    for i in 0..contents.n {
        place = body_of(contents, i, place, g)?;
    }
    if place.at == contents.sheet.len() {
        Ok(())
    } else {
        Err(SheetRefusal {
            why: Refusal::LineForm,
            line: place.line,
        })
    }
}

// The contents and the bodies, from line 2 on, which begins at start.
fn lines_into<'a>(
    s: &'a [u8],
    n: usize,
    start: usize,
    g: &mut [u16],
) -> Result<Contents<'a>, SheetRefusal>
    requires { (n ≤ most_events) × Begins s.now 1 start × (n * n ≤ length g.old) }
    ensures { SheetSays (contents words n [] [] (parts_from s.now start) 2) s.entry g.new result }
{
    let mut contents = Contents::begun(s);
    let bodies = contents_of(&mut contents, n, start)?;
    statements::fill_start(g, n);
    bodies_of(&contents, bodies, g)?;
    Ok(contents)
}

// The whole sheet, in one pass: its grid in the first n × n cells of the room lent, and its contents.
pub fn read_into<'a>(s: &'a [u8], g: &mut [u16]) -> Result<Contents<'a>, SheetRefusal>
    requires { room_cells ≤ length g.old }
    ensures { SheetSays (sheet s.now) s.entry g.new result }
{
    if MOST_BYTES < s.len() {
        return Err(SheetRefusal {
            why: Refusal::SheetTooLong,
            line: 0,
        });
    }
    match first_line(s) {
        Ok((n, next)) => lines_into(s, n, next, g),
        Err(why) => Err(SheetRefusal { why, line: 1 }),
    }
}

// Reads a sheet into a room of 1,024 cells: how many events it has. A refusal changes no cell.
pub fn read_sheet(s: &[u8], room: &mut [u16]) -> Result<usize, SheetRefusal>
    ensures { Reads s.now room.old result room.new }
{
    if room.len() != ROOM_CELLS {
        return Err(SheetRefusal {
            why: Refusal::WrongLength,
            line: 0,
        });
    }
    let mut g = [0u16; ROOM_CELLS];
    let n = read_into(s, &mut g)?.n;
    grid::copy(room, &g, n * n);
    Ok(n)
}

// The name of event i of n, by the places of the names; the empty part at the sheet's beginning where there is no event i. For a
// caller that keeps the places as numbers, where each name begins and how long it is, one after the other.
pub fn name_at<'a>(s: &'a [u8], places: &[usize], n: usize, i: usize) -> &'a [u8]
    requires { Keeps s.now places.now n }
    ensures { PlacedPart s.entry places.now n i result }
{
    if i < n {
        let a = places[2 * i];
        let e = a + places[2 * i + 1];
        &s[a..e]
    } else {
        &s[..0]
    }
}

// The name of event i as a part of the sheet; the empty part at its beginning for a sheet that is refused, or where there is no event i.
pub fn name_of<'a>(s: &'a [u8], i: usize) -> &'a [u8]
    ensures { NamePart s.entry i result }
{
    let mut g = [0u16; ROOM_CELLS];
    match read_into(s, &mut g) {
        Ok(contents) => contents.name(i),
        Err(_) => &s[..0],
    }
}
