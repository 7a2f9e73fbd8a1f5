// What the programs print for a sheet, to the byte.
#![tactic(auto)]

ghost use Rattle.std.specs.Prelude.{◌≡◌, ◌+◌, ◌*◌, ◌≤◌, length};
ghost use Rattle.sheet.specs.Sheet.{sheet as Sheet·sheet};
ghost use Rattle.sheet.specs.Steps.{Short, names};
ghost use Rattle.report.specs.Report.{event_lines, place_text, triage_text, Prints};
ghost use Rattle.report.specs.Steps.{Adds, AddsUpTo, most_end, most_event, most_first, first_said, Searched};

use grid::EVENTS;
use page::Page;
use search::{Looked, Outcome};
use sheet::{Contents, SheetRefusal};

mod page;

// The allowance of a program that has no other.
pub const ALLOWANCE: u32 = 5000;

// No text is longer: a room of so many bytes has it whole.
pub const PRINTED: usize = 2048;

const CELLS: usize = EVENTS * EVENTS;

const NUMBERS: usize = 2 * EVENTS;

// Reads the sheet and looks for a placing of its grid, which goes to the front of the numbers: start then end, event by event.
fn searched<'a>(
    sheet: &'a [u8],
    allowance: u32,
    numbers: &mut [i32; NUMBERS],
) -> Result<(Contents<'a>, Looked), SheetRefusal>
    ensures { Searched allowance (Sheet·sheet sheet.now) numbers.new result }
{
    let mut cells = [0u16; CELLS];
    let contents = sheet::read_into(sheet, &mut cells)?;
    let n = contents.n;
    let looked = search::search_accepted(&cells[..n * n], n, allowance, &mut numbers[..2 * n]);
    Ok((contents, looked))
}

// The first line: the refusal, or what the search came to.
fn first_line(page: &mut Page, found: &Result<(Contents, Looked), SheetRefusal>)
    requires { page.old.len + most_first ≤ most_end }
    ensures { AddsUpTo most_first page.old page.new (first_said found.now) }
{
    match found {
        Ok((_, looked)) => {
            let word: &[u8] = match looked.outcome {
                Outcome::Placed => b"placed",
                Outcome::None => b"none",
                Outcome::GaveUp => b"gave-up",
            };
            page.said_line(word, looked.tries);
        }
        Err(refusal) => page.refused_line(refusal.why, refusal.line),
    }
}

// One line an event, in contents order. The numbers are the starts and ends, side by side, as the search writes them.
fn event_lines(page: &mut Page, contents: &Contents, numbers: &[i32])
    requires { Short (names contents.now) × (length numbers.now ≡ 2 * contents.now.n) × (page.old.len + most_event * contents.now.n ≤ most_end) }
    ensures { Adds page.old page.new (event_lines (names contents.now) numbers.now contents.now.n) }
{
    for i in 0..contents.n {
        let start = placing::natural(numbers[2 * i]);
        let end = placing::natural(numbers[2 * i + 1]);
        page.event_line(contents.name(i), start, end);
    }
}

// What `place` prints, in the lent room as far as it reaches; the length of the whole text is handed back.
pub fn place_report(sheet: &[u8], allowance: u32, room: &mut [u8]) -> usize
    ensures { Prints (place_text allowance sheet.now) room.old result room.new }
{
    let mut numbers = [0i32; NUMBERS];
    let found = searched(sheet, allowance, &mut numbers);
    let mut page = Page { room, len: 0 };
    first_line(&mut page, &found);
    if let Ok((contents, looked)) = &found {
        // Nested: where a chain of `let`s fails, no fact is known of it.
        if let Outcome::Placed = looked.outcome {
            event_lines(&mut page, contents, &numbers[..2 * contents.n]);
        }
    }
    page.len
}

// What `triage` prints, in the same way: the first line alone.
pub fn triage_report(sheet: &[u8], allowance: u32, room: &mut [u8]) -> usize
    ensures { Prints (triage_text allowance sheet.now) room.old result room.new }
{
    let mut numbers = [0i32; NUMBERS];
    let mut page = Page { room, len: 0 };
    first_line(&mut page, &searched(sheet, allowance, &mut numbers));
    page.len
}
