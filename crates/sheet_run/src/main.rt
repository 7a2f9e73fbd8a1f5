// Reads sheets from standard input and writes what the sheet reader and the functions on names
// answer. The file stdout has what an independent program works out (second/, `sheet-vectors`).
// A case: how many cells the room has, the event whose name is asked for, and the sheet in three
// pieces, of which the second is repeated: the lengths of the three, how often, and their bytes.
// An answer: 0 accepted or 3 refused, n or the refusal's number, the line, the checksum of the room,
// where the name starts, how long it is, and its bytes.
#![tactic(auto)]

ghost use Rattle.std.specs.Prelude.{◌≤◌, IfOk, length};

use cases::Answer;
use sheet::SheetRefusal;
use std::io;
use std::io::{Read, Write};

// A sheet has at most so many bytes, and a room so many cells.
const BYTES: usize = 65537;

const CELLS: usize = 2048;

// An answer has room for a name of so many bytes, more than a name has.
const NAME: usize = 43;

// The checksum is worked out modulo a prime below 2 to the power 32.
const PRIME: u64 = 4294967291;

// What stands in the room before the call.
fn fill(cells: &mut [u16]) {
    for (p, cell) in cells.iter_mut().enumerate() {
        *cell = (40000 + p % 1000) as u16;
    }
}

// A checksum of the cells in their order.
fn checksum(cells: &[u16]) -> u32 {
    cells.iter().fold(0, |sum: u32, cell| {
        ((sum as u64 * 65599 + *cell as u64) % PRIME) as u32
    })
}

// Copies the piece so often, from a place on, as it fits: where it ends. An empty piece would fit for ever, and isn't copied. The
// place comes beside the bytes, since three pieces follow each other there.
fn repeat(bytes: &mut [u8], start: usize, piece: &[u8], times: usize) -> usize
    requires { start ≤ length bytes.old }
    ensures { result ≤ length bytes.new }
{
    let mut at = start;
    for _ in 0..times {
        if piece.is_empty() || bytes.len() - at < piece.len() {
            break;
        }
        bytes[at..at + piece.len()].copy_from_slice(piece);
        at += piece.len();
    }
    at
}

// Reads a piece, and puts it so often at a place: where it ends.
fn receive<R: Read>(
    reader: &mut R,
    bytes: &mut [u8],
    at: usize,
    count: usize,
    times: usize,
) -> io::Result<usize>
    requires { at ≤ length bytes.old }
    ensures { IfOk result (λ n. n ≤ length bytes.new) }
{
    let mut piece = [0u8; BYTES];
    if BYTES < count {
        return Ok(at);
    }
    if !cases::receive(reader, &mut piece[..count])? {
        return Ok(at);
    }
    Ok(repeat(bytes, at, &piece[..count], times))
}

// The answer, and the line.
fn told(answer: Result<usize, SheetRefusal>) -> (Answer, usize) {
    match answer {
        Ok(n) => {
            let number = cases::low32(n);
            (Answer { kind: 0, number }, 0)
        }
        Err(SheetRefusal { why, line }) => (Answer::refused(why), line),
    }
}

// Where the name of an event starts in the sheet, as the contents say.
fn name_start(bytes: &[u8], i: usize) -> usize {
    let mut g = [0u16; CELLS];
    match sheet::read_into(bytes, &mut g) {
        Ok(contents) if i < contents.n => contents.entries[i].start,
        _ => 0,
    }
}

// Reads the sheet into a room that was filled before, asks for the name, and writes what came.
fn answer<W: Write>(writer: &mut W, bytes: &[u8], cells: &mut [u16], i: usize) -> io::Result<()> {
    fill(cells);
    let (answer, line) = told(sheet::read_sheet(bytes, cells));
    let name = sheet::name_of(bytes, i);
    let numbers = [
        cases::low32(line),
        checksum(cells),
        cases::low32(name_start(bytes, i)),
        cases::low32(name.len()),
    ]
    .map(u32::to_le_bytes);
    if NAME < name.len() {
        return Ok(());
    }
    let end = 16 + name.len();
    let mut rest = [0u8; 16 + NAME];
    rest[..16].copy_from_slice(numbers.as_flattened());
    rest[16..end].copy_from_slice(name);
    cases::send(writer, answer, &rest[..end])
}

// Answers one case: whether there was one.
fn answered<R: Read, W: Write>(reader: &mut R, writer: &mut W) -> io::Result<bool> {
    let Some(head) = cases::receive_numbers::<_, 6>(reader)? else {
        return Ok(false);
    };
    let [room, i, first, second, times, third] = head.map(|x| x as usize);
    let mut bytes = [0u8; BYTES];
    let a = receive(reader, &mut bytes, 0, first, 1)?;
    let b = receive(reader, &mut bytes, a, second, times)?;
    let end = receive(reader, &mut bytes, b, third, 1)?;
    let mut cells = [0u16; CELLS];
    if room <= CELLS {
        answer(writer, &bytes[..end], &mut cells[..room], i)?;
    }
    Ok(true)
}

fn main(rt: HostRuntime) -> io::Result<()> {
    cases::answer_all(&mut rt.stdin(), &mut rt.stdout(), answered)
}
