// What the programs share: reading from standard input until a room is full or the input ends.
#![tactic(auto)]

ghost use Rattle.std.specs.Prelude.{◌<◌, IfOk, OnOk, length, take};
ghost use Rattle.std.specs.Io.{ReadsAtMost};
ghost use Rattle.std.specs.Io.KnownBytes.{Consumes, IsAtEnd};
ghost use Rattle.desk.specs.Reports.{Fits, Answers};

use std::io;
use std::io::{Read, Write};

// One byte more than a sheet may have, so that a longer one is seen as such.
pub const ROOM: usize = 65537;

// Reads up to the end of the input, or until the room is full: how many bytes came. A read that fails ends it with its error.
pub fn read_sheet<R: Read>(reader: &mut R, room: &mut [u8]) -> io::Result<usize>
    ensures bound { ReadsAtMost result room.new }
    ensures bytes { IfOk result (λ n. Consumes (R.remaining reader.old) (R.remaining reader.new) (take n room.new)) }
    ensures end { IfOk result (λ n. n < length room.new → IsAtEnd (R.remaining reader.new)) }
{
    let mut done = 0;
    // A while loop: a read brings as many bytes as it likes.
    while done < room.len() {
        let more = reader.read(&mut room[done..])?;
        if more == 0 {
            return Ok(done);
        }
        done += more;
    }
    Ok(done)
}

// Reads a sheet, has it reported on in the room, and writes the report. Where a read or a write fails, it says so on standard error
// under the program's name, and ends with the error.
pub fn answer<R: Read, W: Write, E: Eprint, F: FnOnce(&[u8], &mut [u8]) -> usize>(
    reader: &mut R,
    writer: &mut W,
    errors: &E,
    name: &str,
    room: &mut [u8],
    report: F,
) -> io::Result<()>
    requires callable { F.IsAlwaysCallable report }
    requires fits { Fits F.FnOnce report room.old }
    ensures written { OnOk result (Answers F.FnOnce report (R.remaining reader.old) (R.remaining reader.new) room.old room.new (W.contents writer.old) (W.contents writer.new)) }
{
    let mut sheet = [0u8; ROOM];
    let n = read_sheet(reader, &mut sheet).inspect_err(|_| {
        let _ = eprintln!(errors; "{name}: the sheet could not be read");
    })?;
    let len = report(&sheet[..n], room);
    writer.write_all(&room[..len]).inspect_err(|_| {
        let _ = eprintln!(errors; "{name}: the answer could not be written");
    })
}
