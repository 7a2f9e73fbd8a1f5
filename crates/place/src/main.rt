// Prints `placed`, `none`, `gave-up` or `refused` for the sheet on standard input, and the placing. The bytes are those of
// `report`; this program only reads and writes.
#![tactic(auto)]

ghost use Rattle.std.specs.Prelude.{◌≤◌};
ghost use Rattle.report.specs.Report.{place_text, Prints, most_printed};

use report::{ALLOWANCE, PRINTED};
use std::io;

// What is printed, which a room of the program has whole.
fn printed(sheet: &[u8], room: &mut [u8]) -> usize
    ensures few { result ≤ most_printed }
    ensures text { Prints (place_text 5000 sheet.now) room.old result room.new }
{
    report::place_report(sheet, ALLOWANCE, room)
}

fn main(rt: HostRuntime) -> io::Result<()> {
    let mut room = [0u8; PRINTED];
    desk::answer(
        &mut rt.stdin(),
        &mut rt.stdout(),
        &rt,
        "place",
        &mut room,
        printed,
    )
}
