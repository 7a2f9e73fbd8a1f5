// A reader over a sheet: it holds the lent bytes and its place in them, and hands on line after line.
// Each of the methods is thin: the work is done by line_at, and line_from has plain parameters.
#![tactic(auto)]

ghost use Rattle.std.specs.Prelude.{◌≡◌};
ghost use Rattle.reader.specs.Lines.{line_at, line_count};

#[derive(Clone, Copy)]
pub struct Reader<'a> {
    pub sheet: &'a [u8],
    pub at: usize,
}

// What begins at a place: a line, whose LF stands there; bytes without an LF; or nothing.
#[derive(Clone, Copy)]
pub enum NextLine {
    Ends(usize),
    Unended,
    Nothing,
}

// The line that begins at a place of a sheet.
fn line_at(sheet: &[u8], at: usize) -> NextLine
    ensures { result ≡ line_at sheet.now at }
{
    if sheet.len() <= at {
        return NextLine::Nothing;
    }
    let e = text::part_end(sheet, at, sheet::LF);
    if e < sheet.len() {
        NextLine::Ends(e)
    } else {
        NextLine::Unended
    }
}

impl<'a> Reader<'a> {
    // At the beginning of a sheet.
    pub fn begun(sheet: &'a [u8]) -> Reader<'a>
        ensures { (result.sheet ≡ sheet.entry) × (result.at ≡ 0) }
    {
        Reader { sheet, at: 0 }
    }

    // At another place of the same sheet.
    pub fn moved(self, at: usize) -> Reader<'a>
        ensures { (result.sheet ≡ self.entry.sheet) × (result.at ≡ at) }
    {
        Reader {
            sheet: self.sheet,
            at,
        }
    }

    // The line that begins at the reader's place.
    pub fn line(self) -> NextLine
        ensures { result ≡ line_at self.entry.sheet.now self.entry.at }
    {
        line_at(self.sheet, self.at)
    }
}

// The line that begins at a place, by a reader that is put there.
pub fn line_from(sheet: &[u8], at: usize) -> NextLine
    ensures { result ≡ line_at sheet.now at }
{
    Reader::begun(sheet).moved(at).line()
}

// How many lines a sheet has, read line after line.
pub fn count_lines(sheet: &[u8]) -> usize
    ensures { result ≡ line_count sheet.now }
{
    let mut reader = Reader::begun(sheet);
    let mut count = 0;
    // A while loop: the end of a line says where the next begins.
    while let NextLine::Ends(e) = reader.line() {
        reader = reader.moved(e + 1);
        count += 1;
    }
    count
}
