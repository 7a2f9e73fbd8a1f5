// The contents of a sheet: what its first lines say of its events.
#![tactic(auto)]

ghost use Rattle.std.specs.Prelude.{◌≡◌, ◌∷◌, ◌++◌, [], ◌≤◌, ◌<◌, length, take};
ghost use Rattle.std.specs.List.{All};
ghost use Rattle.sheet.specs.Parts.{InSheet};

use grid::EVENTS;

// An event: its name, which is a part of the sheet, where that begins, and its number of statements.
#[derive(Clone, Copy)]
pub struct Entry<'a> {
    pub name: &'a [u8],
    pub start: usize,
    pub statements: usize,
}

// The first n events of a sheet.
#[derive(Clone, Copy)]
pub struct Contents<'a> {
    pub sheet: &'a [u8],
    pub entries: [Entry<'a>; EVENTS],
    pub n: usize,
    ghost room: { length entries ≡ 32 },
    ghost few: { n ≤ 32 },
    ghost inside: { All (InSheet sheet) (take n entries) },
}

impl<'a> Contents<'a> {
    ghost use Rattle.std.specs.Prelude.{position};
    ghost use Rattle.text.specs.Names.{same_name};
    ghost use Rattle.sheet.specs.Steps.{entries_of, PartAt};

    // Of no event yet.
    pub(crate) fn begun(sheet: &'a [u8]) -> Contents<'a>
        ensures { (result.sheet ≡ sheet.entry) × (result.n ≡ 0) }
    {
        let none = Entry {
            name: &sheet[..0],
            start: 0,
            statements: 0,
        };
        Contents {
            sheet,
            entries: [none; EVENTS],
            n: 0,
        }
    }

    // One event more.
    pub(crate) fn add(&mut self, entry: Entry<'a>)
        requires room { self.old.n < 32 }
        requires part { InSheet self.old.sheet entry }
        ensures same { self.new.sheet ≡ self.old.sheet }
        ensures more { entries_of self.new ≡ entries_of self.old ++ entry.entry ∷ [] }
    {
        self.entries[self.n] = entry;
        self.n += 1;
    }

    // The number of the event of that name.
    pub(crate) fn find(&self, name: &[u8]) -> Option<usize>
        ensures { result ≡ position (λ e. same_name e.name.now name.now) (entries_of self.now) }
    {
        self.entries[..self.n]
            .iter()
            .position(|entry| text::same_name(entry.name, name))
    }

    // The name of event i; the empty part at the sheet's beginning where there is no event i.
    pub fn name(&self, i: usize) -> &'a [u8]
        ensures { PartAt self.now i result }
    {
        if i < self.n {
            self.entries[i].name
        } else {
            &self.sheet[..0]
        }
    }
}
