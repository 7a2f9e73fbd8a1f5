// The relation words and their sets.
#![tactic(auto)]

ghost use Rattle.std.specs.Prelude.{◌≡◌, ◌<◌};
ghost use Rattle.words.specs.Words.{words, meaning, joined};
ghost use Rattle.words.specs.Steps.{look_up, known_set, union_with};

const COMMA: u8 = b',';

// The words and their sets: the thirteen names in the order of their numbers, and four further words.
static WORDS: [(&[u8], u16); 17] = [
    (b"b", 1),
    (b"bi", 2),
    (b"m", 4),
    (b"mi", 8),
    (b"o", 16),
    (b"oi", 32),
    (b"s", 64),
    (b"si", 128),
    (b"d", 256),
    (b"di", 512),
    (b"f", 1024),
    (b"fi", 2048),
    (b"eq", 4096),
    (b"any", 8191),
    (b"meanwhile", 8176),
    (b"within", 256),
    (b"until", 4),
];

// The set of the first of the known words that is written so, or none.
#[tactic(auto, unfolding(crate::specs::Steps::look_up))]
fn look_up(known: &[(&[u8], u16)], w: &[u8]) -> Option<u16>
    ensures { result ≡ look_up known.now w.now }
{
    known
        .iter()
        .find(|(name, _)| *name == w)
        .map(|(_, set)| *set)
}

// The set of a word, or none where it is no word.
fn meaning_of(w: &[u8]) -> Option<u16>
    ensures { result ≡ known_set (meaning words w.now) }
{
    look_up(&WORDS, w)
}

// The union of the words of a field, or none where a part between commas is no word. Not inlined: in a large caller the union so far
// and the words to come would lie in memory.
#[inline(never)]
pub fn union_of(f: &[u8]) -> Option<u16>
    ensures { result ≡ union_with words 0 (joined f.now) }
{
    let mut u: u16 = 0;
    for w in f.split(|x| *x == COMMA) {
        u |= meaning_of(w)?;
    }
    Some(u)
}
