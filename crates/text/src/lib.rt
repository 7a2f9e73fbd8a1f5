// Bytes as text: parts between a byte, decimal numbers, names.
#![tactic(auto)]

ghost use Rattle.std.specs.Prelude.{◌≡◌, ◌==◌, position, true, ◌≤◌, ◌<◌, min, length};
ghost use Rattle.text.specs.Text.{all, digit, value, leading_zero, is_number};
ghost use Rattle.text.specs.Names.{name_byte, is_name, same_name};
ghost use Rattle.text.specs.Steps.{PartEnd, TwoParts, number_up_to};

const LONGEST_NAME: usize = 16;

// Where the first c stands.
fn first_at(s: &[u8], c: u8) -> Option<usize>
    ensures { result ≡ position (λ x. x == c) s.now }
{
    s.iter().position(|x| *x == c)
}

// Where the part that starts at a ends: at the first c from there on, or at the end of the text. Not inlined: in a large caller what
// it counts by would lie in memory.
#[inline(never)]
pub fn part_end(s: &[u8], a: usize, c: u8) -> usize
    requires { a ≤ length s.now }
    ensures { PartEnd c s.now a result }
{
    match first_at(&s[a..], c) {
        Some(k) => a + k,
        None => s.len(),
    }
}

// Where the first of two parts ends, for a text that has just two parts between bytes c.
pub fn two_parts(s: &[u8], c: u8) -> Option<usize>
    ensures { TwoParts c s.now result }
{
    let k = part_end(s, 0, c);
    if k == s.len() {
        return None;
    }
    let e = part_end(s, k + 1, c);
    if e == s.len() { Some(k) } else { None }
}

fn is_digit(x: u8) -> bool
    ensures { result ≡ digit x }
{
    matches!(x, b'0'..=b'9')
}

fn all_digits(s: &[u8]) -> bool
    ensures { result ≡ all digit s.now }
{
    s.iter().all(|x| is_digit(*x))
}

// A 0 in front of further bytes.
fn leading_zero(s: &[u8]) -> bool
    ensures { result ≡ leading_zero s.now }
{
    1 < s.len() && s[0] == b'0'
}

// A decimal number without leading zeros.
#[tactic(auto, unfolding(crate::specs::Text::is_number))]
fn is_number(s: &[u8]) -> bool
    ensures { result ≡ is_number s.now }
{
    !s.is_empty() && !leading_zero(s) && all_digits(s)
}

// The value of digits, or the cap where it is larger. The cap is so small that ten times as much and a digit fit.
fn value_capped(s: &[u8], cap: usize) -> usize
    requires { (all digit s.now ≡ true) × (cap ≤ 65536) }
    ensures { result ≡ min cap (value s.now) }
{
    let mut v: usize = 0;
    for x in s {
        v = (v * 10 + usize::from(*x - b'0')).min(cap);
    }
    v
}

// Why a text is not a decimal number of at most so much: it is a larger one, or none. Two errors, since a sheet's first line is refused
// otherwise for each.
#[derive(Clone, Copy)]
pub enum NoNumber {
    Above,
    Not,
}

// The number that a text is. It may have any number of digits: past the most, its value is not worked out.
#[tactic(auto, using(crate::proofs::TextLaws::number_digits))]
pub fn number_up_to(s: &[u8], most: usize) -> Result<usize, NoNumber>
    requires { most < 65536 }
    ensures { result ≡ number_up_to most s.now }
{
    if !is_number(s) {
        return Err(NoNumber::Not);
    }
    let v = value_capped(s, most + 1);
    if v <= most {
        Ok(v)
    } else {
        Err(NoNumber::Above)
    }
}

fn is_name_byte(x: u8) -> bool
    ensures { result ≡ name_byte x }
{
    matches!(x, b'0'..=b'9' | b'a'..=b'z')
}

fn all_name_bytes(s: &[u8]) -> bool
    ensures { result ≡ all name_byte s.now }
{
    s.iter().all(|x| is_name_byte(*x))
}

// A name, of 1 to 16 bytes.
#[tactic(auto, unfolding(crate::specs::Names::is_name))]
pub fn is_name(s: &[u8]) -> bool
    ensures { result ≡ is_name s.now }
{
    !s.is_empty() && s.len() <= LONGEST_NAME && all_name_bytes(s)
}

// The two names are one event's.
#[tactic(auto, unfolding(crate::specs::Names::same_name))]
pub fn same_name(a: &[u8], b: &[u8]) -> bool
    ensures { result ≡ same_name a.now b.now }
{
    a == b
}
