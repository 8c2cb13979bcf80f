// Readers of a word, a number, an offset and eight hex digits at a place of a text (request C-12). Each answers what it read and the place
// behind it, or the place where the text leaves what may stand there. It assumes nothing.
#![tactic(auto)]

ghost use Rattle.std.specs.Prelude.{◌≡◌, ◌≤◌, ◌<◌, MatchOption, MatchResult, length};
ghost use Rattle.shapes.specs.Numbers.{number, offset, hex_one, times};
ghost use Rattle.shapes.specs.Places.{byte_at, Lost};
ghost use Rattle.source.specs.Words.{many_words};
ghost use Rattle.words.specs.Rows.{Among};
ghost use Rattle.spell.specs.Answers.{Alike, WordRead, NumberRead, OffsetRead, NoDigit, DigitRead, HexRead};

// What was read, and the place behind it.
#[derive(Clone, Copy)]
pub struct Spelt<T> {
    pub what: T,
    pub next: usize,
}

// The byte at a place, 256 behind the last one.
pub fn byte_at(text: &[u8], at: usize) -> u16
    ensures { result ≡ byte_at text.now at }
{
    match text.get(at) {
        Some(&b) => u16::from(b),
        None => 256,
    }
}

// How many bytes two texts begin with alike.
fn shared(a: &[u8], b: &[u8]) -> usize
    ensures { Alike a.now b.now result }
{
    a.iter().zip(b).take_while(|(x, y)| x == y).count()
}

// The row of the word that stands at a place, of the rows from one up to another. The fault is where the last of them parts from the text.
pub fn word_at(text: &[u8], at: usize, from: usize, to: usize) -> Result<Spelt<usize>, usize>
    requires { (at ≤ length text.now) × (from < to) × (to ≤ many_words) }
    ensures { MatchResult result (WordRead from to text.now at) (Lost (Among from to) text.now at) }
{
    let mut far = at;
    for row in from..to {
        let word = words::word(row);
        let n = shared(&text[at..], word);
        if n == word.len() {
            return Ok(Spelt {
                what: row,
                next: at + n,
            });
        }
        far = far.max(at + n);
    }
    Err(far)
}

// The decimal at a place, from `least` to `most`, without leading zeros, with the byte `stop` behind it.
pub fn number_at(
    text: &[u8],
    at: usize,
    least: u8,
    most: u32,
    stop: u8,
) -> Result<Spelt<u32>, usize>
    requires { (at ≤ length text.now) × (least ≤ 1) × (9 ≤ most) × (stop < 48) }
    ensures { MatchResult result (NumberRead least most stop text.now at) (Lost (number least most stop) text.now at) }
{
    let Some(&first) = text.get(at) else {
        return Err(at);
    };
    if first < b'0' + least || first > b'9' {
        return Err(at);
    }
    let mut what = u32::from(first - b'0');
    for i in at + 1..text.len() {
        let b = text[i];
        if b == stop {
            return Ok(Spelt { what, next: i + 1 });
        }
        if !b.is_ascii_digit() || what == 0 {
            return Err(i);
        }
        let more = 10 * u64::from(what) + u64::from(b - b'0');
        if more > u64::from(most) {
            return Err(i);
        }
        what = more as u32;
    }
    Err(text.len())
}

// The offset at a place, as a table has it in a byte, with the byte `stop` behind it.
pub fn offset_at(text: &[u8], at: usize, stop: u8) -> Result<Spelt<u32>, usize>
    requires { (at ≤ length text.now) × (stop < 45) }
    ensures { MatchResult result (OffsetRead stop text.now at) (Lost (offset stop) text.now at) }
{
    if text.get(at) != Some(&b'-') {
        return number_at(text, at, 0, 127, stop);
    }
    let minus = number_at(text, at + 1, 1, 128, stop)?;
    Ok(Spelt {
        what: 256 - minus.what,
        next: minus.next,
    })
}

// A lower-case hex digit's value.
fn digit_of(b: u8) -> Option<u32>
    ensures { MatchOption result (NoDigit b) (DigitRead b) }
{
    match b {
        b'0'..=b'9' => Some(u32::from(b - b'0')),
        b'a'..=b'f' => Some(u32::from(b - b'a') + 10),
        _ => None,
    }
}

// The word that eight lower-case hex digits at a place give.
pub fn hex_at(text: &[u8], at: usize) -> Result<Spelt<u32>, usize>
    requires { at ≤ length text.now }
    ensures { MatchResult result (HexRead text.now at) (Lost (times 8 hex_one) text.now at) }
{
    let mut what = 0;
    for n in 0..8 {
        let Some(&b) = text.get(at + n) else {
            return Err(at + n);
        };
        let Some(d) = digit_of(b) else {
            return Err(at + n);
        };
        what = what * 16 + d;
    }
    Ok(Spelt { what, next: at + 8 })
}
