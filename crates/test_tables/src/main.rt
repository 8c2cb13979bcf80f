// Checks tables, each given as a line of hex digits, and prints what the check announces (document 01, "What the check announces" and
// "Refusal numbers"): `number place`, and where the table is accepted look-ahead, kept numbers, store words, room and closing turns.
// A line that starts with `#` is a comment, and the line `-` is the empty table; one that says nothing is reported as malformed.
#![tactic(auto)]

ghost use Rattle.std.specs.Prelude.{◌≡◌, ◌+◌, ◌*◌, ◌≤◌, ◌<◌, None, Some, MatchOption, IfSome, length, get_or, take, drop};
ghost use Rattle.test_tables.specs.Hex.{LineEnd, Within, said, said_of, digits_say, bytes_said, pair_of, digit_for};
ghost use Rattle.limits.specs.Limits.{most_streams};

use announce::Checked;
use std::io;

// No answer is given to an input of so many bytes, which may go on.
const INPUT_MOST: usize = 262144;

// More bytes than a table may have, so that one too long is seen to be refused.
const TABLE_ROOM: usize = 8192;

// What a line says; a table has so many bytes.
#[derive(Clone, Copy)]
enum Line {
    Comment,
    Malformed,
    Table(usize),
}

fn main(rt: HostRuntime) -> io::Result<()> {
    let mut text = [0; INPUT_MOST];
    let n = filled::read_full(&mut rt.stdin(), &mut text)?;
    if n == INPUT_MOST {
        return println!(rt; "input too long");
    }
    answer_lines(&rt, &text[..n])
}

fn answer_lines(rt: &impl Print, text: &[u8]) -> io::Result<()> {
    let mut rest = text;
    while !rest.is_empty() {
        let (line, behind) = cut_line(rest);
        answer_line(rt, line)?;
        rest = behind;
    }
    Ok(())
}

// The first line of a text, which ends with a line feed or with the text, and what stands behind it.
fn cut_line(text: &[u8]) -> (&[u8], &[u8])
    ensures end { LineEnd text.now 0 (length result.0.now) }
    ensures line { result.0.now ≡ take (length result.0.now) text.now }
    ensures behind { result.1.now ≡ drop (length result.0.now + 1) text.now }
{
    match text.iter().position(|b| *b == b'\n') {
        Some(end) => (&text[..end], &text[end + 1..]),
        None => (text, &[]),
    }
}

fn answer_line(rt: &impl Print, line: &[u8]) -> io::Result<()> {
    let mut table = [0; TABLE_ROOM];
    match read_line(line, &mut table) {
        Line::Comment => Ok(()),
        Line::Malformed => say_malformed(rt, line),
        Line::Table(n) => answer_table(rt, &table[..n]),
    }
}

fn say_malformed(rt: &impl Print, line: &[u8]) -> io::Result<()> {
    print!(rt; "malformed: ")?;
    rt.write_all(line)?;
    println!(rt)
}

// What a line says; its table is put in front of the bytes lent.
#[tactic(auto, unfolding(crate::specs::Hex::said_of))]
fn read_line(line: &[u8], table: &mut [u8]) -> Line
    ensures table_after { said result table.new ≡ said_of (length table.old) line.now }
    ensures within { Within result table.new }
{
    match line {
        [] => Line::Malformed,
        [b'#', ..] => Line::Comment,
        [b'-'] => Line::Table(0),
        [b'-', ..] => Line::Malformed,
        _ => read_digits(line, table),
    }
}

// The table that pairs of digits give.
#[tactic(auto, unfolding(crate::specs::Hex::digits_say))]
fn read_digits(line: &[u8], table: &mut [u8]) -> Line
    ensures table_after { said result table.new ≡ digits_say (length table.old) line.now }
    ensures within { Within result table.new }
{
    let n = line.len() / 2;
    if line.len() % 2 == 1 || table.len() < n {
        return Line::Malformed;
    }
    match put_bytes(line, n, table) {
        Some(()) => Line::Table(n),
        None => Line::Malformed,
    }
}

// Puts the bytes of the first `n` pairs, if each pair is one.
#[tactic(auto, using(crate::proofs::Hex::not_a_byte), unfolding(crate::specs::Hex::bytes_said))]
fn put_bytes(line: &[u8], n: usize, table: &mut [u8]) -> Option<()>
    requires { (2 * n ≤ length line.now) × (n ≤ length table.old) }
    ensures { MatchOption result (bytes_said line.now n ≡ None) (λ _. bytes_said line.now n ≡ Some (take n table.new)) }
{
    for i in 0..n {
        table[i] = pair_at(line, i)?;
    }
    Some(())
}

// The byte of the `i`-th pair of digits.
#[tactic(auto, unfolding(crate::specs::Hex::pair_of))]
fn pair_at(line: &[u8], i: usize) -> Option<u8>
    requires { 2 * i + 1 < length line.now }
    ensures { result ≡ pair_of line.now i }
{
    let high = digit(line[2 * i])?;
    let low = digit(line[2 * i + 1])?;
    Some((high * 16 + low) as u8)
}

// The number of a hex digit of either case.
#[tactic(auto, using(crate::proofs::Hex::digit_is))]
fn digit(b: u8) -> Option<u32>
    ensures value { result ≡ digit_for b }
    ensures small { IfSome result (λ d. d < 16) }
{
    char::from(b).to_digit(16)
}

// The answer to a table, as a line.
fn answer_table(rt: &impl Print, table: &[u8]) -> io::Result<()> {
    let checked = announce::check(table);
    print!(rt; "{} {}", checked.number, checked.place)?;
    if checked.number == 0 {
        say_announced(rt, &checked, streams_of(table))?;
    }
    println!(rt)
}

// The numbers of an accepted table.
fn say_announced(rt: &impl Print, checked: &Checked, streams: usize) -> io::Result<()>
    requires { streams ≤ most_streams }
{
    say_numbers(rt, " look", &checked.look[..streams])?;
    say_numbers(rt, " kept", &checked.kept[..streams])?;
    print!(rt;
        " words {} room {} closing {}",
        checked.words, checked.room, checked.closing
    )
}

// I + O, bytes 2 and 3 of the table.
fn streams_of(table: &[u8]) -> usize
    requires { 4 ≤ length table.now }
    ensures { result ≡ get_or table.now 2 0 + get_or table.now 3 0 }
{
    usize::from(table[2]) + usize::from(table[3])
}

// A number for each stream.
fn say_numbers(rt: &impl Print, name: &str, numbers: &[u16]) -> io::Result<()> {
    rt.print(name)?;
    for x in numbers {
        print!(rt; " {x}")?;
    }
    Ok(())
}
