// Runs published binary32 vectors (data/README) through the operators on levels (document 01, kinds
// 2B to 2F), and says of each file how many lines agreed, and which did not.
#![tactic(auto)]

ghost use Rattle.std.specs.Prelude.{◌≡◌, ◌/◌, ◌<◌, ◌≤◌, length, IfSome};
ghost use Rattle.level.specs.Level.{one_nan_of};
ghost use Rattle.test_vectors.specs.Vectors.{outcome_of, agrees_of, agreed_of, line_of, parted_of, result_of, number_of, digit_for};

use std::rt::Files;
use std::{fs, io};

// The bytes of a line: two operands and a result of eight digits each, a space between, and the
// line's end. The result of a comparison is one digit.
const LEVEL_LINE: usize = 27;

const FLAG_LINE: usize = 20;

// More bytes than a file has.
const TEXT_MOST: usize = 163840;

// An operator, its file, and the bytes of a line there.
#[derive(Clone, Copy)]
struct Operator {
    path: &'static str,
    name: &'static str,
    kind: u8,
    line: usize,
    ghost some: { 1 ≤ line },
}

// What a line says: two operands and a result.
#[derive(Clone, Copy)]
struct Vector {
    a: u32,
    b: u32,
    result: u32,
}

const OPERATORS: [Operator; 5] = [
    Operator {
        path: "f32_add.txt",
        name: "add",
        kind: 0x2b,
        line: LEVEL_LINE,
    },
    Operator {
        path: "f32_sub.txt",
        name: "sub",
        kind: 0x2c,
        line: LEVEL_LINE,
    },
    Operator {
        path: "f32_mul.txt",
        name: "mul",
        kind: 0x2d,
        line: LEVEL_LINE,
    },
    Operator {
        path: "f32_div.txt",
        name: "div",
        kind: 0x2e,
        line: LEVEL_LINE,
    },
    Operator {
        path: "f32_lt_quiet.txt",
        name: "less",
        kind: 0x2f,
        line: FLAG_LINE,
    },
];

fn main(rt: HostRuntime) -> io::Result<()> {
    for operator in OPERATORS {
        run(&rt, operator)?;
    }
    Ok(())
}

fn run(rt: &(impl Files + Print), operator: Operator) -> io::Result<()> {
    let name = operator.name;
    let Ok(mut file) = fs::open(rt, operator.path) else {
        return println!(rt; "{name} has no file");
    };
    let mut text = [0; TEXT_MOST];
    let n = filled::read_full(&mut file, &mut text)?;
    report(rt, operator, &text[..n])
}

fn report(rt: &impl Print, operator: Operator, text: &[u8]) -> io::Result<()> {
    say_refuted(rt, operator, text)?;
    let name = operator.name;
    let agreed = count_agreed(operator, text);
    let lines = text.len() / operator.line;
    println!(rt; "{name} {agreed} of {lines} agreed")?;
    if text.len() % operator.line != 0 {
        println!(rt; "{name} stops inside a line")?;
    }
    Ok(())
}

// Writes out each line that does not agree, with what the operator gives for it.
fn say_refuted(rt: &impl Print, operator: Operator, text: &[u8]) -> io::Result<()> {
    for line in text.chunks_exact(operator.line) {
        if !agrees(operator.kind, line) {
            say_line(rt, operator, line)?;
        }
    }
    Ok(())
}

fn say_line(rt: &impl Print, operator: Operator, line: &[u8]) -> io::Result<()> {
    let name = operator.name;
    match parse(line) {
        Some(vector) => {
            let gave = outcome(operator.kind, vector.a, vector.b);
            print!(rt; "{name} gave {gave:08x} for: ")?;
        }
        None => print!(rt; "{name} malformed: ")?,
    }
    rt.write_all(line)
}

// How many lines of a text agree.
fn count_agreed(operator: Operator, text: &[u8]) -> usize
    ensures { result ≡ agreed_of operator.kind operator.line text.now (length text.now / operator.line) }
{
    text.chunks_exact(operator.line)
        .filter(|line| agrees(operator.kind, line))
        .count()
}

// Whether a line's result is what the operator gives; a line that says nothing does not agree.
fn agrees(kind: u8, line: &[u8]) -> bool
    ensures { result ≡ agrees_of kind (line_of line.now) }
{
    match parse(line) {
        Some(vector) => outcome(kind, vector.a, vector.b) == one_nan(vector.result),
        None => false,
    }
}

// The image of the operator's result on two levels, given as words.
fn outcome(kind: u8, a: u32, b: u32) -> u32
    ensures { result ≡ outcome_of kind a b }
{
    let x = value::reading(2, a);
    let y = value::reading(2, b);
    let z = value::apply(kind, x, y);
    value::image(z)
}

// A vector's result, with the single NaN for every NaN pattern.
fn one_nan(w: u32) -> u32
    ensures { result ≡ one_nan_of w }
{
    if level::is_nan_bits(w) {
        0x7fc0_0000
    } else {
        w
    }
}

// What a line says, if it is a vector.
#[tactic(auto, unfolding(crate::specs::Vectors::line_of))]
fn parse(line: &[u8]) -> Option<Vector>
    ensures { result ≡ line_of line.now }
{
    if line.len() < FLAG_LINE || !parted(line) {
        return None;
    }
    Some(Vector {
        a: word(&line[..8])?,
        b: word(&line[9..17])?,
        result: result_of(line)?,
    })
}

// Whether a space follows each operand, and the line's end stands last.
#[tactic(auto, unfolding(crate::specs::Vectors::parted_of))]
fn parted(line: &[u8]) -> bool
    requires { 20 ≤ length line.now }
    ensures { result ≡ parted_of line.now }
{
    line[8] == b' ' && line[17] == b' ' && line[line.len() - 1] == b'\n'
}

// The result that the line gives: a level's word, or a flag's digit in the shorter line.
#[tactic(auto, unfolding(crate::specs::Vectors::result_of))]
fn result_of(line: &[u8]) -> Option<u32>
    requires { 20 ≤ length line.now }
    ensures { result ≡ result_of line.now }
{
    if line.len() == LEVEL_LINE {
        word(&line[18..26])
    } else {
        digit(line[18])
    }
}

// The number of eight digits.
fn word(digits: &[u8]) -> Option<u32>
    requires { length digits.now ≡ 8 }
    ensures { result ≡ number_of 0 digits.now }
{
    let mut word = 0;
    for b in digits {
        word = word * 16 + digit(*b)?;
    }
    Some(word)
}

// The number of a lower-case hex digit.
#[tactic(auto, unfolding(crate::specs::Vectors::digit_for))]
fn digit(b: u8) -> Option<u32>
    ensures value { result ≡ digit_for b }
    ensures small { IfSome result (λ d. d < 16) }
{
    match b {
        b'0'..=b'9' => Some(u32::from(b - b'0')),
        b'a'..=b'f' => Some(u32::from(b - b'a') + 10),
        _ => None,
    }
}
