// The program's lines, written into a lent slice (document 01, "The program"). Each function answers where its text ends.
#![tactic(auto)]

ghost use Rattle.std.specs.Prelude.{◌+◌, ◌≤◌, length};
ghost use Rattle.basis.specs.Written.{Wrote};
ghost use Rattle.lines.specs.Lines.{decimal, spaced, pair, hex8, value_line, trigger_line, refusal_line, stop_line, end_line};
ghost use Rattle.lines.specs.Lines.{most_value_line, most_trigger_line, most_refusal_line, most_stop_line, most_end_line};

// "each ended by byte 0A"
const LINE_END: u8 = 0x0A;

// `v stream position value`
pub fn put_value_line(out: &mut [u8], at: usize, stream: u8, position: u32, value: u32) -> usize
    requires { at + most_value_line ≤ length out.old }
    ensures { Wrote out.old at (value_line stream position value) out.new result }
{
    let a = put_pair(out, at, b'v', stream, u64::from(position));
    let b = wire::put_byte(out, a, b' ');
    let c = put_hex8(out, b, value);
    wire::put_byte(out, c, LINE_END)
}

// `t stream position`
pub fn put_trigger_line(out: &mut [u8], at: usize, stream: u8, position: u32) -> usize
    requires { at + most_trigger_line ≤ length out.old }
    ensures { Wrote out.old at (trigger_line stream position) out.new result }
{
    let a = put_pair(out, at, b't', stream, u64::from(position));
    wire::put_byte(out, a, LINE_END)
}

// `r number place`
pub fn put_refusal_line(out: &mut [u8], at: usize, number: u8, place: usize) -> usize
    requires { at + most_refusal_line ≤ length out.old }
    ensures { Wrote out.old at (refusal_line number place) out.new result }
{
    let a = put_pair(out, at, b'r', number, place as u64);
    wire::put_byte(out, a, LINE_END)
}

// `s n`
pub fn put_stop_line(out: &mut [u8], at: usize, n: u64) -> usize
    requires { at + most_stop_line ≤ length out.old }
    ensures { Wrote out.old at (stop_line n) out.new result }
{
    let a = wire::put_byte(out, at, b's');
    let b = put_spaced(out, a, n);
    wire::put_byte(out, b, LINE_END)
}

// `end N`
pub fn put_end_line(out: &mut [u8], at: usize, rows: u32) -> usize
    requires { at + most_end_line ≤ length out.old }
    ensures { Wrote out.old at (end_line rows) out.new result }
{
    let a = wire::put_bytes(out, at, b"end");
    let b = put_spaced(out, a, u64::from(rows));
    wire::put_byte(out, b, LINE_END)
}

// What the lines of two numbers begin with.
fn put_pair(out: &mut [u8], at: usize, letter: u8, first: u8, second: u64) -> usize
    requires { at + 3 + length (decimal first) + length (decimal second) ≤ length out.old }
    ensures { Wrote out.old at (pair letter first second) out.new result }
{
    let a = wire::put_byte(out, at, letter);
    let b = put_spaced(out, a, u64::from(first));
    put_spaced(out, b, second)
}

// A blank and the number.
fn put_spaced(out: &mut [u8], at: usize, x: u64) -> usize
    requires { at + 1 + length (decimal x) ≤ length out.old }
    ensures { Wrote out.old at (spaced x) out.new result }
{
    let next = wire::put_byte(out, at, b' ');
    put_decimal(out, next, x)
}

// In decimal, without leading zeros.
pub fn put_decimal(out: &mut [u8], at: usize, x: u64) -> usize
    requires { at + length (decimal x) ≤ length out.old }
    ensures { Wrote out.old at (decimal x) out.new result }
{
    let mut buffer = itoa::Buffer::new();
    wire::put_bytes(out, at, buffer.format(x).as_bytes())
}

// Eight hexadecimal digits.
pub fn put_hex8(out: &mut [u8], at: usize, w: u32) -> usize
    requires { at + 8 ≤ length out.old }
    ensures { Wrote out.old at (hex8 w) out.new result }
{
    let end = at + 8;
    hex::encode_to_slice(w.to_be_bytes(), &mut out[at..end]).unwrap();
    end
}
