// Bytes of a lent slice ("Numbers are little-endian", document 01, "The table"). A writer takes the place where it starts and answers the
// place behind. It assumes nothing.
#![tactic(auto)]

ghost use Rattle.std.specs.Prelude.{◌≡◌, [], ◌∷◌, ◌+◌, ◌≤◌, ◌<◌, length};
ghost use Rattle.basis.specs.Written.{Wrote};
ghost use Rattle.wire.specs.Bytes.{le4, word_of, word_at};

pub fn put_byte(out: &mut [u8], at: usize, b: u8) -> usize
    requires { at < length out.old }
    ensures { Wrote out.old at (b ∷ []) out.new result }
{
    out[at] = b;
    at + 1
}

// The bytes given, one after the other.
pub fn put_bytes(out: &mut [u8], at: usize, bytes: &[u8]) -> usize
    requires { at + length bytes.now ≤ length out.old }
    ensures { Wrote out.old at bytes.now out.new result }
{
    let end = at + bytes.len();
    out[at..end].copy_from_slice(bytes);
    end
}

// Four bytes, the lowest first.
pub fn put_word(out: &mut [u8], at: usize, w: u32) -> usize
    requires { at + 4 ≤ length out.old }
    ensures { Wrote out.old at (le4 w) out.new result }
{
    let [a, b, c, d] = w.to_le_bytes();
    let one = put_byte(out, at, a);
    let two = put_byte(out, one, b);
    let three = put_byte(out, two, c);
    put_byte(out, three, d)
}

// The number in the four bytes from `at` on.
pub fn word_at(bytes: &[u8], at: usize) -> u32
    requires { at + 4 ≤ length bytes.now }
    ensures { result ≡ word_at bytes.now at }
{
    word_of(bytes[at], bytes[at + 1], bytes[at + 2], bytes[at + 3])
}

// The number of four bytes, the lowest first.
pub fn word_of(a: u8, b: u8, c: u8, d: u8) -> u32
    ensures { result ≡ word_of a b c d }
{
    u32::from_le_bytes([a, b, c, d])
}
