// Stream values: flags, words and levels, their 32-bit images, and the operators on them (document
// 01, "Values" and the kinds 20 to 2F of "The table").
#![tactic(auto)]

ghost use Rattle.std.specs.Prelude.{◌≡◌};
ghost use Rattle.value.specs.Words.{ahead_of};
ghost use Rattle.value.specs.Values.{image_of, reading_of, flag_for, word_of, level_for, operate_of, apply_of, choose_of};

// The kinds of the operators but 23, each by its type.
const NOT_FLAG: u8 = 0x20;

const AND_FLAGS: u8 = 0x21;

const OR_FLAGS: u8 = 0x22;

const ADD_WORDS: u8 = 0x24;

const SUB_WORDS: u8 = 0x25;

const AHEAD_WORDS: u8 = 0x26;

const LESS_WORDS: u8 = 0x27;

const EQUAL_WORDS: u8 = 0x28;

const EQUAL_FLAGS: u8 = 0x29;

const EQUAL_LEVELS: u8 = 0x2a;

const ADD_LEVELS: u8 = 0x2b;

const SUB_LEVELS: u8 = 0x2c;

const MUL_LEVELS: u8 = 0x2d;

const DIV_LEVELS: u8 = 0x2e;

const LESS_LEVELS: u8 = 0x2f;

#[derive(Clone, Copy)]
pub enum Value {
    Flag(bool),
    Word(u32),
    Level(f32),
}

// What an operator takes of an operand. One of another type, which no accepted table has, counts as
// false, 0 or +0.
impl Value {
    pub fn flag(self) -> bool
        ensures { result ≡ flag_for self }
    {
        match self {
            Value::Flag(b) => b,
            _ => false,
        }
    }

    fn word(self) -> u32
        ensures { result ≡ word_of self }
    {
        match self {
            Value::Word(w) => w,
            _ => 0,
        }
    }

    fn level(self) -> f32
        ensures { result ≡ level_for self }
    {
        match self {
            Value::Level(x) => x,
            _ => 0.0,
        }
    }
}

// The one 32-bit word that a value takes in rows, store and output.
pub fn image(v: Value) -> u32
    ensures { result ≡ image_of v }
{
    match v {
        Value::Flag(b) => u32::from(b),
        Value::Word(w) => w,
        Value::Level(x) => level::image_of(x),
    }
}

// A word read as a value of a type: 0 flag, 1 word, else level.
pub fn reading(t: u8, w: u32) -> Value
    ensures { result ≡ reading_of t w }
{
    match t {
        0 => Value::Flag(w != 0),
        1 => Value::Word(w),
        _ => Value::Level(level::level_of(w)),
    }
}

// The operator of a kind but 23, on values; `not` takes its operand from a.
pub fn apply(kind: u8, a: Value, b: Value) -> Value
    ensures { result ≡ apply_of kind a b }
{
    operate(
        kind,
        a.flag(),
        b.flag(),
        a.word(),
        b.word(),
        a.level(),
        b.level(),
    )
}

// Kind 23, `if`: a is the flag, b the value where it is true, c where it is not.
pub fn choose(a: Value, b: Value, c: Value) -> Value
    ensures { result ≡ choose_of a b c }
{
    if a.flag() { b } else { c }
}

// The operator of a kind, on the operands of each type: p, q flags, m, n words, x, y levels.
#[tactic(auto, unfolding(crate::specs::Values::op_of))]
fn operate(kind: u8, p: bool, q: bool, m: u32, n: u32, x: f32, y: f32) -> Value
    ensures { result ≡ operate_of kind p q m n x y }
{
    match kind {
        ADD_WORDS => Value::Word(m.wrapping_add(n)),
        SUB_WORDS => Value::Word(m.wrapping_sub(n)),
        ADD_LEVELS => Value::Level(x + y),
        SUB_LEVELS => Value::Level(x - y),
        MUL_LEVELS => Value::Level(x * y),
        DIV_LEVELS => Value::Level(x / y),
        _ => Value::Flag(holds(kind, p, q, m, n, x, y)),
    }
}

// Whether it gives true. The flags have a match of their own, and its last arm is no constant: as it
// is, the compiler sets a flag without a branch on it. Values change from row to row, and no
// processor foresees them.
#[tactic(auto, unfolding(crate::specs::Values::op_of))]
fn holds(kind: u8, p: bool, q: bool, m: u32, n: u32, x: f32, y: f32) -> bool
    ensures { result ≡ flag_for (operate_of kind p q m n x y) }
{
    match kind {
        NOT_FLAG => !p,
        AND_FLAGS => p & q,
        OR_FLAGS => p | q,
        AHEAD_WORDS => ahead(m, n),
        LESS_WORDS => m < n,
        EQUAL_WORDS => m == n,
        EQUAL_FLAGS => p == q,
        EQUAL_LEVELS => level::equal_levels(x, y),
        _ => (kind == LESS_LEVELS) & (x < y),
    }
}

// Whether a is ahead of b, across the wrap too.
fn ahead(a: u32, b: u32) -> bool
    ensures { result ≡ ahead_of a b }
{
    let d = a.wrapping_sub(b);
    d != 0 && d < 0x8000_0000
}
