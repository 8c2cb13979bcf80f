// The constant table of kinds, and the expression node that stands at a place (document 01, "The table" and "Refusal numbers").
#![tactic(auto)]

ghost use Rattle.std.specs.Prelude.{◌≡◌, ◌+◌, ◌≤◌, ◌<◌, ◌^◌, length, get_or};
ghost use Rattle.limits.specs.Faults.{number_for};
ghost use Rattle.node.specs.Kinds.{rule_of, rest_of, many_kinds, results_for, Tabulated};
ghost use Rattle.wire.specs.Bytes.{word_at};
ghost use Rattle.node.specs.Node.{signed_of, node_of, is_leaf_of, leaf_body_of, standing, result_fault_of, deep_fault_of};

use limits::Fault;

// A type: "0 flag, 1 word, 2 level".
pub const FLAG: u8 = 0;

pub const WORD: u8 = 1;

pub const LEVEL: u8 = 2;

// The types that a node can be of, as a set: a bit for each, none where no expression has the kind.
const NOTHING: u8 = 0;

const A_FLAG: u8 = 1;

const A_WORD: u8 = 2;

const A_LEVEL: u8 = 4;

const ANY: u8 = A_FLAG + A_WORD + A_LEVEL;

// What the constant table has of each kind: the length of its body, the number of its operands, the type of the first operand, and the set
// of the types that the node can be of. The other operands are of the first one's type, those of an `if` of the wanted type.
const BODY: usize = 0;

const OPERANDS: usize = 1;

const OPERAND: usize = 2;

const RESULTS: usize = 3;

pub const ENTRIES: usize = 4;

pub const KINDS_MOST: usize = 48;

// No operand has a type.
const NO_TYPE: u8 = 0;

// Of every other kind.
const NO_KIND: [u8; ENTRIES] = [0, 0, NO_TYPE, NOTHING];

// The records before an expression.
const EDITION: [u8; ENTRIES] = [3, 0, NO_TYPE, NOTHING];

const INPUT: [u8; ENTRIES] = [1, 0, NO_TYPE, NOTHING];

const OUTPUT: [u8; ENTRIES] = [2, 0, NO_TYPE, NOTHING];

const EQUATION: [u8; ENTRIES] = [1, 0, NO_TYPE, NOTHING];

// Nodes without operands, and the lengths of their bodies.
const FLAG_BODY: u8 = 1;

const WORD_BODY: u8 = 4;

const NOW_BODY: u8 = 1;

const AT_BODY: u8 = 6;

const FLAG_CONSTANT: [u8; ENTRIES] = [FLAG_BODY, 0, NO_TYPE, A_FLAG];

const WORD_CONSTANT: [u8; ENTRIES] = [WORD_BODY, 0, NO_TYPE, A_WORD];

const LEVEL_CONSTANT: [u8; ENTRIES] = [WORD_BODY, 0, NO_TYPE, A_LEVEL];

const REFERENCE_NOW: [u8; ENTRIES] = [NOW_BODY, 0, NO_TYPE, ANY];

const REFERENCE_AT: [u8; ENTRIES] = [AT_BODY, 0, NO_TYPE, ANY];

// Operators, by their operands and their result.
const FLAG_TO_FLAG: [u8; ENTRIES] = [0, 1, FLAG, A_FLAG];

const TWO_FLAGS_TO_FLAG: [u8; ENTRIES] = [0, 2, FLAG, A_FLAG];

const TWO_WORDS_TO_WORD: [u8; ENTRIES] = [0, 2, WORD, A_WORD];

const TWO_WORDS_TO_FLAG: [u8; ENTRIES] = [0, 2, WORD, A_FLAG];

const TWO_LEVELS_TO_LEVEL: [u8; ENTRIES] = [0, 2, LEVEL, A_LEVEL];

const TWO_LEVELS_TO_FLAG: [u8; ENTRIES] = [0, 2, LEVEL, A_FLAG];

// "if: flag, then, else (both of the wanted type)"
const CHOICE: [u8; ENTRIES] = [0, 3, FLAG, ANY];

// The constant table by kind, read by scan and evaluator.
const KINDS: [[u8; ENTRIES]; KINDS_MOST] = [
    NO_KIND,
    EDITION,
    INPUT,
    OUTPUT,
    EQUATION,
    NO_KIND,
    NO_KIND,
    NO_KIND,
    NO_KIND,
    NO_KIND,
    NO_KIND,
    NO_KIND,
    NO_KIND,
    NO_KIND,
    NO_KIND,
    NO_KIND,
    FLAG_CONSTANT,
    WORD_CONSTANT,
    LEVEL_CONSTANT,
    REFERENCE_NOW,
    REFERENCE_AT,
    NO_KIND,
    NO_KIND,
    NO_KIND,
    NO_KIND,
    NO_KIND,
    NO_KIND,
    NO_KIND,
    NO_KIND,
    NO_KIND,
    NO_KIND,
    NO_KIND,
    FLAG_TO_FLAG,
    TWO_FLAGS_TO_FLAG,
    TWO_FLAGS_TO_FLAG,
    CHOICE,
    TWO_WORDS_TO_WORD,
    TWO_WORDS_TO_WORD,
    TWO_WORDS_TO_FLAG,
    TWO_WORDS_TO_FLAG,
    TWO_WORDS_TO_FLAG,
    TWO_FLAGS_TO_FLAG,
    TWO_LEVELS_TO_FLAG,
    TWO_LEVELS_TO_LEVEL,
    TWO_LEVELS_TO_LEVEL,
    TWO_LEVELS_TO_LEVEL,
    TWO_LEVELS_TO_LEVEL,
    TWO_LEVELS_TO_FLAG,
];

// The constant table, for a call to lend downwards: the compiler would copy a constant array at each look-up.
pub fn kind_table() -> [[u8; ENTRIES]; KINDS_MOST]
    ensures { Tabulated result }
{
    KINDS
}

// The entries of a kind.
pub fn body_of(kinds: &[[u8; ENTRIES]; KINDS_MOST], kind: usize) -> usize
    requires { (kind < many_kinds) × Tabulated kinds.now }
    ensures { (result ≡ (rule_of kind).body) × (result < 256) }
{
    let body = kinds[kind][BODY];
    usize::from(body)
}

pub fn operands_of(kinds: &[[u8; ENTRIES]; KINDS_MOST], kind: usize) -> u8
    requires { (kind < many_kinds) × Tabulated kinds.now }
    ensures { result ≡ (rule_of kind).operands }
{
    kinds[kind][OPERANDS]
}

pub fn operand_of(kinds: &[[u8; ENTRIES]; KINDS_MOST], kind: usize) -> u8
    requires { (kind < many_kinds) × Tabulated kinds.now }
    ensures { result ≡ (rule_of kind).first }
{
    kinds[kind][OPERAND]
}

pub fn results_of(kinds: &[[u8; ENTRIES]; KINDS_MOST], kind: usize) -> u8
    requires { (kind < many_kinds) × Tabulated kinds.now }
    ensures { result ≡ results_for (rule_of kind) }
{
    kinds[kind][RESULTS]
}

// The type of an operand behind the first one: "if: flag, then, else (both of the wanted type)".
pub fn rest_type(operands: u8, first: u8, wanted: u8) -> u8
    ensures { result ≡ rest_of operands first wanted }
{
    if operands == 3 { wanted } else { first }
}

// The fault of a kind that gives nothing of the wanted type: no expression has it, or it is of another type.
pub fn result_fault(results: u8) -> Fault
    ensures { number_for result ≡ result_fault_of results }
{
    if results == NOTHING {
        Fault::WrongKind
    } else {
        Fault::WrongType
    }
}

// The fault of whatever stands at `at`, one level too deep.
pub fn deep_fault(table: &[u8], kinds: &[[u8; ENTRIES]; KINDS_MOST], at: usize) -> Fault
    requires { Tabulated kinds.now }
    ensures { number_for result ≡ deep_fault_of table.now at }
{
    if table.len() <= at {
        return Fault::Missing;
    }
    let kind = usize::from(table[at]);
    if KINDS_MOST <= kind {
        return Fault::WrongKind;
    }
    if results_of(kinds, kind) == NOTHING {
        return Fault::WrongKind;
    }
    if table.len() - at <= body_of(kinds, kind) {
        return Fault::Missing;
    }
    Fault::TooDeep
}

// A byte read as a signed number.
pub fn signed_of(b: u8) -> i8
    ensures { result ≡ signed_of b }
{
    if b < 128 {
        b as i8
    } else {
        -((255 - b) as i8) - 1
    }
}

// The kinds of the nodes without operands.
pub const FLAG_KIND: u8 = 0x10;

pub const WORD_KIND: u8 = 0x11;

pub const LEVEL_KIND: u8 = 0x12;

pub const NOW_KIND: u8 = 0x13;

pub const AT_KIND: u8 = 0x14;

// An expression node.
#[derive(Clone, Copy)]
pub enum Node {
    // its type and its word
    Constant(u8, u32),
    // the stream
    Now(u8),
    // the stream, the offset and the default
    At(u8, i8, u32),
    // the kind
    Operator(u8),
}

// Whether a node is a constant or a reference.
fn without_operands(node: Node) -> bool
    ensures { result ≡ is_leaf_of node }
{
    !matches!(node, Node::Operator(_))
}

// The length of the body of a node without operands, as the constant table has it. Where the node is in hand its case says the length: the
// place behind it then need not wait until the table is read.
pub fn leaf_body(node: Node) -> u8
    ensures { result ≡ leaf_body_of node }
{
    match node {
        Node::Constant(FLAG, _) => FLAG_BODY,
        Node::Constant(_, _) => WORD_BODY,
        Node::Now(_) => NOW_BODY,
        Node::At(_, _, _) => AT_BODY,
        // An operator has no body.
        Node::Operator(_) => 0,
    }
}

// Whether the node at `at`, whose body is there, is one without operands.
pub fn is_leaf(table: &[u8], at: usize) -> bool
    requires { at + 1 + (rule_of (get_or table.now at 0)).body ≤ length table.now }
    ensures { result ≡ is_leaf_of (standing table.now at) }
{
    without_operands(node_of(table, table[at], at + 1))
}

// The byte at a place; past the table's end 0.
fn byte_near(table: &[u8], at: usize) -> u8
    ensures { result ≡ get_or table.now at 0 }
{
    if at < table.len() { table[at] } else { 0 }
}

fn word_near(table: &[u8], at: usize) -> u32
    requires { at + 3 < 2 ^ 64 }
    ensures { result ≡ word_at table.now at }
{
    wire::word_of(
        byte_near(table, at),
        byte_near(table, at + 1),
        byte_near(table, at + 2),
        byte_near(table, at + 3),
    )
}

// The node of the kind `kind` whose body starts at `at`, as far as the table goes. It serves to decide: what is not asked of the node is
// not read by the compiled code, so that the decision costs what one over the kind would cost.
fn node_near(table: &[u8], kind: u8, at: usize) -> Node
    requires { at + 5 < 2 ^ 64 }
    ensures { result ≡ node_of table.now kind at }
{
    if kind == FLAG_KIND {
        Node::Constant(FLAG, u32::from(byte_near(table, at)))
    } else if kind == WORD_KIND {
        Node::Constant(WORD, word_near(table, at))
    } else if kind == LEVEL_KIND {
        Node::Constant(LEVEL, word_near(table, at))
    } else if kind == NOW_KIND {
        Node::Now(byte_near(table, at))
    } else if kind == AT_KIND {
        Node::At(
            byte_near(table, at),
            signed_of(byte_near(table, at + 1)),
            word_near(table, at + 2),
        )
    } else {
        Node::Operator(kind)
    }
}

// Whether a node without operands stands at `at`, whole or not.
pub fn leaf_stands(table: &[u8], at: usize) -> bool
    ensures { result ≡ is_leaf_of (standing table.now at) }
{
    if table.len() <= at {
        return false;
    }
    without_operands(node_near(table, table[at], at + 1))
}

// The node of the kind `kind` whose body starts at `at`.
pub fn node_of(table: &[u8], kind: u8, at: usize) -> Node
    requires { at + (rule_of kind).body ≤ length table.now }
    ensures { result ≡ node_of table.now kind at }
{
    if kind == FLAG_KIND {
        Node::Constant(FLAG, u32::from(table[at]))
    } else if kind == WORD_KIND {
        Node::Constant(WORD, wire::word_at(table, at))
    } else if kind == LEVEL_KIND {
        Node::Constant(LEVEL, wire::word_at(table, at))
    } else if kind == NOW_KIND {
        Node::Now(table[at])
    } else if kind == AT_KIND {
        Node::At(
            table[at],
            signed_of(table[at + 1]),
            wire::word_at(table, at + 2),
        )
    } else {
        Node::Operator(kind)
    }
}
