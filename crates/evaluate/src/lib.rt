// The evaluator over the table's own bytes, and the turn over the lent store (document 01, "A run"). `types`, `look`, `kept`, `starts` and
// `order` hold a number for each stream; `known` is the number of rows known, `frame` that of the turn.
#![tactic(auto)]

ghost use Rattle.std.specs.Prelude.{◌≡◌, length};
ghost use Rattle.node.specs.Kinds.{Tabulated};
ghost use Rattle.store.specs.Store.{Framed};
ghost use Rattle.evaluate.specs.Evaluation.{referred_in, Referable, LeafStands, OperatorStands, Evaluates, EvaluatesLeaf};
ghost use Rattle.evaluate.specs.Turns.{CanTurn, Turns};

use limits::STREAMS_MOST;
use node::{ENTRIES, KINDS_MOST, Node};
use store::Frame;
use value::Value;

// The note of the weight 0, to reckon with.
const RISE_OF_ZERO: u64 = limits::RISE_OF_ZERO as u64;

// at(v, k) at the turn's position j: "v at j+k, or the default where j+k is below 0 or not below N". `word` is the default's.
fn referred(store: &[u32], frame: &Frame, v: usize, k: i8, word: u32) -> Value
    requires { Referable frame.now (length store.now) v k }
    ensures { result ≡ referred_in frame.now store.now v k word }
{
    let noted = u64::from(frame.position) + u64::from(expression::rising_of(k));
    if RISE_OF_ZERO <= noted {
        let q = noted - RISE_OF_ZERO;
        if q < u64::from(frame.known) {
            return store::read(store, frame, v, q as u32);
        }
    }
    value::reading(frame.parts[v].kind, word)
}

// An expression's value, and the place behind the expression.
#[derive(Clone, Copy)]
pub struct Evaluated {
    pub value: Value,
    pub next: usize,
}

// The constant or reference at `at`. The node is an enum, and "the checker's and evaluator's decision goes over it".
fn leaf(bytes: &[u8], store: &[u32], frame: &Frame, at: usize) -> Evaluated
    requires { LeafStands frame.now (length store.now) bytes.now at }
    ensures { EvaluatesLeaf frame.now store.now bytes.now at result }
{
    let kind = bytes[at];
    let start = at + 1;
    let node = node::node_of(bytes, kind, start);
    let next = start + usize::from(node::leaf_body(node));
    match node {
        Node::Constant(t, w) => Evaluated {
            value: value::reading(t, w),
            next,
        },
        Node::Now(v) => Evaluated {
            value: store::read(store, frame, usize::from(v), frame.position),
            next,
        },
        Node::At(v, k, w) => Evaluated {
            value: referred(store, frame, usize::from(v), k, w),
            next,
        },
        // Never: a leaf stands there.
        Node::Operator(_) => Evaluated {
            value: Value::Flag(false),
            next,
        },
    }
}

// The operator at `at` and its operands, with `levels` levels left. An operand without operands of its own does not enter the recursion. The
// store is handed on by the number of words lent that the frame has: as it came, its pointer and its length, which `turn` puts down one by one,
// would be read as one, and each equation would wait until both have settled.
fn eval(
    bytes: &[u8],
    kinds: &[[u8; ENTRIES]; KINDS_MOST],
    store: &[u32],
    frame: &Frame,
    at: usize,
    levels: u8,
) -> Evaluated
    requires { Tabulated kinds.now × OperatorStands levels frame.now (length store.now) bytes.now at }
    ensures { Evaluates levels frame.now store.now bytes.now at result }
{
    let held = &store[..frame.lent];
    let op = bytes[at];
    let operands = node::operands_of(kinds, usize::from(op));
    let left = levels - 1;
    let one = if node::is_leaf(bytes, at + 1) {
        leaf(bytes, held, frame, at + 1)
    } else {
        eval(bytes, kinds, held, frame, at + 1, left)
    };
    let a = one.value;
    let mut b = a;
    let mut next = one.next;
    if operands != 1 {
        let two = if node::is_leaf(bytes, next) {
            leaf(bytes, held, frame, next)
        } else {
            eval(bytes, kinds, held, frame, next, left)
        };
        b = two.value;
        next = two.next;
        if operands == 3 {
            let three = if node::is_leaf(bytes, next) {
                leaf(bytes, held, frame, next)
            } else {
                eval(bytes, kinds, held, frame, next, left)
            };
            return Evaluated {
                value: value::choose(a, b, three.value),
                next: three.next,
            };
        }
    }
    Evaluated {
        value: value::apply(op, a, b),
        next,
    }
}

// Turn t, done in place: it "writes exactly the values, inputs included, whose position is that turn less their look-ahead and lies in the
// trace". `order` has each stream behind those whose values of this very turn it reads. `eval` and `leaf` are called from here: a helper
// between would take the slices to pieces and put them together again.
pub fn turn(
    bytes: &[u8],
    kinds: &[[u8; ENTRIES]; KINDS_MOST],
    store: &mut [u32],
    row: &[u32],
    types: &[u8; STREAMS_MOST],
    look: &[u16; STREAMS_MOST],
    kept: &[u16; STREAMS_MOST],
    starts: &[u16; STREAMS_MOST],
    order: &[u8; STREAMS_MOST],
    frame: &mut Frame,
    inputs: usize,
    streams: usize,
    known: u64,
    t: u64,
)
    requires { CanTurn bytes.now kinds.now types.now look.now kept.now starts.now order.now
        inputs streams (length store.old) (length row.now) known t }
    ensures { Turns bytes.now types.now look.now kept.now starts.now
        order.now inputs streams row.now store.old known t store.new
        × Framed types.now look.now kept.now streams known t frame.new }
{
    store::lay(types, look, kept, streams, known, t, store.len(), frame);
    for stream in &order[..streams] {
        let y = usize::from(*stream);
        let ahead = u64::from(look[y]);
        if ahead <= t && t < known + ahead {
            let position = (t - ahead) as u32;
            if y < inputs {
                store::write(store, frame, y, position, value::reading(types[y], row[y]));
            } else {
                frame.position = position;
                let at = usize::from(starts[y]);
                let e = if node::is_leaf(bytes, at) {
                    leaf(bytes, store, frame, at)
                } else {
                    eval(bytes, kinds, store, frame, at, limits::LEVELS_MOST)
                };
                let value = e.value;
                store::write(store, frame, y, position, value);
            }
        }
    }
}
