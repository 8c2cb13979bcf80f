// The words of a table's text, each once, which reader and writer go by (request C-12). It assumes nothing.
#![tactic(auto)]

ghost use Rattle.std.specs.Prelude.{◌≡◌, ◌<◌, length};
ghost use Rattle.source.specs.Words.{many_words, word_of};

pub const WORDS_MOST: usize = 33;

// The rows: the nodes' names in the order of their kinds, the leaves first.
pub const LEAF_ROW: usize = 0;

pub const OPERATOR_ROW: usize = 5;

// The types, with a line's end behind them.
pub const TYPE_ROW: usize = 21;

// The types with a blank behind them, where a role follows.
pub const SORT_ROW: usize = 24;

pub const ROLE_ROW: usize = 27;

// What the lines begin with.
pub const TABLE_ROW: usize = 29;

pub const IN_ROW: usize = 30;

pub const OUT_ROW: usize = 31;

pub const EQ_ROW: usize = 32;

static WORDS: [&[u8]; WORDS_MOST] = [
    b"flag(",
    b"word(",
    b"level(",
    b"now(",
    b"at(",
    b"not(",
    b"and(",
    b"or(",
    b"if(",
    b"add.word(",
    b"sub.word(",
    b"ahead(",
    b"less.word(",
    b"equal.word(",
    b"equal.flag(",
    b"equal.level(",
    b"add.level(",
    b"sub.level(",
    b"mul(",
    b"div(",
    b"less.level(",
    b"flag\n",
    b"word\n",
    b"level\n",
    b"flag ",
    b"word ",
    b"level ",
    b"plain\n",
    b"trigger\n",
    b"table ",
    b"in ",
    b"out ",
    b"eq ",
];

// The word of a row.
pub fn word(row: usize) -> &'static [u8]
    requires { row < many_words }
    ensures same { result.now ≡ word_of row }
    ensures short { length result.now < 16 }
{
    WORDS[row]
}
