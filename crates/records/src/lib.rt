// The records that a turn gives (document 01, "A run"): their kinds and sizes, the room for them, their bytes, and their lines ("The
// program"). A writer takes the place where it starts and answers the place behind. It assumes nothing.
#![tactic(auto)]

ghost use Rattle.std.specs.Prelude.{◌≡◌, ◌+◌, ◌*◌, ◌≤◌, length, take, MatchOption};
ghost use Rattle.basis.specs.Written.{Wrote};
ghost use Rattle.limits.specs.Limits.{most_streams};
ghost use Rattle.records.specs.Kinds.{value_size_of, trigger_size_of, byte_of, size_for, size_of_kind_of, room_for};
ghost use Rattle.records.specs.Encoding.{value_record_of, trigger_record_of};
ghost use Rattle.records.specs.Reading.{StartsWith, record_size_of, item_of};
ghost use Rattle.records.specs.Lines.{item_line, lines_of};

// "record 50 (stream, position in 4 bytes, value word)"
pub const KIND_VALUE: u8 = 0x50;

pub const VALUE_BYTES: usize = 10;

// "record 51 (stream, position)"
pub const KIND_TRIGGER: u8 = 0x51;

pub const TRIGGER_BYTES: usize = 6;

// No table announces more room: each of the outputs a trigger.
pub const ROOM_MOST: usize = (VALUE_BYTES + TRIGGER_BYTES) * limits::OUTPUTS_MOST;

// The lines of one turn: no record's line is longer than three times the record.
pub const TEXT_MOST: usize = 3 * ROOM_MOST;

// What a record is.
#[derive(Clone, Copy)]
pub enum Kind {
    Value,
    Trigger,
}

impl Kind {
    // The kind that a record's first byte names, if it names one.
    #[tactic(auto, unfolding(crate::specs::Kinds::size_of_kind_of))]
    pub fn of(byte: u8) -> Option<Kind>
        ensures { MatchOption result (size_of_kind_of byte ≡ 0) (λ k. byte ≡ byte_of k) }
    {
        match byte {
            KIND_VALUE => Some(Kind::Value),
            KIND_TRIGGER => Some(Kind::Trigger),
            _ => None,
        }
    }

    // The bytes of its record.
    #[tactic(auto, unfolding(crate::specs::Kinds::size_of_kind_of))]
    pub fn size(self) -> usize
        ensures by_kind { result ≡ size_for self }
        ensures by_byte { result ≡ size_of_kind_of (byte_of self) }
    {
        match self {
            Kind::Value => VALUE_BYTES,
            Kind::Trigger => TRIGGER_BYTES,
        }
    }
}

// "Room: 10 bytes for each output and 6 for each trigger."
pub fn room_of(outputs: usize, triggers: usize) -> usize
    requires { (outputs ≤ most_streams) × (triggers ≤ most_streams) }
    ensures { result ≡ room_for outputs triggers }
{
    VALUE_BYTES * outputs + TRIGGER_BYTES * triggers
}

// Record 50: stream, position, value word.
pub fn put_value(out: &mut [u8], at: usize, stream: u8, position: u32, word: u32) -> usize
    requires { at + value_size_of ≤ length out.old }
    ensures { Wrote out.old at (value_record_of stream position word) out.new result }
{
    let a = wire::put_byte(out, at, KIND_VALUE);
    let b = wire::put_byte(out, a, stream);
    let c = wire::put_word(out, b, position);
    wire::put_word(out, c, word)
}

// Record 51: stream, position.
pub fn put_trigger(out: &mut [u8], at: usize, stream: u8, position: u32) -> usize
    requires { at + trigger_size_of ≤ length out.old }
    ensures { Wrote out.old at (trigger_record_of stream position) out.new result }
{
    let a = wire::put_byte(out, at, KIND_TRIGGER);
    let b = wire::put_byte(out, a, stream);
    wire::put_word(out, b, position)
}

// The lines of the records in the first `count` bytes. What is no record, whole, ends them.
pub fn put_lines(records: &[u8], count: usize, out: &mut [u8], at: usize) -> usize
    requires { (count ≤ length records.now) × (at + 3 * count ≤ length out.old) }
    ensures { Wrote out.old at (lines_of (take count records.now)) out.new result }
{
    let mut left = &records[..count];
    let mut end = at;
    while let Some(kind) = first_record(left) {
        end = put_record_line(left, kind, out, end);
        left = &left[kind.size()..];
    }
    end
}

// The line of the record that the bytes start with, which is of the kind given.
fn put_record_line(bytes: &[u8], kind: Kind, out: &mut [u8], at: usize) -> usize
    requires { StartsWith kind bytes.now × (at + 3 * size_for kind ≤ length out.old) }
    ensures { Wrote out.old at (item_line (item_of bytes.now)) out.new result × (result ≤ at + 3 * size_for kind) }
{
    let stream = bytes[1];
    let position = wire::word_at(bytes, 2);
    match kind {
        Kind::Value => {
            let value = wire::word_at(bytes, 6);
            lines::put_value_line(out, at, stream, position, value)
        }
        Kind::Trigger => lines::put_trigger_line(out, at, stream, position),
    }
}

// The kind of the record that the bytes start with, if they start with one, whole.
fn first_record(bytes: &[u8]) -> Option<Kind>
    ensures { MatchOption result (record_size_of bytes.now ≡ 0) (λ k. StartsWith k bytes.now) }
{
    let kind = Kind::of(*bytes.first()?)?;
    if kind.size() <= bytes.len() {
        Some(kind)
    } else {
        None
    }
}
