// The one vocabulary of refusals: document 01, "When the set says no". A call that says no answers `Err` of a Refusal, a row of the
// table; no other crate knows a refusal's number. specs/Table.antt is the same table for the promises.
#![tactic(auto)]

ghost use Rattle.std.specs.Prelude.{◌≡◌, Some};
ghost use Rattle.refusal.specs.Table.{refusal_number, refusal_place};
ghost use Rattle.refusal.specs.Text.{refusal_text};

use std::fmt;

// Why a call said no: a row of the table of refusals, and where the row has one, the place.
#[derive(Clone, Copy, Debug, PartialEq, Eq)]
pub enum Refusal {
    PacketShort, // packet under 8 bytes
    Version, // version not 2
    PacketType, // byte 1 not 207
    PacketLength, // 4 × (length + 1) is not the slice's length; when adding, exceeds the buffer or is under 8
    Padding, // padding bit set
    BlockPastEnd(usize), // a block runs past the end; placed at the block's offset
    NoSuchBlock, // no block with that index
    BufferShort, // buffer shorter than the result needs
    TraceByte(usize), // trace byte above 2, or such a byte given to a tally; its index in a trace, the bit's in a packed one, 0 in a tally
    TraceLength, // trace empty or over 65,536; a tally at 65,536 given one more
    CardDigits, // card not 20 digits
    CardCheck, // card check not right
    CardField, // card field outside its range
    BatchLength, // batch longer than the trace
    Setting, // a setting outside its range, or a tally not sound
    BlockValue, // block 17 or 18 to write has a flag other than 1, 2 or 3, or a rate that reading would drop
    PacketFull, // packet length would pass 65,535
}

impl Refusal {
    // Its number in the table.
    pub fn number(self) -> u32
        ensures { result ≡ refusal_number self }
    {
        match self {
            Refusal::PacketShort => 1,
            Refusal::Version => 2,
            Refusal::PacketType => 3,
            Refusal::PacketLength => 4,
            Refusal::Padding => 5,
            Refusal::BlockPastEnd(_) => 6,
            Refusal::NoSuchBlock => 7,
            Refusal::BufferShort => 8,
            Refusal::TraceByte(_) => 9,
            Refusal::TraceLength => 10,
            Refusal::CardDigits => 11,
            Refusal::CardCheck => 12,
            Refusal::CardField => 13,
            Refusal::BatchLength => 14,
            Refusal::Setting => 15,
            Refusal::BlockValue => 16,
            Refusal::PacketFull => 17,
        }
    }

    // Its place: the block's offset for 6, the byte's index or the bit's for 9, 0 elsewhere.
    pub fn place(self) -> usize
        ensures { result ≡ refusal_place self }
    {
        match self {
            Refusal::BlockPastEnd(offset) => offset,
            Refusal::TraceByte(index) => index,
            _ => 0,
        }
    }
}

// Its number and its place in decimal, as the programs print a refusal.
impl fmt::Display for Refusal {
    ghost output = { λ r. Some (refusal_text r) };

    fn fmt<W: fmt::Write>(&self, f: &mut fmt::Formatter<W>) -> fmt::Result {
        write!(f, "refused {} at {}", self.number(), self.place())
    }
}
