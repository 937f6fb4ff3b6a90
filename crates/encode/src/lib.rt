// A typed block as bytes: document 01, "Writing". Every kind is a row of 32-bit words, the rows of the diagrams
// in crate block, so a block is made as words and one loop stores them. Reserved bits are zero.
#![tactic(auto)]

ghost use Rattle.std.specs.Prelude.{◌≡◌, ◌≤◌, length};
ghost use Rattle.wire.specs.BigEndian.{placed};
ghost use Rattle.block.specs.declared.Block.TheVariants.{Measured, Loss, Discard, Effective, Streams};
ghost use Rattle.encode.specs.Words.{halves, first_word, words_of, held, in_bytes, bytes_of, writable};

use block::{Block, DiscardSummary, EffectiveSummary, LossSummary, Measurement, StreamCounts};

// The words of a block, its first word among them: as many as its kind has.
#[derive(Clone, Copy)]
pub enum BlockWords {
    Three([u32; 3]),
    Four([u32; 4]),
    Eight([u32; 8]),
    Twelve([u32; 12]),
}

impl BlockWords {
    // The words themselves.
    pub fn as_slice(&self) -> &[u32]
        ensures { result.now ≡ held self.now }
    {
        match self {
            BlockWords::Three(words) => words,
            BlockWords::Four(words) => words,
            BlockWords::Eight(words) => words,
            BlockWords::Twelve(words) => words,
        }
    }
}

// Whether a block may be written: a 17 or 18 that reading would drop may not.
pub fn writable(b: Block) -> bool
    ensures { result ≡ writable b }
{
    match b {
        Block::Measured(_) => true,
        Block::Loss(l) => block::summary_good(l.flag, l.burst_rate, l.gap_rate),
        Block::Discard(d) => block::summary_good(d.flag, d.burst_rate, d.gap_rate),
        Block::Effective(_) => true,
        Block::Streams(_) => true,
    }
}

// Writes a block whose first byte then stands at offset at. Nothing is written where it does not fit.
#[tactic(auto, unfolding(crate::specs::Words::bytes_of))]
pub fn write(out: &mut [u8], at: usize, b: Block)
    ensures { out.new ≡ placed out.old at (bytes_of b) }
{
    let made = words(b);
    write_words(out, at, made.as_slice());
}

// Writes words one behind the other, where all of them fit.
fn write_words(out: &mut [u8], at: usize, words: &[u32])
    requires { length words.now ≤ 12 }
    ensures { out.new ≡ placed out.old at (in_bytes words.now) }
{
    let size = 4 * words.len();
    if out.len() < size || out.len() - size < at {
        return;
    }
    for (i, word) in words.iter().enumerate() {
        wire::put_u32(out, at + 4 * i, *word);
    }
}

// The words of a block.
pub fn words(b: Block) -> BlockWords
    ensures { held result ≡ words_of b }
{
    match b {
        Block::Measured(m) => BlockWords::Eight(measurement_words(m)),
        Block::Loss(l) => BlockWords::Four(loss_words(l)),
        Block::Discard(d) => BlockWords::Three(discard_words(d)),
        Block::Effective(e) => BlockWords::Three(effective_words(e)),
        Block::Streams(t) => BlockWords::Twelve(stream_words(t)),
    }
}

fn measurement_words(m: Measurement) -> [u32; 8]
    ensures { result ≡ words_of (Measured m) }
{
    [
        first_word(block::MEASUREMENT, 0, block::MEASUREMENT_WORDS),
        m.source,
        halves(0, m.first),
        m.extended_first,
        m.extended_last,
        m.interval,
        m.seconds,
        m.fraction,
    ]
}

fn loss_words(l: LossSummary) -> [u32; 4]
    ensures { result ≡ words_of (Loss l) }
{
    [
        first_word(block::LOSS, l.flag % 4 * 64, block::LOSS_WORDS),
        l.source,
        halves(l.burst_rate, l.gap_rate),
        halves(l.burst_mean, l.burst_variance),
    ]
}

fn discard_words(d: DiscardSummary) -> [u32; 3]
    ensures { result ≡ words_of (Discard d) }
{
    [
        first_word(block::DISCARD, d.flag % 4 * 64, block::DISCARD_WORDS),
        d.source,
        halves(d.burst_rate, d.gap_rate),
    ]
}

fn effective_words(e: EffectiveSummary) -> [u32; 3]
    ensures { result ≡ words_of (Effective e) }
{
    [
        first_word(block::EFFECTIVE, 0, block::EFFECTIVE_WORDS),
        e.source,
        halves(e.index, 0),
    ]
}

fn stream_words(t: StreamCounts) -> [u32; 12]
    ensures { result ≡ words_of (Streams t) }
{
    [
        first_word(block::STREAMS, 0, block::STREAMS_WORDS),
        t.source,
        halves(t.begin, t.end),
        t.streams,
        t.sync_losses,
        t.sync_byte_errors,
        t.continuity_errors,
        t.transport_errors,
        t.pcr_errors,
        t.pcr_repetition_errors,
        t.pcr_discontinuity_errors,
        t.pts_errors,
    ]
}

// A block's first word: its type, type-specific byte and block length.
fn first_word(kind: u8, specific: u8, length: u16) -> u32
    ensures { result ≡ first_word kind specific length }
{
    halves(kind as u16 * 256 + specific as u16, length)
}

// Two 16-bit numbers side by side, as a word.
pub fn halves(high: u16, low: u16) -> u32
    ensures { result ≡ halves high low }
{
    high as u32 * 65_536 + low as u32
}
