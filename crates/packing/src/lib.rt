// A trace packed into words by what is chosen to count, and words unpacked into a trace of zeros and ones: document 02, tickets 6
// and 7. Both go eight packets at a time, and one by one behind the last whole word.
#![tactic(auto)]

ghost use Rattle.std.specs.Prelude.{◌≡◌, ◌++◌, ◌+◌, ◌*◌, ◌<◌, ◌≤◌, length, drop};
ghost use Rattle.refusal.specs.Answer.{after};
ghost use Rattle.trace.specs.Trace.{counted_at};
ghost use Rattle.wire.specs.BigEndian.{placed};
ghost use Rattle.packed.specs.Words.{word_bits, one_at, one_in, words_for, number_of, bytes_of};
ghost use Rattle.packing.specs.Packing.{words_of, pack_answer, unpack_answer};
ghost use Rattle.packing.specs.Steps.{Packets, joined, brought, lowest, spread, ones, Gathered};

use packed::WORD;
use refusal::Refusal;
use trace::Event;

// Packs a trace into the front of out, a one for each packet that the event counts; answers how many words it takes.
pub fn pack(trace: &[u8], event: Event, out: &mut [u64]) -> Result<usize, Refusal>
    ensures answer { result ≡ pack_answer trace.now out.old }
    ensures buffer { out.new ≡ after (pack_answer trace.now out.old) (words_of (counted_at event trace.now) (length trace.now)) out.old }
{
    trace::judge(trace)?;
    let n = packed::words_for(trace.len());
    if out.len() < n {
        return Err(Refusal::BufferShort);
    }
    let chosen = Chosen { event, trace };
    chosen.put_words(out);
    Ok(n)
}

// An accepted trace, and the event whose packets are chosen to count.
#[derive(Clone, Copy)]
struct Chosen<'a> {
    event: Event,
    trace: &'a [u8],
    ghost packets: { Packets trace.now },
}

impl Chosen<'_> {
    // Packs it into the front of out, which has room for its words.
    fn put_words(&self, out: &mut [u64])
        requires { words_for (length self.now.trace.now) ≤ length out.old }
        ensures { out.new ≡ words_of (counted_at self.now.event self.now.trace.now) (length self.now.trace.now) ++ drop (words_for (length self.now.trace.now)) out.old }
    {
        let whole = self.trace.len() / WORD;
        for k in 0..whole {
            out[k] = self.word(WORD * k);
        }
        if self.trace.len() % WORD == 0 {
            return;
        }
        out[whole] = self.last_word(WORD * whole);
    }

    // The word of the 64 packets from packet i on.
    fn word(&self, i: usize) -> u64
        requires { i + word_bits ≤ length self.now.trace.now }
        ensures { result ≡ number_of (counted_at self.now.event self.now.trace.now) i word_bits }
    {
        let mut word = 0;
        for j in 0..8 {
            word += self.octet(i + 8 * j) << (8 * j);
        }
        word
    }

    // The last word, of fewer packets, from packet i on; its bits past the end are zero.
    fn last_word(&self, i: usize) -> u64
        requires { (i ≤ length self.now.trace.now) × (length self.now.trace.now ≤ i + word_bits) }
        ensures { result ≡ number_of (counted_at self.now.event self.now.trace.now) i word_bits }
    {
        let mut word = 0;
        for j in 0..self.trace.len() - i {
            word += (trace::counted(self.event, self.trace[i + j]) as u64) << j;
        }
        word
    }

    // Eight packets from packet i on as eight bits.
    fn octet(&self, i: usize) -> u64
        requires { i + 8 ≤ length self.now.trace.now }
        ensures { result ≡ number_of (counted_at self.now.event self.now.trace.now) i 8 }
    {
        gathered(flags(self.event, self.loaded(i)))
    }

    // Eight packets as one number, the first in its lowest byte. The part of the trace has just these, so that no length is tested here.
    fn loaded(&self, i: usize) -> u64
        requires { i + 8 ≤ length self.now.trace.now }
        ensures { result ≡ joined self.now.trace.now i 8 }
    {
        u64::from_le_bytes(*self.trace[i..i + 8].first_chunk().unwrap())
    }
}

// Eight packets with 1 for each that the event counts, and 0 for any other.
fn flags(event: Event, eight: u64) -> u64
    requires { eight ≤ 2 * ones }
    ensures { result ≡ lowest 8 (brought event eight) }
{
    match event {
        Event::Lost => eight & ONES,
        Event::Discarded => eight / 2 & ONES,
        Event::Either => (eight + eight / 2) & ONES,
    }
}

// Eight bits out of eight bytes of 0 or 1. Each step brings the upper of two neighbours to the lower: pairs of bits, fours of
// bits, then all eight in the lowest byte.
fn gathered(eight: u64) -> u64
    requires { eight ≤ ones }
    ensures { Gathered eight result }
{
    let pairs = eight + eight / 128;
    let fours = pairs + pairs / 16_384;
    (fours + fours / 268_435_456) % 256
}

// Unpacks words into the front of out, 1 for each one and 0 for each zero; answers how many packets these are.
pub fn unpack(words: &[u64], packets: usize, out: &mut [u8]) -> Result<usize, Refusal>
    ensures answer { result ≡ unpack_answer words.now packets out.old }
    ensures buffer { out.new ≡ after (unpack_answer words.now packets out.old) (bytes_of (one_in words.now) 0 packets) out.old }
{
    packed::judge(words, packets)?;
    if out.len() < packets {
        return Err(Refusal::BufferShort);
    }
    put_packets(words, packets, out);
    Ok(packets)
}

// Unpacks so many packets into the front of out, which has room for them.
fn put_packets(words: &[u64], packets: usize, out: &mut [u8])
    requires { (words_for packets ≤ length words.now) × (packets ≤ length out.old) }
    ensures { out.new ≡ bytes_of (one_in words.now) 0 packets ++ drop packets out.old }
{
    let whole = packets / WORD;
    for k in 0..whole {
        put_word(out, WORD * k, words[k]);
    }
    if packets % WORD == 0 {
        return;
    }
    put_bits(out, WORD * whole, packets % WORD, words[whole]);
}

// The 64 packets of a word, from at on.
fn put_word(out: &mut [u8], at: usize, word: u64)
    requires { at + word_bits ≤ length out.old }
    ensures { out.new ≡ placed out.old at (bytes_of (one_at word) 0 word_bits) }
{
    for j in 0..8 {
        put_eight(out, at + 8 * j, (word >> (8 * j)) % 256);
    }
}

// The first n packets of a word, one by one.
fn put_bits(out: &mut [u8], at: usize, n: usize, word: u64)
    requires { (at + n ≤ length out.old) × (n ≤ word_bits) }
    ensures { out.new ≡ placed out.old at (bytes_of (one_at word) 0 n) }
{
    for j in 0..n {
        out[at + j] = ((word >> j) % 2) as u8;
    }
}

// The packets of eight bits, as the bytes of one number in order, which the compiler stores at once.
fn put_eight(out: &mut [u8], at: usize, bits: u64)
    requires { (at + 8 ≤ length out.old) × (bits < 256) }
    ensures { out.new ≡ placed out.old at (bytes_of (one_at bits) 0 8) }
{
    out[at..at + 8].copy_from_slice(&spread(bits).to_le_bytes());
}

// A number times this is seven copies of it, seven places apart.
const SEVEN_COPIES: u64 = 0x0002_0408_1020_4081;

// A one in each byte.
const ONES: u64 = 0x0101_0101_0101_0101;

// Eight bits as eight bytes of 0 or 1 in one number, the lowest in its lowest byte. Copies of seven bits, seven places apart, do
// not meet, and bring bit j to the lowest place of byte j; the eighth bit is put beside them. The zeros are spread and taken
// from all ones, since the compiler takes a plain sum apart and stores byte by byte.
fn spread(bits: u64) -> u64
    requires { bits < 256 }
    ensures { result ≡ spread 8 bits }
{
    let zeros = 255 - bits;
    ONES - ((zeros % 128 * SEVEN_COPIES & ONES) + zeros / 128 * 72_057_594_037_927_936)
}
