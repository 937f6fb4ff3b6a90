// Per-packet loss as a block of type 1, Loss RLE: document 02, ticket 5. A trace read out of such a block of a packet, and a trace
// added to a packet as one.
#![tactic(auto)]

ghost use Rattle.std.specs.Prelude.{◌≡◌, ◌+◌, ◌*◌, ◌≤◌, length, drop};
ghost use Rattle.refusal.specs.Answer.{after};
ghost use Rattle.wire.specs.BigEndian.{placed};
ghost use Rattle.block.specs.Layouts.{trace_of};
ghost use Rattle.block.specs.Reading.{read_bytes};
ghost use Rattle.encode.specs.Words.{in_bytes};
ghost use Rattle.frame.specs.Packet.{packet_of};
ghost use Rattle.compose.specs.Writing.{grown};
ghost use Rattle.trace.specs.Trace.{lost};
ghost use Rattle.trace.specs.Laws.{IsWithin};
ghost use Rattle.block.specs.Types.{interval_max};
ghost use Rattle.runs.specs.Writing.{chunk_from, words_from, word_count, rle_words, add_answer};
ghost use Rattle.runs.specs.Packets.{Bits, Few, four_from};
ghost use Rattle.runs.specs.Answers.{trace_read, trace_answer, trace_at};

use block::BlockRead;
use frame::Extent;
use refusal::Refusal;
use std::num::wrapping_add_u16;

// Two chunks a word.
const WORD_PACKETS: usize = 2 * chunk::VECTOR_BITS;

// The words before the chunks: the block's first, its source, begin and end.
const HEAD_WORDS: usize = 3;

// 01 00 00 00: type 1, no thinning, and a block length of 0.
const FIRST_WORD: u32 = 16_777_216;

// A trace in which each packet is received or lost, so that its byte is a bit.
#[derive(Clone, Copy)]
struct Losses<'a> {
    trace: &'a [u8],
    ghost bits: { Bits trace.now },
}

// The trace of block number index, a byte a packet, 0 received and 1 lost, into the front of out: answers how many packets
// it has.
pub fn read_out(packet: &[u8], index: usize, out: &mut [u8]) -> Result<usize, Refusal>
    ensures answer { result ≡ trace_answer (packet_of packet.now) index out.old }
    ensures buffer { out.new ≡ after (trace_answer (packet_of packet.now) index out.old) (trace_at (packet_of packet.now) index) out.old }
{
    let located = frame::locate(packet, Extent::Whole, index)?;
    let at = located.at.ok_or(Refusal::NoSuchBlock)?;
    read_out_block(frame::block_at(packet, at), out)
}

// The same of a block by its own bytes. Only a good type 1 has a trace.
fn read_out_block(bytes: &[u8], out: &mut [u8]) -> Result<usize, Refusal>
    ensures answer { result ≡ trace_read (read_bytes bytes.now) out.old }
    ensures buffer { out.new ≡ after (trace_read (read_bytes bytes.now) out.old) (trace_of (drop 4 bytes.now)) out.old }
{
    let BlockRead::Rle(r) = block::read_bytes(bytes) else {
        return Err(Refusal::NoSuchBlock);
    };
    let packets = block::packets_covered(r.begin, r.end) as usize;
    if out.len() < packets {
        return Err(Refusal::BufferShort);
    }
    unroll::read_out(&bytes[4 + block::RLE_HEAD..], packets, out);
    Ok(packets)
}

// Adds a trace as a block of type 1 to the packet at the front of out, and answers the packet's new size in bytes.
pub fn add(out: &mut [u8], source: u32, begin: u16, trace: &[u8]) -> Result<usize, Refusal>
    ensures answer { result ≡ add_answer out.old source begin trace.now }
    ensures buffer { out.new ≡ after (add_answer out.old source begin trace.now) (grown out.old (rle_words source begin trace.now)) out.old }
{
    let own = trace::judge_within(trace, block::INTERVAL_MAX as usize, trace::LOST);
    let count = HEAD_WORDS + word_count(trace.len());
    let size = compose::judge_append(out, own, count)?;
    write(out, size - 4 * count, source, begin, trace);
    wire::put_u16(out, 2, (size / 4 - 1) as u16);
    Ok(size)
}

// Writes the block, whose first byte then stands at offset at.
fn write(out: &mut [u8], at: usize, source: u32, begin: u16, trace: &[u8])
    requires { (at + 4 * length (rle_words source begin trace.now) ≤ length out.old) × IsWithin interval_max lost trace.now }
    ensures { out.new ≡ placed out.old at (in_bytes (rle_words source begin trace.now)) }
{
    let end = wrapping_add_u16(begin, trace.len() as u16);
    let words = word_count(trace.len());
    wire::put_u32(out, at, FIRST_WORD + (2 + words) as u32);
    wire::put_u32(out, at + 4, source);
    wire::put_u32(out, at + 8, encode::halves(begin, end));
    Losses { trace }.write_chunks(out, at + 12, words);
}

// The words of chunks that so many packets take.
fn word_count(packets: usize) -> usize
    ensures { result ≡ word_count packets }
{
    packets.div_ceil(WORD_PACKETS)
}

impl Losses<'_> {
    // Writes so many words of chunks.
    fn write_chunks(self, out: &mut [u8], at: usize, words: usize)
        requires { (at + 4 * words ≤ length out.old) × (words ≤ 65535) }
        ensures { out.new ≡ placed out.old at (in_bytes (words_from words self.entry.trace.now)) }
    {
        for i in 0..words {
            let first = WORD_PACKETS * i;
            let word = encode::halves(
                self.chunk_at(first),
                self.chunk_at(first + chunk::VECTOR_BITS),
            );
            wire::put_u32(out, at + 4 * i, word);
        }
    }

    // The vector of the packets from one on, a null chunk where there are none.
    fn chunk_at(self, first: usize) -> u16
        ensures { result ≡ chunk_from (drop first self.entry.trace.now) }
    {
        let packets = self.trace.len();
        if packets <= first {
            return 0;
        }
        if packets - first < chunk::VECTOR_BITS {
            return self.vector(first, packets - first);
        }
        self.whole_vector(first)
    }

    // The vector of fifteen packets from one on: all ones, less a bit for each lost packet. By fours, which do not wait for each other.
    fn whole_vector(self, first: usize) -> u16
        requires { first + 15 ≤ length self.trace.now }
        ensures { result ≡ chunk_from (drop first self.entry.trace.now) }
    {
        let a = self.four(first);
        let b = self.four(first + 4);
        let c = self.four(first + 7);
        let d = self.four(first + 11);
        65_535 - (a * 2_048 + b / 2 * 256 + c * 16 + d)
    }

    // Four packets as bits, the first at the top: 1 for lost.
    fn four(self, i: usize) -> u16
        requires { i + 4 ≤ length self.trace.now }
        ensures { result ≡ four_from self.entry.trace.now i }
    {
        let high = self.trace[i] as u16 * 2 + self.trace[i + 1] as u16;
        let low = self.trace[i + 2] as u16 * 2 + self.trace[i + 3] as u16;
        high * 4 + low
    }

    // The last vector, of n packets from one on: its type is a 1 before the bits, and those behind the last packet are zero.
    fn vector(self, first: usize, n: usize) -> u16
        requires { Few self.trace.now first n }
        ensures { result ≡ chunk_from (drop first self.entry.trace.now) }
    {
        let mut bits = 1;
        for j in 0..n {
            bits = 2 * bits + (1 - self.trace[first + j]) as u16;
        }
        bits << (chunk::VECTOR_BITS - n)
    }
}
