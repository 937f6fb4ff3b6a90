// Per-packet loss at the boundary to C: a trace read out of a block of type 1, Loss RLE, and a trace added to a packet as one.
#![tactic(auto)]

ghost use Rattle.std.specs.Prelude.{◌≡◌};
ghost use Rattle.refusal.specs.Answer.{after};
ghost use Rattle.frame.specs.Packet.{packet_of};
ghost use Rattle.compose.specs.Writing.{grown};
ghost use Rattle.runs.specs.Writing.{rle_words, add_answer};
ghost use Rattle.runs.specs.Answers.{trace_answer, trace_at};
ghost use Rattle.ffi_answer.specs.Answers.{written_out};

use ffi_answer::WrittenSize;

// Reads the trace of block number index, a good block of type 1, into the front of out: a byte a packet, 0 received and 1 lost.
// A good read answers how many packets it has, those of the block's interval; the bytes after them keep what they held.
// Refusals: 1 to 7, 7 too where that block is not a good one of type 1, then 8.
#[unsafe(no_mangle)]
pub extern "C" fn nuvaskoe_packet_rle(packet: &[u8], index: usize, out: &mut [u8]) -> WrittenSize
    ensures answer { result ≡ written_out (trace_answer (packet_of packet.now) index out.old) }
    ensures buffer { out.new ≡ after (trace_answer (packet_of packet.now) index out.old) (trace_at (packet_of packet.now) index) out.old }
{
    runs::read_out(packet, index, out).into()
}

// Adds a trace of received and lost packets as a block of type 1 to the packet at the front of out: begin is the sequence number
// of its first packet, and the block's end is begin plus the packets, modulo 65,536. A good add answers the packet's new size
// in bytes, as adding any block does. Refusals, after the packet's own: 10 for a trace empty or over 65,533, 9 for a byte other
// than 0 and 1, 17, 8.
#[unsafe(no_mangle)]
pub extern "C" fn nuvaskoe_packet_add_rle(
    out: &mut [u8],
    source: u32,
    begin: u16,
    trace: &[u8],
) -> WrittenSize
    ensures answer { result ≡ written_out (add_answer out.old source begin trace.now) }
    ensures buffer { out.new ≡ after (add_answer out.old source begin trace.now) (grown out.old (rle_words source begin trace.now)) out.old }
{
    runs::add(out, source, begin, trace).into()
}
