// The exported calls of crate ffi_runs.
// Made by tools/boundary.py from the Rattle source; not edited by hand.
ghost use Rattle.std.specs.Prelude.{◌≡◌};
ghost use Rattle.refusal.specs.Answer.{after};
ghost use Rattle.frame.specs.Packet.{packet_of};
ghost use Rattle.compose.specs.Writing.{grown};
ghost use Rattle.runs.specs.Writing.{rle_words, add_answer};
ghost use Rattle.runs.specs.Answers.{trace_answer, trace_at};
ghost use Rattle.ffi_answer.specs.Answers.{written_out};

use ffi_answer::WrittenSize;

// As ffi_runs::nuvaskoe_packet_rle.
#[unsafe(no_mangle)]
pub extern "C" fn nuvaskoe_packet_rle(packet: &[u8], index: usize, out: &mut [u8]) -> WrittenSize
    ensures answer { result ≡ written_out (trace_answer (packet_of packet.now) index out.old) }
    ensures buffer { out.new ≡ after (trace_answer (packet_of packet.now) index out.old) (trace_at (packet_of packet.now) index) out.old }
{
    ffi_runs::nuvaskoe_packet_rle(packet, index, out)
}

// As ffi_runs::nuvaskoe_packet_add_rle.
#[unsafe(no_mangle)]
pub extern "C" fn nuvaskoe_packet_add_rle(
    out: &mut [u8],
    source: u32,
    begin: u16,
    trace: &[u8],
) -> WrittenSize
    ensures answer { result ≡ written_out (add_answer out.old source begin trace.now) }
    ensures buffer { out.new ≡ after (add_answer out.old source begin trace.now) (grown out.old (rle_words source begin trace.now)) out.old }
{
    ffi_runs::nuvaskoe_packet_add_rle(out, source, begin, trace)
}
