// The exported calls of crate ffi_packet.
// Made by tools/boundary.py from the Rattle source; not edited by hand.
ghost use Rattle.std.specs.Prelude.{◌≡◌};
ghost use Rattle.refusal.specs.Answer.{after};
ghost use Rattle.frame.specs.Packet.{packet_of};
ghost use Rattle.packet.specs.Answers.{head_of, block_of, part_of};
ghost use Rattle.survey.specs.Survey.{list_of, list_answer};
ghost use Rattle.compare.specs.Answer.{compare_answer, list_after};
ghost use Rattle.ffi_answer.specs.Answers.{written_out};
ghost use Rattle.ffi_block.specs.Answers.{block_out};
ghost use Rattle.ffi_packet.specs.Answers.{packet_out, compared_out};

use ffi_answer::WrittenSize;
use ffi_block::BlockFields;
use ffi_packet::{Comparison, Packet};
use packet::Part;

// As ffi_packet::nuvaskoe_packet_read.
#[unsafe(no_mangle)]
pub extern "C" fn nuvaskoe_packet_read(packet: &[u8]) -> Packet
    ensures { result ≡ packet_out (head_of (packet_of packet.now)) }
{
    ffi_packet::nuvaskoe_packet_read(packet)
}

// As ffi_packet::nuvaskoe_packet_block.
#[unsafe(no_mangle)]
pub extern "C" fn nuvaskoe_packet_block(packet: &[u8], index: usize) -> BlockFields
    ensures { result ≡ block_out (block_of (packet_of packet.now) index) }
{
    ffi_packet::nuvaskoe_packet_block(packet, index)
}

// As ffi_packet::nuvaskoe_packet_body.
#[unsafe(no_mangle)]
pub extern "C" fn nuvaskoe_packet_body(packet: &[u8], index: usize) -> Part
    ensures { result ≡ part_of (packet_of packet.now) index }
{
    ffi_packet::nuvaskoe_packet_body(packet, index)
}

// As ffi_packet::nuvaskoe_packet_list.
#[unsafe(no_mangle)]
pub extern "C" fn nuvaskoe_packet_list(packet: &[u8], out: &mut [u32]) -> WrittenSize
    ensures answer { result ≡ written_out (list_answer (packet_of packet.now) out.old) }
    ensures buffer { out.new ≡ after (list_answer (packet_of packet.now) out.old) (list_of (packet_of packet.now)) out.old }
{
    ffi_packet::nuvaskoe_packet_list(packet, out)
}

// As ffi_packet::nuvaskoe_packet_compare.
#[unsafe(no_mangle)]
pub extern "C" fn nuvaskoe_packet_compare(
    first: &[u8],
    second: &[u8],
    out: &mut [u32],
) -> Comparison
    ensures answer { result ≡ compared_out (compare_answer (packet_of first.now) (packet_of second.now) out.old) }
    ensures list { out.new ≡ list_after (packet_of first.now) (packet_of second.now) out.old }
{
    ffi_packet::nuvaskoe_packet_compare(first, second, out)
}
