// Report packets read at the boundary to C.
#![tactic(auto)]

ghost use Rattle.std.specs.Prelude.{◌≡◌};
ghost use Rattle.refusal.specs.Answer.{after};
ghost use Rattle.frame.specs.Packet.{packet_of};
ghost use Rattle.packet.specs.Answers.{head_of, block_of, part_of};
ghost use Rattle.survey.specs.Survey.{list_of, list_answer};
ghost use Rattle.compare.specs.Answer.{compare_answer, list_after};
ghost use Rattle.ffi_answer.specs.Answers.{written_out};
ghost use Rattle.ffi_block.specs.Answers.{block_out};
ghost use Rattle.ffi_packet.specs.Answers.{packet_out, compared_out};

use ffi_answer::{NONE, RefusalFields, WrittenSize};
use ffi_block::BlockFields;
use packet::{PacketHead, Part};
use refusal::Refusal;

// What a packet says of itself.
// C: nuvaskoe_packet
#[repr(C)]
#[derive(Clone, Copy)]
pub struct Packet {
    pub refusal: RefusalFields,
    pub sender: u32, // 0 where refused
    pub blocks: usize, // how many blocks it has; 0 where refused
}

// The answer of comparing two packets.
// C: nuvaskoe_compared
#[repr(C)]
#[derive(Clone, Copy)]
pub struct Comparison {
    pub refusal: RefusalFields,
    pub differences: usize, // how many there are, of five numbers each; 0 where refused
}

impl From<Result<PacketHead, Refusal>> for Packet {
    ghost from_gives = { λ head packet. packet ≡ packet_out head };

    fn from(head: Result<PacketHead, Refusal>) -> Packet {
        match head {
            Ok(head) => Packet {
                refusal: NONE,
                sender: head.sender,
                blocks: head.blocks,
            },
            Err(why) => Packet {
                refusal: why.into(),
                sender: 0,
                blocks: 0,
            },
        }
    }
}

impl From<Result<usize, Refusal>> for Comparison {
    ghost from_gives = { λ compared comparison. comparison ≡ compared_out compared };

    fn from(compared: Result<usize, Refusal>) -> Comparison {
        match compared {
            Ok(differences) => Comparison {
                refusal: NONE,
                differences,
            },
            Err(why) => Comparison {
                refusal: why.into(),
                differences: 0,
            },
        }
    }
}

// The sender and the number of blocks.
#[unsafe(no_mangle)]
pub extern "C" fn nuvaskoe_packet_read(packet: &[u8]) -> Packet
    ensures { result ≡ packet_out (head_of (packet_of packet.now)) }
{
    packet::head(packet).into()
}

// Block number index, from 0. Further refusal: 7, no block with that index.
#[unsafe(no_mangle)]
pub extern "C" fn nuvaskoe_packet_block(packet: &[u8], index: usize) -> BlockFields
    ensures { result ≡ block_out (block_of (packet_of packet.now) index) }
{
    packet::block(packet, index).into()
}

// Where the body of block number index lies in the packet: the words after the block's first. Start 0 and length 0
// where nuvaskoe_packet_block refuses.
#[unsafe(no_mangle)]
pub extern "C" fn nuvaskoe_packet_body(packet: &[u8], index: usize) -> Part
    ensures { result ≡ part_of (packet_of packet.now) index }
{
    packet::body_part(packet, index)
}

// All blocks in one call: for each block two entries of out, its offset in the packet and its verdict; the entries
// after them keep what they held. out_len counts entries, not bytes. Further refusal: 8, fewer than two entries for
// each block.
#[unsafe(no_mangle)]
pub extern "C" fn nuvaskoe_packet_list(packet: &[u8], out: &mut [u32]) -> WrittenSize
    ensures answer { result ≡ written_out (list_answer (packet_of packet.now) out.old) }
    ensures buffer { out.new ≡ after (list_answer (packet_of packet.now) out.old) (list_of (packet_of packet.now)) out.old }
{
    survey::list(packet, out).into()
}

// Every differing field of two packets, their blocks paired by index: for each difference five numbers of out, its kind, the
// block's index, the field's number, and the reading of each packet; those that a kind does not use are 0. The sender comes
// first, then block by block, in a block the fields in layout order from 0, the interval flag first. Reserved bits are left
// out, and so are the packets that a block 241 covers: its fields after end have numbers one lower than their places above.
// The answer counts differences; the numbers after the last keep what they held. out_len counts numbers: five for every
// difference, and 5 * (3 * longer / 8) are always enough, longer being the bytes of the longer packet. Refusals: 1 to 6 of the
// first packet, then 1 to 6 of the second, then 8, fewer than five numbers for each difference. The refusal does not say whose it
// is: it is the first packet's exactly where nuvaskoe_packet_read refuses the first. Takes about 64 KiB of the stack where a
// packet has over 2,048 bytes.
#[unsafe(no_mangle)]
pub extern "C" fn nuvaskoe_packet_compare(
    first: &[u8],
    second: &[u8],
    out: &mut [u32],
) -> Comparison
    ensures answer { result ≡ compared_out (compare_answer (packet_of first.now) (packet_of second.now) out.old) }
    ensures list { out.new ≡ list_after (packet_of first.now) (packet_of second.now) out.old }
{
    compare::packets(first, second, out).into()
}
