// One report packet read: document 01, "The packet". Every call judges the whole packet first, then answers
// from its list of blocks.
#![tactic(auto)]

ghost use Rattle.std.specs.Prelude.{◌≡◌, ◌+◌};
ghost use Rattle.block.specs.Reading.{read_bytes, measures_of};
ghost use Rattle.frame.specs.Packet.{packet_of};
ghost use Rattle.packet.specs.Blocks.{names, measured, read_among};
ghost use Rattle.packet.specs.Answers.{head_of, block_of, body_of, body_start, part_of};
ghost use Rattle.packet.specs.Steps.{blocks_of, WholeBlocks};

use block::{BlockRead, Reason};
use frame::{Extent, Located};
use refusal::Refusal;

// What a packet says of itself: its sender and the number of its blocks.
#[derive(Clone, Copy, Debug, PartialEq, Eq)]
pub struct PacketHead {
    pub sender: u32,
    pub blocks: usize,
}

// A block that was asked for: its type and what it is.
#[derive(Clone, Copy)]
pub struct BlockAt {
    pub kind: u8,
    pub read: BlockRead,
}

// Where a part of a packet lies.
// C: nuvaskoe_part
#[repr(C)]
#[derive(Clone, Copy)]
pub struct Part {
    pub start: usize, // the offset of its first byte
    pub length: usize,
}

// The sender and the number of blocks.
pub fn head(packet: &[u8]) -> Result<PacketHead, Refusal>
    ensures { result ≡ head_of (packet_of packet.now) }
{
    let located = frame::locate(packet, Extent::Whole, 0)?;
    Ok(PacketHead {
        sender: located.sender,
        blocks: located.count,
    })
}

// Block number index, from 0. Its body is handed to the reader of its type as a part of the packet.
pub fn block(packet: &[u8], index: usize) -> Result<BlockAt, Refusal>
    ensures { result ≡ block_of (packet_of packet.now) index }
{
    let located = frame::locate(packet, Extent::Whole, index)?;
    let at = located.at.ok_or(Refusal::NoSuchBlock)?;
    let bytes = frame::block_at(packet, at);
    Ok(BlockAt {
        kind: bytes[0],
        read: judge(packet, block::read_bytes(bytes)),
    })
}

// Where the body of block number index lies: the words after its first. 0 and 0 where asking for the block is
// refused.
pub fn body_part(packet: &[u8], index: usize) -> Part
    ensures { result ≡ part_of (packet_of packet.now) index }
{
    let Ok(Located { at: Some(at), .. }) = frame::locate(packet, Extent::Whole, index) else {
        return Part {
            start: 0,
            length: 0,
        };
    };
    let bytes = frame::block_at(packet, at);
    Part {
        start: at + 4,
        length: bytes.len() - 4,
    }
}

// The body of block number index, as the very part of the packet; empty where asking for the block is refused.
pub fn body(packet: &[u8], index: usize) -> &[u8]
    ensures part { result.now ≡ body_of (packet_of packet.now) index }
    ensures place { (result.ref_ptr.0 ≡ packet.entry.ref_ptr.0) × (result.ref_ptr.1 ≡ packet.entry.ref_ptr.1 + body_start (packet_of packet.now) index) }
{
    let part = body_part(packet, index);
    let start = part.start;
    let end = start + part.length;
    &packet[start..end]
}

// A block that was read by itself, judged among the blocks of its packet: D4.
fn judge(s: &[u8], own: BlockRead) -> BlockRead
    requires { WholeBlocks s.now }
    ensures { result ≡ read_among (blocks_of s.now) own }
{
    if let BlockRead::Typed(b) = own
        && let Some(source) = block::needed_by(b)
        && !has_measurement(s, source)
    {
        return BlockRead::Dropped(Reason::Unmeasured);
    }
    own
}

// Whether a well-sized measurement block for this source stands anywhere in the packet.
fn has_measurement(s: &[u8], source: u32) -> bool
    requires { WholeBlocks s.now }
    ensures { result ≡ measured source (blocks_of s.now) }
{
    frame::blocks_from(s, frame::FIRST_BLOCK).any(|bytes| measures(bytes, source))
}

// Whether these are the bytes of a well-sized measurement block for this source.
fn measures(bytes: &[u8], source: u32) -> bool
    ensures { result ≡ names (measures_of (read_bytes bytes.now)) source }
{
    block::measured_by(bytes).is_some_and(|measured| measured == source)
}
