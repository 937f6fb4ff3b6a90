// The framing of a packet: its first eight bytes, and the walk over its blocks. RFC 3611, sections 2 and 3.
//
//   0                   1                   2                   3
//   0 1 2 3 4 5 6 7 8 9 0 1 2 3 4 5 6 7 8 9 0 1 2 3 4 5 6 7 8 9 0 1
//  +-+-+-+-+-+-+-+-+-+-+-+-+-+-+-+-+-+-+-+-+-+-+-+-+-+-+-+-+-+-+-+-+
//  |V=2|P|reserved |   PT=XR=207   |             length            |
//  +-+-+-+-+-+-+-+-+-+-+-+-+-+-+-+-+-+-+-+-+-+-+-+-+-+-+-+-+-+-+-+-+
//  |                              SSRC                             |
//  +-+-+-+-+-+-+-+-+-+-+-+-+-+-+-+-+-+-+-+-+-+-+-+-+-+-+-+-+-+-+-+-+
//  :                         report blocks                         :
//  +-+-+-+-+-+-+-+-+-+-+-+-+-+-+-+-+-+-+-+-+-+-+-+-+-+-+-+-+-+-+-+-+
//  |      BT       | type-specific |         block length          |
//  +-+-+-+-+-+-+-+-+-+-+-+-+-+-+-+-+-+-+-+-+-+-+-+-+-+-+-+-+-+-+-+-+
//  :             type-specific block contents                      :
//  +-+-+-+-+-+-+-+-+-+-+-+-+-+-+-+-+-+-+-+-+-+-+-+-+-+-+-+-+-+-+-+-+
#![tactic(auto)]

ghost use Rattle.std.specs.Prelude.{◌≡◌, ◌+◌, ◌<◌, min, length};
ghost use Rattle.frame.specs.Frames.{next_at, block_at, start_at, frames_in};
ghost use Rattle.frame.specs.Packet.{size_fits, header_of, packet_in, walked_of, located_of};
ghost use Rattle.frame.specs.Parts.{parts_in, parts_left};
ghost use Rattle.std.specs.Iterator.{YieldsFirstRef, item_count};

use refusal::Refusal;

// Where the first block stands.
pub const FIRST_BLOCK: usize = 8;

// What a slice holds: one packet and nothing else, or a packet at its front.
#[derive(Clone, Copy, Debug, PartialEq, Eq)]
pub enum Extent {
    Whole,
    Front,
}

// What the first eight bytes say: who sent the packet and its size in bytes.
#[derive(Clone, Copy, Debug, PartialEq, Eq)]
pub struct Header {
    pub sender: u32,
    pub size: usize,
}

// A packet judged as a whole: its sender, the number of its blocks and the place of the one asked for, none where the
// packet has no block of that index.
#[derive(Clone, Copy, Debug, PartialEq, Eq)]
pub struct Located {
    pub sender: u32,
    pub count: usize,
    pub at: Option<usize>,
}

// What a walk over whole blocks finds: how many there are and the place of the one asked for, none where there is none.
#[derive(Clone, Copy, Debug, PartialEq, Eq)]
pub struct Walked {
    pub count: usize,
    pub at: Option<usize>,
}

// The packet judged, with the place of block number index.
pub fn locate(s: &[u8], extent: Extent, index: usize) -> Result<Located, Refusal>
    ensures { result ≡ located_of (packet_in extent s.now) index }
{
    let header = read_header(s, extent)?;
    let walked = walk(s, FIRST_BLOCK, header.size, index).map_err(Refusal::BlockPastEnd)?;
    Ok(Located {
        sender: header.sender,
        count: walked.count,
        at: walked.at,
    })
}

// The first eight bytes of a packet, judged against the slice's length.
pub fn read_header(s: &[u8], extent: Extent) -> Result<Header, Refusal>
    ensures { result ≡ header_of extent s.now }
{
    if s.len() < FIRST_BLOCK {
        return Err(Refusal::PacketShort);
    }
    let first = s[0];
    if first / 64 != 2 {
        return Err(Refusal::Version);
    }
    if s[1] != 207 {
        return Err(Refusal::PacketType);
    }
    let size = 4 * (wire::u16_at(s, 2) as usize + 1);
    if !size_fits(extent, size, s.len()) {
        return Err(Refusal::PacketLength);
    }
    if first / 32 % 2 != 0 {
        return Err(Refusal::Padding);
    }
    Ok(Header {
        sender: wire::u32_at(s, 4),
        size,
    })
}

// All blocks from one offset to another, or to the end of s where that is nearer, in one pass: how many, and
// where number index stands; or the place of a block that runs past the end.
pub fn walk(s: &[u8], from: usize, to: usize, index: usize) -> Result<Walked, usize>
    ensures { result ≡ walked_of (frames_in s.now from (min to (length s.now))) index }
{
    let end = to.min(s.len());
    let mut at = from;
    let mut count = 0;
    let mut found = None;
    // By offsets, and not by `blocks_from`: the answer is an offset, also where a block does not end in time.
    while at < end {
        let next = next_block(s, at);
        if end < next {
            return Err(at);
        }
        if count == index {
            found = Some(at);
        }
        at = next;
        count += 1;
    }
    Ok(Walked { count, at: found })
}

// The block at offset at, its first word and its body, as the very part of s; empty where no whole block stands
// there. The next block stands as many bytes further on as it has.
pub fn block_at(s: &[u8], at: usize) -> &[u8]
    ensures part { result.now ≡ block_at s.now at }
    ensures place { (result.ref_ptr.0 ≡ s.entry.ref_ptr.0) × (result.ref_ptr.1 ≡ s.entry.ref_ptr.1 + start_at s.now at) }
{
    if s.len() <= at {
        return &s[0..0];
    }
    let next = next_block(s, at);
    if s.len() < next {
        return &s[0..0];
    }
    &s[at..next]
}

// A walk over the blocks of a packet, one behind the other. It ends where the bytes end, or where a block runs past them.
#[derive(Clone, Copy)]
pub struct BlockWalk<'a> {
    packet: &'a [u8],
    at: usize,
}

// The walk that begins at an offset.
pub fn blocks_from(s: &[u8], from: usize) -> BlockWalk<'_>
    ensures { parts_left result ≡ parts_in s.now from }
{
    BlockWalk {
        packet: s,
        at: from,
    }
}

// Each block as block_at has it.
impl<'a> Iterator for BlockWalk<'a> {
    type Item = &'a [u8];

    ghost next_gives = { YieldsFirstRef parts_left };

    ghost remaining = { item_count parts_left };

    fn next(&mut self) -> Option<&'a [u8]> {
        let bytes = block_at(self.packet, self.at);
        if bytes.is_empty() {
            return None;
        }
        self.at += bytes.len();
        Some(bytes)
    }
}

// Whether a packet of this size is what a slice of this length holds.
fn size_fits(extent: Extent, size: usize, room: usize) -> bool
    ensures { result ≡ size_fits extent size room }
{
    match extent {
        Extent::Whole => size == room,
        Extent::Front => (FIRST_BLOCK <= size) & (size <= room),
    }
}

// Where the block after the one at offset at stands.
fn next_block(s: &[u8], at: usize) -> usize
    requires { at < length s.now }
    ensures { result ≡ next_at s.now at }
{
    at + 4 + 4 * wire::u16_at(s, at + 2) as usize
}
