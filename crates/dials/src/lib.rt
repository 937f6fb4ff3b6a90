// The front panel's two dials: document 02, ticket 4. A panel setting holds where the burst and the gap needle stand, each a
// rate as a fraction from 0 to 1; what is no block 17 or 18 that could be written leaves both dark.
#![tactic(auto)]

ghost use Rattle.std.specs.Prelude.{◌≡◌};
ghost use Rattle.frame.specs.Packet.{packet_of};
ghost use Rattle.packet.specs.Answers.{block_of};
ghost use Rattle.dials.specs.Panel.{needle_of, dark, summary_panel, panel_of, panel_read, panel_at, is_lit, lamp_of};

use block::{Block, BlockRead};

// A needle: lit at its position, or dark. Not an Option: document 01, "Required forms by place", names an enum with a case Lit that
// carries an f32 and a case Dark.
#[derive(Clone, Copy, Debug, PartialEq)]
pub enum Needle {
    Lit(f32),
    Dark,
}

// The panel setting.
#[derive(Clone, Copy, Debug, PartialEq)]
pub struct Panel {
    pub burst: Needle,
    pub gap: Needle,
}

pub const DARK: Panel = Panel {
    burst: Needle::Dark,
    gap: Needle::Dark,
};

// The whole dial as an f32: the highest rate, at which a needle stands at 1.
const FULL: f32 = 32_768.0;

// The panel of block number index of a packet. A refused packet or index leaves it dark.
pub fn of_packet(packet: &[u8], index: usize) -> Panel
    ensures { result ≡ panel_at (block_of (packet_of packet.now) index) }
{
    match packet::block(packet, index) {
        Ok(block) => of_read(block.read),
        Err(_) => DARK,
    }
}

// The panel of what was read.
pub fn of_read(read: BlockRead) -> Panel
    ensures { result ≡ panel_read read }
{
    match read {
        BlockRead::Typed(b) => of_block(b),
        BlockRead::Rle(_) => DARK,
        BlockRead::Unknown => DARK,
        BlockRead::Dropped(_) => DARK,
    }
}

// The panel of a block given as a value.
pub fn of_block(b: Block) -> Panel
    ensures { result ≡ panel_of b }
{
    match b {
        Block::Measured(_) => DARK,
        Block::Loss(l) => of_summary(l.flag, l.burst_rate, l.gap_rate),
        Block::Discard(d) => of_summary(d.flag, d.burst_rate, d.gap_rate),
        Block::Effective(_) => DARK,
        Block::Streams(_) => DARK,
    }
}

// The panel of a 17 or 18 with this interval flag and these rates.
#[tactic(auto, unfolding(crate::specs::Panel::summary_panel))]
pub fn of_summary(flag: u8, burst_rate: u16, gap_rate: u16) -> Panel
    ensures { result ≡ summary_panel flag burst_rate gap_rate }
{
    if !block::summary_good(flag, burst_rate, gap_rate) {
        return DARK;
    }
    Panel {
        burst: needle_at(burst_rate),
        gap: needle_at(gap_rate),
    }
}

// The needle of a rate.
fn needle_at(rate: u16) -> Needle
    ensures { result ≡ needle_of rate }
{
    if block::RATE_MAX < rate {
        return Needle::Dark;
    }
    Needle::Lit(rate as f32 / FULL)
}

// Whether the lamp is on.
pub fn lamp(p: Panel) -> bool
    ensures { result ≡ lamp_of p }
{
    is_lit(p.burst) || is_lit(p.gap)
}

fn is_lit(n: Needle) -> bool
    ensures { result ≡ is_lit n }
{
    matches!(n, Needle::Lit(_))
}
