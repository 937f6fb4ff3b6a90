// The front panel at the boundary to C: each needle as two numbers.
#![tactic(auto)]

ghost use Rattle.std.specs.Prelude.{◌≡◌};
ghost use Rattle.block.specs.declared.Block.TheVariants.{Loss, Discard};
ghost use Rattle.frame.specs.Packet.{packet_of};
ghost use Rattle.packet.specs.Answers.{block_of};
ghost use Rattle.dials.specs.Panel.{summary_panel, panel_of, panel_at};
ghost use Rattle.ffi_panel.specs.Answers.{needle_out, panel_out, summary_in, panel_in};

use block::{Block, DiscardSummary, LossSummary};
use dials::{Needle, Panel};
use ffi_block::BlockFields;

// A needle of the front panel.
// C: nuvaskoe_needle
#[repr(C)]
#[derive(Clone, Copy)]
pub struct NeedleFields {
    pub lit: u32, // 1 where it is lit, 0 where it is dark
    pub position: f32, // from 0 to 1: the rate divided by NUVASKOE_RATE_MAX, exactly; 0 where it is dark
}

// The setting of the front panel.
// C: nuvaskoe_panel
#[repr(C)]
#[derive(Clone, Copy)]
pub struct PanelFields {
    pub burst: NeedleFields,
    pub gap: NeedleFields,
    pub lamp: u32, // 1 exactly where at least one needle is lit
}

// Where the boundary has the interval flag and the rates of a 17 and of an 18.
const FLAG_AT: usize = 0;

const BURST_RATE_AT: usize = 2;

const GAP_RATE_AT: usize = 3;

impl From<Needle> for NeedleFields {
    ghost from_gives = { λ needle fields. fields ≡ needle_out needle };

    fn from(needle: Needle) -> NeedleFields {
        match needle {
            Needle::Lit(position) => NeedleFields { lit: 1, position },
            Needle::Dark => NeedleFields {
                lit: 0,
                position: 0.0,
            },
        }
    }
}

impl From<Panel> for PanelFields {
    ghost from_gives = { λ panel fields. fields ≡ panel_out panel };

    fn from(panel: Panel) -> PanelFields {
        PanelFields {
            burst: panel.burst.into(),
            gap: panel.gap.into(),
            lamp: dials::lamp(panel) as u32,
        }
    }
}

// The panel of a 17 or 18 by its interval flag and rates as 32-bit numbers: those that no block can hold are as bad as any.
fn summary_in(flag: u32, burst_rate: u32, gap_rate: u32) -> Panel
    ensures { result ≡ summary_panel flag burst_rate gap_rate }
{
    let Ok(flag) = u8::try_from(flag) else {
        return dials::DARK;
    };
    let Ok(burst_rate) = u16::try_from(burst_rate) else {
        return dials::DARK;
    };
    let Ok(gap_rate) = u16::try_from(gap_rate) else {
        return dials::DARK;
    };
    dials::of_summary(flag, burst_rate, gap_rate)
}

// Whether a block as the boundary hands it out was read as a 17 or 18.
fn is_summary(b: BlockFields) -> bool
    ensures { result ≡ summary_in b }
{
    (b.refusal.number == 0)
        & (b.verdict == verdict::TYPED as u32)
        & ((b.block_type == block::LOSS as u32) | (b.block_type == block::DISCARD as u32))
}

// The panel of a block as the boundary hands it out. A function and no `From`: both types belong to other crates.
#[tactic(auto, unfolding(crate::specs::Answers::panel_in))]
pub fn panel_in(b: BlockFields) -> Panel
    ensures { result ≡ panel_in b }
{
    if !is_summary(b) {
        return dials::DARK;
    }
    let fields = b.fields;
    summary_in(fields[FLAG_AT], fields[BURST_RATE_AT], fields[GAP_RATE_AT])
}

// The panel of block number index of a packet. Both needles are dark where nuvaskoe_packet_block refuses.
#[unsafe(no_mangle)]
pub extern "C" fn nuvaskoe_panel_of_packet(packet: &[u8], index: usize) -> PanelFields
    ensures { result ≡ panel_out (panel_at (block_of (packet_of packet.now) index)) }
{
    dials::of_packet(packet, index).into()
}

// The panel of what was read: of a block that nuvaskoe_packet_block or nuvaskoe_block_read answered. One made by hand is shown
// where its refusal is 0, its verdict typed, its type 17 or 18, and its interval flag and rates are good.
#[unsafe(no_mangle)]
pub extern "C" fn nuvaskoe_panel_of_read(block: BlockFields) -> PanelFields
    ensures { result ≡ panel_out (panel_in block) }
{
    panel_in(block).into()
}

// The panel of a block 17.
#[unsafe(no_mangle)]
pub extern "C" fn nuvaskoe_panel_of_loss(block: LossSummary) -> PanelFields
    ensures { result ≡ panel_out (panel_of (Loss block)) }
{
    dials::of_block(Block::Loss(block)).into()
}

// The panel of a block 18.
#[unsafe(no_mangle)]
pub extern "C" fn nuvaskoe_panel_of_discard(block: DiscardSummary) -> PanelFields
    ensures { result ≡ panel_out (panel_of (Discard block)) }
{
    dials::of_block(Block::Discard(block)).into()
}
