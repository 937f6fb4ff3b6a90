// The exported calls of crate ffi_panel.
// Made by tools/boundary.py from the Rattle source; not edited by hand.
ghost use Rattle.std.specs.Prelude.{◌≡◌};
ghost use Rattle.block.specs.declared.Block.TheVariants.{Loss, Discard};
ghost use Rattle.frame.specs.Packet.{packet_of};
ghost use Rattle.packet.specs.Answers.{block_of};
ghost use Rattle.dials.specs.Panel.{panel_of, panel_at};
ghost use Rattle.ffi_panel.specs.Answers.{panel_out, panel_in};

use block::{DiscardSummary, LossSummary};
use ffi_block::BlockFields;
use ffi_panel::PanelFields;

// As ffi_panel::nuvaskoe_panel_of_packet.
#[unsafe(no_mangle)]
pub extern "C" fn nuvaskoe_panel_of_packet(packet: &[u8], index: usize) -> PanelFields
    ensures { result ≡ panel_out (panel_at (block_of (packet_of packet.now) index)) }
{
    ffi_panel::nuvaskoe_panel_of_packet(packet, index)
}

// As ffi_panel::nuvaskoe_panel_of_read.
#[unsafe(no_mangle)]
pub extern "C" fn nuvaskoe_panel_of_read(block: BlockFields) -> PanelFields
    ensures { result ≡ panel_out (panel_in block) }
{
    ffi_panel::nuvaskoe_panel_of_read(block)
}

// As ffi_panel::nuvaskoe_panel_of_loss.
#[unsafe(no_mangle)]
pub extern "C" fn nuvaskoe_panel_of_loss(block: LossSummary) -> PanelFields
    ensures { result ≡ panel_out (panel_of (Loss block)) }
{
    ffi_panel::nuvaskoe_panel_of_loss(block)
}

// As ffi_panel::nuvaskoe_panel_of_discard.
#[unsafe(no_mangle)]
pub extern "C" fn nuvaskoe_panel_of_discard(block: DiscardSummary) -> PanelFields
    ensures { result ≡ panel_out (panel_of (Discard block)) }
{
    ffi_panel::nuvaskoe_panel_of_discard(block)
}
