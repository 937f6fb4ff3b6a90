// The exported calls of crate ffi_block.
// Made by tools/boundary.py from the Rattle source; not edited by hand.
ghost use Rattle.std.specs.Prelude.{◌≡◌};
ghost use Rattle.block.specs.Reading.{read_block};
ghost use Rattle.ffi_block.specs.Answers.{read_out};

use ffi_block::BlockFields;

// As ffi_block::nuvaskoe_block_read.
#[unsafe(no_mangle)]
pub extern "C" fn nuvaskoe_block_read(block_type: u8, specific: u8, body: &[u8]) -> BlockFields
    ensures { result ≡ read_out block_type (read_block block_type specific body.now) }
{
    ffi_block::nuvaskoe_block_read(block_type, specific, body)
}
