// The exported calls of crate ffi_card.
// Made by tools/boundary.py from the Rattle source; not edited by hand.
ghost use Rattle.std.specs.Prelude.{◌≡◌};
ghost use Rattle.refusal.specs.Answer.{after};
ghost use Rattle.settings.specs.Ranges.{limits};
ghost use Rattle.card.specs.Card.{read_card, card_of, write_card};
ghost use Rattle.ffi_answer.specs.Answers.{written_out};
ghost use Rattle.ffi_card.specs.Answers.{card_out};

use ffi_answer::WrittenSize;
use ffi_card::Card;
use settings::Settings;

// As ffi_card::nuvaskoe_card_read.
#[unsafe(no_mangle)]
pub extern "C" fn nuvaskoe_card_read(card: &[u8]) -> Card
    ensures { result ≡ card_out (read_card limits card.now) }
{
    ffi_card::nuvaskoe_card_read(card)
}

// As ffi_card::nuvaskoe_card_write.
#[unsafe(no_mangle)]
pub extern "C" fn nuvaskoe_card_write(settings: Settings, out: &mut [u8]) -> WrittenSize
    ensures answer { result ≡ written_out (write_card limits settings out.old) }
    ensures buffer { out.new ≡ after (write_card limits settings out.old) (card_of settings) out.old }
{
    ffi_card::nuvaskoe_card_write(settings, out)
}
