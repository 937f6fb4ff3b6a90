// The settings card at the boundary to C.
#![tactic(auto)]

ghost use Rattle.std.specs.Prelude.{◌≡◌};
ghost use Rattle.refusal.specs.Answer.{after};
ghost use Rattle.settings.specs.Ranges.{limits};
ghost use Rattle.card.specs.Card.{read_card, card_of, write_card};
ghost use Rattle.ffi_answer.specs.Answers.{written_out};
ghost use Rattle.ffi_card.specs.Answers.{card_out};

use ffi_answer::{NONE, RefusalFields, WrittenSize};
use refusal::Refusal;
use settings::Settings;

// The answer of reading a card.
// C: nuvaskoe_card
#[repr(C)]
#[derive(Clone, Copy)]
pub struct Card {
    pub refusal: RefusalFields,
    pub settings: Settings, // all 0 where refused
}

impl From<Result<Settings, Refusal>> for Card {
    ghost from_gives = { λ card fields. fields ≡ card_out card };

    fn from(card: Result<Settings, Refusal>) -> Card {
        match card {
            Ok(settings) => Card {
                refusal: NONE,
                settings,
            },
            Err(why) => Card {
                refusal: why.into(),
                settings: Settings::default(),
            },
        }
    }
}

// The settings on a card: twenty ASCII digits, Gmin (3), batch (5), threshold (5), spacing (5) and the check (2),
// and nothing else in the buffer. Refusals, in this order: 11, 12, 13.
#[unsafe(no_mangle)]
pub extern "C" fn nuvaskoe_card_read(card: &[u8]) -> Card
    ensures { result ≡ card_out (read_card limits card.now) }
{
    card::read(card).into()
}

// Writes the one card of these settings into the first 20 bytes of out; the bytes after them keep what they held.
// A good write answers size 20. Refusals, in this order: 15, 8.
#[unsafe(no_mangle)]
pub extern "C" fn nuvaskoe_card_write(settings: Settings, out: &mut [u8]) -> WrittenSize
    ensures answer { result ≡ written_out (write_card limits settings out.old) }
    ensures buffer { out.new ≡ after (write_card limits settings out.old) (card_of settings) out.old }
{
    card::write(settings, out).into()
}
