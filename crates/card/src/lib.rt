// The settings card: document 01, "The settings card". Two calls: one reads any bytes as a card, one writes
// settings into a lent buffer.
//
//      0     3         8        13        18  20
//     | Gmin | batch   | threshold | spacing | check |
#![tactic(auto)]

ghost use Rattle.std.specs.Prelude.{◌≡◌, ◌≤◌, length};
ghost use Rattle.refusal.specs.Answer.{after};
ghost use Rattle.settings.specs.Ranges.{limits};
ghost use Rattle.card.specs.Decimal.{digits};
ghost use Rattle.card.specs.Steps.{number_in, number_of, Fits};
ghost use Rattle.card.specs.Card.{check_of, read_card, card_of, write_card};

use refusal::Refusal;
use settings::Settings;

pub const CARD_LENGTH: usize = 20;
// The digits before the check.
const PAYLOAD_LENGTH: usize = 18;

// The settings on a card.
#[tactic(auto, using(crate::proofs::Reading::wrong_length, crate::proofs::Reading::front_other, crate::proofs::Reading::back_other))]
pub fn read(card: &[u8]) -> Result<Settings, Refusal>
    ensures { result ≡ read_card limits card.now }
{
    if card.len() != CARD_LENGTH {
        return Err(Refusal::CardDigits);
    }
    let payload = number(&card[..PAYLOAD_LENGTH]).ok_or(Refusal::CardDigits)?;
    let check = number(&card[PAYLOAD_LENGTH..]).ok_or(Refusal::CardDigits)?;
    if check != check_of(payload) {
        return Err(Refusal::CardCheck);
    }
    let settings = Settings {
        gmin: (payload / 1_000_000_000_000_000) as u32,
        batch: (payload / 10_000_000_000 % 100_000) as u32,
        threshold: (payload / 100_000 % 100_000) as u32,
        spacing: (payload % 100_000) as u32,
    };
    if !settings::in_range(settings) {
        return Err(Refusal::CardField);
    }
    Ok(settings)
}

// Writes the card of the settings into the front of out.
#[tactic(auto, using(crate::proofs::Cases::settings_fit), unfolding(crate::specs::Card::write_card))]
pub fn write(s: Settings, out: &mut [u8]) -> Result<usize, Refusal>
    ensures answer { result ≡ write_card limits s out.old }
    ensures buffer { out.new ≡ after (write_card limits s out.old) (card_of s) out.old }
{
    if !settings::in_range(s) {
        return Err(Refusal::Setting);
    }
    if out.len() < CARD_LENGTH {
        return Err(Refusal::BufferShort);
    }
    let payload = payload_of(s);
    put_digits(&mut out[..PAYLOAD_LENGTH], payload);
    put_digits(&mut out[PAYLOAD_LENGTH..CARD_LENGTH], check_of(payload));
    Ok(CARD_LENGTH)
}

// The number that s writes in digits.
#[tactic(auto, using(crate::proofs::Loops::taken_none, crate::proofs::Loops::taken_more, crate::proofs::Loops::taken_other, crate::proofs::Loops::taken_all, crate::proofs::Loops::taken_small))]
fn number(s: &[u8]) -> Option<u64>
    requires { length s.now ≤ 18 }
    ensures { result ≡ number_in s.now }
{
    let mut n = 0;
    for b in s {
        if !b.is_ascii_digit() {
            return None;
        }
        n = n * 10 + (b - b'0') as u64;
    }
    Some(n)
}

// The check digits of a payload, from 2 to 98.
fn check_of(payload: u64) -> u64
    ensures { result ≡ check_of payload }
{
    98 - payload % 97 * 100 % 97
}

// The payload of settings that are in range, as one number.
fn payload_of(s: Settings) -> u64
    requires { Fits s }
    ensures { result ≡ number_of s }
{
    ((s.gmin as u64 * 100_000 + s.batch as u64) * 100_000 + s.threshold as u64) * 100_000
        + s.spacing as u64
}

// Fills a part with the last digits of n, the lowest at the end.
#[tactic(auto, using(crate::proofs::Loops::put_none, crate::proofs::Loops::put_more, crate::proofs::Loops::put_all))]
fn put_digits(part: &mut [u8], n: u64)
    ensures { part.new ≡ digits (length part.old) n }
{
    let mut rest = n;
    for i in (0..part.len()).rev() {
        part[i] = b'0' + (rest % 10) as u8;
        rest /= 10;
    }
}
