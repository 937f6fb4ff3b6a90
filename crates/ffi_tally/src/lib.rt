// The tally at the boundary to C: a struct of plain numbers, its event by number, passed by value and handed back.
#![tactic(auto)]

ghost use Rattle.std.specs.Prelude.{◌≡◌};
ghost use Rattle.std.specs.Option.{ok_or};
ghost use Rattle.refusal.specs.Table.{setting};
ghost use Rattle.trace.specs.Events.{event_in};
ghost use Rattle.ffi_tally.specs.Answers.{tally_in, tally_out, opened_out, taken_out};
ghost use Rattle.ffi_tally.specs.Calls.{open_by, take_by, close_by};

use bursts::Sums;
use ffi_answer::{NONE, RefusalFields};
use ffi_figures::Figured;
use refusal::Refusal;
use tally::{Stretch, Taken, Tally};
use trace::Event;

// A tally: it is passed by value, takes one packet and is handed back. Every tally may be handed in;
// docs/PROMISES.md, "tally::Tally::take", says which are sound, and those that are not are refused with 15. A tally
// that was opened and took packets is sound at every point.
// C: nuvaskoe_tally
#[repr(C)]
#[derive(Clone, Copy, Default)]
pub struct TallyNumbers {
    pub gmin: u32,
    pub spacing: u32,
    pub event: u32, // NUVASKOE_EVENT_LOST, NUVASKOE_EVENT_DISCARDED or NUVASKOE_EVENT_EITHER
    pub sums: Sums,
    pub stretch: Stretch,
}

// The answer of opening a tally and of giving it a packet.
// C: nuvaskoe_tallied
#[repr(C)]
#[derive(Clone, Copy)]
pub struct Tallied {
    pub refusal: RefusalFields,
    pub tally: TallyNumbers, // where refused: all 0 of an opening, else as given
}

// The tally with these numbers; a number that is no event is a setting outside its range.
impl TryFrom<TallyNumbers> for Tally {
    type Error = Refusal;

    ghost try_from_gives = { λ numbers r. r ≡ ok_or (tally_in numbers) setting };

    fn try_from(numbers: TallyNumbers) -> Result<Tally, Refusal> {
        Ok(Tally {
            gmin: numbers.gmin,
            spacing: numbers.spacing,
            event: Event::try_from(numbers.event)?,
            sums: numbers.sums,
            stretch: numbers.stretch,
        })
    }
}

// The numbers of a tally.
impl From<Tally> for TallyNumbers {
    ghost from_gives = { λ tally numbers. numbers ≡ tally_out tally };

    fn from(tally: Tally) -> TallyNumbers {
        TallyNumbers {
            gmin: tally.gmin,
            spacing: tally.spacing,
            event: tally.event.into(),
            sums: tally.sums,
            stretch: tally.stretch,
        }
    }
}

impl From<Result<Tally, Refusal>> for Tallied {
    ghost from_gives = { λ opened fields. fields ≡ opened_out opened };

    fn from(opened: Result<Tally, Refusal>) -> Tallied {
        match opened {
            Ok(tally) => Tallied {
                refusal: NONE,
                tally: tally.into(),
            },
            Err(why) => Tallied {
                refusal: why.into(),
                tally: TallyNumbers::default(),
            },
        }
    }
}

impl From<Taken> for Tallied {
    ghost from_gives = { λ taken fields. fields ≡ taken_out taken };

    fn from(taken: Taken) -> Tallied {
        let refusal = match taken.answer {
            Ok(()) => NONE,
            Err(why) => why.into(),
        };
        Tallied {
            refusal,
            tally: taken.tally.into(),
        }
    }
}

// A tally that has taken no packet. Refusal: 15.
#[unsafe(no_mangle)]
pub extern "C" fn nuvaskoe_tally_open(gmin: u32, spacing: u32, event: u32) -> Tallied
    ensures { result ≡ open_by gmin spacing (event_in event) }
{
    Event::try_from(event)
        .and_then(|kind| tally::open(gmin, spacing, kind))
        .into()
}

// The tally after one more packet, 0, 1 or 2. Refusals, in this order: 15; 10, it has taken 65,536 packets; 9, with
// place 0.
#[unsafe(no_mangle)]
pub extern "C" fn nuvaskoe_tally_take(tally: TallyNumbers, packet: u8) -> Tallied
    ensures { result ≡ take_by tally packet (tally_in tally) }
{
    match Tally::try_from(tally) {
        Ok(t) => t.take(packet).into(),
        Err(why) => Tallied {
            refusal: why.into(),
            tally,
        },
    }
}

// The figures of all packets taken, each unavailable where there was none. Refusal: 15.
#[unsafe(no_mangle)]
pub extern "C" fn nuvaskoe_tally_close(tally: TallyNumbers) -> Figured
    ensures { result ≡ close_by (tally_in tally) }
{
    Tally::try_from(tally).and_then(|t| t.close()).into()
}
