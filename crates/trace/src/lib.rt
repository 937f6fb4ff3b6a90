// A trace and what is counted in it: document 01, "The trace and its figures". One byte a packet; a trace is
// accepted or refused as a whole, and a call counts one kind of event in it.
#![tactic(auto)]

ghost use Rattle.std.specs.Prelude.{◌≡◌, ltb, length};
ghost use Rattle.std.specs.List.{position};
ghost use Rattle.std.specs.Option.{ok_or};
ghost use Rattle.refusal.specs.Table.{setting};
ghost use Rattle.trace.specs.Events.{event_in, event_number};
ghost use Rattle.trace.specs.Sum.{bit};
ghost use Rattle.trace.specs.Trace.{counts_as, packets_within, first_above, judged_within, judged};

use refusal::Refusal;

pub const LOST: u8 = 1;

pub const DISCARDED: u8 = 2;

// The number of the event that counts both: lost and discarded together.
pub const EITHER: u8 = LOST + DISCARDED;

// The highest byte of a trace.
pub const PACKET_MAX: u8 = 2;

// The fewest and the most packets of a trace.
pub const TRACE_MIN: usize = 1;

pub const TRACE_MAX: usize = 65_536;

// What a call counts, by the caller's choice: document 02, ticket 7. All other packets are to it as received.
#[derive(Clone, Copy, Debug, PartialEq, Eq)]
pub enum Event {
    Lost,
    Discarded,
    Either,
}

// The event with this number; any other number is a setting outside its range.
impl TryFrom<u32> for Event {
    type Error = Refusal;

    ghost try_from_gives = { λ number r. r ≡ ok_or (event_in number) setting };

    #[tactic(auto, unfolding(crate::specs::Events::event_in))]
    fn try_from(number: u32) -> Result<Event, Refusal> {
        match number {
            1 => Ok(Event::Lost),
            2 => Ok(Event::Discarded),
            3 => Ok(Event::Either),
            _ => Err(Refusal::Setting),
        }
    }
}

// The number of an event.
impl From<Event> for u32 {
    ghost from_gives = { λ event number. number ≡ event_number event };

    fn from(event: Event) -> u32 {
        match event {
            Event::Lost => 1,
            Event::Discarded => 2,
            Event::Either => 3,
        }
    }
}

// Whether a packet is one of the counted.
pub fn counts(event: Event, packet: u8) -> bool
    ensures { result ≡ counts_as event packet }
{
    match event {
        Event::Lost => packet == LOST,
        Event::Discarded => packet == DISCARDED,
        Event::Either => (packet == LOST) | (packet == DISCARDED),
    }
}

// 1 for a counted packet and 0 for any other.
pub fn counted(event: Event, packet: u8) -> usize
    ensures { result ≡ bit (counts_as event packet) }
{
    counts(event, packet) as usize
}

// Judges a trace by its length and then by its bytes.
pub fn judge(trace: &[u8]) -> Result<(), Refusal>
    ensures { result ≡ judged trace.now }
{
    judge_within(trace, TRACE_MAX, PACKET_MAX)
}

// The same with another limit on its packets, and another on its bytes.
pub fn judge_within(trace: &[u8], limit: usize, highest: u8) -> Result<(), Refusal>
    ensures { result ≡ judged_within limit highest trace.now }
{
    if !in_range(trace.len(), limit) {
        return Err(Refusal::TraceLength);
    }
    match first_bad(trace, highest) {
        Some(index) => Err(Refusal::TraceByte(index)),
        None => Ok(()),
    }
}

// Whether so many packets are a trace's, with another limit on them too.
pub fn in_range(packets: usize, limit: usize) -> bool
    ensures { result ≡ packets_within limit packets }
{
    (TRACE_MIN <= packets) & (packets <= limit)
}

// Where the first byte above the highest stands, if there is one.
fn first_bad(s: &[u8], highest: u8) -> Option<usize>
    ensures { result ≡ position (λ packet. ltb highest packet) s.now }
{
    if !has_bad(s, highest) {
        return None;
    }
    s.iter().position(|packet| highest < *packet)
}

// Whether a byte is above the highest. Nothing leaves this loop early, so that it is compiled to many bytes a step.
fn has_bad(s: &[u8], highest: u8) -> bool
    ensures { result ≡ ltb (first_above highest s.now) (length s.now) }
{
    let mut found = false;
    for packet in s {
        found |= highest < *packet;
    }
    found
}
