// The tally of bursts: document 01, "The trace and its figures". A tally is opened with Gmin, the spacing and
// the event that it counts, takes packets one after the other, by value, and closes with the figures. Any
// tally may be handed in: one that is not sound is refused, and no sum or product of it wraps.
#![tactic(auto)]

ghost use Rattle.std.specs.Prelude.{◌≡◌};
ghost use Rattle.tally.specs.Tally.{fresh, open_of, counted_in, open_within, sound, step_of, take_one, refused_with, close_of, of_trace};
ghost use Rattle.tally.specs.Steps.{Room, Bounded, sums_within, bounded};

use bursts::{Figures, Sums};
use refusal::Refusal;
use trace::Event;

// The last group of events, which the next event may join; its burst is not yet in the sums.
// C: nuvaskoe_stretch
#[repr(C)]
#[derive(Clone, Copy, Default)]
pub struct Stretch {
    pub events: u64, // 0 where there was no event so far
    pub packets: u64, // from its first event to its last; 0 where there was none
    pub since: u64, // packets since its last event, or since the start
}

// What was counted so far. The open stretch is not yet in the sums of bursts.
#[derive(Clone, Copy)]
pub struct Tally {
    pub gmin: u32,
    pub spacing: u32,
    pub event: Event,
    pub sums: Sums,
    pub stretch: Stretch,
}

// The next tally with the answer; the tally as given, where the packet is refused.
#[derive(Clone, Copy)]
pub struct Taken {
    pub tally: Tally,
    pub answer: Result<(), Refusal>,
}

// The fewest events of a burst.
const BURST_MIN: u64 = 2;

// No sum of squares is above the square of the sum.
const SQUARES_MAX: u64 = bursts::DURATIONS_MAX * bursts::DURATIONS_MAX;

// A tally that has taken no packet.
#[tactic(auto, unfolding(crate::specs::Tally::open_of, crate::specs::Tally::fresh))]
pub fn open(gmin: u32, spacing: u32, event: Event) -> Result<Tally, Refusal>
    ensures { result ≡ open_of gmin spacing event }
{
    if !settings::burst_in_range(gmin, spacing) {
        return Err(Refusal::Setting);
    }
    Ok(Tally {
        gmin,
        spacing,
        event,
        sums: Sums::default(),
        stretch: Stretch::default(),
    })
}

// The tally that has taken a whole trace, packet after packet.
#[tactic(auto, using(crate::proofs::Running::of_range, crate::proofs::Running::of_refused))]
pub fn of_trace(trace: &[u8], gmin: u32, spacing: u32, event: Event) -> Result<Tally, Refusal>
    ensures { result ≡ of_trace gmin spacing event trace.now }
{
    let mut tally = open(gmin, spacing, event)?;
    trace::judge(trace)?;
    for packet in trace {
        tally = tally.step(*packet);
    }
    Ok(tally)
}

impl Tally {
    // Takes one packet of a trace.
    #[tactic(auto, using(crate::proofs::Limits::step_room), unfolding(crate::specs::Tally::take_one))]
    pub fn take(self, packet: u8) -> Taken
        ensures { result ≡ take_one self packet }
    {
        if !self.is_sound() {
            return self.refused(Refusal::Setting);
        }
        if bursts::PACKETS_MAX <= self.sums.packets {
            return self.refused(Refusal::TraceLength);
        }
        if trace::PACKET_MAX < packet {
            return self.refused(Refusal::TraceByte(0));
        }
        Taken {
            tally: self.step(packet),
            answer: Ok(()),
        }
    }

    // The figures of all packets taken.
    #[tactic(auto, using(crate::proofs::Limits::count_room, crate::proofs::Turns::closes_no_range, crate::proofs::Turns::closes_no_bounds, crate::proofs::Turns::closes_counted))]
    pub fn close(self) -> Result<Figures, Refusal>
        ensures { result ≡ close_of self }
    {
        if !settings::burst_in_range(self.gmin, self.spacing) || !self.is_bounded() {
            return Err(Refusal::Setting);
        }
        bursts::measure(counted_in(self.sums, self.stretch, self.spacing))
    }

    // Whether it is sound.
    #[tactic(auto, using(crate::proofs::Limits::count_room, crate::proofs::Limits::tested, crate::proofs::Limits::out_of_range, crate::proofs::Limits::out_of_bounds))]
    fn is_sound(self) -> bool
        ensures { result ≡ sound self }
    {
        settings::burst_in_range(self.gmin, self.spacing)
            && self.is_bounded()
            && bursts::sound(counted_in(self.sums, self.stretch, self.spacing))
    }

    // Whether the open stretch can be counted in: bounds that every sound tally keeps.
    #[tactic(auto, unfolding(crate::specs::Steps::bounded))]
    fn is_bounded(self) -> bool
        ensures { result ≡ bounded self }
    {
        let most = self.sums.packets;
        (most <= bursts::PACKETS_MAX) & open_within(self.stretch, most) & sums_within(self.sums)
    }

    // The tally after one more packet, without the soundness test, so that a whole trace is one pass.
    #[tactic(auto, unfolding(crate::specs::Tally::step_of, crate::specs::Tally::joins, crate::specs::Tally::one_packet, crate::specs::Tally::one_event, crate::specs::Tally::passed, crate::specs::Tally::joined, crate::specs::Tally::apart))]
    fn step(mut self, packet: u8) -> Tally
        requires { Bounded self }
        ensures { result ≡ step_of self packet }
    {
        self.sums.packets += 1;
        if !trace::counts(self.event, packet) {
            self.stretch.since += 1;
            return self;
        }
        self.sums.events += 1;
        if 0 < self.stretch.events && self.stretch.since < self.gmin as u64 {
            self.stretch.events += 1;
            self.stretch.packets += self.stretch.since + 1;
            self.stretch.since = 0;
        } else {
            self.sums = counted_in(self.sums, self.stretch, self.spacing);
            self.stretch = Stretch {
                events: 1,
                packets: 1,
                since: 0,
            };
        }
        self
    }

    // The tally as given, with the reason.
    fn refused(self, why: Refusal) -> Taken
        ensures { result ≡ refused_with self why }
    {
        Taken {
            tally: self,
            answer: Err(why),
        }
    }
}

// Whether a stretch's counts are at most this many.
#[tactic(auto, unfolding(crate::specs::Tally::open_within))]
fn open_within(stretch: Stretch, most: u64) -> bool
    ensures { result ≡ open_within stretch most }
{
    (stretch.events <= most) & (stretch.packets <= most) & (stretch.since <= most)
}

// Whether sums leave room for one more burst and one more packet.
#[tactic(auto, unfolding(crate::specs::Steps::sums_within))]
fn sums_within(s: Sums) -> bool
    ensures { result ≡ sums_within s }
{
    (s.events <= s.packets)
        & (s.burst_packets <= s.packets)
        & (s.burst_events <= s.packets)
        & (s.bursts <= s.packets)
        & (s.durations <= bursts::DURATIONS_MAX)
        & (s.squares <= SQUARES_MAX)
}

// The sums with a stretch closed: a burst, where it has two events or more.
#[tactic(auto, using(crate::proofs::Turns::duration_small, bursts::proofs::Soundness::square_small), unfolding(crate::specs::Tally::counted_in, crate::specs::Tally::with_burst, bursts::specs::Groups::duration))]
fn counted_in(sums: Sums, stretch: Stretch, spacing: u32) -> Sums
    requires { Room spacing stretch sums }
    ensures { result ≡ counted_in spacing stretch sums }
{
    if stretch.events < BURST_MIN {
        return sums;
    }
    let duration = stretch.packets * spacing as u64 / 1000;
    Sums {
        burst_packets: sums.burst_packets + stretch.packets,
        burst_events: sums.burst_events + stretch.events,
        bursts: sums.bursts + 1,
        durations: sums.durations + duration,
        squares: sums.squares + duration * duration,
        ..sums
    }
}
