// The seven sums of a trace's bursts and the figures that they give: document 01, "The trace and its figures", and document
// 02, ticket 3.
// What the sums are over, groups of events, is in specs/Groups.antt. Any sums may be handed in: those that
// are not sound are refused, and no product of them wraps.
#![tactic(auto)]

ghost use Rattle.std.specs.Prelude.{◌≡◌};
ghost use Rattle.bursts.specs.Sums.{counts_sound, durations_sound, sums_sound};
ghost use Rattle.bursts.specs.Figures.{rate_of, ranged, mean_of, variance_of, measure_of};
ghost use Rattle.bursts.specs.Steps.{Rated, Few, Spread};

use refusal::Refusal;

// What is summed over the packets so far: E, L, Eb, Lb, n, S and Q of document 01, in its order.
// C: nuvaskoe_sums
#[repr(C)]
#[derive(Clone, Copy, Default)]
pub struct Sums {
    pub packets: u64, // all packets
    pub events: u64, // those that are counted
    pub burst_packets: u64, // the packets of bursts
    pub burst_events: u64, // the events of bursts
    pub bursts: u64, // how many bursts
    pub durations: u64, // the sum of their durations, in milliseconds
    pub squares: u64, // the sum of the squares of their durations
}

// The figures as blocks 17 and 18 hold them.
// C: nuvaskoe_burst_figures
#[repr(C)]
#[derive(Clone, Copy)]
pub struct Figures {
    pub burst_rate: u16, // 0 to 32,768, or 65,535 for unavailable
    pub gap_rate: u16, // 0 to 32,768, or 65,535 for unavailable
    pub burst_mean: u16, // milliseconds; 65,534 for over range, 65,535 for unavailable
    pub burst_variance: u16, // square milliseconds, divided by the number of bursts (RFC 7004: by one less); the same two marks
}

// The most packets, trace::TRACE_MAX as a sum has it.
pub const PACKETS_MAX: u64 = trace::TRACE_MAX as u64;

// The most milliseconds of all bursts: the most packets at the widest spacing.
pub const DURATIONS_MAX: u64 = 2_621_440;

// The highest rate, as wide as the sums are.
const RATE_MAX: u64 = block::RATE_MAX as u64;

// The largest mean or variance that is sent as it is.
pub const MEASURE_MAX: u64 = 65_533;

// What is sent for a mean or variance above that.
pub const OVER_RANGE: u16 = 65_534;

// Whether sums can be those of a trace, as far as document 01's list says, with ticket 3's last line.
#[tactic(auto, using(crate::proofs::Soundness::few), unfolding(crate::specs::Sums::sums_sound))]
pub fn sound(s: Sums) -> bool
    ensures { result ≡ sums_sound s }
{
    counts_sound(s) && durations_sound(s)
}

// The figures of sums.
#[tactic(auto, using(crate::proofs::Soundness::measurable), unfolding(crate::specs::Figures::measure_of, crate::specs::Figures::figures_of))]
pub fn measure(s: Sums) -> Result<Figures, Refusal>
    ensures { result ≡ measure_of s }
{
    if !sound(s) {
        return Err(Refusal::Setting);
    }
    Ok(Figures {
        burst_rate: rate(s.burst_events, s.burst_packets),
        gap_rate: rate(s.events - s.burst_events, s.packets - s.burst_packets),
        burst_mean: mean(s),
        burst_variance: variance(s),
    })
}

// Of the list's lines those on packets, events and bursts.
#[tactic(auto, using(crate::proofs::Soundness::counts_tested, crate::proofs::Soundness::counts_unsound))]
fn counts_sound(s: Sums) -> bool
    ensures { result ≡ counts_sound s }
{
    if s.packets < s.burst_packets {
        return false;
    }
    if s.events < s.burst_events {
        return false;
    }
    (s.packets <= PACKETS_MAX)
        & (s.burst_events <= s.burst_packets)
        & (s.events - s.burst_events <= s.packets - s.burst_packets)
        & (s.bursts <= s.burst_packets / 2)
}

// Of the list's lines those on durations. Each product is of numbers that are bounded by then.
#[tactic(auto, using(crate::proofs::Soundness::square_small, crate::proofs::Soundness::products_fit), unfolding(crate::specs::Sums::durations_sound))]
fn durations_sound(s: Sums) -> bool
    requires { Few s }
    ensures { result ≡ durations_sound s }
{
    if DURATIONS_MAX < s.durations {
        return false;
    }
    let square = s.durations * s.durations;
    if square < s.squares {
        return false;
    }
    square <= s.bursts * s.squares
}

// Events for each packet, in parts of the highest rate.
#[tactic(auto, using(crate::proofs::Cases::rate_small), unfolding(crate::specs::Figures::rate_of))]
fn rate(events: u64, packets: u64) -> u16
    requires { Rated events packets }
    ensures { result ≡ rate_of events packets }
{
    if packets == 0 {
        return block::UNAVAILABLE;
    }
    (events * RATE_MAX / packets) as u16
}

// A mean or variance as it is sent.
#[tactic(auto, unfolding(crate::specs::Figures::ranged))]
fn in_range(measure: u64) -> u16
    ensures { result ≡ ranged measure }
{
    if MEASURE_MAX < measure {
        return OVER_RANGE;
    }
    measure as u16
}

// The mean of the bursts' durations.
#[tactic(auto, unfolding(crate::specs::Figures::mean_of))]
fn mean(s: Sums) -> u16
    ensures { result ≡ mean_of s }
{
    if s.bursts == 0 {
        return block::UNAVAILABLE;
    }
    in_range(s.durations / s.bursts)
}

// The variance of the bursts' durations.
#[tactic(auto, using(crate::proofs::Soundness::spread_fits), unfolding(crate::specs::Figures::variance_of))]
fn variance(s: Sums) -> u16
    requires { Spread s }
    ensures { result ≡ variance_of s }
{
    if s.bursts == 0 {
        return block::UNAVAILABLE;
    }
    in_range((s.bursts * s.squares - s.durations * s.durations) / (s.bursts * s.bursts))
}
