// The settings and their ranges: document 01, "The trace and its figures", first paragraph. A call checks
// only the settings that it takes, so the ranges are tested in pairs: Gmin and spacing for burst figures,
// batch and threshold for effective loss and the plan, all four for a card.
#![tactic(auto)]

ghost use Rattle.std.specs.Prelude.{◌≡◌};
ghost use Rattle.settings.specs.Ranges.{limits, burst_in_range, batch_in_range, in_range};

// The four settings of a card, and the range of each.
// C: nuvaskoe_settings
#[repr(C)]
#[derive(Clone, Copy, Default)]
pub struct Settings {
    pub gmin: u32, // 1 to 255 packets
    pub batch: u32, // 1 to 1,024 packets
    pub threshold: u32, // 0 to 1,024 losses
    pub spacing: u32, // between packets: 1 to 40,000 microseconds
}

pub const GMIN_MIN: u32 = 1;

pub const GMIN_MAX: u32 = 255;

pub const BATCH_MIN: u32 = 1;

pub const BATCH_MAX: u32 = 1024;

pub const THRESHOLD_MIN: u32 = 0;

pub const THRESHOLD_MAX: u32 = 1024;

pub const SPACING_MIN: u32 = 1;

pub const SPACING_MAX: u32 = 40_000;

// Whether the settings of burst figures are in their ranges.
#[tactic(auto, unfolding(crate::specs::Ranges::burst_in_range))]
pub fn burst_in_range(gmin: u32, spacing: u32) -> bool
    ensures { result ≡ burst_in_range gmin spacing }
{
    (GMIN_MIN..=GMIN_MAX).contains(&gmin) && (SPACING_MIN..=SPACING_MAX).contains(&spacing)
}

// Whether the settings of effective loss and the plan are in their ranges. The threshold's does not
// depend on the batch.
#[tactic(auto, unfolding(crate::specs::Ranges::batch_in_range))]
pub fn batch_in_range(batch: u32, threshold: u32) -> bool
    ensures { result ≡ batch_in_range limits batch threshold }
{
    (BATCH_MIN..=BATCH_MAX).contains(&batch) && (THRESHOLD_MIN..=THRESHOLD_MAX).contains(&threshold)
}

// Whether all four settings are in their ranges.
#[tactic(auto, unfolding(crate::specs::Ranges::in_range))]
pub fn in_range(s: Settings) -> bool
    ensures { result ≡ in_range limits s }
{
    burst_in_range(s.gmin, s.spacing) && batch_in_range(s.batch, s.threshold)
}
