// Effective loss and the resend plan at the boundary to C, with what they count as an event's number.
#![tactic(auto)]

ghost use Rattle.std.specs.Prelude.{◌≡◌, length, take};
ghost use Rattle.trace.specs.declared.Event.{Event};
ghost use Rattle.trace.specs.Events.{event_in};
ghost use Rattle.trace.specs.Trace.{counted_at, judged};
ghost use Rattle.resend.specs.Plans.{marks, Best};
ghost use Rattle.resend.specs.Answer.{Plannable};
ghost use Rattle.ffi_batch.specs.Answers.{loss_out, marks_out};
ghost use Rattle.ffi_batch.specs.Calls.{loss_by, plan_by, plan_after_by};

use batch::EffectiveLoss;
use ffi_answer::{NONE, RefusalFields};
use refusal::Refusal;
use trace::Event;

// How many batches of a trace are over the threshold. Where refused, all after refusal is 0.
// C: nuvaskoe_loss
#[repr(C)]
#[derive(Clone, Copy)]
pub struct LossNumbers {
    pub refusal: RefusalFields,
    pub over: usize, // batches over the threshold
    pub batches: usize, // all batches
    pub first: usize, // the first batch that is over, by its first packet's index; 0 where none is
    pub index: u32, // the integer part of over * 65,535 / batches
    pub found: u32, // 1 where a batch is over the threshold, else 0
}

// The answer of making a resend plan.
// C: nuvaskoe_marks
#[repr(C)]
#[derive(Clone, Copy)]
pub struct MarkCount {
    pub refusal: RefusalFields,
    pub marks: usize, // how many packets the plan marks; 0 where refused
}

impl From<Result<EffectiveLoss, Refusal>> for LossNumbers {
    ghost from_gives = { λ answer numbers. numbers ≡ loss_out answer };

    fn from(answer: Result<EffectiveLoss, Refusal>) -> LossNumbers {
        match answer {
            Ok(loss) => LossNumbers {
                refusal: NONE,
                over: loss.over,
                batches: loss.batches,
                first: loss.first.unwrap_or(0),
                index: loss.index as u32,
                found: loss.first.is_some() as u32,
            },
            Err(why) => LossNumbers {
                refusal: why.into(),
                over: 0,
                batches: 0,
                first: 0,
                index: 0,
                found: 0,
            },
        }
    }
}

impl From<Result<usize, Refusal>> for MarkCount {
    ghost from_gives = { λ answer count. count ≡ marks_out answer };

    fn from(answer: Result<usize, Refusal>) -> MarkCount {
        match answer {
            Ok(marks) => MarkCount {
                refusal: NONE,
                marks,
            },
            Err(why) => MarkCount {
                refusal: why.into(),
                marks: 0,
            },
        }
    }
}

// The effective loss of a trace, with the packets that the event counts as its losses.
#[unsafe(no_mangle)]
pub extern "C" fn nuvaskoe_effective_loss(
    trace: &[u8],
    batch: u32,
    threshold: u32,
    event: u32,
) -> LossNumbers
    ensures { result ≡ loss_by trace.now batch threshold (event_in event) }
{
    let Ok(kind) = Event::try_from(event) else {
        return LossNumbers::from(Err(Refusal::Setting));
    };
    batch::effective_loss(trace, batch, threshold, kind).into()
}

// Writes the smallest resend plan into the front of out, one byte a packet: 1 for a counted packet to resend and 0 for any
// other. With the marked packets received no batch is over the threshold, and no plan of fewer marks does that. The
// bytes after the plan keep what they held. Further refusal: 8, out is shorter than the trace.
#[unsafe(no_mangle)]
pub extern "C" fn nuvaskoe_resend_plan(
    trace: &[u8],
    batch: u32,
    threshold: u32,
    event: u32,
    out: &mut [u8],
) -> MarkCount
    ensures answer { result ≡ plan_by trace.now batch threshold out.old (event_in event) }
    ensures buffer { out.new ≡ plan_after_by trace.now batch threshold out.old (event_in event) }
    ensures best { (kind : Event) → event_in event ≡ Some kind → Plannable (judged trace.now) (length trace.now) batch threshold out.old → Best (counted_at kind trace.now) (length trace.now) batch threshold (take (length trace.now) out.new) }
    ensures count { (kind : Event) → event_in event ≡ Some kind → Plannable (judged trace.now) (length trace.now) batch threshold out.old → result.marks ≡ marks (take (length trace.now) out.new) }
{
    let Ok(kind) = Event::try_from(event) else {
        return MarkCount::from(Err(Refusal::Setting));
    };
    resend::plan(trace, batch, threshold, kind, out).into()
}
