// The exported calls of crate ffi_batch.
// Made by tools/boundary.py from the Rattle source; not edited by hand.
ghost use Rattle.std.specs.Prelude.{◌≡◌, length, take};
ghost use Rattle.trace.specs.declared.Event.{Event};
ghost use Rattle.trace.specs.Events.{event_in};
ghost use Rattle.trace.specs.Trace.{counted_at, judged};
ghost use Rattle.resend.specs.Plans.{marks, Best};
ghost use Rattle.resend.specs.Answer.{Plannable};
ghost use Rattle.ffi_batch.specs.Calls.{loss_by, plan_by, plan_after_by};

use ffi_batch::{LossNumbers, MarkCount};

// As ffi_batch::nuvaskoe_effective_loss.
#[unsafe(no_mangle)]
pub extern "C" fn nuvaskoe_effective_loss(
    trace: &[u8],
    batch: u32,
    threshold: u32,
    event: u32,
) -> LossNumbers
    ensures { result ≡ loss_by trace.now batch threshold (event_in event) }
{
    ffi_batch::nuvaskoe_effective_loss(trace, batch, threshold, event)
}

// As ffi_batch::nuvaskoe_resend_plan.
#[unsafe(no_mangle)]
pub extern "C" fn nuvaskoe_resend_plan(
    trace: &[u8],
    batch: u32,
    threshold: u32,
    event: u32,
    out: &mut [u8],
) -> MarkCount
    ensures answer { result ≡ plan_by trace.now batch threshold out.old (event_in event) }
    ensures buffer { out.new ≡ plan_after_by trace.now batch threshold out.old (event_in event) }
    ensures best { (kind : Event) → event_in event ≡ Some kind → Plannable (judged trace.now) (length trace.now) batch threshold out.old → Best (counted_at kind trace.now) (length trace.now) batch threshold (take (length trace.now) out.new) }
    ensures count { (kind : Event) → event_in event ≡ Some kind → Plannable (judged trace.now) (length trace.now) batch threshold out.old → result.marks ≡ marks (take (length trace.now) out.new) }
{
    ffi_batch::nuvaskoe_resend_plan(trace, batch, threshold, event, out)
}
