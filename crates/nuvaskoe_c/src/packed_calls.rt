// The exported calls of crate ffi_packed.
// Made by tools/boundary.py from the Rattle source; not edited by hand.
ghost use Rattle.std.specs.Prelude.{◌≡◌, take};
ghost use Rattle.refusal.specs.Answer.{after};
ghost use Rattle.trace.specs.Events.{event_in};
ghost use Rattle.batch.specs.Loss.{loss_answer};
ghost use Rattle.resend.specs.Plans.{marks, Best};
ghost use Rattle.resend.specs.Answer.{plan_answer, buffer_after, Plannable};
ghost use Rattle.packed.specs.Words.{one_in, bytes_of};
ghost use Rattle.packed.specs.Judging.{judged_packed};
ghost use Rattle.packing.specs.Packing.{unpack_answer};
ghost use Rattle.ffi_answer.specs.Answers.{written_out};
ghost use Rattle.ffi_batch.specs.Answers.{loss_out, marks_out};
ghost use Rattle.ffi_packed.specs.Calls.{pack_by, pack_after_by};

use ffi_answer::WrittenSize;
use ffi_batch::{LossNumbers, MarkCount};

// As ffi_packed::nuvaskoe_trace_pack.
#[unsafe(no_mangle)]
pub extern "C" fn nuvaskoe_trace_pack(trace: &[u8], event: u32, out: &mut [u64]) -> WrittenSize
    ensures answer { result ≡ written_out (pack_by trace.now out.old (event_in event)) }
    ensures buffer { out.new ≡ pack_after_by trace.now out.old (event_in event) }
{
    ffi_packed::nuvaskoe_trace_pack(trace, event, out)
}

// As ffi_packed::nuvaskoe_trace_unpack.
#[unsafe(no_mangle)]
pub extern "C" fn nuvaskoe_trace_unpack(
    words: &[u64],
    packets: usize,
    out: &mut [u8],
) -> WrittenSize
    ensures answer { result ≡ written_out (unpack_answer words.now packets out.old) }
    ensures buffer { out.new ≡ after (unpack_answer words.now packets out.old) (bytes_of (one_in words.now) 0 packets) out.old }
{
    ffi_packed::nuvaskoe_trace_unpack(words, packets, out)
}

// As ffi_packed::nuvaskoe_packed_loss.
#[unsafe(no_mangle)]
pub extern "C" fn nuvaskoe_packed_loss(
    words: &[u64],
    packets: usize,
    batch: u32,
    threshold: u32,
) -> LossNumbers
    ensures { result ≡ loss_out (loss_answer (judged_packed words.now packets) (one_in words.now) packets batch threshold) }
{
    ffi_packed::nuvaskoe_packed_loss(words, packets, batch, threshold)
}

// As ffi_packed::nuvaskoe_packed_plan.
#[unsafe(no_mangle)]
pub extern "C" fn nuvaskoe_packed_plan(
    words: &[u64],
    packets: usize,
    batch: u32,
    threshold: u32,
    out: &mut [u8],
) -> MarkCount
    ensures answer { result ≡ marks_out (plan_answer (judged_packed words.now packets) (one_in words.now) packets batch threshold out.old) }
    ensures buffer { out.new ≡ buffer_after (judged_packed words.now packets) (one_in words.now) packets batch threshold out.old }
    ensures best { Plannable (judged_packed words.now packets) packets batch threshold out.old → Best (one_in words.now) packets batch threshold (take packets out.new) }
    ensures count { Plannable (judged_packed words.now packets) packets batch threshold out.old → result.marks ≡ marks (take packets out.new) }
{
    ffi_packed::nuvaskoe_packed_plan(words, packets, batch, threshold, out)
}
