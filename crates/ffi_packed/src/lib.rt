// Packed traces at the boundary to C: packing and unpacking, and effective loss and the resend plan of words.
#![tactic(auto)]

ghost use Rattle.std.specs.Prelude.{◌≡◌, take};
ghost use Rattle.refusal.specs.Answer.{after};
ghost use Rattle.trace.specs.Events.{event_in};
ghost use Rattle.batch.specs.Loss.{loss_answer};
ghost use Rattle.resend.specs.Plans.{marks, Best};
ghost use Rattle.resend.specs.Answer.{plan_answer, buffer_after, Plannable};
ghost use Rattle.packed.specs.Words.{one_in, bytes_of};
ghost use Rattle.packed.specs.Judging.{judged_packed};
ghost use Rattle.packing.specs.Packing.{unpack_answer};
ghost use Rattle.ffi_answer.specs.Answers.{written_out};
ghost use Rattle.ffi_batch.specs.Answers.{loss_out, marks_out};
ghost use Rattle.ffi_packed.specs.Calls.{pack_by, pack_after_by};

use ffi_answer::WrittenSize;
use ffi_batch::{LossNumbers, MarkCount};
use refusal::Refusal;
use trace::Event;

// Packs a trace into the front of out, by the event that counts: a word for each 64 packets, the last one filled up with zeros. A
// good call answers how many words these are; the words after them keep what they held. Refusals: 15 for the event, 10, 9 for a
// byte above 2, 8.
#[unsafe(no_mangle)]
pub extern "C" fn nuvaskoe_trace_pack(trace: &[u8], event: u32, out: &mut [u64]) -> WrittenSize
    ensures answer { result ≡ written_out (pack_by trace.now out.old (event_in event)) }
    ensures buffer { out.new ≡ pack_after_by trace.now out.old (event_in event) }
{
    let Ok(kind) = Event::try_from(event) else {
        return WrittenSize::from(Err(Refusal::Setting));
    };
    packing::pack(trace, kind, out).into()
}

// Unpacks the words of so many packets into the front of out: a byte a packet, 1 for each one and 0 for each zero. A good call
// answers how many packets these are; the bytes after them keep what they held. Refusals: those of the words, then 8 for out.
#[unsafe(no_mangle)]
pub extern "C" fn nuvaskoe_trace_unpack(
    words: &[u64],
    packets: usize,
    out: &mut [u8],
) -> WrittenSize
    ensures answer { result ≡ written_out (unpack_answer words.now packets out.old) }
    ensures buffer { out.new ≡ after (unpack_answer words.now packets out.old) (bytes_of (one_in words.now) 0 packets) out.old }
{
    packing::unpack(words, packets, out).into()
}

// The effective loss of a packed trace, with its ones as the losses. Refusals: 15, those of the words, 14.
#[unsafe(no_mangle)]
pub extern "C" fn nuvaskoe_packed_loss(
    words: &[u64],
    packets: usize,
    batch: u32,
    threshold: u32,
) -> LossNumbers
    ensures { result ≡ loss_out (loss_answer (judged_packed words.now packets) (one_in words.now) packets batch threshold) }
{
    packed_loss::effective_loss(words, packets, batch, threshold).into()
}

// Writes the smallest resend plan of a packed trace into the front of out, one byte a packet, as nuvaskoe_resend_plan does.
// Refusals: 15, those of the words, 14, 8 for out.
#[unsafe(no_mangle)]
pub extern "C" fn nuvaskoe_packed_plan(
    words: &[u64],
    packets: usize,
    batch: u32,
    threshold: u32,
    out: &mut [u8],
) -> MarkCount
    ensures answer { result ≡ marks_out (plan_answer (judged_packed words.now packets) (one_in words.now) packets batch threshold out.old) }
    ensures buffer { out.new ≡ buffer_after (judged_packed words.now packets) (one_in words.now) packets batch threshold out.old }
    ensures best { Plannable (judged_packed words.now packets) packets batch threshold out.old → Best (one_in words.now) packets batch threshold (take packets out.new) }
    ensures count { Plannable (judged_packed words.now packets) packets batch threshold out.old → result.marks ≡ marks (take packets out.new) }
{
    packed_plan::plan(words, packets, batch, threshold, out).into()
}
