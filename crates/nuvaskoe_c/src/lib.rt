// The static library for C: every exported call of the crates ffi_*, under its name and with its clauses.
// Made by tools/boundary.py from the Rattle source; not edited by hand.
#![tactic(auto)]

mod answer_calls;
mod batch_calls;
mod block_calls;
mod card_calls;
mod compose_calls;
mod figures_calls;
mod packed_calls;
mod packet_calls;
mod panel_calls;
mod runs_calls;
mod summary_calls;
mod tally_calls;
