// Replays recorded calls of cemi.rs on L_Data and cEMI frames, and of the L_Data builder, in both counts, as compare/README.md lays them out, and writes a line for what each told:
// what the Rust answers to the same records is beside it, in `stdout` for the fixed sample.
#![tactic(auto)]

mod calls;

use calls::TelegramCalls;
use replay::Calls;

fn main(rt: HostRuntime) {
    TelegramCalls.run(&rt, "replay_ldata < RECORDS");
}
