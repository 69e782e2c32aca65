// Replays recorded calls of services.rs that tunnel, as compare/README.md lays them out, and writes a line for what each told:
// what the Rust answers to the same records, or in KNX's own form an independent reference, is beside it, in `stdout` for the fixed sample.
#![tactic(auto)]

mod calls;

use calls::TunnellingCalls;
use replay::Calls;

fn main(rt: HostRuntime) {
    TunnellingCalls.run(&rt, "replay_tunnelling < RECORDS");
}
