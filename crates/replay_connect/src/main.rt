// Replays recorded calls of services.rs that connect, keep alive and disconnect, and of an Hpai, as compare/README.md lays them out, and writes a line for what each told:
// what the Rust answers to the same records, or for calls that it does not have an independent reference, is beside it, in `stdout` for the fixed sample.
#![tactic(auto)]

mod calls;
mod connect_calls;
mod hpai_calls;

use calls::ConnectCalls;
use replay::Calls;

fn main(rt: HostRuntime) {
    ConnectCalls.run(&rt, "replay_connect < RECORDS");
}
