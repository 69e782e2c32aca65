// Replays recorded calls on the additional information of cEMI frames, as compare/README.md lays them out, and writes a line for what each told:
// what the Rust, or an independent reference implementation of 02's rules, answers to the same records is beside it, in `stdout` for the fixed sample.
#![tactic(auto)]

mod calls;

use calls::InfoCalls;
use replay::Calls;

fn main(rt: HostRuntime) {
    InfoCalls.run(&rt, "replay_info < RECORDS");
}
