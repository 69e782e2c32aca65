// Replays recorded calls of frame.rs, as compare/README.md lays them out, and writes a line for what each told:
// what the Rust answers to the same records is beside it, in `stdout` for the fixed sample.
#![tactic(auto)]

mod calls;

use calls::FrameCalls;
use replay::Calls;

fn main(rt: HostRuntime) {
    FrameCalls.run(&rt, "replay_frame < RECORDS");
}
