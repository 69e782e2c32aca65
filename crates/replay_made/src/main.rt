// Replays recorded calls of accessors on records that no parse made, as compare/README.md lays them out, and writes a line for what each told:
// what an independent reference implementation of 01's rules answers to the same records is beside it, in `stdout` for the fixed sample.
#![tactic(auto)]

mod borrowing;
mod calls;
mod frames;
mod telegrams;
mod views;

use calls::MadeCalls;
use replay::Calls;

fn main(rt: HostRuntime) {
    MadeCalls.run(&rt, "replay_made < RECORDS");
}
