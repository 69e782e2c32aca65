// Replays recorded calls of cemi.rs on codes, control fields, TPCI and APCI, as compare/README.md lays them out, and writes a line for what each told:
// what the Rust answers to the same records is beside it, in `stdout` for the fixed sample.
#![tactic(auto)]

mod calls;

use calls::CodeCalls;
use replay::Calls;

fn main(rt: HostRuntime) {
    CodeCalls.run(&rt, "replay_cemi < RECORDS");
}
