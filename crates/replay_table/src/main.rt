// Replays recorded calls on the tunnel table, one table from record to record, as compare/README.md lays them out, and writes a line for what each told:
// what an independent reference implementation of 01's rules answers to the same records is beside it, in `stdout` for the fixed sample.
#![tactic(auto)]

mod calls;

use calls::TableCalls;
use replay::Calls;

fn main(rt: HostRuntime) {
    TableCalls::new().run(&rt, "replay_table < RECORDS");
}
