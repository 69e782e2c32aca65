// The inspection program. The gate runs it as people do, with a capture on standard input and no arguments.
#![tactic(auto)]

fn main(rt: HostRuntime) {
    inspect_io::run(&rt);
}
