// The inspection program once more: the gate runs a program in one way, and this one with the names of captures.
#![tactic(auto)]

fn main(rt: HostRuntime) {
    inspect_io::run(&rt);
}
