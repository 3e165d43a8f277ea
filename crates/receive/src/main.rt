// Runs a trace from standard input and prints its lines (01, "Program"). The files stdin and stdout beside src/ are 01's whole case.
#![tactic(auto)]

fn main(rt: HostRuntime) {
    replay::standard_input(&rt);
}
