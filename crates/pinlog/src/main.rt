// pinlog: reads records from standard input and prints a line for each frame; at the end `done` or `cut`, and the count of frames.
#![tactic(auto)]

fn main(rt: HostRuntime) {
    reader::log(&mut rt.stdin(), rt.stdout());
}
