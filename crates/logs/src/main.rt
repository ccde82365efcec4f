// Runs stored streams of records, one file after another, through what pinlog runs, and prints each one's name and log. The streams and
// what is to be printed come from a model (tools/vectors/streams.rs).
#![tactic(auto)]

use std::fs::File;
use std::io::Print;

// The file's name without its ending, then its log. A write that fails is not told of.
fn show(rt: &HostRuntime, file: &str) {
    let output = rt.stdout();
    let _ = output.write_all(file.strip_suffix(".rec").unwrap_or(file).as_bytes());
    let _ = output.write_all(b"\n");
    match File::open(rt, file) {
        Err(_) => {
            let _ = output.write_all(b"can't be opened\n");
        }
        Ok(mut input) => reader::log(&mut input, output),
    }
}

fn main(rt: HostRuntime) {
    let files = [
        "numbers.rec",
        "nothing_more.rec",
        "one_byte.rec",
        "three_bytes.rec",
        "length_alone.rec",
        "half_a_kind.rec",
        "length_0.rec",
        "length_1.rec",
        "settings_of_13.rec",
        "settings_of_15.rec",
        "settings_cut.rec",
        "frame_of_3.rec",
        "frame_of_0.rec",
        "frame_cut.rec",
        "large_cut.rec",
        "large_whole.rec",
        "other_cut.rec",
        "other_empty.rec",
        "empty.rec",
        "one_byte_last.rec",
        "many_lines.rec",
    ];
    for file in files {
        show(&rt, file);
    }
}
