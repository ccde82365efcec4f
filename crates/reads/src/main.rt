// Prints what `files::fill` makes of a directory, which opens but can't be read, and of stored files, with 16 bytes lent: the name, whether
// every read went well, how many bytes are held, and those bytes. What is to be printed comes from tools/pictures.
#![tactic(auto)]

use std::fs::File;
use std::io::Print;

// A file's line. A write that fails is not told of.
fn show(rt: &HostRuntime, name: &str, buf: &mut [u8]) {
    let output = rt.stdout();
    let _ = output.write_all(name.as_bytes());
    match File::open(rt, name) {
        Err(_) => {
            let _ = output.write_all(b" can't be opened\n");
        }
        Ok(mut input) => {
            let (how, n) = match files::fill(&mut input, buf) {
                Ok(n) => (" read ", n),
                Err(failed) => (" not read ", failed.count),
            };
            let _ = output.print(how);
            let _ = output.print(n);
            let _ = output.write_all(b" ");
            let _ = output.write_all(&buf[..n]);
            let _ = output.write_all(b"\n");
        }
    }
}

fn main(rt: HostRuntime) {
    let mut bytes = [0u8; 16];
    let buf: &mut [u8] = &mut bytes;
    show(&rt, ".", buf);
    show(&rt, "none", buf);
    show(&rt, "empty", buf);
    show(&rt, "short", buf);
    show(&rt, "exact", buf);
    show(&rt, "long", buf);
}
