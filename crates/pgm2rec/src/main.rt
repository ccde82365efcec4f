// Makes records for the program `pinlog` from PGM pictures, on standard output:
//
//     pgm2rec [--eps=DECIMAL] [--max-iter=N] [--filter=N] [--edge=N] PICTURE.. > records
//
// Words are taken in order. A setting holds for the pictures behind it; before the first picture, and behind each change, a settings
// record is written. At the first word that is wrong, or picture that is none, the program says so on standard error and ends; what it has
// written are whole records. A setting behind the last picture is named there too. `--help`, or no word at all, has the usage told.
//
// What the system answers is handed to a function whose contract settles what comes of it: `heard`, `opened`, `filled`, `written`.
#![tactic(auto)]

ghost use Rattle.std.specs.Prelude.{◌≡◌, Bool, ◌&&◌, ◌++◌, ◌+◌, ◌≤◌, ◌<◌, length, is_ok};
ghost use Rattle.std.specs.Io.{WritesAtMost};
ghost use Rattle.lists.specs.Lists.{put};
ghost use Rattle.options.specs.Words.{word_of};
ghost use Rattle.pgm.specs.Pgm.{header_of};
ghost use Rattle.pgm.specs.Frame.{record_of};
ghost use Rattle.files.specs.Fill.{count_of};
ghost use Rattle.pgm2rec.specs.Course.{fresh_run, onward_of, stopped_of, changed_of, written_of, due_of, picture_of, sized_of, File, file_of, file_run, Shown, Opened, Answers, opened_file, taken_run, heard_of, heard_run, WordTold, told_run};
ghost use Rattle.pgm2rec.specs.Whole.{Walked};

use files::Failed;
use options::{Options, Word};
use pgm::Fault;
use std::env::FillError;
use std::fmt::Display;
use std::io::{Error, ErrorKind, Print};
use std::rt::Env;
use std::{fs, io, str};

// Between two words.
#[derive(Clone, Copy)]
struct Run {
    options: Options,
    // The settings are still to be written. They are there, written or not: no Option.
    is_new: bool,
    // The index of the next word.
    next: usize,
    // A flag, as `Walked` has it: what stands beside it is read after the run, too.
    is_going: bool,
}

// Before the first word.
fn fresh() -> Run
    ensures { result ≡ fresh_run }
{
    Run {
        options: Options::defaults(),
        is_new: true,
        next: 1,
        is_going: true,
    }
}

// The word is passed.
fn onward(run: Run) -> Run
    requires { run.next < 18446744073709551615 }
    ensures { result ≡ onward_of run }
{
    Run {
        next: run.next + 1,
        ..run
    }
}

fn stopped(run: Run) -> Run
    ensures { result ≡ stopped_of run }
{
    Run {
        is_going: false,
        ..run
    }
}

// With other settings, which are still to be written.
fn changed(run: Run, options: Options) -> Run
    ensures { result ≡ changed_of run options }
{
    Run {
        options,
        is_new: true,
        is_going: true,
        ..run
    }
}

// After a picture was written, or could not be.
fn written(run: Run, is_out: bool) -> Run
    ensures { result ≡ written_of run is_out }
{
    if !is_out {
        return stopped(run);
    }
    Run {
        is_new: false,
        is_going: true,
        ..run
    }
}

// A line on standard error: what is wrong, and why. A write that fails is not told of.
fn say(rt: &HostRuntime, what: &[u8], why: impl Display + Drop) {
    let errors = rt.stderr();
    let _ = errors.write_all(what);
    let _ = errors.write_all(b": ");
    let _ = errors.println(why);
}

// Such a line, and the run ends.
fn refuse(rt: &HostRuntime, run: Run, what: &[u8], why: impl Display + Drop) -> Run
    ensures { result ≡ stopped_of run }
{
    say(rt, what, why);
    stopped(run)
}

const USAGE: &str =
    "pgm2rec [--eps=DECIMAL] [--max-iter=N] [--filter=N] [--edge=N] PICTURE.. > records";

// Puts the settings at the front of out, if they are new, and answers how many bytes they are.
fn put_due(run: Run, out: &mut [u8]) -> usize
    requires { 20 ≤ length out.old }
    ensures { (result ≡ length (due_of run)) × (out.new ≡ put out.old 0 (due_of run)) }
{
    if !run.is_new {
        return 0;
    }
    let o = run.options;
    encode::put_settings(out, o.eps, o.passes, o.filter, o.edge);
    20
}

// Puts what is due and the picture's frame at the front of out, and answers how many bytes they are, or why the file is no picture.
fn put_picture(run: Run, file: &[u8], out: &mut [u8]) -> Result<usize, Fault>
    requires { length out.old ≡ 65556 }
    ensures value { result ≡ sized_of run (picture_of file.now) }
    ensures out_after { out.new ≡ put out.old 0 (due_of run ++ record_of file.now 65536 (header_of file.now)) }
{
    let k = put_due(run, out);
    let e = k + 65536;
    let n = pgm::put_frame(file, &mut out[k..e])?;
    Ok(k + n)
}

// Writes the records of a picture. Nothing else is written to standard output.
fn write(rt: &HostRuntime, run: Run, bytes: &[u8]) -> Run
    requires { Shown run bytes.now }
    ensures { (is_out : Bool) × (result ≡ written_of run is_out) }
{
    match rt.stdout().write_all(bytes) {
        Ok(()) => written(run, true),
        Err(e) => {
            say(rt, b"standard output", e);
            written(run, false)
        }
    }
}

// What a file's bytes are as a picture: written, or refused.
fn show(rt: &HostRuntime, run: Run, path: &[u8], file: &[u8], out: &mut [u8]) -> Run
    requires { length out.old ≡ 65556 }
    ensures { (is_out : Bool) × (result ≡ file_run run is_out (File.Read file.now)) }
{
    match put_picture(run, file, out) {
        Ok(n) => write(rt, run, &out[..n]),
        Err(why) => refuse(rt, run, path, why),
    }
}

// By how the file was read into the buffer.
fn filled(
    rt: &HostRuntime,
    run: Run,
    path: &[u8],
    file: Result<usize, Failed>,
    buf: &[u8],
    out: &mut [u8],
) -> Run
    requires { (length out.old ≡ 65556) × (count_of file ≤ length buf.now) }
    ensures { (is_out : Bool) × (result ≡ file_run run is_out (file_of file buf.now)) }
{
    match file {
        Err(failed) => refuse(rt, run, path, failed),
        Ok(n) if n == buf.len() => refuse(rt, run, path, "more than 65535 bytes"),
        Ok(n) => show(rt, run, path, &buf[..n], out),
    }
}

// By whether the file could be opened.
fn opened(
    rt: &HostRuntime,
    run: Run,
    path: &[u8],
    input: io::Result<fs::File>,
    buf: &mut [u8],
    out: &mut [u8],
) -> Run
    requires { (length buf.old ≡ 65536) × (length out.old ≡ 65556) }
    ensures { Opened run (is_ok input) buf.new result }
{
    match input {
        Err(e) => refuse(rt, run, path, e),
        Ok(mut file) => {
            let held = files::fill(&mut file, buf);
            filled(rt, run, path, held, buf, out)
        }
    }
}

// Opens the file of that name. std takes a name as text, so one that is not UTF-8 can't be opened.
fn open(rt: &HostRuntime, path: &[u8]) -> io::Result<fs::File> {
    let name = str::from_utf8(path).map_err(|_| Error::new(
        ErrorKind::InvalidInput,
        "the name is not UTF-8",
    ))?;
    fs::File::open(rt, name)
}

// The picture of a file.
fn picture(rt: &HostRuntime, run: Run, path: &[u8]) -> Run
    ensures { (a : Answers) × (result ≡ file_run run a.out (opened_file a.is_open a.file)) }
{
    let mut input = [0u8; 65536];
    let mut output = [0u8; 65556];
    let buf: &mut [u8] = &mut input;
    let out: &mut [u8] = &mut output;
    opened(rt, run, path, open(rt, path), buf, out)
}

// By what the word is.
fn taken(rt: &HostRuntime, run: Run, word: &[u8]) -> Run
    ensures { (a : Answers) × (result ≡ taken_run run a (word_of run.options word.now)) }
{
    match options::take_word(run.options, word) {
        Ok(Word::Settings(options)) => changed(run, options),
        Ok(Word::Picture) => picture(rt, run, word),
        Ok(Word::Help) => refuse(rt, run, b"usage", USAGE),
        Err(why) => refuse(rt, run, word, why),
    }
}

// By whether the word could be had, as the first bytes of a buffer.
fn heard(rt: &HostRuntime, run: Run, word: Result<usize, FillError>, bytes: &[u8]) -> Run
    requires { WritesAtMost word bytes.now }
    ensures { (a : Answers) × (result ≡ heard_run run (heard_of word bytes.now) a) }
{
    match word {
        Err(_) => refuse(rt, run, b"argument", "longer than 4096 bytes"),
        Ok(n) => taken(rt, run, &bytes[..n]),
    }
}

// The next word.
fn turn(rt: &HostRuntime, run: Run) -> Run
    requires { run.next < 18446744073709551615 }
    ensures { (t : WordTold) × (result ≡ told_run run t) }
{
    let mut bytes = [0u8; 4096];
    let word = rt.arg(run.next, &mut bytes);
    heard(rt, onward(run), word, &bytes)
}

// All words, the first of which is the program's own name, as long as the run goes on.
fn words(rt: &HostRuntime, count: usize) -> Run
    ensures { Walked count result }
{
    let mut run = fresh();
    // By hand: the run itself counts the words, and `Walked` speaks of its count.
    while run.next < count && run.is_going {
        run = turn(rt, run);
    }
    run
}

// Whether no picture stood behind the last setting, and nothing was wrong.
fn is_idle(run: Run) -> bool
    ensures { result ≡ run.is_going && run.is_new }
{
    run.is_going && run.is_new
}

// Names the last of count words, the first of which is the program's own name, as a setting; with no other word, tells the usage.
fn say_idle(rt: &HostRuntime, count: usize) {
    if count < 2 {
        say(rt, b"usage", USAGE);
        return;
    }
    let mut bytes = [0u8; 4096];
    let n = rt.arg(count - 1, &mut bytes).unwrap_or(0);
    say(rt, &bytes[..n], "no picture stands behind this setting");
}

// How many words there are, with the program's own name. One that is longer than its buffer is there too.
fn count_words(rt: &HostRuntime) -> usize {
    let mut bytes = [0u8; 1];
    for i in 0..usize::MAX {
        if let Err(FillError::NotPresent) = rt.arg(i, &mut bytes) {
            return i;
        }
    }
    usize::MAX
}

fn main(rt: HostRuntime) {
    let count = count_words(&rt);
    let run = words(&rt, count);
    if is_idle(run) {
        say_idle(&rt, count);
    }
}
