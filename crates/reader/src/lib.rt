// Records are read from any reader, such as standard input or a file, and a line is printed for each frame; at the end `done` or `cut`, and the count of frames.
//
// What happens at each record is crate stream's; what a line says is crate text's; the two calls of the system are crate ports'. Here bytes are read
// into a buffer and handed on, and lines are written: what waits is written before each read, so that every line is out before the program waits.
// The contract of `log` says what its turns read and hand to each write; that this is the text of the whole stream is crate printed's theorem.
#![tactic(auto)]

ghost use Rattle.std.specs.Prelude.{◌≡◌, ◌+◌, ◌-◌, ◌≤◌, ◌<◌, length, take, drop};
ghost use Rattle.lists.specs.Lists.{put};
ghost use Rattle.text.specs.Text.{Wrote};
ghost use Rattle.ports.specs.Ports.{Handed};
ghost use Rattle.stream.specs.Memory.{stepped_store};
ghost use Rattle.stream.specs.Stream.{step_of};
ghost use Rattle.reader.specs.Run.{Good, Next, Took, Followed, Turned, pending, Short, pushed_of, line_at};
ghost use Rattle.reader.specs.Text.{text_of, last_of};
ghost use Rattle.reader.specs.Turns.{Sizes, Ran, Closed, Finished, Logged};

use lines::Line;
use std::io::{Read, Stdout};
use stream::{End, Event, State, Step};

// The bytes from at to end of the input's buffer are still to be used, and the first put bytes of the output's buffer are still to be
// written. is_going is a flag, as the definitions `Took` and `Turns` have it.
#[derive(Clone, Copy)]
pub struct Run {
    pub at: usize,
    pub end: usize,
    pub put: usize,
    pub is_going: bool,
    pub state: State,
}

// Moves the bytes from at to end to the front, and answers how many they are.
fn slide(buf: &mut [u8], at: usize, end: usize) -> usize
    requires { (at ≤ end) × (end ≤ length buf.old) }
    ensures { (result ≡ end - at) × (buf.new ≡ put buf.old 0 (take result (drop at buf.old))) }
{
    buf.copy_within(at..end, 0);
    end - at
}

// Writes what waits if little room is left, and answers where the next line goes.
fn room(output: Stdout, out: &[u8], waits: usize) -> usize
    requires { (waits ≤ length out.now) × (100 ≤ length out.now) }
    ensures { (result + 100 ≤ length out.now) × (result ≡ line_at out.now waits) × Handed (pushed_of out.now waits) }
{
    if out.len() - waits < 100 {
        ports::flush(output, out, waits)
    } else {
        waits
    }
}

// A frame's line.
fn put_line(out: &mut [u8], at: usize, l: Line) -> usize
    requires { at + 100 ≤ length out.old }
    ensures { Wrote out.old at (text_of l) 100 out.new result }
{
    text::put_line(out, at, l.position, l.number, l.passes, l.dx, l.dy, l.turn)
}

// The last line's text.
fn put_last(out: &mut [u8], at: usize, end: End) -> usize
    requires { at + 100 ≤ length out.old }
    ensures { Wrote out.old at (last_of end) 100 out.new result }
{
    match end {
        End::Done(frames) => text::put_end(out, at, true, frames),
        End::Cut(frames) => text::put_end(out, at, false, frames),
    }
}

// Writes what waits, then reads once, into the room behind the bytes that are still to be used. The run ends if nothing comes.
fn refill<R: Read>(input: &mut R, output: Stdout, run: Run, buf: &mut [u8], out: &[u8]) -> Run
    requires { Good run (length buf.old) (length out.now) × (run.end - run.at < length buf.old) }
    ensures { Next run result (length buf.old) (length out.now) × Took run result buf.old buf.new
        × Handed (take run.put out.now) }
{
    let n = slide(buf, run.at, run.end);
    let put = ports::flush(output, out, run.put);
    let k = ports::fetch(input, buf, n);
    Run {
        at: 0,
        end: n + k,
        put,
        is_going: k > 0,
        ..run
    }
}

// One step of the stream over the bytes that are still to be used.
fn look(run: Run, buf: &[u8], store: &mut [u8], work: &mut [f32], marks: &mut [u64]) -> Step
    requires { (run.at ≤ run.end) × (run.end ≤ length buf.now) × (run.state.frames < 18446744073709551615) }
    ensures value { (result ≡ step_of run.state (pending run buf.now) store.old (length work.old)
        (length marks.old)) × Short run result }
    ensures store_after { store.new ≡ stepped_store run.state (pending run buf.now) store.old }
{
    stream::advance(run.state, &buf[run.at..run.end], store, work, marks)
}

// What comes of a step: nothing, a read, a line, or the end.
fn follow<R: Read>(
    input: &mut R,
    output: Stdout,
    run: Run,
    step: Step,
    buf: &mut [u8],
    out: &mut [u8],
) -> Run
    requires { Good run (length buf.old) (length out.old) × Short run step }
    ensures { Next run result (length buf.old) (length out.old)
        × Followed run result step buf.old buf.new out.old out.new }
{
    let moved = Run {
        at: run.at + step.used,
        is_going: true,
        state: step.state,
        ..run
    };
    match step.event {
        Event::More => refill(input, output, run, buf, out),
        Event::Quiet => moved,
        Event::Print(l) => {
            let here = room(output, out, run.put);
            let put = put_line(out, here, l);
            Run { put, ..moved }
        }
        Event::Broken => Run {
            is_going: false,
            ..moved
        },
    }
}

// One step of the stream, or one read.
// The lent slices are handed on one by one: of a struct of them each function would have to promise, slice by slice, that it still lends the same.
fn turn<R: Read>(
    input: &mut R,
    output: Stdout,
    run: Run,
    buf: &mut [u8],
    out: &mut [u8],
    store: &mut [u8],
    work: &mut [f32],
    marks: &mut [u64],
) -> Run
    requires { Good run (length buf.old) (length out.old) }
    ensures { Next run result (length buf.old) (length out.old)
        × Turned run result buf.old buf.new out.old out.new store.old store.new
        (length work.old) (length marks.old) }
{
    let step = look(run, buf, store, work, marks);
    follow(input, output, run, step, buf, out)
}

// Turn after turn, from the first state, as long as the run goes on.
fn turns<R: Read>(
    input: &mut R,
    output: Stdout,
    buf: &mut [u8],
    out: &mut [u8],
    store: &mut [u8],
    work: &mut [f32],
    marks: &mut [u64],
) -> Run
    requires { Sizes (length buf.old) (length out.old) (length store.old) (length work.old) (length marks.old) }
    ensures { (result.at ≤ result.end) × (result.put ≤ length out.old)
        × Ran 12288 16 buf.old out.old store.old result buf.new out.new
        store.new }
{
    let mut run = Run {
        at: 0,
        end: 0,
        put: 0,
        is_going: true,
        state: stream::fresh(),
    };
    // A proved loop has to end, and nothing says that the input does: there are more turns than any run uses up.
    for _ in 0..u64::MAX {
        if !run.is_going {
            break;
        }
        run = turn(input, output, run, buf, out, store, work, marks);
    }
    run
}

// Puts the last line behind what waits, and answers how many bytes wait with it.
fn close(output: Stdout, run: Run, out: &mut [u8]) -> usize
    requires { (run.at ≤ run.end) × (run.put ≤ length out.old) × (100 ≤ length out.old) }
    ensures { (result ≤ length out.old) × Closed run out.old out.new result }
{
    let end = stream::finish(run.state, run.end - run.at);
    let here = room(output, out, run.put);
    put_last(out, here, end)
}

// The whole stream, but for the last write: answers how many bytes then wait.
fn whole<R: Read>(
    input: &mut R,
    output: Stdout,
    buf: &mut [u8],
    out: &mut [u8],
    store: &mut [u8],
    work: &mut [f32],
    marks: &mut [u64],
) -> usize
    requires { Sizes (length buf.old) (length out.old) (length store.old) (length work.old) (length marks.old) }
    ensures { (result ≤ length out.old)
        × Finished 12288 16 buf.old out.old store.old out.new result }
{
    let run = turns(input, output, buf, out, store, work, marks);
    close(output, run, out)
}

// The whole stream.
pub fn log<R: Read>(input: &mut R, output: Stdout)
    ensures { Logged }
{
    let mut bytes = [0u8; 65536];
    let mut text = [0u8; 65536];
    let mut held = [0u8; 1024];
    let mut floats = [0.0f32; 12288];
    let mut marked = [0u64; 16];
    let buf: &mut [u8] = &mut bytes;
    let out: &mut [u8] = &mut text;
    let store: &mut [u8] = &mut held;
    let work: &mut [f32] = &mut floats;
    let marks: &mut [u64] = &mut marked;
    let waits = whole(input, output, buf, out, store, work, marks);
    ports::flush(output, out, waits);
}
