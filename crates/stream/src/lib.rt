// What happens at each record of the program's input: a step goes as far as one record, or as the bytes at hand of a body that is read over.
//
// Any state, bytes, store, work and marks may be handed in, as long as the frame count does not run over. The bytes are those that
// follow what earlier steps used; they may end anywhere.
#![tactic(auto)]

ghost use Rattle.std.specs.Prelude.{◌≡◌, ◌+◌, ◌≤◌, ◌<◌, length};
ghost use Rattle.records.specs.declared.Record.TheVariants.{Frame};
ghost use Rattle.stream.specs.Stream.{state_of, first_state, did, passed_of, over_of, act_of, step_of, StepBounds, end_of};
ghost use Rattle.stream.specs.declared.Event.TheVariants as event;
ghost use Rattle.stream.specs.Memory.{store_by, work_by, marks_by, stepped_store, stepped_work, stepped_marks};

use aligner::EccAligner;
use lines::Line;
use pose::Outcome;
use records::Record;
use refusals::Refusal;
use settings::EccConfig;

// Where the reading stands between two steps.
#[derive(Clone, Copy)]
pub struct State {
    // bytes of a body that are still to be read over
    pub rest: usize,
    // that body is a frame's, which is answered when it is over; a flag, as `past` in crate whole_log has it
    pub large: bool,
    // frames answered
    pub frames: u64,
    pub aligner: EccAligner,
}

// What comes of some bytes.
#[derive(Clone, Copy)]
pub enum Event {
    // More are wanted: none was used.
    More,
    // Nothing is printed.
    Quiet,
    // A frame's line.
    Print(Line),
    // A broken record stands here.
    Broken,
}

// How many bytes were used, what comes of them, and where the reading stands after them.
#[derive(Clone, Copy)]
pub struct Step {
    pub used: usize,
    pub event: Event,
    pub state: State,
}

// The last line, with the count of frames.
#[derive(Clone, Copy)]
pub enum End {
    Done(u64),
    Cut(u64),
}

// The defaults, nothing remembered, no frame.
pub fn fresh() -> State
    ensures { result ≡ first_state }
{
    State {
        rest: 0,
        large: false,
        frames: 0,
        aligner: EccAligner::new(EccConfig::defaults()),
    }
}

// The body of a frame that is too large is over: the frame is answered 13. Its sides are not known, and a refusal does not need them.
fn passed(state: State) -> Step
    requires { state.frames < 18446744073709551615 }
    ensures { result ≡ passed_of state }
{
    let outcome = Outcome {
        passes: 0,
        answer: Err(Refusal::StoreTooShort),
    };
    Step {
        used: state.rest,
        event: Event::Print(lines::line_of(state.frames, outcome, 0, 0)),
        state: State {
            rest: 0,
            large: false,
            frames: state.frames + 1,
            ..state
        },
    }
}

// A body is read over, as far as n bytes go.
fn over(state: State, n: usize) -> Step
    requires { state.frames < 18446744073709551615 }
    ensures { result ≡ over_of state n }
{
    if n == 0 {
        return Step {
            used: 0,
            event: Event::More,
            state,
        };
    }
    if n < state.rest {
        return Step {
            used: n,
            event: Event::Quiet,
            state: State {
                rest: state.rest - n,
                ..state
            },
        };
    }
    if state.large {
        return passed(state);
    }
    Step {
        used: state.rest,
        event: Event::Quiet,
        state: State { rest: 0, ..state },
    }
}

// A frame that is held: its pixels are the size bytes from index 10 on.
fn answer(
    state: State,
    s: &[u8],
    w: usize,
    h: usize,
    size: usize,
    store: &mut [u8],
    work: &mut [f32],
    marks: &mut [u64],
) -> Step
    requires { (state.frames < 18446744073709551615) × (10 + size ≤ length s.now) }
    ensures value { result ≡ act_of state s.now store.old (length work.old) (length marks.old) (Frame w h size) }
    ensures store_after { store.new ≡ store_by s.now store.old (Frame w h size) }
    ensures work_after { (work.new ≡ work_by state s.now (length store.old) work.old (length marks.old)
        (Frame w h size)) × (marks.new ≡
        marks_by state s.now (length store.old) (length work.old) marks.old (Frame w h size)) }
{
    let end = 10 + size;
    let reply = aligner::estimate(state.aligner, &s[10..end], w, h, store, work, marks);
    let aligner = reply.aligner;
    Step {
        used: end,
        event: Event::Print(lines::line_of(state.frames, reply.outcome, w, h)),
        state: State {
            frames: state.frames + 1,
            aligner,
            ..state
        },
    }
}

// A body of n bytes is to be read over.
fn skip(state: State, n: usize, large: bool) -> Step
    ensures { result ≡ did 6 event.Quiet (state_of n large state.frames state.aligner) }
{
    Step {
        used: 6,
        event: Event::Quiet,
        state: State {
            rest: n,
            large,
            ..state
        },
    }
}

// What to do with the bytes at hand.
pub fn advance(
    state: State,
    s: &[u8],
    store: &mut [u8],
    work: &mut [f32],
    marks: &mut [u64],
) -> Step
    requires { state.frames < 18446744073709551615 }
    ensures value { (result ≡ step_of state s.now store.old (length work.old) (length marks.old))
        × StepBounds state s.now result }
    ensures store_after { store.new ≡ stepped_store state s.now store.old }
    ensures work_after { (work.new ≡ stepped_work state s.now (length store.old) work.old
        (length marks.old))
        × (marks.new ≡ stepped_marks state s.now (length store.old) (length work.old)
        marks.old) }
{
    if state.rest != 0 {
        return over(state, s.len());
    }
    let record = records::next(s);
    match record {
        Record::More => Step {
            used: 0,
            event: Event::More,
            state,
        },
        Record::Settings(cfg) => Step {
            used: 20,
            event: Event::Quiet,
            state: State {
                aligner: EccAligner::new(cfg),
                ..state
            },
        },
        Record::Frame { w, h, size } => answer(state, s, w, h, size, store, work, marks),
        Record::Large(n) => skip(state, n, true),
        Record::Other(n) => skip(state, n, false),
        Record::Broken => Step {
            used: 0,
            event: Event::Broken,
            state,
        },
    }
}

// How the printing ends where no step can be taken, with so many bytes left: at the input's end, and at a broken record.
pub fn finish(state: State, left: usize) -> End
    ensures { result ≡ end_of state left }
{
    if state.rest != 0 {
        return End::Cut(state.frames);
    }
    if left != 0 {
        return End::Cut(state.frames);
    }
    End::Done(state.frames)
}
