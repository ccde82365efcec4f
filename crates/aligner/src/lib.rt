// EccAligner: each frame is aligned with the one before it. The aligner's record goes in and comes back; the bytes of the previous frame
// stand at the front of a store that the caller lends, with work and marks.
//
// Any record, store, frame, sides, work and marks may be handed in. The first checks (2, length, 13) leave record and store as they
// were. After them the frame becomes the previous one, whatever the answer.
#![tactic(auto)]

ghost use Rattle.std.specs.Prelude.{◌≡◌, ◌*◌, ◌≤◌, length, Err};
ghost use Rattle.lists.specs.Lists.{put};
ghost use Rattle.checks.specs.Checks.{size_of};
ghost use Rattle.refusals.specs.Refusals.{checked};
ghost use Rattle.alignment.specs.Aligned.{Leaves};
ghost use Rattle.aligner.specs.Aligner.{fresh_of, entry_of, known_of, begun_of, answer_of, estimate_of, store_after, refused_of};

use pose::Outcome;
use refusals::Refusal;
use settings::{EccConfig, Sides};

// The settings, and the sides of the frame that is remembered, if there is one.
#[derive(Clone, Copy)]
pub struct EccAligner {
    pub cfg: EccConfig,
    pub prev: Option<Sides>,
}

// The aligner after a frame, and the answer.
#[derive(Clone, Copy)]
pub struct Reply {
    pub aligner: EccAligner,
    pub outcome: Outcome,
}

impl EccAligner {
    // Nothing is remembered yet.
    pub fn new(cfg: EccConfig) -> Self
        ensures { result ≡ fresh_of cfg }
    {
        EccAligner { cfg, prev: None }
    }
}

// A refusal before any pass.
fn refused(refusal: Refusal) -> Outcome
    ensures { result ≡ record { passes = 0; answer = Err refusal } }
{
    Outcome {
        passes: 0,
        answer: Err(refusal),
    }
}

// The checks that come first, of a frame and a store by their lengths.
pub fn entry(frame: usize, w: usize, h: usize, store: usize) -> Result<(), Refusal>
    ensures { result ≡ checked (entry_of frame w h store) }
{
    if w > EccConfig::MOST_SIDE {
        return Err(Refusal::SideTooLarge);
    }
    if h > EccConfig::MOST_SIDE {
        return Err(Refusal::SideTooLarge);
    }
    if frame != w * h {
        return Err(Refusal::InvalidInput);
    }
    if store < w * h {
        return Err(Refusal::StoreTooShort);
    }
    Ok(())
}

// Whether there is a previous frame of the same sides.
fn known(aligner: EccAligner, w: usize, h: usize) -> Result<(), Refusal>
    ensures { result ≡ checked (known_of aligner w h) }
{
    let Some(prev) = aligner.prev else {
        return Err(Refusal::NoPrevious);
    };
    if prev.w != w {
        return Err(Refusal::OtherSides);
    }
    if prev.h != h {
        return Err(Refusal::OtherSides);
    }
    Ok(())
}

// The answer to a frame that is taken.
fn answer(
    aligner: EccAligner,
    frame: &[u8],
    w: usize,
    h: usize,
    store: &[u8],
    work: &mut [f32],
    marks: &mut [u64],
) -> Outcome
    requires { (w ≤ 4096) × (h ≤ 4096) × (w * h ≤ length store.now) }
    ensures value { result ≡ answer_of aligner frame.now w h store.now (length work.old) (length marks.old) }
    ensures leaves { let number = begun_of aligner (length frame.now) w h (length work.old) (length marks.old) in
        Leaves number (size_of aligner.cfg w h) work.old work.new marks.old marks.new }
{
    if let Err(refusal) = known(aligner, w, h) {
        return refused(refusal);
    }
    alignment::find_transform_ecc_euclidean(&store[..w * h], frame, w, h, aligner.cfg, work, marks)
}

// The frame's bytes at the front of the store.
fn keep(store: &mut [u8], frame: &[u8])
    requires { length frame.now ≤ length store.old }
    ensures { store.new ≡ put store.old 0 frame.now }
{
    // Byte by byte, so that the archive needs no `memmove` of those who link it (the head of include/quayhollow.h says what it needs).
    for i in 0..frame.len() {
        store[i] = frame[i];
    }
}

pub fn estimate(
    aligner: EccAligner,
    frame: &[u8],
    w: usize,
    h: usize,
    store: &mut [u8],
    work: &mut [f32],
    marks: &mut [u64],
) -> Reply
    ensures value { result ≡ estimate_of aligner frame.now w h store.old (length work.old) (length marks.old) }
    ensures store_after { store.new ≡ store_after frame.now w h store.old }
    ensures leaves { let number = refused_of aligner (length frame.now) w h (length store.old) (length work.old) (length marks.old) in
        Leaves number (size_of aligner.cfg w h) work.old work.new marks.old marks.new }
{
    if let Err(refusal) = entry(frame.len(), w, h, store.len()) {
        return Reply {
            aligner,
            outcome: refused(refusal),
        };
    }
    let outcome = answer(aligner, frame, w, h, store, work, marks);
    keep(store, frame);
    let cfg = aligner.cfg;
    Reply {
        aligner: EccAligner {
            cfg,
            prev: Some(Sides { w, h }),
        },
        outcome,
    }
}
