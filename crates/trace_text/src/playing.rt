//! The play of a trace.
ghost use Rattle.std.specs.Prelude.{◌≡◌, replicate, count_by, IfOk};
ghost use Rattle.window_events.specs.Windows.{shown};
ghost use Rattle.trace_text.specs.Plays.{blank, EndsAs, compared, verdict, after, first_wrong, is_event};
ghost use Rattle.trace_text.specs.declared.step.Step.TheVariants as Step;

use crate::{Outcome, Step, Trace};
use std::alloc::{AllocError, Allocator};
use window_events::{Event, Mappings};

/// Returns this many numbers, each 0.
fn zeros<A: Allocator>(alloc: A, count: u32) -> Result<Vec<u64, A>, AllocError>
    ensures { IfOk result (λ zeros. zeros.items ≡ replicate count 0) }
{
    vec![in alloc; 0; count as usize]
}

/// Makes pages and frames of zeros.
fn blank<A: Allocator + Clone>(alloc: A, pages: u32, frames: u32) -> Result<Mappings<A>, AllocError>
    ensures { IfOk result (λ mappings. mappings ≡ blank pages frames) }
{
    let contents = zeros(alloc.clone()?, pages)?;
    let of_frames = zeros(alloc.clone()?, frames)?;
    Mappings::new(alloc, &contents, &of_frames)
}

/// Plays an event, and returns what is wrong with it, if anything.
fn play_event<A: Allocator>(
    mappings: &mut Mappings<A>,
    place: usize,
    event: &Event,
) -> Option<Outcome>
    ensures verdict { result ≡ verdict place mappings.old (Step.Happens event.now) }
    ensures mappings { mappings.new ≡ after mappings.old (Step.Happens event.now) }
{
    if mappings.apply(event) {
        None
    } else {
        Some(Outcome::NotPossible(place))
    }
}

/// Compares what a page shows with what is said of it, and returns what is wrong, if anything.
fn look<A: Allocator>(mappings: &Mappings<A>, place: usize, page: u32, said: u64) -> Option<Outcome>
    ensures { result ≡ compared place page said (shown mappings.now page) }
{
    match mappings.shown(page) {
        None => Some(Outcome::NoPage(place, page)),
        Some(seen) => {
            if seen == said {
                None
            } else {
                Some(Outcome::Differs(place, page, seen, said))
            }
        }
    }
}

/// Plays a step, and returns what is wrong with it, if anything.
fn play_step<A: Allocator>(mappings: &mut Mappings<A>, place: usize, step: &Step) -> Option<Outcome>
    ensures verdict { result ≡ verdict place mappings.old step.now }
    ensures mappings { mappings.new ≡ after mappings.old step.now }
{
    match step {
        Step::Happens(event) => play_event(mappings, place, event),
        Step::Shows(page, said) => look(mappings, place, *page, *said),
    }
}

/// Plays some steps up to the first that isn't right, and returns what is wrong with it, if there is one.
#[tactic(auto, using(crate::proofs::Played::wrong_here, crate::proofs::Played::wrong_later))]
fn first_wrong<A: Allocator>(mappings: &mut Mappings<A>, steps: &[Step]) -> Option<Outcome>
    ensures { result ≡ first_wrong 0 mappings.old steps.now }
{
    for (place, step) in steps.iter().enumerate() {
        let wrong = play_step(mappings, place, step);
        if wrong.is_some() {
            return wrong;
        }
    }
    None
}

impl Step {
    /// Whether the step is an event.
    fn is_event(&self) -> bool
        ensures { result ≡ is_event self.now }
    {
        match self {
            Step::Happens(_) => true,
            Step::Shows(_, _) => false,
        }
    }
}

/// Counts the events.
fn count_events(steps: &[Step]) -> usize
    ensures { result ≡ count_by is_event steps.now }
{
    let mut count = 0;
    for step in steps {
        if step.is_event() {
            count += 1;
        }
    }
    count
}

/// Plays some steps, up to the first that isn't right.
fn play_steps<A: Allocator>(mappings: &mut Mappings<A>, steps: &[Step]) -> Outcome
    ensures { EndsAs mappings.old steps.now result }
{
    match first_wrong(mappings, steps) {
        Some(outcome) => outcome,
        None => {
            let events = count_events(steps);
            Outcome::Right(events, steps.len().saturating_sub(events))
        }
    }
}

/// Plays a trace on pages and frames of zeros, up to the first step that isn't right.
pub fn play<A: Allocator + Clone>(alloc: A, trace: &Trace<A>) -> Result<Outcome, AllocError>
    ensures { IfOk result (λ outcome. EndsAs (blank trace.now.pages trace.now.frames) trace.now.steps.items outcome) }
{
    let mut mappings = blank(alloc, trace.pages, trace.frames)?;
    Ok(play_steps(&mut mappings, trace.steps.as_slice()))
}
