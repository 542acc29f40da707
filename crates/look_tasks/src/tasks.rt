//! What comes next in a look.
ghost use Rattle.std.specs.Prelude.{◌≡◌, true, false};
ghost use Rattle.look_tasks.specs.Steps.{step_of, steps_of};
ghost use Rattle.look_tasks.specs.declared.task.Sharing.TheVariants.{Gathers};
ghost use Rattle.look_tasks.specs.Tasks.{asked_then, attended, batch_task, begun_then, came_to, done_then, entered, first_task, flushes, is_due, later_task, later_then, look_begun, looked_at, or_task, rests, shared_then, sharing_of, stage_of, stage_task, stage_then, stepped_in, task_in, task_of, tasks_of, with_found};

use crate::{
    ATTEND_NS, BATCH, LookSteps, LookTasks, NAP_NS, Sharing, Stage, Step, Task, TaskOutcome,
};

// Returns the number of a stage.
fn stage_number(stage: Stage) -> u8
    ensures { stage_of result ≡ stage }
{
    match stage {
        Stage::Rests => 0,
        Stage::Begins => 1,
        Stage::Windows => 2,
        Stage::Parts => 3,
        Stage::Returns => 4,
        Stage::Ends => 5,
    }
}

// Returns the number of what is done next with the idle pages.
fn sharing_number(sharing: Sharing) -> u8
    ensures { sharing_of result ≡ sharing }
{
    match sharing {
        Sharing::Gathers => 0,
        Sharing::Copies => 1,
        Sharing::Lends => 2,
        Sharing::Holds => 3,
    }
}

// Returns the stage with this number.
fn stage_of(number: u8) -> Stage
    ensures { result ≡ stage_of number }
{
    match number {
        1 => Stage::Begins,
        2 => Stage::Windows,
        3 => Stage::Parts,
        4 => Stage::Returns,
        5 => Stage::Ends,
        _ => Stage::Rests,
    }
}

// Returns what is done next with the idle pages, by its number.
fn sharing_of(number: u8) -> Sharing
    ensures { result ≡ sharing_of number }
{
    match number {
        1 => Sharing::Copies,
        2 => Sharing::Lends,
        3 => Sharing::Holds,
        _ => Sharing::Gathers,
    }
}

// Returns whether no look stands in this stage.
fn rests(stage: Stage) -> bool
    ensures { result ≡ rests stage }
{
    match stage {
        Stage::Rests => true,
        Stage::Begins => false,
        Stage::Windows => false,
        Stage::Parts => false,
        Stage::Returns => false,
        Stage::Ends => false,
    }
}

// Returns whether all that was found is dealt with in this stage before the look goes on.
fn flushes(stage: Stage) -> bool
    ensures { result ≡ flushes stage }
{
    match stage {
        Stage::Rests => false,
        Stage::Begins => false,
        Stage::Windows => true,
        Stage::Parts => false,
        Stage::Returns => true,
        Stage::Ends => true,
    }
}

// Returns whether so many pages are dealt with now.
fn is_due(all: bool, pages: u32) -> bool
    ensures { result ≡ is_due all pages }
{
    pages > 0 && (all || pages >= BATCH)
}

// Returns the first of these tasks, or the other one if there is none.
fn or_task(first: Option<Task>, task: Task) -> Task
    ensures { result ≡ or_task first task }
{
    match first {
        Some(first) => first,
        None => task,
    }
}

impl LookTasks {
    // Returns its stage.
    fn stage(&self) -> Stage
        ensures { result ≡ (tasks_of self.now).stage }
    {
        stage_of(self.stage)
    }

    // Returns what is done next with the idle pages.
    fn sharing(&self) -> Sharing
        ensures { result ≡ (tasks_of self.now).sharing }
    {
        sharing_of(self.sharing)
    }

    // Returns what is done next with pages that were found while idle ones are gathered.
    fn gathered_task(&self, all: bool) -> Option<Task>
        ensures { result ≡ batch_task all (tasks_of self.now) Gathers }
    {
        if is_due(all, self.zeros) {
            return Some(Task::GiveBack);
        }
        if is_due(all, self.idle) {
            return Some(Task::Ask);
        }
        None
    }

    // Returns what is done next with the pages that were found: with all of them, or with as many as a batch has.
    fn batch_task(&self, all: bool) -> Option<Task>
        ensures { result ≡ batch_task all (tasks_of self.now) (tasks_of self.now).sharing }
    {
        match self.sharing() {
            Sharing::Gathers => self.gathered_task(all),
            Sharing::Copies => Some(Task::Copy),
            Sharing::Lends => Some(Task::Lend),
            Sharing::Holds => Some(Task::Hold),
        }
    }

    // Returns what comes before the look goes on.
    fn first_task(&self, now: u64, wait: u64) -> Option<Task>
        ensures { result ≡ first_task (tasks_of self.now) now wait }
    {
        let stage = self.stage();
        if rests(stage) {
            return Some(Task::Over);
        }
        if now >= self.attend_ns {
            return Some(Task::Attend);
        }
        if wait > 0 {
            return Some(Task::Sleep(wait.min(NAP_NS)));
        }
        self.batch_task(flushes(stage))
    }

    // Comes to the next step in a window, and returns its task.
    fn next_in_window(&mut self, now: u64) -> Task
        ensures task { result ≡ task_in (tasks_of self.old) (step_of (steps_of self.old.steps) now) }
        ensures tasks { tasks_of self.new ≡ stepped_in (tasks_of self.old) now (step_of (steps_of self.old.steps) now) }
    {
        let batch = self.batch_task(true);
        match self.steps.next(now) {
            Step::Look(part) => Task::Look(part),
            Step::Return(part) => {
                self.part = part;
                self.stage = stage_number(Stage::Returns);
                or_task(batch, Task::Return(part))
            }
            Step::Over => {
                self.stage = stage_number(Stage::Windows);
                or_task(batch, Task::Window)
            }
        }
    }

    // Goes on with the look, and returns its task.
    fn stage_task(&mut self, now: u64) -> Task
        ensures task { result ≡ stage_task (tasks_of self.old) now (tasks_of self.old).stage }
        ensures tasks { tasks_of self.new ≡ stage_then (tasks_of self.old) now (tasks_of self.old).stage }
    {
        match self.stage() {
            Stage::Rests => Task::Over,
            Stage::Begins => Task::Begin,
            Stage::Windows => Task::Window,
            Stage::Parts => self.next_in_window(now),
            Stage::Returns => Task::Return(self.part),
            Stage::Ends => Task::End,
        }
    }

    // Releases slots, or goes on with the look. Returns the task.
    fn later_task(&mut self, now: u64) -> Task
        ensures task { result ≡ later_task (tasks_of self.old) now }
        ensures tasks { tasks_of self.new ≡ later_then (tasks_of self.old) now }
    {
        if self.releases {
            return Task::Release;
        }
        self.stage_task(now)
    }

    /// Begins a look. Returns false, and changes nothing, if one stands.
    pub fn begin(&mut self) -> bool
        ensures begun { result ≡ rests (tasks_of self.old).stage }
        ensures tasks { rests (tasks_of self.old).stage ≡ true → tasks_of self.new ≡ look_begun }
        ensures same { rests (tasks_of self.old).stage ≡ false → self.new ≡ self.old }
    {
        if !rests(self.stage()) {
            return false;
        }
        *self = LookTasks {
            steps: LookSteps::begin(0),
            attend_ns: 0,
            part: 0,
            zeros: 0,
            idle: 0,
            stage: stage_number(Stage::Begins),
            sharing: sharing_number(Sharing::Gathers),
            releases: false,
        };
        true
    }

    /// Returns what is done next, where the clock reads `now` and the thread has to sleep for `wait` nanoseconds before it may work; 0: it may
    /// work. Until it is [`done`](LookTasks::done) the same comes again, but for a step in a window.
    pub fn next(&mut self, now: u64, wait: u64) -> Task
        ensures task { result ≡ task_of (tasks_of self.old) now wait }
        ensures tasks { tasks_of self.new ≡ asked_then (tasks_of self.old) now wait }
    {
        match self.first_task(now, wait) {
            Some(task) => task,
            None => self.later_task(now),
        }
    }

    // Takes what was found, and what is done next with the idle pages.
    fn found(&mut self, outcome: &TaskOutcome, sharing: Sharing)
        ensures { tasks_of self.new ≡ with_found (tasks_of self.old) outcome.now sharing }
    {
        self.zeros = outcome.zeros;
        self.idle = outcome.idle;
        self.sharing = sharing_number(sharing);
    }

    // Takes what was found, and whether pages are left for what comes then.
    fn shared(&mut self, outcome: &TaskOutcome, then: Sharing)
        ensures { tasks_of self.new ≡ shared_then (tasks_of self.old) outcome.now then }
    {
        let sharing = if outcome.goes_on {
            then
        } else {
            Sharing::Gathers
        };
        self.found(outcome, sharing);
    }

    // Takes what a look at a part found.
    fn looked(&mut self, part: u32, outcome: &TaskOutcome, now: u64)
        ensures { tasks_of self.new ≡ looked_at (tasks_of self.old) part outcome.now now }
    {
        let _is_added = self.steps.looked(part, now, outcome.rests, outcome.young);
        self.zeros = outcome.zeros;
        self.idle = outcome.idle;
        let stage = if outcome.goes_on {
            Stage::Parts
        } else {
            Stage::Windows
        };
        self.stage = stage_number(stage);
    }

    // Comes to a window, or to the look's end if there is none.
    fn enter(&mut self, outcome: &TaskOutcome)
        ensures { tasks_of self.new ≡ entered (tasks_of self.old) outcome.now }
    {
        if outcome.goes_on {
            self.steps = LookSteps::begin(outcome.parts);
            self.stage = stage_number(Stage::Parts);
        } else {
            self.stage = stage_number(Stage::Ends);
            self.releases = true;
        }
    }

    // Begins with the windows, or ends.
    fn begun(&mut self, goes_on: bool)
        ensures { tasks_of self.new ≡ begun_then (tasks_of self.old) goes_on }
    {
        let stage = if goes_on { Stage::Windows } else { Stage::Ends };
        self.stage = stage_number(stage);
    }

    // Notes that it was attended to what may not wait.
    fn attended(&mut self, goes_on: bool, now: u64)
        ensures { tasks_of self.new ≡ attended (tasks_of self.old) goes_on now }
    {
        self.attend_ns = now.saturating_add(ATTEND_NS);
        self.releases = true;
        if !goes_on {
            self.stage = stage_number(Stage::Ends);
        }
    }

    // Takes what came of a task of a look that stands.
    fn came_to(&mut self, task: Task, outcome: &TaskOutcome, now: u64)
        ensures { tasks_of self.new ≡ came_to (tasks_of self.old) task outcome.now now }
    {
        match task {
            Task::Over => {}
            Task::Sleep(_) => {}
            Task::Begin => self.begun(outcome.goes_on),
            Task::Attend => self.attended(outcome.goes_on, now),
            Task::Release => self.releases = outcome.goes_on,
            Task::Window => self.enter(outcome),
            Task::Look(part) => self.looked(part, outcome, now),
            Task::Return(part) => self.looked(part, outcome, now),
            Task::GiveBack => self.found(outcome, self.sharing()),
            Task::Ask => self.shared(outcome, Sharing::Copies),
            Task::Copy => self.shared(outcome, Sharing::Lends),
            Task::Lend => self.shared(outcome, Sharing::Holds),
            Task::Hold => self.shared(outcome, Sharing::Holds),
            Task::End => self.stage = stage_number(Stage::Rests),
        }
    }

    /// Takes what came of a task, where the clock reads `now`. While no look stands nothing changes.
    pub fn done(&mut self, task: Task, outcome: &TaskOutcome, now: u64)
        ensures { tasks_of self.new ≡ done_then (tasks_of self.old) task outcome.now now }
    {
        if !rests(self.stage()) {
            self.came_to(task, outcome, now);
        }
    }
}
