//! The run of one work-item.

ghost use Rattle.std.specs.Prelude.{◌≡◌, ◌≤◌, [], IfOk};
ghost use Rattle.cl_meaning.specs.ItemRuns.{IsItemRun};
ghost use Rattle.cl_meaning.specs.Items.{act_of};
ghost use Rattle.cl_meaning.specs.Running.{IsFirst, IsSeen, Moved, Turned, ended, is_undefined, question_in, steps_of};
ghost use Rattle.cl_meaning.specs.Source.{first_item, kernel_of};
ghost use Rattle.cl_meaning.specs.Views.{act_by, item_by, surroundings_by, surroundings_in, task_by, values_of};

use crate::did::{Did, Then};
use crate::item::{Item, Surroundings};
use crate::layouts::Layouts;
use crate::numbering::codes_of;
use crate::start::kernel_of;
use crate::task::{Act, Task};
use cl_tree::{Answer, Event, Outcome, Tree};
use clv_place::{List, NoMemory};
use launch_text::LaunchSizes;
use std::alloc::Global;

/// What one work-item did on a list of answers: the events that were answered, in order; where it stands; and how
/// many steps it made.
#[derive(Drop)]
pub struct ItemRun {
    pub events: List<Event>,
    pub outcome: Outcome,
    pub steps: u64,
}

/// The meaning of typed trees, as a program that follows it.
pub struct Reference;

// The act of a task, and its steps.
fn split(task: Task<'_>) -> (Act<'_>, u64)
    ensures act { act_by result.0 ≡ act_of (task_by task.entry) }
    ensures steps { result.1 ≡ steps_of (task_by task.entry) }
{
    match task {
        Task::Step(act) => (act, 1),
        Task::Quiet(act) => (act, 0),
    }
}

// What a task asks, and what is done with the answer; none where it asks nothing.
fn question(did: Did) -> Option<(Event, Then)>
    ensures { result ≡ question_in did }
{
    match did {
        Did::Picks { bits, then } => Some((Event::Free { bits }, then)),
        Did::Asks { event, then } => Some((event, then)),
        _ => None,
    }
}

fn is_undefined(did: &Did) -> bool
    ensures { result ≡ is_undefined did.now }
{
    match did {
        Did::Undefined => true,
        _ => false,
    }
}

impl<'a> Item<'a> {
    // Makes the next task: what it came to, and its steps. None where there is none.
    fn advance(&mut self, s: Surroundings<'a>) -> Result<Option<(Did, u64)>, NoMemory>
        ensures { IfOk result (λ m. Moved (surroundings_by s.entry) (item_by s.entry.types.now self.old) m (item_by s.entry.types.now self.new)) }
    {
        let Some(task) = self.todo.pop() else {
            return Ok(None);
        };
        let (act, steps) = split(task);
        let did = self.make(s, act)?;
        Ok(Some((did, steps)))
    }
}

impl ItemRun {
    fn begun(alloc: Global) -> ItemRun
        ensures events { result.events ≡ [] }
        ensures steps { result.steps ≡ 0 }
    {
        ItemRun {
            events: List::new(alloc),
            outcome: Outcome::Done,
            steps: 0,
        }
    }

    fn ended(self, outcome: Outcome) -> ItemRun
        ensures { result ≡ ended outcome self }
    {
        ItemRun { outcome, ..self }
    }

    // The next move: makes the item's next task, where the fuel is enough for its step, and answers what it asks. The
    // answer to an event has its number. None where the run goes on; else where it stands.
    fn turn<'a>(
        &mut self,
        s: Surroundings<'a>,
        item: &mut Item<'a>,
        answers: &[Answer],
        fuel: u64,
    ) -> Result<Option<Outcome>, NoMemory>
        requires { self.old.steps ≤ fuel }
        ensures { IfOk result (λ stand. Turned (surroundings_by s.entry) (values_of answers.now) fuel (item_by s.entry.types.now item.old) self.old stand (item_by s.entry.types.now item.new) self.new) }
    {
        let Some((did, steps)) = item.advance(s)? else {
            return Ok(Some(Outcome::Done));
        };
        if is_undefined(&did) {
            return Ok(Some(Outcome::Undefined));
        }
        if fuel - self.steps < steps {
            return Ok(Some(Outcome::Running));
        }
        self.steps += steps;
        let Some((event, then)) = question(did) else {
            return Ok(None);
        };
        let Some(answer) = answers.get(self.events.len()) else {
            return Ok(Some(Outcome::Asks(event)));
        };
        item.answer(s, then, answer.value)?;
        self.events.push(event)?;
        Ok(None)
    }
}

// The run of an item from its first state on.
fn run<'a>(
    s: Surroundings<'a>,
    first: Item<'a>,
    answers: &[Answer],
    fuel: u64,
) -> Result<ItemRun, NoMemory>
    requires seen { IsSeen (surroundings_by s) }
    requires begun { IsFirst (surroundings_by s) (item_by s.types.now first) }
    ensures { IfOk result (λ r. IsItemRun (surroundings_by s.entry) (item_by s.entry.types.now first.entry) (values_of answers.now) fuel r) }
{
    let mut item = first;
    let mut made = ItemRun::begun(s.alloc);
    'turns: loop {
        if let Some(outcome) = made.turn(s, &mut item, answers, fuel)? {
            return Ok(made.ended(outcome));
        }
    }
}

impl Reference {
    /// The run of one work-item of a launch, on a list of answers to what it asks, and at most so many steps. The one
    /// refusal is want of memory.
    pub fn run_item(
        alloc: Global,
        tree: &Tree,
        launch: &LaunchSizes,
        item: u32,
        answers: &List<Answer>,
        fuel: u64,
    ) -> Result<ItemRun, NoMemory>
        ensures { IfOk result (λ r. let s = surroundings_in tree.now launch.now item in IsItemRun s (first_item s (kernel_of launch.now.kernel tree.now.functions)) (values_of answers.now) fuel r) }
    {
        let functions = tree.functions.as_slice();
        let codes = codes_of(alloc, &tree.types, functions)?;
        let types = Layouts::new(alloc, &tree.types)?;
        let s = Surroundings {
            alloc,
            types: &types,
            functions: &codes,
            launch,
            item,
        };
        let kernel = kernel_of(launch.kernel.as_slice(), functions)?;
        run(s, Item::first(s, kernel)?, answers.as_slice(), fuel)
    }
}
