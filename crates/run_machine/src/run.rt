//! A run of the machine by the turns of a schedule.

ghost use Rattle.std.specs.Prelude.{◌≡◌, ◌≤◌, [], ◌∷◌, IfOk, MatchOption};
ghost use Rattle.clv_worlds.specs.Worlds.{opening};
ghost use Rattle.spv_meaning.specs.Schedule.{numbers_from};
ghost use Rattle.run_machine.specs.Views.{start_by};
ghost use Rattle.run_machine.specs.Machines.{IsAt, RunsTo};

use crate::begin::items_of;
use crate::ending::{Ending, Stepped};
use crate::machine::Machine;
use clv_place::NoMemory;
use std::alloc::Global;
use std::collections::VecDeque;

// The items in the order of their numbers.
#[tactic(auto, using(crate::proofs::Turning::numbering))]
fn all_items(alloc: Global, count: u32) -> Result<VecDeque<u32>, NoMemory>
    ensures { IfOk result (λ q. q.items ≡ numbers_from 0 count) }
{
    let mut queue = VecDeque::new(alloc);
    for item in 0..count {
        queue.push_back(item)?;
    }
    Ok(queue)
}

// The item at the front, which leaves.
fn front(queue: &mut VecDeque<u32>) -> Option<u32>
    ensures { MatchOption result (queue.old.items ≡ []) (λ i. queue.old.items ≡ i ∷ queue.new.items) }
{
    queue.pop_front()
}

impl Machine {
    /// Runs all invocations in turns of so many steps, in a queue, from its beginning until all have ended,
    /// one traps, or the steps of the budget are made. After want of memory nothing is said of the machine.
    #[tactic(auto, using(crate::proofs::Turning::running))]
    pub fn run(&mut self, turn: u32, budget: u64) -> Result<Ending, NoMemory>
        requires turn { 1 ≤ turn }
        requires begins { IsAt self.old (opening (start_by self.old.start).buffers) }
        ensures { IfOk result (RunsTo turn budget self.old self.new) }
    {
        let mut queue = all_items(self.alloc, items_of(&self.start))?;
        let mut left = turn;
        for made in 0..budget {
            let Some(item) = front(&mut queue) else {
                return Ok(Ending::Done { steps: made });
            };
            match self.step(item)? {
                Stepped::Trapped(trap) => {
                    return Ok(Ending::Trap {
                        trap,
                        steps: made + 1,
                    });
                }
                Stepped::Ended => {
                    left = turn;
                }
                Stepped::Went if left == 1 => {
                    queue.push_back(item)?;
                    left = turn;
                }
                Stepped::Went => {
                    queue.push_front(item)?;
                    left -= 1;
                }
            }
        }
        match front(&mut queue) {
            Some(_) => Ok(Ending::Spent),
            None => Ok(Ending::Done { steps: budget }),
        }
    }
}
