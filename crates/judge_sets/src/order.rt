//! In which order a verdict tries the actions of a task.

ghost use Rattle.std.specs.Prelude.{◌≡◌};

use crate::followers::Followers;
use plan_rules::Rule;
use std::alloc::{AllocError, Global};
use task_core::{ActionId, Task};

/// How many actions a task has, and which of them are tried first, in this order. The order decides how
/// long a verdict takes, and not what it says.
#[derive(Drop)]
pub(crate) struct Order {
    pub(crate) actions: u32,
    pub(crate) first: Vec<ActionId>,
}

/// The actions of rules, each after those that may be taken right after it, as far as they form no
/// circle: what grows backward along the steps of the rules then comes to the end in few sweeps, where
/// the order of the task may take a pass for each step of a way. Where memory is short, no action is
/// tried first.
pub(crate) fn order_of(alloc: Global, task: &Task, rules: &[Rule], actions: u32) -> Order
    ensures { result.actions ≡ actions }
{
    let first = match last_ones_first(alloc, task, rules, actions) {
        Ok(list) => list,
        Err(_) => Vec::new(alloc),
    };
    Order { actions, first }
}

fn last_ones_first(
    alloc: Global,
    task: &Task,
    rules: &[Rule],
    actions: u32,
) -> Result<Vec<ActionId>, AllocError> {
    let mut followers = Followers::new(task, rules);
    let mut walk = Walk::new(alloc, actions)?;
    for rule in rules {
        walk.go_from(alloc, &mut followers, rule.action)?;
    }
    Ok(walk.left)
}

/// A walk from action to action, each once, to those that may be taken right after it.
#[derive(Drop)]
struct Walk {
    /// By action: whether it was met, what may be taken after it, and how many of these were looked at.
    met: Vec<bool>,
    followers: Vec<Vec<ActionId>>,
    looked: Vec<usize>,
    /// The way from the first action to where the walk is, and the actions that it left.
    way: Vec<ActionId>,
    left: Vec<ActionId>,
}

impl Walk {
    fn new(alloc: Global, actions: u32) -> Result<Walk, AllocError> {
        let mut followers = Vec::new(alloc);
        for _ in 0..actions {
            followers.push(Vec::new(alloc))?;
        }
        Ok(Walk {
            met: vec![in alloc; false; actions as usize]?,
            followers,
            looked: vec![in alloc; 0; actions as usize]?,
            way: Vec::new(alloc),
            left: Vec::new(alloc),
        })
    }

    /// Goes wherever it comes from an action, and leaves each action once all after it were met.
    fn go_from(
        &mut self,
        alloc: Global,
        followers: &mut Followers<'_>,
        first: ActionId,
    ) -> Result<(), AllocError> {
        self.meet(alloc, followers, first)?;
        for _ in 0..u64::MAX {
            let Some(action) = self.last() else {
                break;
            };
            match self.next_after(action) {
                Some(next) => self.meet(alloc, followers, next)?,
                None => {
                    let _ = self.way.pop();
                    self.left.push(action)?;
                },
            }
        }
        Ok(())
    }

    /// Meets an action, unless it was met: the way goes on there.
    fn meet(
        &mut self,
        alloc: Global,
        followers: &mut Followers<'_>,
        action: ActionId,
    ) -> Result<(), AllocError> {
        if !self.is_new(action) {
            return Ok(());
        }
        let list = followers.of(alloc, action)?;
        if let Some(place) = self.followers.get_mut(action.0 as usize) {
            *place = list;
        }
        self.way.push(action)?;
        Ok(())
    }

    /// Marks an action as met. Tells whether it wasn't, and is an action of the task.
    fn is_new(&mut self, action: ActionId) -> bool {
        match self.met.get_mut(action.0 as usize) {
            Some(met) => {
                let is_new = !*met;
                *met = true;
                is_new
            },
            None => false,
        }
    }

    fn last(&self) -> Option<ActionId> {
        match self.way.last() {
            Some(action) => Some(*action),
            None => None,
        }
    }

    /// The next one of those that may be taken after an action.
    fn next_after(&mut self, action: ActionId) -> Option<ActionId> {
        let place = self.looked_at(action);
        let next = self.follower(action, place);
        if let Some(count) = self.looked.get_mut(action.0 as usize) {
            *count = place.saturating_add(1);
        }
        next
    }

    fn looked_at(&self, action: ActionId) -> usize {
        match self.looked.get(action.0 as usize) {
            Some(count) => *count,
            None => 0,
        }
    }

    fn follower(&self, action: ActionId, place: usize) -> Option<ActionId> {
        match self.followers.get(action.0 as usize) {
            Some(list) => match list.get(place) {
                Some(next) => Some(*next),
                None => None,
            },
            None => None,
        }
    }
}
