//! The task as the searches see it: its states by number, where its actions lead, and what is known
//! of dead ends.

use crate::buried::Buried;
use crate::effort::{Allowance, Effort};
use crate::patterns::Patterns;
use mutex_pairs::Exclusions;
use relaxed_task::{Draft, Wave};
use search_space::{
    Actions, Bits, Hope, NONE, Part, Space, States, Stop, Test, at, first_fluents, small,
};
use std::alloc::{AllocError, Global};
use task_core::{Class, Cond, InitSpec, Task, init_states};

/// How many initial states are taken at most.
const MOST_INITIAL: usize = 65_536;

/// The task as the searches see it.
#[derive(Drop)]
pub struct World<'a> {
    pub alloc: Global,
    pub class: Class,
    pub goal: Test<'a>,
    pub actions: Actions<'a>,
    pub space: Space<'a>,
    pub states: States,
    init: &'a InitSpec,
    pub initial: Vec<u32>,
    pub(crate) fluents: u32,
    pub all: Bits,
    /// Patterns of dead ends, and how many dead states have none.
    pub deads: Patterns,
    pub(crate) bare: u32,
    buried: Buried,
    pub(crate) draft: Draft,
    wave: Wave,
    pub effort: Effort,
    pub(crate) exclusions: Option<Exclusions>,
}

impl<'a> World<'a> {
    /// Of a task with a goal; the initial states are met.
    pub fn new(
        alloc: Global,
        task: &'a Task,
        goal: &'a Cond,
        class: Class,
        allowance: &Allowance,
    ) -> Result<World<'a>, Stop> {
        let fluents = small(task.fluents.len()).min(256);
        let actions = Actions::new(alloc, task)?;
        let goal = Test::new(goal);
        let draft = drafted(alloc, fluents, &goal, &actions)?;
        let wave = Wave::new(alloc, &draft, fluents, actions.label_count())?;
        let mut world = World {
            alloc,
            class,
            goal,
            actions,
            space: Space::new(alloc, task)?,
            states: States::new(alloc, allowance.states),
            init: &task.init,
            initial: Vec::new(alloc),
            fluents,
            all: first_fluents(fluents),
            deads: Patterns::new(alloc)?,
            bare: 0,
            buried: Buried::new(alloc),
            draft,
            wave,
            effort: Effort::new(allowance.expanded),
            exclusions: None,
        };
        world.add_initial(task)?;
        Ok(world)
    }

    fn add_initial(&mut self, task: &Task) -> Result<(), Stop> {
        let states = init_states(self.alloc, task, MOST_INITIAL)?;
        for state in &states {
            let number = self.states.number_of(self.alloc, &Bits::of(state))?;
            self.initial.push(number)?;
        }
        Ok(())
    }

    /// The values in the state of a number.
    pub fn bits_of(&self, number: u32) -> Bits {
        self.states.bits_of(number)
    }

    /// Whether a state is in the goal.
    pub fn is_goal(&self, number: u32) -> bool {
        self.goal.holds(&self.states.bits_of(number))
    }

    /// Puts the numbers of the states to which an action's outcomes lead into a list, none for an
    /// outcome that doesn't take place. False where the action can't be executed.
    pub fn outcomes(
        &mut self,
        number: u32,
        action: u32,
        list: &mut Vec<u32>,
    ) -> Result<bool, Stop> {
        list.clear();
        let state = self.states.bits_of(number);
        let Some(of) = self.actions.get(action) else {
            return Ok(false);
        };
        if !of.test.holds(&state) {
            return Ok(false);
        }
        let mut is_some = false;
        for effect in &of.effects {
            let next = effect.after(&state);
            if self.space.keeps(&state, &next) {
                list.push(self.states.number_of(self.alloc, &next)?)?;
                is_some = true;
            } else {
                list.push(NONE)?;
            }
        }
        Ok(is_some)
    }

    /// What is known of a state's way to the goal.
    pub fn hope(&mut self, number: u32) -> Hope {
        let mut note = self.states.note_of(number);
        let count = self.deads.len();
        if note.hope == Hope::Dead || note.looked == count {
            return note.hope;
        }
        if self
            .deads
            .some_from(note.looked, &self.states.bits_of(number))
        {
            note.hope = Hope::Dead;
        }
        note.looked = count;
        self.states.put_note(number, note);
        note.hope
    }

    /// Whether some state of a list is known to have no way to the goal.
    pub fn some_dead(&mut self, list: &[u32]) -> bool {
        for number in list {
            if *number != NONE && self.hope(*number) != Hope::Open {
                return true;
            }
        }
        false
    }

    /// Whether dead ends are known at all.
    pub(crate) fn has_deads(&self) -> bool {
        self.deads.len() > 0 || self.bare > 0
    }

    /// Whether an action can't be executed in a state, or may lead to a dead end.
    pub(crate) fn is_forbidden(
        &mut self,
        number: u32,
        action: u32,
        list: &mut Vec<u32>,
    ) -> Result<bool, Stop> {
        Ok(!self.outcomes(number, action, list)? || self.some_dead(list))
    }

    /// The estimate from a state.
    pub fn estimate(&mut self, number: u32, helpful: bool) -> Result<Option<u32>, Stop> {
        self.effort.spend(1)?;
        let state = self.states.bits_of(number);
        let all = self.all;
        Ok(self.wave.estimate(&state, &all, helpful)?)
    }

    /// Whether the goal can't be had from a state even where the fluents that don't count may have
    /// either value, in the relaxed task.
    pub(crate) fn is_hopeless(&mut self, state: &Bits, care: &Bits) -> Result<bool, Stop> {
        self.effort.spend(1)?;
        Ok(self.wave.estimate(state, care, false)?.is_none())
    }

    /// The outcomes of the last estimate that may come first.
    pub fn helpful(&self) -> &[u32] {
        self.wave.helpful()
    }

    /// Makes estimates by what the relaxed task has become.
    pub(crate) fn renew_estimates(&mut self) -> Result<(), Stop> {
        self.wave = Wave::new(
            self.alloc,
            &self.draft,
            self.fluents,
            self.actions.label_count(),
        )?;
        Ok(())
    }

    /// After an estimate of `None`: the literals that hold wherever anything may lead.
    pub(crate) fn lasting(&self) -> Part {
        self.wave.lasting()
    }

    /// A state as a partial one.
    pub fn whole(&self, number: u32) -> Part {
        Part {
            care: self.all,
            value: self.states.bits_of(number),
        }
    }

    /// Notes a pattern of dead ends, found at a state.
    pub(crate) fn add_dead(&mut self, part: Part, number: u32) -> Result<(), Stop> {
        self.deads.add(part)?;
        self.states.put_hope(number, Hope::Dead);
        let mut set = Vec::new(self.alloc);
        set.push(part)?;
        self.keep_set(set)
    }

    /// Notes a dead end that has no pattern.
    pub fn add_bare(&mut self, number: u32) -> Result<(), Stop> {
        self.bare = self.bare.saturating_add(1);
        self.states.put_hope(number, Hope::Dead);
        let mut set = Vec::new(self.alloc);
        set.push(self.whole(number))?;
        self.keep_set(set)
    }

    /// Keeps a set of dead ends as a step of a certificate, unless these are too many.
    pub(crate) fn keep_set(&mut self, set: Vec<Part>) -> Result<(), Stop> {
        Ok(self.buried.push(set)?)
    }

    /// The sets of dead ends in the order in which they were found: no action leads out of one but
    /// at the risk of an earlier one. `None` where these are too many.
    pub fn buried(&self) -> Option<&[Vec<Part>]> {
        self.buried.sets()
    }

    /// Whether some initial state is a dead end.
    pub fn begins_dead(&mut self) -> bool {
        for place in 0..small(self.initial.len()) {
            let number = at(&self.initial, place);
            if self.hope(number) == Hope::Dead {
                return true;
            }
        }
        false
    }

    /// Finds the pairs of fluents that exclude one another, unless they were found.
    pub fn find_exclusions(&mut self) -> Result<(), Stop> {
        if self.exclusions.is_some() {
            return Ok(());
        }
        self.exclusions = Some(Exclusions::find(
            self.alloc,
            self.fluents,
            self.init,
            &self.actions.moves,
        )?);
        Ok(())
    }

    /// Whether no two true fluents of a partial state exclude one another.
    pub fn is_possible(&self, part: &Part) -> bool {
        match &self.exclusions {
            Some(exclusions) => exclusions.are_possible(&part.value),
            None => true,
        }
    }

    /// A partial state with what its true fluents exclude.
    pub fn completed(&self, part: &Part) -> Part {
        match &self.exclusions {
            Some(exclusions) => exclusions.completed(part),
            None => *part,
        }
    }
}

/// The relaxed task.
fn drafted(
    alloc: Global,
    fluents: u32,
    goal: &Test<'_>,
    actions: &Actions<'_>,
) -> Result<Draft, AllocError> {
    let mut draft = Draft::new(alloc, fluents);
    draft.add_goal(goal)?;
    for (number, action) in actions.moves.iter().enumerate() {
        draft.add_action(action, actions.first_label(small(number)))?;
    }
    Ok(draft)
}
