//! The first pass: back from the goal, layer by layer, with no set of an action's own.

ghost use Rattle.std.specs.Prelude.{◌≡◌, ◌⊎◌, ℕ, ◌+◌, ◌<◌, ◌↔◌, ◌++◌, [], ◌∷◌, false, length};
ghost use Rattle.std.specs.Prelude.{IsSome, IsTrue, slice_index_or};
ghost use Rattle.dd_nodes.specs.Subfunctions.{Function};
ghost use Rattle.preimage.specs.WorkingSets.{PreimageFits};
ghost use Rattle.slot_board.specs.Board.{At, Ends, HasNothing, IsSmall, LeadFits, Left, Start, led};
ghost use Rattle.slot_board.specs.Board.{set_at};
ghost use Rattle.plan_theory.specs.Classes.{IsFoundByLayers};
ghost use Rattle.reach_plan.specs.LayerSets.{class_preimage};
ghost use Rattle.reach_plan.specs.Searches.{BeginsRound, HasGrown, HasHits, HasJoined, HasLayer};
ghost use Rattle.reach_plan.specs.Searches.{HasNext, HasRound, RoundLeft, SearchLeft};
ghost use Rattle.reach_plan.specs.Steps.{untaken};
ghost use Rattle.reach_plan.specs.WorkingSets.{BoundsReachSets, first_of};
ghost use Rattle.slot_board.specs.declared.steps.Step.{Step as Noted};
ghost use Rattle.slot_board.specs.declared.steps.Step.TheVariants.{Advance};

use crate::spent::has_all;
use dd_sets::SetErr;
use encode_task::Enc;
use plan_rules::Class;
use preimage::preimages_lead_into_their_sets;
use slot_board::{Board, Operation, Outcomes, Step, is_spent, none_spent, note, note_spent};
use std::alloc::Global;
use task_core::ActionId;

/// The places of the board: a layer,
const LAYER: usize = 0;
/// the next one, as far as it is made,
const NEXT: usize = 1;
/// where an action leads into the layer,
const HITS: usize = 2;
/// and the next layer with that.
const GROWN: usize = 3;

/// What a search goes by: the class of the plan, and how many actions the task has.
#[derive(Clone, Copy)]
pub(crate) struct Aim {
    pub(crate) class: Class,
    pub(crate) actions: u32,
}

/// An action, and the class as which it has to lead into a layer.
#[derive(Clone, Copy)]
struct Leading {
    class: Class,
    action: ActionId,
}

/// What a round of the search came to.
enum Round {
    /// The layer holds every initial state.
    Covered,
    /// It does not, and the next layer is the same set.
    Stable,
    /// It does not, and the next layer is another set, which stands in its place now.
    More,
}

/// Which outcomes have to lead into a layer.
pub(crate) fn outcomes_of(class: Class) -> Outcomes
    ensures led { led result ≡ class_preimage class }
    ensures fits { (start : Start) (a : ℕ) (set : Function)
        → PreimageFits start.width start.task a (first_of class) set → LeadFits start result a set }
{
    match class {
        Class::Weak | Class::Cyclic => Outcomes::Some,
        Class::Strong => Outcomes::Every,
    }
}

/// Joins to the next layer what an action leads into this one, and notes the step unless that was
/// there already.
fn join_hits(
    enc: &mut Enc,
    board: &mut Board,
    steps: &mut Vec<Step>,
    a: ActionId,
) -> Result<(), SetErr>
    requires ready { (start : Start) × (f : Function) × (g : Function) × (hits : Function)
        × HasHits start enc.old board.old.slots.items 0 f untaken g hits }
    requires places { length board.old.slots.items ≡ 4 }
    ensures { (start : Start) (f g hits : Function)
        → HasHits start enc.old board.old.slots.items 0 f untaken g hits
        → Left start enc.new board.new.slots.items (HasJoined start enc.new board.new.slots.items
        f g hits a steps.old.items steps.new.items) result }
{
    board.combine(enc, GROWN, Operation::Join, NEXT, HITS)?;
    if board.is_same(enc, GROWN, NEXT) {
        return Ok(());
    }
    board.copy_of(enc, NEXT, GROWN)?;
    note(steps, Step::Grow(a))
}

/// Joins to the next layer what an action leads into this one, unless the action is spent. Where it
/// leads into this layer from wherever it can be executed, it is spent from now on.
fn grow_by(
    enc: &mut Enc,
    board: &mut Board,
    leading: Leading,
    steps: &mut Vec<Step>,
    spent: &mut Vec<bool>,
) -> Result<(), SetErr>
    requires ready { (start : Start) × (k : ℕ) × (f : Function) × (h : ℕ → Function)
        × HasGrown leading.class start enc.old board.old.slots.items k f h leading.action.0
        steps.old.items spent.old.items }
    requires places { length board.old.slots.items ≡ 4 }
    requires action { leading.action.0 < length enc.old.actions }
    requires long { length spent.old.items ≡ length enc.old.actions }
    ensures { (start : Start) (k : ℕ) (f : Function) (h : ℕ → Function)
        → HasGrown leading.class start enc.old board.old.slots.items k f h leading.action.0
        steps.old.items spent.old.items → Left start enc.new board.new.slots.items
        (HasGrown leading.class start enc.new board.new.slots.items k f h (leading.action.0 + 1)
        steps.new.items spent.new.items) result }
{
    if is_spent(spent, leading.action) {
        return Ok(());
    }
    board.lead(enc, HITS, outcomes_of(leading.class), leading.action, LAYER)?;
    note_spent(
        spent,
        leading.action,
        has_all(enc, board, HITS, leading.action),
    );
    join_hits(enc, board, steps, leading.action)
}

/// Makes the next layer: this one, joined with what each action leads into it.
fn grow(
    enc: &mut Enc,
    board: &mut Board,
    aim: Aim,
    steps: &mut Vec<Step>,
    spent: &mut Vec<bool>,
) -> Result<(), SetErr>
    requires ready { (start : Start) × (k : ℕ) × (f : Function) × (h : ℕ → Function)
        × BeginsRound aim.class start enc.old board.old.slots.items k f h steps.old.items
        spent.old.items }
    requires places { length board.old.slots.items ≡ 4 }
    requires actions { aim.actions ≡ length enc.old.actions }
    ensures { (start : Start) (k : ℕ) (f : Function) (h : ℕ → Function)
        → BeginsRound aim.class start enc.old board.old.slots.items k f h steps.old.items
        spent.old.items → Left start enc.new board.new.slots.items
        (HasGrown aim.class start enc.new board.new.slots.items k f h aim.actions steps.new.items
        spent.new.items) result }
{
    board.copy_of(enc, NEXT, LAYER)?;
    for a in 0..aim.actions {
        let leading = Leading {
            class: aim.class,
            action: ActionId(a),
        };
        grow_by(enc, board, leading, steps, spent)?;
    }
    Ok(())
}

/// Puts the next layer in the place of this one.
fn advance(enc: &mut Enc, board: &mut Board, steps: &mut Vec<Step>) -> Result<(), SetErr>
    requires ready { (start : Start) × (f : Function) × (g : Function)
        × HasNext start enc.old board.old.slots.items 0 f untaken g × IsSmall start g }
    requires places { length board.old.slots.items ≡ 4 }
    ensures { (start : Start) (f g : Function)
        → HasNext start enc.old board.old.slots.items 0 f untaken g → IsSmall start g
        → Left start enc.new board.new.slots.items
        (HasLayer start enc.new board.new.slots.items 0 g untaken
        × (steps.new.items ≡ steps.old.items ++ Advance ∷ [])) result }
{
    board.copy_of(enc, LAYER, NEXT)?;
    note(steps, Step::Advance)
}

/// One round: whether the layer is the last one, and else the next layer in its place.
fn one_round(
    enc: &mut Enc,
    board: &mut Board,
    aim: Aim,
    steps: &mut Vec<Step>,
    spent: &mut Vec<bool>,
) -> Result<Round, SetErr>
    requires ready { (start : Start) × (k : ℕ) × HasRound aim.class start enc.old
        board.old.slots.items k steps.old.items spent.old.items }
    requires places { length board.old.slots.items ≡ 4 }
    requires actions { aim.actions ≡ length enc.old.actions }
    ensures { (start : Start) (k : ℕ) → HasRound aim.class start enc.old board.old.slots.items k
        steps.old.items spent.old.items
        → Ends start enc.new board.new.slots.items (RoundLeft aim.class start
        (set_at enc.old.sets board.old.slots.items 0) enc.new board.new.slots.items k
        steps.new.items spent.new.items) result }
{
    preimages_lead_into_their_sets();
    let covered = board.covers_initial(enc, LAYER)?;
    if covered {
        return Ok(Round::Covered);
    }
    grow(enc, board, aim, steps, spent)?;
    if board.is_same(enc, NEXT, LAYER) {
        return Ok(Round::Stable);
    }
    advance(enc, board, steps)?;
    Ok(Round::More)
}

/// Whether some layer holds every initial state. If one does, the steps are those that lead to the
/// first such layer.
pub(crate) fn search_back(
    alloc: Global,
    enc: &mut Enc,
    board: &mut Board,
    aim: Aim,
    steps: &mut Vec<Step>,
) -> Result<bool, SetErr>
    requires class { IsFoundByLayers aim.class }
    requires goal { IsSome enc.old.goal }
    requires ready { (start : Start) × HasNothing start enc.old board.old.slots.items
        × BoundsReachSets start.width aim.class start.task }
    requires places { length board.old.slots.items ≡ 4 }
    requires actions { aim.actions ≡ length enc.old.actions }
    requires no_steps { steps.old.items ≡ [] }
    ensures { (start : Start) → HasNothing start enc.old board.old.slots.items
        → BoundsReachSets start.width aim.class start.task
        → Ends start enc.new board.new.slots.items
        (SearchLeft aim.class start enc.new board.new.slots.items steps.new.items) result }
{
    let mut spent = none_spent(alloc, aim.actions)?;
    let goal = enc.goal().unwrap();
    board.copy(enc, LAYER, goal)?;
    loop {
        let round = one_round(enc, board, aim, steps, &mut spent)?;
        match round {
            Round::Covered => return Ok(true),
            Round::Stable => return Ok(false),
            Round::More => {},
        }
    }
}
