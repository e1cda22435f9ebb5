//! The actions of a task.

ghost use Rattle.std.specs.Prelude.{◌≡◌, Some, map, true, IfOk, IsSome};
ghost use Rattle.std.specs.List.{list_all};
ghost use Rattle.std.specs.Option.{option_map};
ghost use Rattle.ground_instances.specs.Kept.{instance_of, kept_by};
ghost use Rattle.ground_instances.specs.Tables.{setting_in};
ghost use Rattle.ground_task.specs.Actions.{action_in, action_over};
ghost use Rattle.ground_task.specs.Drafts.{action_tree, draft_trees, drafted};
ghost use Rattle.ground_task.specs.NameWords.{AreWordsOf};
ghost use Rattle.pddl_ast.specs.Values.{domain_value, problem_value};
ghost use Rattle.pddl_system.specs.Values.{action_has_literals, action_value};

use crate::changes::drafted_outcomes;
use crate::conditions::condition;
use crate::drafts::ActionDraft;
use crate::fluents::Fluents;
use crate::names::{Naming, action_name};
use crate::schemas::schema_of;
use ground_instances::Setting;
use std::alloc::{AllocError, Global};
use task_core::GroundAction;

/// The action of an instance, whose outcomes are drafted.
fn action(
    alloc: Global,
    setting: &Setting,
    fluents: &Fluents,
    naming: &Naming<'_>,
    draft: &ActionDraft<'_>,
) -> Result<GroundAction, AllocError>
    requires words { AreWordsOf (domain_value naming.now.domain.now)
        (problem_value naming.now.problem.now) naming.now.words.now }
    requires there { IsSome (instance_of (domain_value naming.now.domain.now)
        draft.now.instance.now) }
    ensures value { IfOk result (λ action. Some (action_value action)
        ≡ option_map (λ instance. action_over (setting_in setting.now) fluents.now
        (domain_value naming.now.domain.now) (problem_value naming.now.problem.now) instance
        (draft_trees draft.now.outcomes.items))
        (instance_of (domain_value naming.now.domain.now) draft.now.instance.now)) }
    ensures says { IfOk result (λ action. action_has_literals action ≡ true) }
{
    let schema = schema_of(naming.domain, draft.instance);
    let name = action_name(alloc, naming, schema, draft.instance)?;
    let mut scope = Vec::from_slice(alloc, &draft.instance.objects)?;
    let exec = condition(alloc, setting, fluents, &schema.precondition, &mut scope)?;
    let outcomes = drafted_outcomes(alloc, setting, fluents, &draft.outcomes)?;
    Ok(GroundAction {
        name,
        exec,
        outcomes,
    })
}

/// The actions of the kept instances, whose outcomes are drafted.
pub(crate) fn actions(
    alloc: Global,
    setting: &Setting,
    fluents: &Fluents,
    naming: &Naming<'_>,
    drafts: &[ActionDraft<'_>],
) -> Result<Vec<GroundAction>, AllocError>
    requires words { AreWordsOf (domain_value naming.now.domain.now)
        (problem_value naming.now.problem.now) naming.now.words.now }
    requires drafts { map (action_tree (domain_value naming.now.domain.now)) drafts.now
        ≡ map (drafted (setting_in setting.now))
        (kept_by (setting_in setting.now) (domain_value naming.now.domain.now)) }
    ensures value { IfOk result (λ actions. map action_value actions.items
        ≡ map (action_in (setting_in setting.now) fluents.now
        (domain_value naming.now.domain.now) (problem_value naming.now.problem.now))
        (kept_by (setting_in setting.now) (domain_value naming.now.domain.now))) }
    ensures says { IfOk result (λ actions. list_all action_has_literals actions.items ≡ true) }
{
    let mut actions = Vec::new(alloc);
    for draft in drafts {
        actions.push(action(alloc, setting, fluents, naming, draft)?)?;
    }
    Ok(actions)
}
