//! The texts that `drill` makes are read and grounded, whatever their size; and a plan for one of them
//! is found with the help of what operations have answered before.
ghost use Rattle.encode_task.specs.Made.{MadeOf};
ghost use Rattle.std.specs.Prelude.{IsSome};

use cyclic_plan::plan_cyclic;
use encode_task::{Enc, encode};
use ground_task::{Grounded, ground};
use pddl_domain::read_domain;
use pddl_problem::read_problem;
use pddl_system::read_names_are_words;
use sexpr_text::MAX_BYTES;
use std::alloc::Global;
use std::test::Fail;
use task_core::Task;
use task_gen::{Generated, corridor, tyres};

/// What the texts are grounded to, if they are read.
fn grounded(alloc: Global, texts: &Generated) -> Option<Grounded> {
    // This does nothing: that names are words rests on what it promises.
    read_names_are_words();
    if texts.domain.len() > MAX_BYTES || texts.problem.len() > MAX_BYTES {
        return None;
    }
    let Ok(domain) = read_domain(alloc, &texts.domain) else {
        return None;
    };
    let Ok(problem) = read_problem(alloc, &texts.problem, &domain) else {
        return None;
    };
    let Ok(grounded) = ground(alloc, &domain, &problem) else {
        return None;
    };
    Some(grounded)
}

/// Whether the texts are read and grounded, to so many fluents and actions.
fn is_grounded(alloc: Global, texts: &Generated, fluents: usize, actions: usize) -> bool {
    match grounded(alloc, texts) {
        Some(grounded) => {
            grounded.task.fluents.len() == fluents && grounded.task.actions.len() == actions
        }
        None => false,
    }
}

/// Whether a strong cyclic plan is looked for with some answer of the cache of operations.
fn is_helped(alloc: Global, task: &Task, enc: &mut Enc) -> bool
    requires made { MadeOf task.now enc.old }
    requires goal { IsSome task.now.goal }
{
    plan_cyclic(alloc, task, enc).is_ok() && enc.sets().hits() > 0
}

/// The same, with the task's sets made.
fn is_helped_anew(alloc: Global, task: &Task) -> bool {
    if task.goal.is_none() {
        return false;
    }
    match encode(alloc, task, 1_048_576) {
        Ok(mut enc) => is_helped(alloc, task, &mut enc),
        Err(_) => false,
    }
}

fn has_hits(alloc: Global, texts: &Generated) -> bool {
    match grounded(alloc, texts) {
        Some(grounded) => is_helped_anew(alloc, &grounded.task),
        None => false,
    }
}

#[test]
fn every_corridor_is_grounded(rt: HostRuntime) -> Result<(), Fail> {
    for size in 2..121u32 {
        let texts = corridor(rt.alloc(), size)?;
        let rooms = size as usize;
        assert!(rt; is_grounded(rt.alloc(), &texts, rooms, rooms - 1), "{size}");
    }
    Ok(())
}

#[test]
fn every_road_is_grounded(rt: HostRuntime) -> Result<(), Fail> {
    for size in 2..121u32 {
        let texts = tyres(rt.alloc(), size)?;
        let places = size as usize;
        assert!(rt;
            is_grounded(rt.alloc(), &texts, 2 * places - 1, 2 * places - 2),
            "{size}"
        );
    }
    Ok(())
}

#[test]
fn the_cache_of_operations_answers(rt: HostRuntime) -> Result<(), Fail> {
    let texts = corridor(rt.alloc(), 40)?;
    assert!(rt; has_hits(rt.alloc(), &texts));
    Ok(())
}
