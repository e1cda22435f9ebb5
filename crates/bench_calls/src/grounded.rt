//! The task and the goal that the files of a domain and a problem spell.

use anyhow::{Result, bail, ensure};
use domain_read::read_domain;
use ground_task::{Grounded, ground};
use pddl_problem::read_problem;
use pddl_system::read_names_are_words;
use sexpr_text::MAX_BYTES;
use std::fs;

/// The task and the goal of `domain.pddl` and `problem.pddl`.
pub(crate) fn grounded_in_files(rt: &HostRuntime) -> Result<Grounded> {
    let domain = fs::read(rt, "domain.pddl")?;
    let problem = fs::read(rt, "problem.pddl")?;
    ensure!(domain.len() <= MAX_BYTES, "too long a domain");
    ensure!(problem.len() <= MAX_BYTES, "too long a problem");
    let domain = match read_domain(rt.alloc(), &domain) {
        Ok(domain) => domain,
        Err(error) => bail!("{error:?}"),
    };
    let problem = match read_problem(rt.alloc(), &problem, &domain) {
        Ok(problem) => problem,
        Err(error) => bail!("{error:?}"),
    };
    read_names_are_words(); // It does nothing: what it promises is used.
    Ok(ground(rt.alloc(), &domain, &problem)?)
}
