//! That there is no plan, by a certificate that a search hands on and that is judged here.

ghost use Rattle.command_base.specs.Words.{IsNodeLimit};
ghost use Rattle.encode_task.specs.Made.{MadeOf};
ghost use Rattle.plan_certs.specs.Certificates.{IsAccepted};
ghost use Rattle.control_command.specs.Judged.{IsCertificateOver, IsNoPlanTold};
ghost use Rattle.plan_certs.specs.Named.{
  AreSetsOf,
  IsCertificateOf,
  IsSetOf,
  MayHave,
  cube_of,
  plain_certificate,
  set_of,
};
ghost use Rattle.plan_rules.specs.Plans.{IsCubeOf};
ghost use Rattle.std.specs.Prelude.{◌≡◌, IfOk, IsSome, IsTrue, map, true};
ghost use Rattle.task_core.specs.Tasks.{fluent_count, fluent_names, system_of};

use cert_check::{Judged, refute};
use command_base::Text;
use dd_sets::SetErr;
use encode_task::Enc;
use plan_certs::{Certificate, StateSet};
use plan_command::certified_text;
use std::alloc::{AllocError, Global};
use task_core::{Class, Lit, Task};
use task_sets::{SetSearch, search_in_tries};

/// The certificate of a class with these sets, of cubes.
pub(crate) fn certificate_of(
    alloc: Global,
    class: Class,
    sets: Vec<Vec<Vec<Lit>>>,
) -> Result<Certificate, AllocError>
    ensures { IfOk result (λ certificate. certificate.class ≡ class) }
{
    let mut state_sets = Vec::new(alloc);
    for cubes in sets {
        state_sets.push(StateSet { cubes })?;
    }
    Ok(Certificate {
        class,
        sets: state_sets,
    })
}

/// The verdict on a certificate, with so many nodes.
#[derive(Clone, Copy)]
struct CertificateJudge<'a> {
    nodes: u32,
    certificate: &'a Certificate,
}

impl SetSearch for CertificateJudge<'_> {
    ghost use Rattle.control_command.specs.Judged.{IsCertificateOver};
    ghost use Rattle.plan_certs.specs.Certificates.{IsAccepted};
    ghost use Rattle.plan_certs.specs.Named.{plain_certificate};
    ghost use Rattle.std.specs.Prelude.{IsTrue, ⊤};
    ghost use Rattle.task_core.specs.Tasks.{system_of};

    /// Whether it is accepted.
    type Found = bool;

    ghost nodes = { λ self. self.nodes };

    ghost fits = { λ self task. IsCertificateOver task (plain_certificate self.certificate.now) };

    ghost finds = { λ self task is. IsTrue is
        → IsAccepted (system_of task) (plain_certificate self.certificate.now) };

    ghost lacks_room = { λ self task before after. ⊤ };

    fn nodes(&self) -> u32 {
        self.nodes
    }

    fn find(&self, alloc: Global, task: &Task, enc: &mut Enc) -> Result<bool, SetErr> {
        is_accepted_over(alloc, task, enc, self.certificate)
    }
}

/// Whether a certificate is accepted, as far as so many nodes are enough to find it out.
pub(crate) fn is_accepted(alloc: Global, nodes: u32, task: &Task, certificate: &Certificate) -> bool
    requires room { IsNodeLimit nodes }
    requires goal { IsSome task.now.goal }
    requires in_task { AreSetsOf (fluent_count task.now) (plain_certificate certificate.now).sets }
    ensures { IsTrue result
        → IsAccepted (system_of task.now) (plain_certificate certificate.now) }
{
    let wanted = CertificateJudge { nodes, certificate };
    match judged_certificate(alloc, task, &wanted) {
        Ok(is) => is,
        Err(_) => false,
    }
}

/// Whether a certificate is accepted. It isn't where there is no initial state.
fn judged_certificate(
    alloc: Global,
    task: &Task,
    wanted: &CertificateJudge<'_>,
) -> Result<bool, SetErr>
    requires room { IsNodeLimit wanted.now.nodes }
    requires of_task { IsCertificateOver task.now (plain_certificate wanted.now.certificate.now) }
    ensures { IfOk result (λ is. IsTrue is
        → IsAccepted (system_of task.now) (plain_certificate wanted.now.certificate.now)) }
{
    match search_in_tries(alloc, task, wanted)? {
        Some(is) => Ok(is),
        None => Ok(false),
    }
}

/// Whether a certificate is accepted, over the task's sets.
fn is_accepted_over(
    alloc: Global,
    task: &Task,
    enc: &mut Enc,
    certificate: &Certificate,
) -> Result<bool, SetErr>
    requires made { MadeOf task.now enc.old }
    requires of_task { IsCertificateOver task.now (plain_certificate certificate.now) }
    ensures { IfOk result (λ is. IsTrue is
        → IsAccepted (system_of task.now) (plain_certificate certificate.now)) }
{
    match refute(alloc, task, enc, certificate)? {
        Judged::Accepted => Ok(true),
        Judged::Rejected(_) => Ok(false),
    }
}

/// What is shown where there is no plan, and where it is wanted the certificate of that.
pub(crate) fn text_of_no_plan(
    alloc: Global,
    certified: bool,
    certificate: &Certificate,
    task: &Task,
) -> Result<Text, AllocError>
    requires { IsCertificateOf (fluent_count task.now) certificate.now }
    ensures { IfOk result (IsNoPlanTold certified (fluent_names task.now)
        (plain_certificate certificate.now)) }
{
    if !certified {
        return Ok(Text::Fixed("no plan\n"));
    }
    told_certificate(alloc, certificate, task)
}

/// The same with the certificate.
fn told_certificate(
    alloc: Global,
    certificate: &Certificate,
    task: &Task,
) -> Result<Text, AllocError>
    requires { IsCertificateOf (fluent_count task.now) certificate.now }
    ensures { IfOk result (IsNoPlanTold true (fluent_names task.now)
        (plain_certificate certificate.now)) }
{
    certified_text(alloc, certificate, task)
}

/// Whether a certificate is over so many fluents, and has as many sets as its class may have.
pub(crate) fn is_certificate_of(fluents: usize, certificate: &Certificate) -> bool
    ensures { IsTrue result → IsCertificateOf fluents certificate.now }
{
    may_have(certificate.class, certificate.sets.len()) && are_sets_of(fluents, &certificate.sets)
}

/// Whether a certificate of a class may have so many sets.
fn may_have(class: Class, sets: usize) -> bool
    ensures { IsTrue result → MayHave class sets }
{
    match class {
        Class::Weak => sets == 1,
        Class::Strong => sets == 1,
        Class::Cyclic => sets >= 1,
    }
}

/// Whether sets are over so many fluents.
fn are_sets_of(fluents: usize, sets: &[StateSet]) -> bool
    ensures { IsTrue result → AreSetsOf fluents (map set_of sets.now) }
{
    for set in sets {
        if !is_set_of(fluents, set) {
            return false;
        }
    }
    true
}

/// Whether a set is.
fn is_set_of(fluents: usize, set: &StateSet) -> bool
    ensures { IsTrue result → IsSetOf fluents (set_of set.now) }
{
    are_cubes_of(fluents, &set.cubes)
}

/// Whether cubes are.
fn are_cubes_of(fluents: usize, cubes: &[Vec<Lit>]) -> bool
    ensures { IsTrue result → IsSetOf fluents (map cube_of cubes.now) }
{
    for cube in cubes {
        if !is_cube_of(fluents, cube) {
            return false;
        }
    }
    true
}

/// Whether literals are.
fn is_cube_of(fluents: usize, cube: &[Lit]) -> bool
    ensures { IsTrue result → IsCubeOf fluents cube.now }
{
    for literal in cube {
        if literal.fluent.0 as usize >= fluents {
            return false;
        }
    }
    true
}
