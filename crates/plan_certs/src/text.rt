//! The text of a certificate.

ghost use Rattle.std.specs.Prelude.{◌≡◌, ◌<◌, ◌++◌, map, length, IfOk, OnOk, string_bytes, All};
ghost use Rattle.std.specs.List.{flat_map};
ghost use Rattle.task_core.specs.Names.{name_bytes};
ghost use Rattle.task_core.specs.Tasks.{fluent_count, fluent_names};
ghost use Rattle.plan_rules.specs.Plans.{IsCubeOf};
ghost use Rattle.plan_rules.specs.Texts.{class_word, cube_text, gap, literal_text, spaced};
ghost use Rattle.plan_certs.specs.Named.{
  AreSetsOf,
  IsCertificateOf,
  IsSetOf,
  cube_of,
  plain_certificate,
  set_of,
};
ghost use Rattle.plan_certs.specs.Readings.{SpellsCertificate};
ghost use Rattle.plan_certs.specs.Texts.{certificate_text, next_cube_text, set_text};

use crate::certificates::{Certificate, StateSet};
use plan_rules::{push_cube, word_of};
use std::alloc::{AllocError, Global};
use std::rc::RcStr;
use task_core::{Class, Lit, Task};

// A cube after a space.
fn push_next_cube(out: &mut String, fluents: &[Vec<RcStr>], cube: &[Lit]) -> Result<(), AllocError>
    requires { All (λ lit. lit.fluent.0 < length fluents.now) cube.now }
    ensures { OnOk result
        (string_bytes out.new
        ≡ string_bytes out.old ++ next_cube_text (map name_bytes fluents.now) cube.now) }
{
    out.push(' ')?;
    push_cube(out, fluents, cube)
}

// The cubes of a set, each after a space.
fn push_cubes(
    out: &mut String,
    fluents: &[Vec<RcStr>],
    cubes: &[Vec<Lit>],
) -> Result<(), AllocError>
    requires { All (IsCubeOf (length fluents.now)) (map cube_of cubes.now) }
    ensures { OnOk result
        (string_bytes out.new
        ≡ string_bytes out.old
        ++ flat_map (next_cube_text (map name_bytes fluents.now)) (map cube_of cubes.now)) }
{
    for cube in cubes {
        push_next_cube(out, fluents, cube)?;
    }
    Ok(())
}

// The line of a set.
fn push_set(out: &mut String, fluents: &[Vec<RcStr>], set: &StateSet) -> Result<(), AllocError>
    requires { IsSetOf (length fluents.now) (set_of set.now) }
    ensures { OnOk result
        (string_bytes out.new
        ≡ string_bytes out.old ++ set_text (map name_bytes fluents.now) (set_of set.now)) }
{
    out.push_str("  (set")?;
    push_cubes(out, fluents, &set.cubes)?;
    out.push_str(")\n")?;
    Ok(())
}

// The lines of all sets.
fn push_sets(out: &mut String, fluents: &[Vec<RcStr>], sets: &[StateSet]) -> Result<(), AllocError>
    requires { AreSetsOf (length fluents.now) (map set_of sets.now) }
    ensures { OnOk result
        (string_bytes out.new
        ≡ string_bytes out.old
        ++ flat_map (set_text (map name_bytes fluents.now)) (map set_of sets.now)) }
{
    for set in sets {
        push_set(out, fluents, set)?;
    }
    Ok(())
}

// The text of a certificate.
fn write_text(alloc: Global, certificate: &Certificate, task: &Task) -> Result<Vec<u8>, AllocError>
    requires { AreSetsOf (fluent_count task.now) (plain_certificate certificate.now).sets }
    ensures { IfOk result (λ text.
        text.items ≡ certificate_text (fluent_names task.now) (plain_certificate certificate.now)) }
{
    let mut out = String::new(alloc);
    out.push_str("(certificate ")?;
    out.push_str(word_of(certificate.class))?;
    out.push('\n')?;
    push_sets(&mut out, &task.fluents, &certificate.sets)?;
    out.push_str(")\n")?;
    Ok(out.into_bytes())
}

/// The text of a certificate, in lines that each end with a line feed: its class, a line a set in
/// the certificate's order, and a closing parenthesis. `task` gives the fluents' names. The text
/// spells this certificate, and no other (`one_certificate`), so that `read_cert` reads it back
/// where it has at most `MAX_BYTES` bytes. Fails only where memory runs out.
///
/// The fluents of the certificate are the task's, and it has as many sets as its class may have.
pub fn write_cert(
    alloc: Global,
    certificate: &Certificate,
    task: &Task,
) -> Result<Vec<u8>, AllocError>
    requires in_task { IsCertificateOf (fluent_count task.now) certificate.now }
    ensures text { IfOk result (λ text.
        text.items ≡ certificate_text (fluent_names task.now) (plain_certificate certificate.now)) }
    ensures spells { IfOk result (λ text.
        SpellsCertificate (fluent_names task.now) text.items certificate.now) }
{
    write_text(alloc, certificate, task)
}
