//! Reads the texts of certificates.

ghost use Rattle.std.specs.Prelude.{◌≡◌, ◌≤◌, ◌<◌, [], Some, IfOk, IfErr, length};
ghost use Rattle.sexpr_text.specs.Flaws.{first_listed};
ghost use Rattle.sexpr_text.specs.Forest.{forest_of};
ghost use Rattle.sexpr_text.specs.Passes.{IfFault};
ghost use Rattle.task_core.specs.Tasks.{fluent_count, fluent_names};
ghost use Rattle.plan_rules.specs.Readings.{cube_tree};
ghost use Rattle.plan_certs.specs.Named.{IsCertificateOf, plain_certificate, set_of};
ghost use Rattle.plan_certs.specs.Readings.{
  HasCertificateFault,
  SpellsCertificateAt,
  certificate_flaws,
  certificate_read,
  certificate_tree,
  set_flaws,
  set_tree,
  text_flaws,
};

use crate::certificates::{Certificate, CertificateRead, StateSet};
use crate::items::has_sets;
use plan_rules::{
    NameTable, after_first, class_named, first_item, fluent_table, read_cube, span_of,
};
use sexpr_text::{
    FaultKind, Form, GroupReader, InputFault, MAX_BYTES, Place, ReadErr, Span, after_word,
    fault_at, first_group, read_forms, read_groups,
};
use std::alloc::{AllocError, Global};
use task_core::{Lit, Task};

/// The certificate that the text spells, with the place of its list, or the text's first fault, or
/// want of memory. A text is a certificate's where its first top-level list that begins with the
/// word `certificate` is as `specs/Readings.antt` says; other top-level forms are passed over.
/// Every text either spells exactly one certificate or has exactly one fault (`one_certificate`,
/// `certificate_or_fault`). `task` gives the fluents. The time that this takes grows with the
/// length of the text and of the task's names.
pub fn read_cert(alloc: Global, bytes: &[u8], task: &Task) -> Result<CertificateRead, ReadErr>
    requires { length bytes.now ≤ MAX_BYTES }
    ensures read { IfOk result (λ read.
        SpellsCertificateAt (fluent_names task.now) bytes.now (plain_certificate read.certificate)
        read.place) }
    ensures in_task { IfOk result (λ read.
        IsCertificateOf (fluent_count task.now) read.certificate) }
    ensures fault { IfErr result (λ e. IfFault e (λ fault.
        HasCertificateFault (fluent_names task.now) bytes.now fault)) }
{
    let forms = read_forms(alloc, bytes)?;
    let fluents = fluent_table(alloc, task)?;
    read_text(alloc, &fluents, &forms)
}

// The certificate in the forms of a text.
fn read_text(alloc: Global, fluents: &NameTable, forms: &[Form]) -> Result<CertificateRead, ReadErr>
    ensures sound { IfOk result (λ read.
        text_flaws fluents.now (forest_of forms.now) ≡ []) }
    ensures read { IfOk result (λ read.
        certificate_read fluents.now (forest_of forms.now)
        ≡ Some (plain_certificate read.certificate, read.place)) }
    ensures fault { IfErr result (λ e. IfFault e (λ fault.
        first_listed (text_flaws fluents.now (forest_of forms.now)) ≡ Some fault)) }
{
    match first_group(forms, b"certificate") {
        Some((span, parts)) => Ok(CertificateRead {
            certificate: read_list(alloc, fluents, span, after_first(parts))?,
            place: span.place,
        }),
        None => Err(ReadErr::Fault(InputFault {
            kind: FaultKind::NoDefine,
            place: Place { line: 1, column: 1 },
        })),
    }
}

// The certificate in what follows `certificate` in the list at `span`.
fn read_list(
    alloc: Global,
    fluents: &NameTable,
    span: Span,
    row: &[Form],
) -> Result<Certificate, ReadErr>
    ensures sound { IfOk result (λ certificate.
        certificate_flaws fluents.now span (forest_of row.now) ≡ []) }
    ensures read { IfOk result (λ certificate.
        plain_certificate certificate ≡ certificate_tree fluents.now (forest_of row.now)) }
    ensures fault { IfErr result (λ e. IfFault e (λ fault.
        first_listed (certificate_flaws fluents.now span (forest_of row.now))
        ≡ Some fault)) }
{
    let Some((form, rest)) = first_item(row) else {
        return Err(fault_at(span, FaultKind::BadForm));
    };
    let Some(class) = class_named(form) else {
        return Err(fault_at(span_of(form), FaultKind::BadForm));
    };
    if !has_sets(class, rest) {
        return Err(fault_at(span, FaultKind::BadForm));
    }
    let sets = read_groups(alloc, &SetReader { fluents }, rest)?;
    Ok(Certificate { class, sets })
}

/// Reads the sets of a certificate.
#[derive(Clone, Copy)]
pub(crate) struct SetReader<'a> {
    pub(crate) fluents: &'a NameTable,
}

impl GroupReader for SetReader<'_> {
    ghost use Rattle.plan_certs.specs.Certificates.{CubeSet};
    ghost use Rattle.plan_certs.specs.Named.{set_of};
    ghost use Rattle.plan_certs.specs.Readings.{set_flaws, set_tree};

    type Item = StateSet;

    ghost Tree = { CubeSet };

    ghost plain = { set_of };

    ghost tree = { λ self parts. set_tree self.fluents.now parts };

    ghost flaws = { λ self span parts. set_flaws self.fluents.now span parts };

    fn read(&self, alloc: Global, span: Span, parts: &[Form]) -> Result<StateSet, ReadErr> {
        match after_word(parts, b"set") {
            Some(row) => Ok(StateSet {
                cubes: read_groups(
                    alloc,
                    &CubeReader {
                        fluents: self.fluents,
                    },
                    row,
                )?,
            }),
            None => Err(fault_at(span, FaultKind::BadForm)),
        }
    }
}

/// Reads the cubes of a set.
#[derive(Clone, Copy)]
pub(crate) struct CubeReader<'a> {
    pub(crate) fluents: &'a NameTable,
}

impl GroupReader for CubeReader<'_> {
    ghost use Rattle.task_core.specs.Cubes.{Cube};
    ghost use Rattle.plan_rules.specs.Readings.{cube_tree};
    ghost use Rattle.plan_certs.specs.Named.{cube_of};
    ghost use Rattle.plan_certs.specs.Readings.{set_item_flaws};

    type Item = Vec<Lit>;

    ghost Tree = { Cube };

    ghost plain = { cube_of };

    ghost tree = { λ self parts. cube_tree self.fluents.now parts };

    ghost flaws = { λ self span parts. set_item_flaws self.fluents.now span parts };

    fn read(&self, alloc: Global, span: Span, parts: &[Form]) -> Result<Vec<Lit>, ReadErr> {
        read_cube(alloc, self.fluents, parts)
    }
}
