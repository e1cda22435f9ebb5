//! What holds of every certificate. Each law is a function that does nothing, so that callers'
//! proofs can cite it.

ghost use Rattle.std.specs.Prelude.{◌≡◌, ◌⊎◌, ℕ, List, length};
ghost use Rattle.sexpr_text.specs.declared.faults.InputFault.{InputFault};
ghost use Rattle.task_core.specs.Names.{AreFluentNames, Name};
ghost use Rattle.task_core.specs.Systems.{System, IsSystem};
ghost use Rattle.task_core.specs.Solutions.{HasNoSolution};
ghost use Rattle.plan_certs.specs.Certificates.{
  CertificateFlaw,
  IsAccepted,
  IsFirstFlaw,
  PlainCertificate,
};
ghost use Rattle.plan_certs.specs.Named.{IsPlainCertificateOf};
ghost use Rattle.plan_certs.specs.Printed.{IsPrinted};
ghost use Rattle.task_core.specs.declared.classes.Class.{Class};
ghost use Rattle.plan_certs.specs.Readings.{HasCertificateFault, SpellsPlain};
ghost use Rattle.plan_certs.specs.Texts.{certificate_text};

/// Where a certificate is accepted, no table is a solution of its class: not one with several
/// actions for a state, nor one with actions in goal states.
pub fn accepted_certificates_mean_no_plan()
    ensures { (sys : System) (certificate : PlainCertificate) → IsSystem sys
        → IsAccepted sys certificate → HasNoSolution certificate.class sys }
{}

/// Every certificate is accepted or has a first flaw, and none is both.
pub fn one_verdict()
    ensures answered { (sys : System) (certificate : PlainCertificate) → IsSystem sys
        → IsAccepted sys certificate ⊎ ((flaw : CertificateFlaw)
        × IsFirstFlaw sys certificate flaw) }
    ensures not_both { (sys : System) (certificate : PlainCertificate) (flaw : CertificateFlaw)
        → IsAccepted sys certificate → IsFirstFlaw sys certificate flaw → ⊥ }
{}

/// The printed certificate of a class is accepted exactly where no table is a solution of the class,
/// and each system has one and no other.
pub fn printed_where_none()
    ensures accepted { (class : Class) (sys : System) (certificate : PlainCertificate)
        → IsSystem sys → IsPrinted class sys certificate → HasNoSolution class sys
        → IsAccepted sys certificate }
    ensures none { (class : Class) (sys : System) (certificate : PlainCertificate)
        → IsSystem sys → IsPrinted class sys certificate → IsAccepted sys certificate
        → HasNoSolution class sys }
    ensures some { (class : Class) (sys : System) → IsSystem sys
        → (certificate : PlainCertificate) × IsPrinted class sys certificate }
    ensures one { (class : Class) (sys : System) (certificate other : PlainCertificate)
        → IsPrinted class sys certificate → IsPrinted class sys other → certificate ≡ other }
{}

/// The text that is written of a certificate spells that certificate, where the names of the
/// fluents can be spelled, the certificate's fluents are theirs, and its class may have so many
/// sets.
pub fn written_spells()
    ensures { (fluents : List Name) (certificate : PlainCertificate) → AreFluentNames fluents
        → IsPlainCertificateOf (length fluents) certificate
        → SpellsPlain fluents (certificate_text fluents certificate) certificate }
{}

/// No text spells two certificates.
pub fn one_certificate()
    ensures { (fluents : List Name) (bytes : List ℕ) (certificate other : PlainCertificate)
        → SpellsPlain fluents bytes certificate → SpellsPlain fluents bytes other
        → certificate ≡ other }
{}

/// Every text spells a certificate or has a fault, and none does both.
pub fn certificate_or_fault()
    ensures answered { (fluents : List Name) (bytes : List ℕ)
        → ((certificate : PlainCertificate) × SpellsPlain fluents bytes certificate)
        ⊎ ((fault : InputFault) × HasCertificateFault fluents bytes fault) }
    ensures not_both { (fluents : List Name) (bytes : List ℕ) (certificate : PlainCertificate)
        (fault : InputFault) → SpellsPlain fluents bytes certificate
        → HasCertificateFault fluents bytes fault → ⊥ }
    ensures one_fault { (fluents : List Name) (bytes : List ℕ) (fault other : InputFault)
        → HasCertificateFault fluents bytes fault → HasCertificateFault fluents bytes other
        → fault ≡ other }
{}
