//! Laws of faults.

ghost use Rattle.std.specs.Prelude.{◌≡◌, ℕ, List};
ghost use Rattle.hs_scheme.specs.Problem.{ProblemData};
ghost use Rattle.hs_table.specs.Entries.{EntryData};
ghost use Rattle.hs_verdict.specs.Premises.{HasClosedFlow};
ghost use Rattle.hs_weak.specs.Void.{VoidData};
ghost use Rattle.hs_weak.specs.Certificate.{IsAcceptanceCertificate};
ghost use Rattle.hs_certificate_checker.specs.declared.fault.CertificateFault.{CertificateFault as AnyFault};
ghost use Rattle.hs_certificate_checker.specs.declared.fault.CertificateFault.TheVariants.{OutOfMemory};
ghost use Rattle.hs_certificate_checker.specs.Faults.{HasCause};

/// Over a closed flow, `check_certificate` has no fault but want of memory for a certificate of
/// acceptance. Does nothing.
pub fn certificates_have_no_fault()
    ensures { (p : ProblemData) (C : List EntryData) (V : List VoidData) (R : List (ℕ × ℕ)) (fault : AnyFault)
        → HasClosedFlow p → IsAcceptanceCertificate p C V R → HasCause p C V R fault → fault ≡ OutOfMemory }
{}
