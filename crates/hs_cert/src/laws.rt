//! Laws of certificates, each the contract of a function that does nothing.

ghost use Rattle.std.specs.Prelude.{◌≡◌, ◌≢◌, ◌≤◌, ◌<◌, ◌^◌, ◌↔◌, ℕ, List, Some, None, true, length, All, AllPairs, Contains};
ghost use Rattle.hs_scheme.specs.Problem.{ProblemData};
ghost use Rattle.hs_table.specs.Entries.{EntryData, InShape};
ghost use Rattle.hs_weak.specs.Void.{VoidData, IsVoidShape};
ghost use Rattle.hs_text.specs.Report.{IsReport, IsCertificateReport};
ghost use Rattle.hs_text.specs.declared.verdict.Verdict.TheVariants.{Accepted};
ghost use Rattle.hs_cert.specs.declared.heading.Form.{Form};
ghost use Rattle.hs_cert.specs.Certificate.{HasOwnNames, HasNamesInLines, AreNested, IsNested, IsEntry, IsPair, IsFirstFaulty, IsCertificateIn, IsCertificate, IsCompactCertificate};

/// The text of an entry determines it, and so does that of a void environment; a file is a
/// certificate in one form at most, and says one thing; then no line of it is faulty. Of a file that
/// is none one line is the first faulty one.
pub fn certificate_is_unique()
    ensures entry { (p : ProblemData) (text : List ℕ) (one other : EntryData) → HasOwnNames p →
        IsEntry p text one → IsEntry p text other → one ≡ other }
    ensures pair { (p : ProblemData) (text : List ℕ) (one other : VoidData) → HasOwnNames p →
        IsPair p text one → IsPair p text other → one ≡ other }
    ensures table { (p : ProblemData) (bytes : List ℕ) (form kind : Form) (m n : ℕ)
        (one other : List EntryData) (void pairs : List VoidData) → HasOwnNames p →
        IsCertificateIn form p bytes m one void → IsCertificateIn kind p bytes n other pairs →
        (form ≡ kind) × (m ≡ n) × (one ≡ other) × (void ≡ pairs) }
    ensures faultless { (p : ProblemData) (bytes : List ℕ) (form : Form) (m : ℕ) (table : List EntryData)
        (void : List VoidData) (line : ℕ) →
        HasOwnNames p → IsCertificateIn form p bytes m table void → IsFirstFaulty p bytes line → ⊥ }
    ensures first { (p : ProblemData) (bytes : List ℕ) (one other : ℕ) →
        IsFirstFaulty p bytes one → IsFirstFaulty p bytes other → one ≡ other }
{}

/// The report of an accepted scheme with its table is a certificate of that table in ascending order:
/// where the numbers are those that it may have, its types are nested at most 1,000 deep, and no name
/// has an LF.
pub fn report_is_certificate()
    ensures { (p : ProblemData) (table : List EntryData) (entries checked : ℕ) (text : List ℕ) →
        HasOwnNames p → HasNamesInLines p → IsReport p (Accepted entries checked) (Some table) None None text →
        AllPairs (λ a b. a ≢ b) table → entries ≡ length table → entries ≤ 1000000 → checked < 2 ^ 64 →
        All (InShape p) table → All IsNested table →
        (sorted : List EntryData) × ((e : EntryData) → Contains sorted e ↔ Contains table e)
        × IsCertificate p text sorted checked }
{}

/// So is that of a certificate of acceptance with its entries and void environments.
pub fn certificate_report_is_certificate()
    ensures { (p : ProblemData) (table : List EntryData) (void : List VoidData) (text : List ℕ) →
        HasOwnNames p → HasNamesInLines p → IsCertificateReport p table void true None text →
        AllPairs (λ a b. a ≢ b) table → AllPairs (λ a b. a ≢ b) void →
        length table ≤ 1000000 → length void ≤ 1000000 →
        All (InShape p) table → All IsNested table →
        All (IsVoidShape p) void → All (λ v. AreNested v.env) void →
        (sorted : List EntryData) × ((e : EntryData) → Contains sorted e ↔ Contains table e)
        × (pairs : List VoidData) × ((v : VoidData) → Contains pairs v ↔ Contains void v)
        × IsCompactCertificate p text sorted pairs }
{}
