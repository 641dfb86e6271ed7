//! Laws of how long results are. The function does nothing: it has laws as its clauses.
ghost use Rattle.std.specs.Prelude.{◌≡◌, ℕ, true, false};
ghost use Rattle.xl_nfs.specs.Outcomes.{is_denied};
ghost use Rattle.xl_nfs_laws.specs.Lengths.{PartsFit, has_seqid};
ghost use Rattle.xl_nfs_opens.specs.Plans.{status_of};
ghost use Rattle.xl_nfs_opens.specs.Results.{spelled};
ghost use Rattle.xl_nfs_opens.specs.Seqids.{is_short, kept_status};
ghost use Rattle.xl_nfs_opens.specs.declared.told.Told.{Told as WasTold};

/// A result of more than 56 bytes is that of a lock that was denied: each other one is as short. So of an operation by
/// an owner's seqid a repeat, which is sent the bytes that were kept, ends as they say: as the first request did (RFC
/// 7530 9.1.8).
pub fn long_results_are_of_denied_locks()
    ensures short { (number : ℕ) (told : WasTold) → PartsFit number told → is_denied (status_of told) ≡ false → is_short (spelled number told) ≡ true }
    ensures repeats { (number : ℕ) (told : WasTold) → PartsFit number told → has_seqid number ≡ true → kept_status (spelled number told) ≡ status_of told }
{}
