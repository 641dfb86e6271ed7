//! Laws of statuses that leave an owner's seqid, and of what DENIED is answered with. The functions do nothing: each has laws as
//! its clauses.
ghost use Rattle.std.specs.Prelude.{◌≡◌, ◌↔◌, ◌≤◌, ◌-◌, ◌^◌, ◌⊎◌, ℕ, Bool, true, false};
ghost use Rattle.xl_base.specs.Lists.{IsIn};
ghost use Rattle.xl_matrix.specs.declared.claim.Claim.{Claim};
ghost use Rattle.xl_matrix.specs.declared.claim.Extent.TheVariants.{Bytes};
ghost use Rattle.xl_matrix.specs.declared.claim.What.TheVariants.{Range};
ghost use Rattle.xl_nfs.specs.Statuses.{status_number};
ghost use Rattle.xl_nfs.specs.declared.basics.LockType.TheVariants.{Read, Write};
ghost use Rattle.xl_nfs.specs.declared.status.NfsStatus.{NfsStatus};
ghost use Rattle.xl_nfs_state.specs.State.{NfsLists};
ghost use Rattle.xl_core.specs.State.{CoreState};
ghost use Rattle.xl_nfs_locks.specs.Denials.{held_lock};
ghost use Rattle.xl_nfs_opens.specs.Seqids.{advances};
ghost use Rattle.xl_nfs_laws.specs.Denied.{Reaches};
ghost use Rattle.xl_nfs_laws.specs.Statuses.{uncounted_statuses};

/// The statuses that leave an owner's seqid are those of RFC 7530 9.1.7: STALE_CLIENTID, STALE_STATEID, BAD_STATEID,
/// BAD_SEQID, BADXDR, RESOURCE and NOFILEHANDLE, by their numbers in RFC 7531.
pub fn uncounted_statuses_are_the_standards()
    ensures { (status : NfsStatus) → (advances status ≡ false) ↔ IsIn (status_number status) uncounted_statuses }
{}

/// The lock that a refused LOCK or LOCKT is answered has just the bytes of the range that is held: the length reaches from
/// its first byte to its last, and is all ones if that is the last that there is. Only a range of all bytes but the last,
/// which no length names, is answered as all bytes. Its type is a write's exactly if the range is held exclusively, and else
/// a read's (RFC 7530 16.10, RFC 7531 LOCK4denied).
pub fn denied_locks_are_told()
    ensures bytes { (s : CoreState) (l : NfsLists) (c : Claim) (first last : ℕ) (exclusive : Bool) → c.what ≡ Range (Bytes first last) exclusive → first ≤ last → (byte : ℕ) → first ≤ byte → byte ≤ last → Reaches (held_lock s l c) byte }
    ensures alone { (s : CoreState) (l : NfsLists) (c : Claim) (first last : ℕ) (exclusive : Bool) → c.what ≡ Range (Bytes first last) exclusive → first ≤ last → last ≤ 2 ^ 64 - 1 → (first ≡ 0 → last ≡ 2 ^ 64 - 2 → ⊥) → (byte : ℕ) → byte ≤ 2 ^ 64 - 1 → Reaches (held_lock s l c) byte → (first ≤ byte) × (byte ≤ last) }
    ensures writes { (s : CoreState) (l : NfsLists) (c : Claim) (first last : ℕ) (exclusive : Bool) → c.what ≡ Range (Bytes first last) exclusive → ((held_lock s l c).kind ≡ Write) ↔ (exclusive ≡ true) }
    ensures kinds { (s : CoreState) (l : NfsLists) (c : Claim) (first last : ℕ) (exclusive : Bool) → c.what ≡ Range (Bytes first last) exclusive → ((held_lock s l c).kind ≡ Read) ⊎ ((held_lock s l c).kind ≡ Write) }
{}
