//! Laws of what an open may do, and of what it is told of its caches. The functions do nothing: their clauses are the laws.
ghost use Rattle.std.specs.Prelude.{◌≡◌, ℕ, ◌||◌, not, true, false, List, ◌∷◌, [], Some, None};
ghost use Rattle.std.specs.Int.Bits.{bit_or};
ghost use Rattle.std.specs.List.{AllByRecursion};
ghost use Rattle.xl_cache.specs.Levels.{state_of};
ghost use Rattle.xl_core.specs.Places.{CacheOf, held_at};
ghost use Rattle.xl_core.specs.State.{CoreState};
ghost use Rattle.xl_front_smb.specs.Files.{access_of, deny_of};
ghost use Rattle.xl_matrix.specs.declared.claim.Break.{Break};
ghost use Rattle.xl_matrix.specs.declared.claim.CacheKind.{CacheKind};
ghost use Rattle.xl_matrix.specs.declared.claim.Rwd.{Rwd};
ghost use Rattle.xl_matrix.specs.declared.claim.What.{What};
ghost use Rattle.xl_smb.specs.Heads.{is_set};
ghost use Rattle.xl_smb_laws.specs.OpenRights.{nothing, rights, united};
ghost use Rattle.xl_smb_locks.specs.Levels.{caching, lease_party};
ghost use Rattle.xl_smb_locks.specs.declared.levels.Caching.TheVariants as Caching;
ghost use Rattle.xl_smb_state.specs.declared.row.Open.{Open};

/// The access of an open is what DesiredAccess asks for (MS-SMB2 2.2.13.1.1): each right by itself is for reading, for
/// writing, for deletion, for all three or for none, and of several it is what they are for together.
pub fn access_is_what_is_asked()
    ensures none { access_of 0 ≡ nothing }
    ensures each { AllByRecursion (λ e. access_of e.0 ≡ e.1) rights }
    ensures together { (a b : ℕ) → access_of (bit_or a b) ≡ united (access_of a) (access_of b) }
{}

/// An open whose access is one of reading, writing and deletion denies exactly what its ShareAccess leaves out of
/// FILE_SHARE_READ, 1, FILE_SHARE_WRITE, 2, and FILE_SHARE_DELETE, 4; one for none of them denies nothing (MS-SMB2 2.2.13,
/// MS-FSA 2.1.5.1.2.2).
pub fn what_is_not_shared_is_denied()
    ensures denied { (access : Rwd) (share : ℕ) → (access.r || (access.w || access.d)) ≡ true → deny_of access share ≡ record { r = not (is_set 1 share); w = not (is_set 2 share); d = not (is_set 4 share) } }
    ensures nothing { (access : Rwd) (share : ℕ) → access.r ≡ false → access.w ≡ false → access.d ≡ false → deny_of access share ≡ nothing }
{}

/// What an open under a lease is answered of it is the state of the cache that the lease has on its file, with
/// SMB2_LEASE_FLAG_BREAK_IN_PROGRESS, 2, exactly if a break of that cache runs (MS-SMB2 2.2.14.2.10, 3.3.5.9.8).
pub fn leases_are_told_as_they_stand()
    ensures running { (s : CoreState) (number : ℕ) (row : Open) (key : List ℕ) (kind : CacheKind) (running : Break) (rest : List What) → row.lease ≡ Some key → held_at s (CacheOf row.file (lease_party s.names row.client key)) ≡ What.Cache kind (Some running) ∷ rest → caching s number row ≡ Caching.Leased (record { key = key; state = state_of (Some kind); flags = 2; duration = 0 }) }
    ensures resting { (s : CoreState) (number : ℕ) (row : Open) (key : List ℕ) (kind : CacheKind) (rest : List What) → row.lease ≡ Some key → held_at s (CacheOf row.file (lease_party s.names row.client key)) ≡ What.Cache kind None ∷ rest → caching s number row ≡ Caching.Leased (record { key = key; state = state_of (Some kind); flags = 0; duration = 0 }) }
    ensures bare { (s : CoreState) (number : ℕ) (row : Open) (key : List ℕ) → row.lease ≡ Some key → held_at s (CacheOf row.file (lease_party s.names row.client key)) ≡ [] → caching s number row ≡ Caching.Leased (record { key = key; state = 0; flags = 0; duration = 0 }) }
{}
