//! Laws of what is held once opens end. The functions do nothing: their clauses are the laws.
ghost use Rattle.std.specs.Prelude.{◌≡◌, ℕ, true, List, Some};
ghost use Rattle.xl_base.specs.Lists.{IsIn};
ghost use Rattle.xl_base.specs.declared.name.Owner.TheVariants as Owner;
ghost use Rattle.xl_core.specs.State.{CoreState};
ghost use Rattle.xl_front_smb.specs.Checks.{open_named};
ghost use Rattle.xl_front_smb.specs.Ending.{smb_end};
ghost use Rattle.xl_front_smb.specs.Laws.{IsInSession, IsOnTree, outcome_of};
ghost use Rattle.xl_front_smb.specs.State.{FrontSmb};
ghost use Rattle.xl_matrix.specs.Blocks.{is_cache};
ghost use Rattle.xl_matrix.specs.declared.claim.Claim.{Claim};
ghost use Rattle.xl_smb.specs.Calls.{CallItem};
ghost use Rattle.xl_smb.specs.declared.head.SmbHead.{SmbHead};
ghost use Rattle.xl_smb.specs.declared.lock.CloseCall.{CloseCall};
ghost use Rattle.xl_smb_laws.specs.OpenRights.{LeavesNothing};
ghost use Rattle.xl_smb_state.specs.Links.{IsSound};
ghost use Rattle.xl_smb_state.specs.State.{Lists};
ghost use Rattle.xl_smb_state.specs.declared.row.Place.{Place};
ghost use Rattle.xl_smb_state.specs.declared.row.Scope.{Scope};

/// Of each open that ends nothing is held afterwards (MS-SMB2 3.3.4.17, 3.3.5.6, 3.3.5.8, 3.3.5.10, 3.3.7.1): neither its
/// share nor a range, nor a cache of its own, nor one of a lease that loses its last open with it, whether it ends by
/// LOGOFF of its session, by TREE_DISCONNECT of its tree connect, or with its connection; nor a share or a range once it is
/// closed.
pub fn nothing_is_held_of_what_ended()
    ensures logoff { (n : ℕ) (s : CoreState) (files : List (List ℕ)) (others : ℕ) (l : Lists) (conn : ℕ) (h : SmbHead) (client : List ℕ) (session : ℕ) → IsInSession s l conn h client session → IsSound l → LeavesNothing s.names (Scope.Session session) l (outcome_of n s files others l conn h CallItem.Logoff).3 }
    ensures disconnect { (n : ℕ) (s : CoreState) (files : List (List ℕ)) (others : ℕ) (l : Lists) (conn : ℕ) (h : SmbHead) (client : List ℕ) (session : ℕ) (place : Place) → IsOnTree s l conn h client session place → IsSound l → LeavesNothing s.names (Scope.Tree place.tree) l (outcome_of n s files others l conn h CallItem.TreeDisconnect).3 }
    ensures ends { (f : FrontSmb) (s : CoreState) (conn : ℕ) → IsSound f.state → LeavesNothing s.names (Scope.Connection conn) f.state (smb_end f s conn).2 }
    ensures closed { (n : ℕ) (s : CoreState) (files : List (List ℕ)) (others : ℕ) (l : Lists) (conn : ℕ) (h : SmbHead) (client : List ℕ) (c : CloseCall) (session : ℕ) (place : Place) (number : ℕ) (claim : Claim) → IsOnTree s l conn h client session place → open_named s l conn c.file_id ≡ Some number → IsIn claim (outcome_of n s files others l conn h (CallItem.Close c)).3.claims → claim.owner ≡ Owner.Open number → is_cache claim.what ≡ true }
{}
