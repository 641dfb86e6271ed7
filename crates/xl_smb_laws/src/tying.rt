//! Laws of what ties the front's lists to the core. The functions do nothing: their clauses are the laws.
ghost use Rattle.std.specs.Prelude.{◌≡◌, ℕ, List, [], Some};
ghost use Rattle.xl_base.specs.declared.journal.Exports.{Exports};
ghost use Rattle.xl_base.specs.declared.name.Party.{Party};
ghost use Rattle.xl_core.specs.Deeds.{AreFit, Deed, all_done};
ghost use Rattle.xl_core.specs.Good.{IsGood};
ghost use Rattle.xl_core.specs.State.{CoreState};
ghost use Rattle.xl_front_smb.specs.Ending.{smb_end};
ghost use Rattle.xl_front_smb.specs.FrontSmb.{smb_step};
ghost use Rattle.xl_front_smb.specs.State.{FrontSmb, empty_smb_front, smb_begin};
ghost use Rattle.xl_matrix.specs.declared.claim.Claim.{Claim};
ghost use Rattle.xl_plan.specs.Plans.{AllAt};
ghost use Rattle.xl_smb_laws.specs.TiedRows.{AreSmbTied, HoldsShare, SparesShare};
ghost use Rattle.xl_smb_laws.specs.WaitingRequests.{AreAwaited, IsGranted};
ghost use Rattle.xl_smb_state.specs.Links.{AreDistinct};
ghost use Rattle.xl_smb_state.specs.State.{Lists, open_of};
ghost use Rattle.xl_smb_state.specs.declared.row.Open.{Open};
ghost use Rattle.xl_smb_state.specs.declared.row.Waiting.{Waiting};
ghost use Rattle.xl_wait.specs.declared.waiter.Rooms.{Rooms};

/// The lists are tied to the core: sessions, tree connects and opens have numbers that were given out, and each open in the lists has one
/// share of its file (MS-SMB2 3.3.1.10, 3.3.5.9). So it is at a start, and stays if a connection opens or ends, and whatever a message
/// does; each open keeps its share behind any deeds that close no such open, give back nothing of it, and end no party of SMB; and a
/// CREATE that waited and that a turn grants has its share. So it isn't by a machine that drops what is held and keeps an open.
pub fn rows_have_their_claims()
    ensures start { (s : CoreState) → AreSmbTied s empty_smb_front.state }
    ensures begins { (f : FrontSmb) (s : CoreState) (conn : ℕ) → AreSmbTied s f.state → AreSmbTied s (smb_begin f conn).state }
    ensures messages { (n : ℕ) (exports : Exports) (others : ℕ) (f : FrontSmb) (s : CoreState) (conn : ℕ) (bytes : List ℕ) → IsGood s → AreDistinct f.state → AreAwaited s f.state → AreSmbTied s f.state → AreSmbTied (smb_step n exports others f s conn bytes).3 (smb_step n exports others f s conn bytes).2.state }
    ensures ends { (f : FrontSmb) (s : CoreState) (conn : ℕ) → IsGood s → AreDistinct f.state → AreAwaited s f.state → AreSmbTied s f.state → AreSmbTied (smb_end f s conn).2 (smb_end f s conn).1.state }
    ensures spared { (n : ℕ) (s : CoreState) (ds : List Deed) (number : ℕ) (row : Open) → IsGood s → AreFit n s ds → AllAt (SparesShare number) n s ds → HoldsShare s number row → HoldsShare (all_done n s ds) number row }
    ensures granted { (n : ℕ) (left : Rooms) (s t : CoreState) (f : FrontSmb) (party : Party) (id : ℕ) (row : Waiting) (made : Open) (claim : Claim) → IsGood s → AreAwaited s f.state → IsGranted n left s t f.state party id row made claim → HoldsShare t row.opened made }
    ensures shareless { (s : CoreState) (l : Lists) (number : ℕ) (row : Open) → open_of number l ≡ Some row → s.claims ≡ [] → AreSmbTied s l → ⊥ }
{}
