//! Laws of the numbers of stateids. The functions do nothing: each has laws as its clauses.
ghost use Rattle.std.specs.Prelude.{◌≡◌, ◌+◌, ℕ, Bool, List, Option, None};
ghost use Rattle.std.specs.List.{find};
ghost use Rattle.xl_base.specs.Lists.{IsIn};
ghost use Rattle.xl_nfs.specs.Opens.{OpenArgsItem};
ghost use Rattle.xl_nfs.specs.declared.basics.Stateid.{Stateid};
ghost use Rattle.xl_nfs.specs.declared.opens.CloseArgs.{CloseArgs};
ghost use Rattle.xl_nfs.specs.declared.opens.OpenConfirmArgs.{OpenConfirmArgs};
ghost use Rattle.xl_nfs.specs.declared.opens.OpenDowngradeArgs.{OpenDowngradeArgs};
ghost use Rattle.xl_nfs_state.specs.State.{NfsLists, is_stateid, no_lists};
ghost use Rattle.xl_nfs_state.specs.declared.stateid.StateidRow.{StateidRow};
ghost use Rattle.xl_core.specs.Good.{IsGood};
ghost use Rattle.xl_core.specs.State.{CoreState};
ghost use Rattle.xl_nfs_opens.specs.Closing.{close, deleg_return, open_confirm};
ghost use Rattle.xl_nfs_opens.specs.Downgrades.{open_downgrade};
ghost use Rattle.xl_nfs_laws.specs.StateidNumbers.{AreGivenOut, StayGivenOut};
ghost use Rattle.xl_nfs_opens.specs.Opens.{granted_new, open_file, open_row};
ghost use Rattle.xl_nfs_opens.specs.Plans.{carried};
ghost use Rattle.xl_nfs_opens.specs.Seqids.{opener_number};
ghost use Rattle.xl_nfs_opens.specs.declared.opener.Opener.{Opener as OpenOwner};

/// Each stateid has a number that the core gave out, and the core gives out none twice (RFC 7530 9.1.4). So it is at a start,
/// and stays whatever an operation on opens comes to.
pub fn stateids_have_given_numbers()
    ensures start { (last : ℕ) → AreGivenOut last no_lists }
    ensures opens { (n : ℕ) (files : List (List ℕ)) (others : ℕ) (s : CoreState) (l : NfsLists) (current : Option ℕ) (a : OpenArgsItem) → IsGood s → AreGivenOut s.counter l → StayGivenOut s (carried n s l (open_file files others s l current a)) }
    ensures confirms { (n : ℕ) (s : CoreState) (l : NfsLists) (current : Option ℕ) (a : OpenConfirmArgs) → IsGood s → AreGivenOut s.counter l → StayGivenOut s (carried n s l (open_confirm s l current a)) }
    ensures downgrades { (n : ℕ) (s : CoreState) (l : NfsLists) (current : Option ℕ) (a : OpenDowngradeArgs) → IsGood s → AreGivenOut s.counter l → StayGivenOut s (carried n s l (open_downgrade s l current a)) }
    ensures closes { (n : ℕ) (s : CoreState) (l : NfsLists) (current : Option ℕ) (a : CloseArgs) → IsGood s → AreGivenOut s.counter l → StayGivenOut s (carried n s l (close s l current a)) }
    ensures returns { (n : ℕ) (s : CoreState) (l : NfsLists) (current : Option ℕ) (stateid : Stateid) → IsGood s → AreGivenOut s.counter l → StayGivenOut s (carried n s l (deleg_return s l current stateid)) }
{}

/// So the number that the next stateid takes names nothing before; and the stateid of a new open names that open alone, and
/// nothing that was there goes for it (RFC 7530 9.1.4, 16.16).
pub fn new_stateids_name_one_open()
    ensures unused { (s : CoreState) (l : NfsLists) → AreGivenOut s.counter l → find (is_stateid (s.counter + 1)) l.stateids ≡ None }
    ensures alone { (n : ℕ) (s : CoreState) (l : NfsLists) (current : Option ℕ) (o : OpenOwner) (a : OpenArgsItem) (file : ℕ) (confirmed : Bool) (write : Option Bool) (r : StateidRow) → AreGivenOut s.counter l → IsIn r (carried n s l (granted_new s l o a file confirmed write)).3.stateids → r.number ≡ s.counter + 1 → r ≡ open_row (s.counter + 1) o (opener_number o l) file a }
{}
