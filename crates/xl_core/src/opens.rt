//! Laws of the ranges that SMB opens lock. The function does nothing; what it ensures holds of every good state.
ghost use Rattle.std.specs.Prelude.{◌≡◌, ℕ, Bool, false, List, ◌++◌, map, ◌↔◌};
ghost use Rattle.xl_base.specs.declared.name.Owner.{Owner};
ghost use Rattle.xl_matrix.specs.declared.claim.Claim.{Claim};
ghost use Rattle.xl_matrix.specs.declared.claim.Extent.{Extent};
ghost use Rattle.xl_table.specs.Elements.{elements_of, unlocked_elements};
ghost use Rattle.xl_wait.specs.declared.waiter.Rooms.{Rooms};
ghost use Rattle.xl_core.specs.State.{CoreState};
ghost use Rattle.xl_core.specs.Askers.{range_what, known_claim, IsFit};
ghost use Rattle.xl_core.specs.Causes.{IsElementDue};
ghost use Rattle.xl_core.specs.Decide.{way, ask};
ghost use Rattle.xl_core.specs.Good.{IsGood};
ghost use Rattle.xl_core.specs.declared.ask.Act.{Act};
ghost use Rattle.xl_core.specs.declared.ask.Answer.{Answer};
ghost use Rattle.xl_core.specs.declared.ask.Ask.{Ask};
ghost use Rattle.xl_core.specs.declared.ask.Who.{Who};

/// An SMB open's locks and unlocks, by the list of its ranges on the file (MS-SMB2 3.3.5.14). If its ranges are
/// granted, each of them is held once more, in order behind those that were held. If they aren't, all claims stay, in
/// their order, except for the breaks that began. An unlock takes out one range that is equal to its own, an exclusive
/// one before a shared one; if the open has none the answer says so. All else stays: see `deeds_are_all_that_changes`.
#[tactic(auto, using(crate::proofs::WayOpens::ask_locked, crate::proofs::WayOpens::ask_refused, crate::proofs::WayOpens::ask_unlocked, crate::proofs::WayOpens::ask_element))]
pub fn opens_lock_each_range()
    ensures locked { (n : ℕ) (left : Rooms) (s : CoreState) (a : Ask) (ranges : List (Extent × Bool)) (number : ℕ) (c : Claim) → IsGood s → IsFit a → a.owner ≡ Who.Open number → a.act ≡ Act.Ranges ranges → (ask n left s a).0 ≡ Answer.Granted c → elements_of a.file (Owner.Open number) (ask n left s a).2.claims ≡ elements_of a.file (Owner.Open number) s.claims ++ map range_what ranges }
    ensures refused { (n : ℕ) (left : Rooms) (s : CoreState) (a : Ask) → IsGood s → IsFit a → ((c : Claim) → (ask n left s a).0 ≡ Answer.Granted c → ⊥) → (ask n left s a).2.claims ≡ (way left s a).1.claims }
    ensures unlocked { (n : ℕ) (left : Rooms) (s : CoreState) (a : Ask) (extent : Extent) (number : ℕ) (c : Claim) → IsGood s → IsFit a → a.owner ≡ Who.Open number → a.act ≡ Act.Unlock extent → (ask n left s a).0 ≡ Answer.Granted c → elements_of a.file (Owner.Open number) (ask n left s a).2.claims ≡ unlocked_elements extent (elements_of a.file (Owner.Open number) s.claims) }
    ensures due { (n : ℕ) (left : Rooms) (s : CoreState) (a : Ask) (extent : Extent) (number : ℕ) (answer : Answer) → a.owner ≡ Who.Open number → a.act ≡ Act.Unlock extent → ((ask n left s a).0 ≡ answer) ↔ IsElementDue s (known_claim a extent false s.names) extent answer }
{}
