//! Laws of clients: RENEW, SETCLIENTID and SETCLIENTID_CONFIRM, case by case. The functions do nothing: each has laws as its
//! clauses.
ghost use Rattle.std.specs.Prelude.{◌≡◌, ◌↔◌, ◌+◌, ℕ, true, false, [], length, Option, Some, None};
ghost use Rattle.std.specs.List.{find};
ghost use Rattle.xl_nfs.specs.Clients.{SetClientIdArgsItem};
ghost use Rattle.xl_nfs.specs.declared.clients.ClientConfirm.{ClientConfirm};
ghost use Rattle.xl_nfs.specs.declared.status.NfsStatus.TheVariants.{Ok, Resource, StaleClientId};
ghost use Rattle.xl_nfs_state.specs.State.{IsSound, NfsLists, is_client, is_client_named};
ghost use Rattle.xl_nfs_state.specs.declared.client.ClientRow.{ClientRow};
ghost use Rattle.xl_core.specs.Ids.{number_in};
ghost use Rattle.xl_core.specs.State.{CoreState};
ghost use Rattle.xl_front_nfs.specs.Clients.{has_room, renew, set_client_id, set_client_id_confirm, without_named};
ghost use Rattle.xl_nfs_opens.specs.Opens.{client_in};
ghost use Rattle.xl_nfs_opens.specs.Plans.{carried};
ghost use Rattle.xl_nfs_opens.specs.declared.told.Told.TheVariants.{Ended};
ghost use Rattle.xl_nfs_laws.specs.ClientCases.{CanConfirm, IsConfirmed, IsGone, IsSet, IsUnconfirmed, KeepsState};

/// A RENEW is OK exactly if its clientid is of this start and names a confirmed client; else it is STALE_CLIENTID, and nothing
/// changes. What is remembered stays as it was (RFC 7530 16.28).
#[tactic(auto, using(crate::proofs::ClientCaseLaws::renew_exactly, crate::proofs::ClientCaseLaws::renew_else, crate::proofs::ClientCaseLaws::renew_keeps))]
pub fn confirmed_clients_renew()
    ensures exactly { (n : ℕ) (s : CoreState) (l : NfsLists) (current : Option ℕ) (clientid : ℕ) → ((carried n s l (renew s l current clientid)).0 ≡ Ended Ok) ↔ ((c : ClientRow) × (client_in s l clientid ≡ Some c)) }
    ensures stale { (n : ℕ) (s : CoreState) (l : NfsLists) (current : Option ℕ) (clientid : ℕ) → client_in s l clientid ≡ None → carried n s l (renew s l current clientid) ≡ (Ended StaleClientId, current, [], l, s) }
    ensures remembered { (n : ℕ) (s : CoreState) (l : NfsLists) (current : Option ℕ) (clientid : ℕ) → (carried n s l (renew s l current clientid)).3 ≡ l }
{}

/// A SETCLIENTID, if there is room, is answered the clientid of the client's confirmed record if that has the same verifier,
/// so the client only changes how it is called back; else, if there is none or the client has started anew, a clientid of a
/// new number. With it comes the unconfirmed record that its second verifier confirms. What is confirmed, and what clients
/// have, stays until then (RFC 7530 16.33.5).
#[tactic(auto, using(crate::proofs::ClientCaseLaws::set_same, crate::proofs::ClientCaseLaws::set_new))]
pub fn clients_are_set_unconfirmed()
    ensures same { (n : ℕ) (s : CoreState) (l : NfsLists) (current : Option ℕ) (a : SetClientIdArgsItem) (r : ClientRow) → has_room (without_named a.id l) ≡ true → find (is_client_named a.id true) l.clients ≡ Some r → r.details.verifier ≡ a.verifier → IsSet s l a r.number (carried n s l (set_client_id s l current a)) }
    ensures anew { (n : ℕ) (s : CoreState) (l : NfsLists) (current : Option ℕ) (a : SetClientIdArgsItem) → has_room (without_named a.id l) ≡ true → ((r : ClientRow) → find (is_client_named a.id true) l.clients ≡ Some r → r.details.verifier ≡ a.verifier → ⊥) → IsSet s l a (s.counter + 1) (carried n s l (set_client_id s l current a)) }
{}

/// A SETCLIENTID is RESOURCE exactly if 256 records are there and none of them is an unconfirmed one of its id string, which would
/// make room; and then it changes nothing.
#[tactic(auto, using(crate::proofs::ExactStatusLaws::full_exactly, crate::proofs::ExactStatusLaws::full_changes_nothing))]
pub fn clients_find_room()
    ensures exactly { (n : ℕ) (s : CoreState) (l : NfsLists) (current : Option ℕ) (a : SetClientIdArgsItem) → IsSound l → ((carried n s l (set_client_id s l current a)).0 ≡ Ended Resource) ↔ ((length l.clients ≡ 256) × (find (is_client_named a.id false) l.clients ≡ None)) }
    ensures nothing { (n : ℕ) (s : CoreState) (l : NfsLists) (current : Option ℕ) (a : SetClientIdArgsItem) → IsSound l → (carried n s l (set_client_id s l current a)).0 ≡ Ended Resource → carried n s l (set_client_id s l current a) ≡ (Ended Resource, current, [], l, s) }
{}

/// A SETCLIENTID_CONFIRM is OK exactly if its clientid names a record that its verifier confirms, unconfirmed or confirmed;
/// else it is STALE_CLIENTID, and what is remembered stays (RFC 7530 16.34.5). If only the confirmed record has the verifier
/// it comes again, and what is remembered stays. If the unconfirmed one has it, that becomes the confirmed one: the client is
/// new, if none of its id string was confirmed; or it has the clientid of the confirmed one, and keeps what it has; or
/// another one, since it started anew: then the client that it was is gone, with its clientid, its owners, its stateids, and
/// all that the core held of it.
pub fn clients_are_confirmed()
    ensures stale { (n : ℕ) (s : CoreState) (l : NfsLists) (current : Option ℕ) (a : ClientConfirm) → (CanConfirm s l a → ⊥) → ((carried n s l (set_client_id_confirm s l current a)).0 ≡ Ended StaleClientId) × ((carried n s l (set_client_id_confirm s l current a)).3 ≡ l) }
    ensures again { (n : ℕ) (s : CoreState) (l : NfsLists) (current : Option ℕ) (a : ClientConfirm) (number : ℕ) (c : ClientRow) → number_in s a.clientid ≡ Some number → ((r : ClientRow) → IsUnconfirmed s l a number r → ⊥) → find (is_client number true) l.clients ≡ Some c → c.details.confirm ≡ a.verifier → ((carried n s l (set_client_id_confirm s l current a)).0 ≡ Ended Ok) × ((carried n s l (set_client_id_confirm s l current a)).3 ≡ l) }
    ensures comes { (n : ℕ) (s : CoreState) (l : NfsLists) (current : Option ℕ) (a : ClientConfirm) (number : ℕ) (r : ClientRow) → IsUnconfirmed s l a number r → find (is_client_named r.id true) l.clients ≡ None → IsConfirmed number r (carried n s l (set_client_id_confirm s l current a)) }
    ensures same { (n : ℕ) (s : CoreState) (l : NfsLists) (current : Option ℕ) (a : ClientConfirm) (number : ℕ) (r o : ClientRow) → IsUnconfirmed s l a number r → find (is_client_named r.id true) l.clients ≡ Some o → o.number ≡ number → find (is_client number true) l.clients ≡ Some o → IsConfirmed number r (carried n s l (set_client_id_confirm s l current a)) × KeepsState l (carried n s l (set_client_id_confirm s l current a)) }
    ensures other { (n : ℕ) (s : CoreState) (l : NfsLists) (current : Option ℕ) (a : ClientConfirm) (number : ℕ) (r o : ClientRow) → IsUnconfirmed s l a number r → find (is_client_named r.id true) l.clients ≡ Some o → (o.number ≡ number → ⊥) → IsConfirmed number r (carried n s l (set_client_id_confirm s l current a)) × IsGone s o.number r.id (carried n s l (set_client_id_confirm s l current a)) }
{}
