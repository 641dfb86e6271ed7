//! Laws of this crate's definitions, for the layers above. The functions do nothing: each has a law as its clause.
ghost use Rattle.std.specs.Prelude.{◌≡◌, ℕ, nat_eq, ◌≤◌, true, false, ◌∷◌, [], List, Some, is_some, IfSome};
ghost use Rattle.std.specs.List.{IsDistinct, filter};
ghost use Rattle.std.specs.Map.{keys_of};
ghost use Rattle.xl_base.specs.Lists.{IsIn};
ghost use Rattle.xl_smb_state.specs.declared.row.LeaseKey.{LeaseKey};
ghost use Rattle.xl_smb_state.specs.declared.row.Place.{Place};
ghost use Rattle.xl_smb_state.specs.declared.row.Scope.{Scope};
ghost use Rattle.xl_smb_state.specs.declared.row.Scope.TheVariants as scope;
ghost use Rattle.xl_smb_state.specs.declared.row.Tree.{Tree};
ghost use Rattle.xl_smb_state.specs.State.{Lists, same_lease, client_of, session_of, sessions_on, session_dropped, tree_of, trees_of, trees_on, tree_dropped, opens_under, closed, waiting_under, waiting_dropped, lowest};
ghost use Rattle.xl_smb_state.specs.Links.{IsPlace, IsSound, AreDistinct};

/// The comparison of lease keys is equality.
#[tactic(auto, using(crate::proofs::LinkLaws::same_lease_is))]
pub fn same_keys_are_equal()
    ensures { (a b : LeaseKey) → same_lease a b ≡ true → a ≡ b }
{}

/// If a tree connect is there, so is its session, on the same connection, whose client has negotiated.
#[tactic(auto, using(crate::proofs::LinkLaws::place_session, crate::proofs::LinkLaws::place_client))]
pub fn places_are_whole()
    ensures session { (s : Lists) (place : Place) → IsSound s → IsPlace s place → session_of place.session s ≡ Some (record { connection = place.connection }) }
    ensures client { (s : Lists) (place : Place) → IsSound s → IsPlace s place → is_some (client_of place.connection s) ≡ true }
{}

/// The lowest of some numbers is one of them, and none of them is lower.
#[tactic(auto, using(crate::proofs::WalkLaws::lowest_in, crate::proofs::WalkLaws::lowest_least))]
pub fn lowest_is_the_least()
    ensures found { (ns : List ℕ) → IfSome (lowest ns) (λ m. IsIn m ns) }
    ensures least { (ns : List ℕ) → IfSome (lowest ns) (λ m. (n : ℕ) → IsIn n ns → m ≤ n) }
{}

/// Who closes the first of the opens under a connection, a session or a tree connect leaves the others, in order; and so it
/// is of sessions, tree connects and requests that wait. So none is left once all were taken out in turn.
#[tactic(auto, using(crate::proofs::WalkLaws::opens_walk, crate::proofs::WalkLaws::sessions_walk, crate::proofs::WalkLaws::trees_walk, crate::proofs::WalkLaws::waiting_walk))]
pub fn the_first_goes_and_the_others_stay()
    ensures opens { (under : Scope) (s : Lists) (n : ℕ) (ns : List ℕ) → AreDistinct s → opens_under under s ≡ n ∷ ns → opens_under under (closed n s) ≡ ns }
    ensures sessions { (connection : ℕ) (s : Lists) (n : ℕ) (ns : List ℕ) → AreDistinct s → sessions_on connection s ≡ n ∷ ns → sessions_on connection (session_dropped n s) ≡ ns }
    ensures trees { (session : ℕ) (s : Lists) (n : ℕ) (ns : List ℕ) → AreDistinct s → trees_of session s ≡ n ∷ ns → trees_of session (tree_dropped n s) ≡ ns }
    ensures waiting { (under : Scope) (s : Lists) (n : ℕ) (ns : List ℕ) → AreDistinct s → waiting_under under s ≡ n ∷ ns → waiting_under under (waiting_dropped n s) ≡ ns }
{}

/// If no open is under a session, none is under a tree connect of it; and if none is on a connection, none is under
/// a tree connect on it.
#[tactic(auto, using(crate::proofs::WalkLaws::free_by_session, crate::proofs::WalkLaws::free_by_connection))]
pub fn free_sessions_have_free_trees()
    ensures session { (s : Lists) (number : ℕ) (row : Tree) → IsSound s → tree_of number s ≡ Some row → opens_under (scope.Session row.session) s ≡ [] → opens_under (scope.Tree number) s ≡ [] }
    ensures connection { (s : Lists) (number : ℕ) (row : Tree) → IsSound s → tree_of number s ≡ Some row → opens_under (scope.Connection row.connection) s ≡ [] → opens_under (scope.Tree number) s ≡ [] }
{}
