//! Laws of the house: a frame of several messages is its parts. The functions do nothing.
ghost use Rattle.std.specs.Prelude.{◌≡◌, ℕ, true, false, List, [], None, Some};
ghost use Rattle.xl_base.specs.declared.event.Event.TheVariants.{Message};
ghost use Rattle.xl_base.specs.declared.event.Out.{Out};
ghost use Rattle.xl_base.specs.declared.journal.Entry.{Entry};
ghost use Rattle.xl_base.specs.declared.journal.Head.{Head};
ghost use Rattle.xl_core.specs.State.{step_begun};
ghost use Rattle.xl_smb.specs.Compounds.{Part, is_over, part_at};
ghost use Rattle.xl_house.specs.Done.{rounds};
ghost use Rattle.xl_house.specs.Journals.{IsLegal};
ghost use Rattle.xl_house.specs.Lawful.{Always};
ghost use Rattle.xl_house.specs.Machine.{Gone, Ground, heard, part_heard, run};
ghost use Rattle.xl_house.specs.Parted.{AreOfSmb, IsParted, IsPartedBy, ended, frames_done, is_silent, rounds_run, why_undone};
ghost use Rattle.xl_house.specs.Sifting.{brings_frame};
ghost use Rattle.xl_house.specs.State.{Whole, as_found, start_of};

/// A frame of several messages is its parts, in order: each, filled in with what it takes over from the one before it, is done as a
/// message alone in the state that the one before left settled, and their replies are in one frame. So is what stands behind a part
/// that waited, once that is served or cancelled; if a part of another frame does that, it is done to its end before that frame goes
/// on, and so are all frames that go on: the topmost first. And a part is heard as the same message in an entry of its own.
pub fn frames_are_their_parts()
    ensures alone { (n conn : ℕ) (bytes : List ℕ) (s : Whole) → heard n (as_found s) (Message conn bytes) ≡ part_heard n (s.exports, s.connections) s.front (step_begun s.core) conn bytes }
    ensures between { (n : ℕ) (at : Ground) (g : Gone) → AreOfSmb at.1 g.0.stack → (let d = frames_done n at g g.0.stack in (run n at g ≡ ended d.0) × (rounds_run n at g ≡ d.1)) }
    ensures parted { (head : Head) (es : List Entry) → IsLegal (start_of head) es → Always IsParted (start_of head) es }
{}

/// An entry isn't its parts by a machine that does nothing of a frame whose first part may be done.
pub fn machines_that_skip_parts_are_refused()
    ensures skipped { (n conn : ℕ) (bytes : List ℕ) (s t : Whole) (p : Part) (outs : List Out) → brings_frame s.connections (Message conn bytes) ≡ true → is_over bytes ≡ false → part_at bytes ≡ Some p → is_silent None p ≡ false → why_undone None p ≡ None → rounds n s (Message conn bytes) ≡ []
        → IsPartedBy n s (Message conn bytes) outs t → ⊥ }
{}
