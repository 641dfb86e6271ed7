//! Laws of frames, each as the contract of a function that does nothing.
ghost use Rattle.std.specs.Prelude.{◌≡◌, ℕ, ◌≤◌, List, [], ◌∷◌, ◌++◌, length, Some};
ghost use Rattle.xl_base.specs.declared.event.Kind.{Kind};
ghost use Rattle.xl_base.specs.declared.event.Kind.TheVariants.{Rpc, Smb};
ghost use Rattle.xl_base.specs.Limits.{most_message_bytes};
ghost use Rattle.xl_frame.specs.Frames.{wrapped, frames, with_frames};
ghost use Rattle.xl_frame.specs.Records.{spelled, message_in, IsRecord, Begins};
ghost use Rattle.xl_base.specs.Codec.{IsBytes};
ghost use Rattle.xl_frame.specs.Cutting.{then_piece, framed_of, Call, begun, after, stream_of};

/// A message in its frame is cut out as itself, whatever follows.
#[tactic(auto, using(crate::proofs::StreamLaws::wrapped_are_cut))]
pub fn wrapped_messages_are_cut_out()
    ensures { (kind : Kind) (message rest : List ℕ) → length message ≤ most_message_bytes → frames kind (wrapped kind message ++ rest) ≡ with_frames (message ∷ []) (frames kind rest) }
{}

/// A record in fragments is cut out as itself, whatever follows; and what is cut out of bytes is a record that stands
/// there in fragments, each after the other (RFC 5531 11).
#[tactic(auto, using(crate::proofs::RecordLaws::records_cut))]
pub fn records_are_cut_out()
    ensures spelled { (bodies : List (List ℕ)) (ending rest : List ℕ) → IsRecord bodies ending → frames Rpc (spelled bodies ending ++ rest) ≡ with_frames (message_in bodies ending ∷ []) (frames Rpc rest) }
    ensures cut { (stream message : List ℕ) (more : List (List ℕ)) → IsBytes stream → (frames Rpc stream).frames ≡ message ∷ more →
        (behind : List ℕ) × Begins stream message behind × (frames Rpc stream ≡ with_frames (message ∷ []) (frames Rpc behind)) }
{}

/// What is cut out of the bytes of an SMB connection stands there, each message of at most 65,536 bytes in a frame of its
/// own behind the other (MS-SMB2 2.1).
pub fn packets_are_cut_out()
    ensures { (stream message : List ℕ) (more : List (List ℕ)) → IsBytes stream → (frames Smb stream).frames ≡ message ∷ more →
        (behind : List ℕ) × (length message ≤ most_message_bytes) × (stream ≡ wrapped Smb message ++ behind) × (frames Smb stream ≡ with_frames (message ∷ []) (frames Smb behind)) }
{}

/// A stream may be cut at any place: its frames are those before the place, and then those of what these leave and what
/// follows. Behind a bad place nothing changes.
#[tactic(auto, using(crate::proofs::StreamLaws::cut_anywhere))]
pub fn streams_are_cut_anywhere()
    ensures { (kind : Kind) (stream piece : List ℕ) → frames kind (stream ++ piece) ≡ then_piece kind (frames kind stream) piece }
{}

/// Whatever pieces are fed, and whenever a message is asked for, the messages that were handed out and then those that
/// are ready are all of the stream that was fed, and the cutter has that stream's rest and fault.
#[tactic(auto, using(crate::proofs::StreamLaws::handed_are_frames))]
pub fn handed_messages_are_the_streams()
    ensures { (kind : Kind) (calls : List Call) → with_frames (after (begun kind) calls).handed (framed_of (after (begun kind) calls).cutter) ≡ frames kind (stream_of calls) }
{}
