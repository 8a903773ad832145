//! Laws of the grammar: a stream is read in one way.
ghost use Rattle.std.specs.Prelude.{◌≡◌, ◌<◌, ◌++◌, ℕ, Bool, List, length};
ghost use Rattle.amqp_frames.specs.declared.frame.Frame.{Frame};
ghost use Rattle.amqp_frames.specs.declared.fault.FrameFault.{FrameFault};
ghost use Rattle.amqp_frames.specs.Frames.{IsFrame, frame_spelling, IsUnfinished};
ghost use Rattle.amqp_frames.specs.Streams.{IsStream, IsFault, Stops};

/// A stream is the frames of one list at most, before a first part of a frame or a fault, and one rest.
pub fn frames_are_one()
    ensures { (asked : Bool) (text : List ℕ) (a b : List Frame) (r s : List ℕ) → IsStream asked a r text → IsStream asked b s text
        → Stops r → Stops s → (a ≡ b) × (r ≡ s) }
{}

/// The first frame of a text is one, whatever follows it; and octets that begin with a whole frame are neither the first
/// part of one nor a fault. So what was written is read back, whatever follows it.
pub fn frames_are_apart()
    ensures apart { (f g : Frame) (x y : List ℕ) → IsFrame f → IsFrame g
        → frame_spelling f ++ x ≡ frame_spelling g ++ y → (f ≡ g) × (x ≡ y) }
    ensures finished { (f : Frame) (more : List ℕ) → IsFrame f → IsUnfinished (frame_spelling f ++ more) → ⊥ }
    ensures sound { (f : Frame) (more : List ℕ) (place : ℕ) (fault : FrameFault) → IsFrame f
        → IsFault place (frame_spelling f ++ more) fault → ⊥ }
{}

/// Octets in a frame's place have one fault at most.
pub fn faults_are_one()
    ensures { (place : ℕ) (rest : List ℕ) (e f : FrameFault) → IsFault place rest e → IsFault place rest f → e ≡ f }
{}

/// The first part of a frame has no fault.
pub fn parts_have_no_fault()
    ensures { (place : ℕ) (rest : List ℕ) (fault : FrameFault) → IsUnfinished rest → IsFault place rest fault → ⊥ }
{}

/// The first part of a frame has less than 131,072 octets.
pub fn parts_are_short()
    ensures { (rest : List ℕ) → IsUnfinished rest → length rest < 131072 }
{}
