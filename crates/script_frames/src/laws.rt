//! Laws of frames. The functions do nothing: their contracts are the laws.
ghost use Rattle.std.specs.Prelude.{◌≡◌, ◌++◌, [], ℕ, List};
ghost use Rattle.script_frames.specs.Frames.{Frame, framed, frames_of};
ghost use Rattle.script_frames.specs.Spelling.{AreFrames, frames_text};

/// Frames that are spelled one after another are read as these frames; and the frames that are read, spelled one after
/// another, are the front of the input. So each frame has one spelling.
pub fn frames_are_read_back()
    ensures read { (frames : List Frame) → AreFrames frames
        → framed (frames_text frames) ≡ record { frames = frames; rest = [] } }
    ensures spelled { (input : List ℕ) → AreFrames (frames_of input)
        × (input ≡ frames_text (frames_of input) ++ (framed input).rest) }
{}
