// Theorems on the file.
// Where no lemma is named here, the search does not take it (tried), and an answer names it.
ghost use Rattle.session.specs.Files.{FileBack};
ghost use Rattle.session.specs.Frames.{FramesBack};
ghost use Rattle.session.specs.Samples.{SamplesClose};

// Messages that are written one after the other are read so.
#[tactic(auto, using(crate::proofs::Framing::frames_back))]
pub fn frames_back_stands()
    ensures { FramesBack }
{}

// A file that is written is read as that opening and those messages.
pub fn file_back_stands()
    ensures { FileBack }
{}

// A run that closes a sale as the promise on true sheets has it: what farm 1 has by its true sheet, by a larger and by a smaller worth.
#[tactic(auto, using(crate::proofs::Samples::samples_close))]
pub fn samples_close_stands()
    ensures { SamplesClose }
{}
