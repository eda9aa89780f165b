//! What the definitions say together.
ghost use Rattle.std.specs.Prelude.{◌≡◌, ℕ, List, All};
ghost use Rattle.em_pcap.specs.Reading.{reading_of};
ghost use Rattle.em_pcap.specs.Writing.{Timed, Fits, capture_text, all_read};

/// A capture that was written gives the frames back when it is read, whole and with their times, and no fault.
pub fn what_is_written_is_read()
    ensures { (own : List ℕ) (frames : List Timed) → All Fits frames
        → reading_of own (capture_text frames) ≡ all_read frames }
{}
