//! What holds of frames and streams: functions that do nothing, whose contracts say it.
ghost use Rattle.std.specs.Prelude.{◌≡◌, ◌≢◌, ◌≤◌, ◌+◌, ℕ, true, slice_index, List, [], ◌++◌, All, Ok, Err, length, take};
ghost use Rattle.std.specs.List.{flat_map};
ghost use Rattle.pvp_wire.specs.declared.fault.WireFault.{WireFault};
ghost use Rattle.pvp_wire.specs.declared.stamped.Stamped.{Stamped};
ghost use Rattle.pvp_wire.specs.Spelling.{spelling, most_body};
ghost use Rattle.pvp_wire.specs.Fits.{IsBytes, IsSpelled};
ghost use Rattle.pvp_wire.specs.Reading.{frame_at, TakesMemory, carries_a_list, HasARow, IsOfField};
ghost use Rattle.pvp_wire.specs.Feeding.{Splits, Call, IsFed, AreFed, empty, all_taken, all_given, all_answered, after_calls};

/// Bytes that are read as a frame are its spelling, to the byte; what has a spelling is read again from it, whatever
/// follows; no spelling begins another, and none is longer than that of an envelope with a full log and the boot
/// numbers of seven sites, 2,031,649 bytes.
pub fn frames()
    ensures read { (bytes : List ℕ) (stamped : Stamped) (size : ℕ) → IsBytes bytes →
        frame_at bytes ≡ Ok (stamped, size) →
        (take size bytes ≡ spelling stamped) × (size ≡ length (spelling stamped))
        × (size ≤ length bytes) × IsSpelled stamped }
    ensures again { (stamped : Stamped) (rest : List ℕ) → IsSpelled stamped →
        frame_at (spelling stamped ++ rest) ≡ Ok (stamped, length (spelling stamped)) }
    ensures one { (a b : Stamped) (x y : List ℕ) → IsSpelled a → IsSpelled b →
        spelling a ++ x ≡ spelling b ++ y → (a ≡ b) × (x ≡ y) }
    ensures short { (stamped : Stamped) → IsSpelled stamped →
        length (spelling stamped) ≤ 22 + most_body }
{}

/// Memory is taken only for frames of the four kinds that carry a list of rows. If such a frame is read, it has a row;
/// if not, a field is at fault, or the frame's length.
pub fn memory()
    ensures kind { (bytes : List ℕ) → TakesMemory bytes →
        carries_a_list (slice_index bytes 5) ≡ true }
    ensures read { (bytes : List ℕ) (stamped : Stamped) (size : ℕ) → TakesMemory bytes →
        frame_at bytes ≡ Ok (stamped, size) →
        HasARow stamped.envelope.msg }
    ensures fault { (bytes : List ℕ) (fault : WireFault) → TakesMemory bytes →
        frame_at bytes ≡ Err fault → IsOfField fault }
{}

/// There is only one way to split a stream into frames and a rest that does not begin with a frame.
pub fn streams()
    ensures { (stream : List ℕ) (a b : List Stamped) (x y : List ℕ) (f g : WireFault) →
        Splits stream a x → Splits stream b y → frame_at x ≡ Err f → frame_at y ≡ Err g →
        (a ≡ b) × (x ≡ y) }
{}

/// After any calls of a new feeder the frames that it answered are those at the front of the pieces that it took,
/// joined. What it holds is the rest: either it begins with no complete frame, or with the fault that the feeder
/// keeps.
pub fn pieces()
    ensures front { (calls : List Call) → AreFed empty calls →
        Splits (all_taken empty calls) (all_answered calls) (after_calls empty calls).held }
    ensures left { (calls : List Call) → AreFed empty calls → IsFed (after_calls empty calls) }
{}

/// It does not matter how the pieces were cut. If the pieces that two new feeders were given are the same, joined,
/// they answered the same frames and keep the same fault. If the pieces that they took are the same, without any that
/// came after a fault, they hold the same bytes too. A piece for which memory was refused does not count.
pub fn cuts()
    ensures given { (a b : List Call) → AreFed empty a → AreFed empty b →
        all_given a ≡ all_given b →
        (all_answered a ≡ all_answered b)
        × ((after_calls empty a).fault ≡ (after_calls empty b).fault) }
    ensures taken { (a b : List Call) → AreFed empty a → AreFed empty b →
        all_taken empty a ≡ all_taken empty b →
        (all_answered a ≡ all_answered b) × (after_calls empty a ≡ after_calls empty b) }
{}
