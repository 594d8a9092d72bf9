// Laws of frames.
ghost use Rattle.std.specs.Prelude.{◌≡◌, ◌+◌, ◌≤◌, Bool, List, ℕ, ◌++◌, length, Ok};
ghost use Rattle.edge_io.specs.declared.peers.Role.{Role};
ghost use Rattle.role_wire.specs.declared.frames.FrameIn.{FrameIn};
ghost use Rattle.role_wire.specs.Ranges.{IsFrame};
ghost use Rattle.role_wire.specs.Frame.{body_limit, frame_spelling, frame_at};

/// The octets of a frame are read as that frame, whatever follows them.
pub fn spelled_is_read()
    ensures { (role : Role) (first : Bool) (frame : FrameIn) (rest : List ℕ) → IsFrame role first frame
        → frame_at role first (frame_spelling frame ++ rest) ≡ Ok frame }
{}

/// A frame has 3 to 4,098 octets.
pub fn spelling_is_short()
    ensures { (role : Role) (first : Bool) (frame : FrameIn) → IsFrame role first frame
        → (3 ≤ length (frame_spelling frame)) × (length (frame_spelling frame) ≤ 2 + body_limit) }
{}
