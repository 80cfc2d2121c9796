//! Laws of segments. Each law is the contract of a function that does nothing.

ghost use Rattle.std.specs.Prelude.{◌≡◌, ◌≢◌, ◌≤◌, [], ◌∷◌, ◌++◌, List, ℕ, All, IsTrue, IsFalse, length};
ghost use Rattle.std.specs.List.{flat_map};
ghost use Rattle.xray_io.specs.declared.wall.Wall.{Wall};
ghost use Rattle.fdr_record.specs.declared.event.Event.{Event};
ghost use Rattle.fdr_buffer.specs.declared.buffer.TheConstants.{LEAST_SIZE};
ghost use Rattle.fdr_buffer.specs.Segments.{body, has_room, segments};

/// One more event begins the first segment, or joins the last one if there is room, or else begins
/// another one. So buffers that are filled by `fits` and `put` hold exactly the segments of the
/// events, if each new buffer is begun when the last one has no room.
pub fn a_segment_grows()
    ensures first { (size : ℕ) (event : Event)
        → segments size (event ∷ []) ≡ (event ∷ []) ∷ [] }
    ensures joined { (size : ℕ) (events opened : List Event) (whole : List (List Event))
        (event : Event) → segments size events ≡ whole ++ opened ∷ []
        → IsTrue (has_room size (opened ++ event ∷ []))
        → segments size (events ++ event ∷ []) ≡ whole ++ (opened ++ event ∷ []) ∷ [] }
    ensures cut { (size : ℕ) (events opened : List Event) (whole : List (List Event))
        (event : Event) → segments size events ≡ whole ++ opened ∷ []
        → IsFalse (has_room size (opened ++ event ∷ []))
        → segments size (events ++ event ∷ []) ≡ whole ++ opened ∷ (event ∷ []) ∷ [] }
{}

/// Every buffer has room for one event.
pub fn one_event_fits()
    ensures { (size : ℕ) (event : Event) → LEAST_SIZE ≤ size → IsTrue (has_room size (event ∷ [])) }
{}

/// No segment is empty, and together they hold all events in order. Each has room in a buffer of
/// the size by which the events were cut.
pub fn segments_hold_all()
    ensures all { (size : ℕ) (events : List Event) → flat_map (λ s. s) (segments size events) ≡ events }
    ensures some { (size : ℕ) (events : List Event) → All (λ s. s ≢ []) (segments size events) }
    ensures room { (size : ℕ) (events : List Event) → LEAST_SIZE ≤ size
        → All (λ s. IsTrue (has_room size s)) (segments size events) }
{}

/// If events have room in a buffer, their bytes and the preamble are at most as many as the
/// buffer's size.
pub fn a_body_has_room()
    ensures { (size thread : ℕ) (wall : Wall) (pid : ℕ) (events : List Event)
        → IsTrue (has_room size events) → length (body thread wall pid events) ≤ size }
{}
