// The kinds of events.

/// What has to happen for an event. A body's place is geometric, seen from the observer in the frame.
#[derive(Clone, Copy, PartialEq, Eq)]
pub enum Kind {
    /// A coordinate of the target passes a value, as by SPICE's `gfposc`.
    Coord,
    /// The distance of the target passes a value, as by SPICE's `gfdist`.
    Radius,
    /// The distance of the target is least or greatest, as by SPICE's `gfdist`.
    Apsis,
    /// Target and second body have one longitude.
    Conj,
    /// Target and second body have opposite longitudes.
    Oppo,
    /// The longitude of the target stands still.
    Station,
    /// The angle between target and second body passes a value, as by SPICE's `gfsep`.
    Sep,
    /// The angle between target and second body is least or greatest, as by SPICE's `gfsep`.
    SepExt,
    /// The disc of the target, in front, begins or ceases to touch that of the second body, as by SPICE's `gfoclt`.
    Any,
    /// The disc of the target covers all of that of the second body, as by SPICE's `gfoclt`.
    Full,
    /// The disc of the target lies within that of the second body, as by SPICE's `gfoclt`.
    Annular,
}
