// The table of kinds: what each is called, and what it is asked with.
ghost use Rattle.std.specs.Prelude.{◌≡◌};
ghost use Rattle.spec_kinds.specs.Table.{is_needed, is_unused, kind_name, row_of, takes_radii, takes_second};

use crate::kind::Kind;
use Range::{Cosine, Distance, Free, Length};
use Use::{Needed, Optional, Unused};

/// How a kind of event uses a body, a frame, an axis or a number.
#[derive(Clone, Copy, PartialEq, Eq)]
pub enum Use {
    /// The value has to be there.
    Needed,
    /// The value may be left out.
    Optional,
    /// The value must be left out.
    Unused,
}

/// What a reference value may be.
#[derive(Clone, Copy, PartialEq, Eq)]
pub enum Range {
    /// Below 2^36 km in magnitude.
    Length,
    /// From 0 km to below 2^36 km.
    Distance,
    /// At most 1 in magnitude.
    Cosine,
    /// Anything: no value is used.
    Free,
}

/// What a kind of event is asked with.
#[derive(Clone, Copy, PartialEq, Eq)]
pub struct KindRow {
    /// The kind.
    pub kind: Kind,
    /// How it uses the second body.
    pub second: Use,
    /// How it uses the frame.
    pub frame: Use,
    /// How it uses the axis.
    pub axis: Use,
    /// How it uses the reference value.
    pub reference: Use,
    /// What the reference value may be.
    pub range: Range,
    /// How it uses the two radii, each from 0 km to below 2^36 km.
    pub radii: Use,
}

/// The kinds of events, in the order of `Kind`: the name of each, as words and reports write it, and its row.
pub const KINDS: [(&str, KindRow); 11] = [
    (
        "coord",
        KindRow {
            kind: Kind::Coord,
            second: Unused,
            frame: Optional,
            axis: Needed,
            reference: Optional,
            range: Length,
            radii: Unused,
        },
    ),
    (
        "radius",
        KindRow {
            kind: Kind::Radius,
            second: Unused,
            frame: Unused,
            axis: Unused,
            reference: Needed,
            range: Distance,
            radii: Unused,
        },
    ),
    (
        "apsis",
        KindRow {
            kind: Kind::Apsis,
            second: Unused,
            frame: Unused,
            axis: Unused,
            reference: Unused,
            range: Free,
            radii: Unused,
        },
    ),
    (
        "conj",
        KindRow {
            kind: Kind::Conj,
            second: Needed,
            frame: Optional,
            axis: Unused,
            reference: Unused,
            range: Free,
            radii: Unused,
        },
    ),
    (
        "oppo",
        KindRow {
            kind: Kind::Oppo,
            second: Needed,
            frame: Optional,
            axis: Unused,
            reference: Unused,
            range: Free,
            radii: Unused,
        },
    ),
    (
        "station",
        KindRow {
            kind: Kind::Station,
            second: Unused,
            frame: Optional,
            axis: Unused,
            reference: Unused,
            range: Free,
            radii: Unused,
        },
    ),
    (
        "sep",
        KindRow {
            kind: Kind::Sep,
            second: Needed,
            frame: Unused,
            axis: Unused,
            reference: Needed,
            range: Cosine,
            radii: Unused,
        },
    ),
    (
        "sepext",
        KindRow {
            kind: Kind::SepExt,
            second: Needed,
            frame: Unused,
            axis: Unused,
            reference: Unused,
            range: Free,
            radii: Unused,
        },
    ),
    (
        "any",
        KindRow {
            kind: Kind::Any,
            second: Needed,
            frame: Unused,
            axis: Unused,
            reference: Unused,
            range: Free,
            radii: Needed,
        },
    ),
    (
        "full",
        KindRow {
            kind: Kind::Full,
            second: Needed,
            frame: Unused,
            axis: Unused,
            reference: Unused,
            range: Free,
            radii: Needed,
        },
    ),
    (
        "annular",
        KindRow {
            kind: Kind::Annular,
            second: Needed,
            frame: Unused,
            axis: Unused,
            reference: Unused,
            range: Free,
            radii: Needed,
        },
    ),
];

impl Use {
    /// Returns whether this use is `Needed`, so that a request has to give the value.
    pub fn is_needed(self) -> bool
        ensures { result ≡ is_needed self }
    {
        matches!(self, Needed)
    }

    /// Returns whether this use is `Unused`, so that a request must leave the value out.
    pub fn is_unused(self) -> bool
        ensures { result ≡ is_unused self }
    {
        matches!(self, Unused)
    }
}

impl Kind {
    /// Returns the name of the kind, as command lines and reports write it: `coord`, `radius` and so on.
    pub fn name(self) -> &'static str
        ensures { result.now ≡ kind_name self }
    {
        KINDS[self as usize].0
    }

    // Returns the row of this kind in the table of kinds. The table stands in the order of the variants, so a variant's
    // number is its row's index.
    fn row(self) -> KindRow
        ensures { result ≡ row_of self }
    {
        KINDS[self as usize].1
    }

    /// Returns how this kind of event uses a second body: needed, optional or unused. No kind has it as optional.
    pub fn second(self) -> Use
        ensures { result ≡ (row_of self).second }
    {
        self.row().second
    }

    /// Returns how this kind of event uses the frame in which coordinates are measured: optional if it looks at
    /// coordinates, else unused.
    pub fn frame(self) -> Use
        ensures { result ≡ (row_of self).frame }
    {
        self.row().frame
    }

    /// Returns how this kind of event uses the axis of a coordinate: needed for `coord`, else unused.
    pub fn axis(self) -> Use
        ensures { result ≡ (row_of self).axis }
    {
        self.row().axis
    }

    /// Returns how this kind of event uses a reference value, which its function passes: needed, optional or unused.
    pub fn reference(self) -> Use
        ensures { result ≡ (row_of self).reference }
    {
        self.row().reference
    }

    /// Returns which reference values this kind takes: lengths or distances in km, cosines, or anything (`Free`) if it
    /// uses none.
    pub fn range(self) -> Range
        ensures { result ≡ (row_of self).range }
    {
        self.row().range
    }

    /// Returns how this kind of event uses the radii of both bodies, in km: needed for occultations, else unused.
    pub fn radii(self) -> Use
        ensures { result ≡ (row_of self).radii }
    {
        self.row().radii
    }

    /// Returns whether events of this kind are of two bodies, so that a request has to name the second.
    pub fn takes_second(self) -> bool
        ensures { result ≡ takes_second self }
    {
        self.second().is_needed()
    }

    /// Returns whether this kind is an occultation, so that a request has to give the radii of both bodies.
    pub fn takes_radii(self) -> bool
        ensures { result ≡ takes_radii self }
    {
        self.radii().is_needed()
    }
}
