// The tables of names: how each thing is called in words and in reports. Where its values are those of an enum, a table
// stands in the enum's order, so that a name is looked up in it as well as what a name stands for.

use crate::request::{Named, Relation};
use spec_bodies::Frame;
use spec_ephemeris::Body;
use spec_events::Dir;
use spec_trees::CutRule;

/// The commands.
#[derive(Clone, Copy, PartialEq, Eq)]
pub enum CommandName {
    Find,
    Cert,
    Verify,
    Check,
    Gen,
    Set,
    Scalar,
}

/// The first words of command lines.
pub const COMMANDS: [(&str, CommandName); 7] = [
    ("find", CommandName::Find),
    ("cert", CommandName::Cert),
    ("verify", CommandName::Verify),
    ("check", CommandName::Check),
    ("gen", CommandName::Gen),
    ("set", CommandName::Set),
    ("scalar", CommandName::Scalar),
];

/// The bodies. All can be observers; the last, the barycentre of the solar system, can be nothing else.
pub const BODIES: [(&str, Body); 13] = [
    ("mercury", Body::Mercury),
    ("venus", Body::Venus),
    ("emb", Body::Emb),
    ("mars", Body::Mars),
    ("jupiter", Body::Jupiter),
    ("saturn", Body::Saturn),
    ("uranus", Body::Uranus),
    ("neptune", Body::Neptune),
    ("pluto", Body::Pluto),
    ("moon", Body::Moon),
    ("sun", Body::Sun),
    ("earth", Body::Earth),
    ("ssb", Body::Ssb),
];

/// The frames.
pub const FRAMES: [(&str, Frame); 2] = [("eq", Frame::Eq), ("ecl", Frame::Ecl)];

/// The axes of a frame, by their numbers.
pub const AXES: [(&str, u8); 3] = [("x", 0), ("y", 1), ("z", 2)];

/// The turns that a search may want.
pub const DIRS: [(&str, Dir); 3] = [("any", Dir::Any), ("rise", Dir::Rise), ("fall", Dir::Fall)];

/// The relations of a function to its references.
pub const RELATIONS: [(&str, Relation); 4] = [
    ("less", Relation::Less),
    ("atleast", Relation::AtLeast),
    ("within", Relation::Within),
    ("outside", Relation::Outside),
];

/// The rules of cutting.
pub const CUTS: [(&str, CutRule); 2] = [("half", CutRule::Half), ("third", CutRule::Third)];

/// The layouts of generated texts: the one of DE405.
pub const LAYOUTS: [(&str, u16); 1] = [("405", 405)];

/// How many ticks a second may have: times are counted in seconds or in milliseconds.
pub const TICKS: [(&str, u32); 2] = [("1", 1), ("1000", 1_000)];

/// The options of all commands, and the words of `gen`.
pub const OPTIONS: [(&str, Named); 24] = [
    ("kind", Named::Kind),
    ("target", Named::Target),
    ("second", Named::Second),
    ("observer", Named::Observer),
    ("frame", Named::Frame),
    ("axis", Named::Axis),
    ("ref", Named::Ref),
    ("radius1", Named::Radius1),
    ("radius2", Named::Radius2),
    ("relation", Named::Relation),
    ("ref2", Named::Ref2),
    ("dir", Named::Dir),
    ("tick", Named::Tick),
    ("from", Named::From),
    ("to", Named::To),
    ("width", Named::Width),
    ("depth", Named::Depth),
    ("workers", Named::Workers),
    ("cut", Named::Cut),
    ("cert", Named::Cert),
    ("layout", Named::Layout),
    ("blocks", Named::Blocks),
    ("seed", Named::Seed),
    ("quad", Named::Quad),
];

/// The options of `find` and `cert`, in the order in which their faults count. `verify` has one more, the last.
pub const FIND_OPTIONS: [Named; 17] = [
    Named::Kind,
    Named::Target,
    Named::Second,
    Named::Observer,
    Named::Frame,
    Named::Axis,
    Named::Ref,
    Named::Radius1,
    Named::Radius2,
    Named::Dir,
    Named::Tick,
    Named::From,
    Named::To,
    Named::Width,
    Named::Depth,
    Named::Workers,
    Named::Cut,
];

/// The options of `set`, in the order in which their faults count: those of `find` without the direction, and with the
/// relation and the second reference.
pub const SET_OPTIONS: [Named; 18] = [
    Named::Kind,
    Named::Target,
    Named::Second,
    Named::Observer,
    Named::Frame,
    Named::Axis,
    Named::Ref,
    Named::Radius1,
    Named::Radius2,
    Named::Relation,
    Named::Ref2,
    Named::Tick,
    Named::From,
    Named::To,
    Named::Width,
    Named::Depth,
    Named::Workers,
    Named::Cut,
];

/// The options of `scalar`, in the order in which their faults count.
pub const SCALAR_OPTIONS: [Named; 8] = [
    Named::Quad,
    Named::Dir,
    Named::From,
    Named::To,
    Named::Width,
    Named::Depth,
    Named::Workers,
    Named::Cut,
];

/// The words of `gen`, in their order.
pub const GEN_WORDS: [Named; 3] = [Named::Layout, Named::Blocks, Named::Seed];

/// The options of `gen`. Their faults count after those of its words.
pub const GEN_OPTIONS: [Named; 1] = [Named::Workers];
