// The names of what words stand for, as words and reports write them: each is looked up in its table.
ghost use Rattle.std.specs.Prelude.{◌≡◌};
ghost use Rattle.spec_requests.specs.Names.{axis_name, body_name, command_name, cut_name, dir_name, frame_name, option_name, relation_name};

use crate::request::{Named, Relation};
use crate::tables::{AXES, BODIES, COMMANDS, CUTS, CommandName, DIRS, FRAMES, OPTIONS, RELATIONS};
use spec_bodies::Frame;
use spec_ephemeris::Body;
use spec_events::Dir;
use spec_trees::CutRule;

/// Returns the name of a command as the first word of a command line writes it: `find`, `cert`, `verify`, `check`,
/// `gen`, `set` or `scalar`.
pub fn command_name(command: CommandName) -> &'static str
    ensures { result.now ≡ command_name command }
{
    COMMANDS[command as usize].0
}

/// Returns the name of a body as command lines and reports write it, as `moon`, or `ssb` for the barycentre of the
/// solar system.
pub fn body_name(body: Body) -> &'static str
    ensures { result.now ≡ body_name body }
{
    BODIES[body as usize].0
}

/// Returns the name of a frame as command lines and reports write it: `eq` for equatorial axes, `ecl` for ecliptic
/// ones.
pub fn frame_name(frame: Frame) -> &'static str
    ensures { result.now ≡ frame_name frame }
{
    FRAMES[frame as usize].0
}

/// Returns the name of the turns that a search wants, as command lines and reports write it: `any`, `rise` or `fall`.
pub fn dir_name(dir: Dir) -> &'static str
    ensures { result.now ≡ dir_name dir }
{
    DIRS[dir as usize].0
}

/// Returns the name of the rule by which nodes are cut, as command lines and reports write it: `half` or `third`.
pub fn cut_name(cut: CutRule) -> &'static str
    ensures { result.now ≡ cut_name cut }
{
    CUTS[cut as usize].0
}

/// Returns the name of a relation of a set, as command lines and reports write it: `less`, `atleast`, `within` or
/// `outside`.
pub fn relation_name(relation: Relation) -> &'static str
    ensures { result.now ≡ relation_name relation }
{
    RELATIONS[relation as usize].0
}

/// Returns the name of an axis as command lines and reports write it: `x`, `y` or `z` for 0, 1 or 2, and the empty name
/// for any other number.
pub fn axis_name(axis: u8) -> &'static str
    ensures { result.now ≡ axis_name axis }
{
    if axis == 0 {
        AXES[0].0
    } else if axis == 1 {
        AXES[1].0
    } else if axis == 2 {
        AXES[2].0
    } else {
        ""
    }
}

/// Returns the name of an option without its two dashes, or that of one of the words of `gen`: `layout`, `blocks` or
/// `seed`.
pub fn option_name(option: Named) -> &'static str
    ensures { result.now ≡ option_name option }
{
    OPTIONS[option as usize].0
}
