// Readers of single options: each returns what the option's word stands for, or names the option as bad. An option is
// bad if it is needed and left out, is not used by the kind and given, or has a word that cannot be read.
ghost use Rattle.std.specs.Prelude.{◌≡◌, option_and_then};
ghost use Rattle.spec_kinds.specs.declared.table.Use.TheVariants.{Optional};
ghost use Rattle.spec_requests.specs.declared.request.Named.TheVariants as opt;
ghost use Rattle.spec_ephemeris.specs.Ticks.{IsTick};
ghost use Rattle.spec_requests.specs.Names.{axis_of, cut_of, dir_of, frame_of, kind_of, layout_of, observer_of, target_of, tick_of_word};
ghost use Rattle.spec_requests.specs.Options.{blocks_of, decimal_of, depth_of, instant_of, name_of, relation_for, scalar_time_of, seed_of, set_kind_of, tick_in, width_of, workers_of};
ghost use Rattle.option_values.specs.Parts.{by_use, left_out, needed, pair, part, required, used};
ghost use Rattle.option_values.specs.Polynomials.{polynomial_of};
ghost use Rattle.option_values.specs.Readings.{text_in, values_of};

use crate::polynomials::{self, Polynomial};
use crate::{forms, relations};
use clap::ArgMatches;
use spec_bodies::Frame;
use spec_ephemeris::Body;
use spec_events::Dir;
use spec_kinds::{Kind, Use};
use spec_requests::{DEFAULT_TICK, Named, Relation, option_name};
use spec_text::Decimal;
use spec_trees::CutRule;

/// Returns the word that was given for an option, or for a word of `gen`. Returns none if it was left out.
pub fn given_word<'a>(matches: &ArgMatches<'a>, option: Named) -> Option<&'a str>
    ensures { text_in result ≡ values_of matches.now option }
{
    matches.get_str(option_name(option))
}

// Returns the value of an option that was given. The option is bad if its word could not be read (`None`), or if the
// kind of event does not use it.
fn check_given_option<T: Copy>(
    option: Named,
    usage: Use,
    read: Option<T>,
) -> Result<Option<T>, Named>
    ensures { result ≡ used option usage read }
{
    match read {
        Some(value) => match usage {
            Use::Needed => Ok(Some(value)),
            Use::Optional => Ok(Some(value)),
            Use::Unused => Err(option),
        },
        None => Err(option),
    }
}

// Returns no value for an option that was left out. The option is bad if the kind of event needs it.
fn check_left_out_option<T: Copy>(option: Named, usage: Use) -> Result<Option<T>, Named>
    ensures { result ≡ left_out option usage }
{
    match usage {
        Use::Needed => Err(option),
        Use::Optional => Ok(None),
        Use::Unused => Ok(None),
    }
}

// Returns the value of an option, or names it as bad if `usage`, which says how the kind of event uses it, does not
// allow this. The outer `None` says that it was left out, the inner one that its word could not be read.
fn check_option_use<T: Copy>(
    option: Named,
    usage: Use,
    read: Option<Option<T>>,
) -> Result<Option<T>, Named>
    ensures { result ≡ by_use option usage read }
{
    match read {
        Some(value) => check_given_option(option, usage, value),
        None => check_left_out_option(option, usage),
    }
}

// Returns the value of an option that is always needed. The option is bad if `read` is `None`: it was left out, or its
// word could not be read.
fn required_value<T: Copy>(option: Named, read: Option<T>) -> Result<T, Named>
    ensures { result ≡ required option read }
{
    match read {
        Some(value) => Ok(value),
        None => Err(option),
    }
}

/// Reads the option that names the kind of event, which is needed. The error names the option as bad.
pub fn kind_option(matches: &ArgMatches<'_>) -> Result<Kind, Named>
    ensures { result ≡ needed kind_of opt.Kind (values_of matches.now opt.Kind) }
{
    let read = given_word(matches, Named::Kind).and_then(forms::kind_named);
    required_value(Named::Kind, read)
}

/// Reads the option that names the kind of event of a set, which is needed. The option is bad for a kind of which no
/// sets can be made, as one with a condition beside its function.
pub fn set_kind_option(matches: &ArgMatches<'_>) -> Result<Kind, Named>
    ensures { result ≡ needed set_kind_of opt.Kind (values_of matches.now opt.Kind) }
{
    let read = given_word(matches, Named::Kind).and_then(relations::set_kind_named);
    required_value(Named::Kind, read)
}

/// Reads the option that names the target, which is needed. The option is bad for the barycentre of the solar system.
pub fn target_option(matches: &ArgMatches<'_>) -> Result<Body, Named>
    ensures { result ≡ needed target_of opt.Target (values_of matches.now opt.Target) }
{
    let read = given_word(matches, Named::Target).and_then(forms::target_named);
    required_value(Named::Target, read)
}

/// Reads the option that names the second body, which `usage` needs, allows or forbids. The option is bad for the
/// barycentre of the solar system.
pub fn second_body_option(matches: &ArgMatches<'_>, usage: Use) -> Result<Option<Body>, Named>
    ensures { result ≡ part target_of opt.Second usage (values_of matches.now opt.Second) }
{
    let read = given_word(matches, Named::Second).map(forms::target_named);
    check_option_use(Named::Second, usage, read)
}

/// Reads the option that names the observer, or returns none if it is left out. Any body may be the observer.
pub fn observer_option(matches: &ArgMatches<'_>) -> Result<Option<Body>, Named>
    ensures { result ≡ part observer_of opt.Observer Optional (values_of matches.now opt.Observer) }
{
    let read = given_word(matches, Named::Observer).map(forms::body_named);
    check_option_use(Named::Observer, Use::Optional, read)
}

/// Reads the option that names the frame, which `usage` needs, allows or forbids. The error names the option as bad.
pub fn frame_option(matches: &ArgMatches<'_>, usage: Use) -> Result<Option<Frame>, Named>
    ensures { result ≡ part frame_of opt.Frame usage (values_of matches.now opt.Frame) }
{
    let read = given_word(matches, Named::Frame).map(forms::frame_named);
    check_option_use(Named::Frame, usage, read)
}

/// Reads the option that names the axis of a coordinate, 0 to 2, which `usage` needs, allows or forbids. The error
/// names the option as bad.
pub fn axis_option(matches: &ArgMatches<'_>, usage: Use) -> Result<Option<u8>, Named>
    ensures { result ≡ part axis_of opt.Axis usage (values_of matches.now opt.Axis) }
{
    let read = given_word(matches, Named::Axis).map(forms::axis_named);
    check_option_use(Named::Axis, usage, read)
}

/// Reads an option that is a decimal number, as a reference value or a radius, which `usage` needs, allows or forbids.
/// The error names the option as bad.
pub fn decimal_option(
    matches: &ArgMatches<'_>,
    option: Named,
    usage: Use,
) -> Result<Option<Decimal>, Named>
    ensures { result ≡ part decimal_of option usage (values_of matches.now option) }
{
    let read = given_word(matches, option).map(forms::read_exact_decimal);
    check_option_use(option, usage, read)
}

/// Reads the option that names the relation of a set, which is needed. The option is bad if the relation has two
/// references and the kind of event has none.
pub fn relation_option(matches: &ArgMatches<'_>, kind: Kind) -> Result<Relation, Named>
    ensures { result ≡ needed (relation_for kind) opt.Relation (values_of matches.now opt.Relation) }
{
    match given_word(matches, Named::Relation) {
        Some(word) => required_value(Named::Relation, relations::relation_of_kind(kind, word)),
        None => required_value(Named::Relation, None),
    }
}

/// Reads the option that names the direction of the wanted events, or returns none if it is left out. The error names
/// the option as bad.
pub fn direction_option(matches: &ArgMatches<'_>) -> Result<Option<Dir>, Named>
    ensures { result ≡ part dir_of opt.Dir Optional (values_of matches.now opt.Dir) }
{
    let read = given_word(matches, Named::Dir).map(forms::direction_named);
    check_option_use(Named::Dir, Use::Optional, read)
}

/// Reads the option that says how many ticks a second has, 1 or 1,000, or returns none if it is left out. The error
/// names the option as bad.
pub fn ticks_option(matches: &ArgMatches<'_>) -> Result<Option<u32>, Named>
    ensures { result ≡ part tick_of_word opt.Tick Optional (values_of matches.now opt.Tick) }
{
    let read = given_word(matches, Named::Tick).map(forms::ticks_named);
    check_option_use(Named::Tick, Use::Optional, read)
}

/// Returns the ticks of a second by which times are read: 1 if the option is left out or bad. That it is bad is no
/// fault here, since `ticks_option` reports it.
pub fn ticks_or_default(matches: &ArgMatches<'_>) -> u32
    ensures { result ≡ tick_in (values_of matches.now) }
{
    given_word(matches, Named::Tick)
        .and_then(forms::ticks_named)
        .unwrap_or(DEFAULT_TICK)
}

/// Reads an option that is the first or the last time of the span, in ticks since J2000 in TDB, or returns none if it
/// is left out. A second has `tick` ticks. The error names the option as bad.
pub fn instant_option(
    matches: &ArgMatches<'_>,
    option: Named,
    tick: u32,
) -> Result<Option<i64>, Named>
    requires { IsTick tick }
    ensures { result ≡ part (instant_of tick) option Optional (values_of matches.now option) }
{
    match given_word(matches, option) {
        Some(word) => check_option_use(
            option,
            Use::Optional,
            Some(forms::read_instant(word, tick)),
        ),
        None => check_option_use(option, Use::Optional, None),
    }
}

/// Reads the option that limits the width of a window, in ticks, or returns none if it is left out. The error names the
/// option as bad.
pub fn width_option(matches: &ArgMatches<'_>) -> Result<Option<u32>, Named>
    ensures { result ≡ part width_of opt.Width Optional (values_of matches.now opt.Width) }
{
    let read = given_word(matches, Named::Width).map(forms::read_width);
    check_option_use(Named::Width, Use::Optional, read)
}

/// Reads the option that limits the depth of the search, or returns none if it is left out. The error names the option
/// as bad.
pub fn depth_option(matches: &ArgMatches<'_>) -> Result<Option<u32>, Named>
    ensures { result ≡ part depth_of opt.Depth Optional (values_of matches.now opt.Depth) }
{
    let read = given_word(matches, Named::Depth).map(forms::read_depth);
    check_option_use(Named::Depth, Use::Optional, read)
}

/// Reads the option that says how many workers search, or returns none if it is left out. The error names the option as
/// bad.
pub fn workers_option(matches: &ArgMatches<'_>) -> Result<Option<u32>, Named>
    ensures { result ≡ part workers_of opt.Workers Optional (values_of matches.now opt.Workers) }
{
    let read = given_word(matches, Named::Workers).map(forms::read_worker_count);
    check_option_use(Named::Workers, Use::Optional, read)
}

/// Reads the option that names the rule by which nodes are cut, or returns none if it is left out. The error names the
/// option as bad.
pub fn cut_rule_option(matches: &ArgMatches<'_>) -> Result<Option<CutRule>, Named>
    ensures { result ≡ part cut_of opt.Cut Optional (values_of matches.now opt.Cut) }
{
    let read = given_word(matches, Named::Cut).map(forms::cut_rule_named);
    check_option_use(Named::Cut, Use::Optional, read)
}

/// Reads the word of `gen` that names the layout of the text, which is needed. The error names the word as bad.
pub fn layout_word(matches: &ArgMatches<'_>) -> Result<u16, Named>
    ensures { result ≡ needed layout_of opt.Layout (values_of matches.now opt.Layout) }
{
    let read = given_word(matches, Named::Layout).and_then(forms::layout_named);
    required_value(Named::Layout, read)
}

/// Reads the word of `gen` that says how many blocks the text has, which is needed. The error names the word as bad.
pub fn blocks_word(matches: &ArgMatches<'_>) -> Result<u32, Named>
    ensures { result ≡ needed blocks_of opt.Blocks (values_of matches.now opt.Blocks) }
{
    let read = given_word(matches, Named::Blocks).and_then(forms::read_block_count);
    required_value(Named::Blocks, read)
}

/// Reads the word of `gen` that is the seed of the text, which is needed. The error names the word as bad.
pub fn seed_word(matches: &ArgMatches<'_>) -> Result<u64, Named>
    ensures { result ≡ needed seed_of opt.Seed (values_of matches.now opt.Seed) }
{
    let read = given_word(matches, Named::Seed).and_then(forms::read_seed);
    required_value(Named::Seed, read)
}

/// Reads the option that is the polynomial of `scalar`, which is needed. The error names the option as bad.
pub fn polynomial_option(matches: &ArgMatches<'_>) -> Result<Polynomial, Named>
    ensures { result ≡ needed polynomial_of opt.Quad (values_of matches.now opt.Quad) }
{
    let read = given_word(matches, Named::Quad).and_then(polynomials::read_polynomial);
    required_value(Named::Quad, read)
}

/// Reads an option that is the first or the last time of the span of `scalar`, a whole number that is needed. The error
/// names the option as bad.
pub fn scalar_time_option(matches: &ArgMatches<'_>, option: Named) -> Result<i64, Named>
    ensures { result ≡ needed scalar_time_of option (values_of matches.now option) }
{
    let read = given_word(matches, option).and_then(polynomials::read_scalar_time);
    required_value(option, read)
}

/// Returns the name of the file that holds the certificate, or none if the option is left out or empty.
pub fn certificate_option<'a>(matches: &ArgMatches<'a>) -> Option<&'a str>
    ensures { text_in result ≡ option_and_then name_of (values_of matches.now opt.Cert) }
{
    match given_word(matches, Named::Cert) {
        Some(word) => forms::file_name(word),
        None => None,
    }
}

/// Joins two parts of a request that were read, or returns the first bad option of them. Parts are joined in the order
/// of the table of options, so that the bad option that stands first there is reported.
pub fn join_parts<A: Copy, B: Copy>(
    first: Result<A, Named>,
    second: Result<B, Named>,
) -> Result<(A, B), Named>
    ensures { result ≡ pair first second }
{
    match first {
        Ok(one) => match second {
            Ok(other) => Ok((one, other)),
            Err(option) => Err(option),
        },
        Err(option) => Err(option),
    }
}
