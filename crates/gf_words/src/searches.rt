// Searches: the options of `find`, `cert` and `verify` become a search, or name the first option that is bad.
ghost use Rattle.std.specs.Prelude.{◌≡◌, ◌++◌, IfOk, Some, if◌then◌else◌, option_and_then, unwrap_or};
ghost use Rattle.spec_requests.specs.declared.request.Named.TheVariants as opt;
ghost use Rattle.spec_requests.specs.Requests.{nought, ref2_text, search_by, search_of, values_text};
ghost use Rattle.spec_kinds.specs.Table.{takes_radii};
ghost use Rattle.spec_requests.specs.Names.{dir_of, kind_of, target_of};
ghost use Rattle.option_values.specs.Readings.{text_in, values_of};
ghost use Rattle.gf_words.specs.Answers.{Answers};
ghost use Rattle.gf_words.specs.Parts.{ask_read, axes_read, bodies_read, ends_read, limits_read, numbers_read, radii_read, search_by_options, search_read, search_with_texts, span_read};
ghost use Rattle.gf_words.specs.Readings.{file_names_of};

use crate::readings::file_names;
use clap::ArgMatches;
use option_values::{
    axis_option, cut_rule_option, decimal_option, depth_option, direction_option, frame_option,
    given_word, instant_option, join_parts, kind_option, observer_option, second_body_option,
    target_option, ticks_option, ticks_or_default, width_option, workers_option,
};
use spec_bodies::Frame;
use spec_ephemeris::Body;
use spec_events::Dir;
use spec_kinds::{Ask, Kind};
use spec_requests::{
    DEFAULT_DEPTH, DEFAULT_TICK, DEFAULT_WIDTH, DEFAULT_WORKERS, FindAsk, Named, Text, WordFault,
};
use spec_text::Decimal;
use spec_trees::CutRule;
use std::alloc::{AllocError, Global};

// The body that is looked at, the second body of a kind that has one, and the observer.
#[derive(Clone, Copy)]
pub(crate) struct Bodies {
    pub(crate) target: Body,
    pub(crate) second: Option<Body>,
    pub(crate) observer: Body,
}

// The frame, and the number of the axis of a coordinate, 0 to 2.
#[derive(Clone, Copy)]
pub(crate) struct Axes {
    pub(crate) frame: Frame,
    pub(crate) axis: u8,
}

// The two numbers of an event: a reference value and 0, or two radii.
#[derive(Clone, Copy)]
pub(crate) struct Numbers {
    pub(crate) value1: Decimal,
    pub(crate) value2: Decimal,
}

// The number of ticks in a second, and the first and last time of the span in ticks since J2000 in TDB. A time that
// is left out is the files' own.
#[derive(Clone, Copy)]
pub(crate) struct Ends {
    pub(crate) tick: u32,
    pub(crate) from: Option<i64>,
    pub(crate) to: Option<i64>,
}

// How a span is searched: the width in ticks, the depth, the number of workers and the rule by which nodes are cut.
#[derive(Clone, Copy)]
pub(crate) struct Limits {
    pub(crate) width: u32,
    pub(crate) depth: u32,
    pub(crate) workers: u32,
    pub(crate) cut: CutRule,
}

// A search by its options, without its texts: the numbers as they are printed, and the names of the files.
#[derive(Clone, Copy)]
pub(crate) struct SearchOptions {
    pub(crate) ask: Ask,
    pub(crate) ends: Ends,
    pub(crate) limits: Limits,
}

// Returns the number of an option, or 0 if the option was left out.
fn number_or_0(number: Option<Decimal>) -> Decimal
    ensures { result ≡ unwrap_or number nought }
{
    number.unwrap_or(Decimal { mant: 0, exp: 0 })
}

// Returns the first number of an event: the first radius if its kind has radii, else the reference value. It is 0 if
// the option was left out.
fn first_number(kind: Kind, radius: Option<Decimal>, reference: Option<Decimal>) -> Decimal
    ensures { result ≡ unwrap_or (if takes_radii kind then radius else reference) nought }
{
    if kind.takes_radii() {
        number_or_0(radius)
    } else {
        number_or_0(reference)
    }
}

// ---- the options of `find` in their order, as this kind uses them. What may be left out has its default.

// Reads the second body and the observer of an event, and joins them with the target. If no observer is given, it is
// the barycentre of the solar system. The error names the first bad option.
fn read_bodies(matches: &ArgMatches<'_>, kind: Kind, target: Body) -> Result<Bodies, Named>
    ensures { result ≡ bodies_read (values_of matches.now) kind target }
{
    let second = second_body_option(matches, kind.second());
    match join_parts(second, observer_option(matches)) {
        Ok((second, observer)) => Ok(Bodies {
            target,
            second,
            observer: observer.unwrap_or(Body::Ssb),
        }),
        Err(option) => Err(option),
    }
}

// Reads the frame and the axis of an event, which are `eq` and `x` if they are left out. The error names the first bad
// option.
fn read_axes(matches: &ArgMatches<'_>, kind: Kind) -> Result<Axes, Named>
    ensures { result ≡ axes_read (values_of matches.now) kind }
{
    let frame = frame_option(matches, kind.frame());
    match join_parts(frame, axis_option(matches, kind.axis())) {
        Ok((frame, axis)) => Ok(Axes {
            frame: frame.unwrap_or(Frame::Eq),
            axis: axis.unwrap_or(0),
        }),
        Err(option) => Err(option),
    }
}

// Reads the radii of both bodies in km, which are none if the kind of event has no radii. The error names the first bad
// option.
fn read_radii(
    matches: &ArgMatches<'_>,
    kind: Kind,
) -> Result<(Option<Decimal>, Option<Decimal>), Named>
    ensures { result ≡ radii_read (values_of matches.now) kind }
{
    let radius1 = decimal_option(matches, Named::Radius1, kind.radii());
    join_parts(
        radius1,
        decimal_option(matches, Named::Radius2, kind.radii()),
    )
}

// Reads the two numbers of an event: a reference value and 0, or two radii. The error names the first bad option.
fn read_numbers(matches: &ArgMatches<'_>, kind: Kind) -> Result<Numbers, Named>
    ensures { result ≡ numbers_read (values_of matches.now) kind }
{
    let reference = decimal_option(matches, Named::Ref, kind.reference());
    match join_parts(reference, read_radii(matches, kind)) {
        Ok((reference, (radius1, radius2))) => Ok(Numbers {
            value1: first_number(kind, radius1, reference),
            value2: number_or_0(radius2),
        }),
        Err(option) => Err(option),
    }
}

// Reads the event of a search, with any direction, and joins `last`, the part of the request whose options come right
// after the event's numbers, so that faults keep their order. The error names the first bad option.
fn read_ask<X: Copy>(
    matches: &ArgMatches<'_>,
    kind: Kind,
    target: Body,
    last: Result<X, Named>,
) -> Result<(Ask, X), Named>
    ensures { result ≡ ask_read last (values_of matches.now) kind target }
{
    let bodies = read_bodies(matches, kind, target);
    let places = join_parts(bodies, read_axes(matches, kind));
    let numbers = join_parts(read_numbers(matches, kind), last);
    match join_parts(places, numbers) {
        Ok(((bodies, axes), (numbers, last))) => {
            let ask = Ask {
                kind,
                target: bodies.target,
                second: bodies.second,
                observer: bodies.observer,
                frame: axes.frame,
                axis: axes.axis,
                value1: numbers.value1,
                value2: numbers.value2,
                dir: Dir::Any,
            };
            Ok((ask, last))
        }
        Err(option) => Err(option),
    }
}

// Reads the first and the last time of a span, in ticks since J2000 in TDB, each of which may be left out. The error
// names the first bad option.
fn read_span(matches: &ArgMatches<'_>) -> Result<(Option<i64>, Option<i64>), Named>
    ensures { result ≡ span_read (values_of matches.now) }
{
    let tick = ticks_or_default(matches);
    let from = instant_option(matches, Named::From, tick);
    join_parts(from, instant_option(matches, Named::To, tick))
}

// Reads the number of ticks in a second, which is 1 if it is left out, and the first and the last time of the span in
// such ticks. The error names the first bad option.
fn read_tick_and_span(matches: &ArgMatches<'_>) -> Result<Ends, Named>
    ensures { result ≡ ends_read (values_of matches.now) }
{
    match join_parts(ticks_option(matches), read_span(matches)) {
        Ok((tick, (from, to))) => Ok(Ends {
            tick: tick.unwrap_or(DEFAULT_TICK),
            from,
            to,
        }),
        Err(option) => Err(option),
    }
}

/// Reads the limits of a search: width, depth, workers and rule of cutting. The defaults are one tick, depth 40, one
/// worker and halves. The error names the first bad option.
pub(crate) fn read_limits(matches: &ArgMatches<'_>) -> Result<Limits, Named>
    ensures { result ≡ limits_read (values_of matches.now) }
{
    let sizes = join_parts(width_option(matches), depth_option(matches));
    let manner = join_parts(workers_option(matches), cut_rule_option(matches));
    match join_parts(sizes, manner) {
        Ok(((width, depth), (workers, cut))) => Ok(Limits {
            width: width.unwrap_or(DEFAULT_WIDTH),
            depth: depth.unwrap_or(DEFAULT_DEPTH),
            workers: workers.unwrap_or(DEFAULT_WORKERS),
            cut: cut.unwrap_or(CutRule::Half),
        }),
        Err(option) => Err(option),
    }
}

/// Reads a search without its texts and its direction, and joins `last`, the part of the request whose options come
/// right after the event's numbers, so that faults keep their order. The error names the first bad option.
pub(crate) fn read_search<X: Copy>(
    matches: &ArgMatches<'_>,
    kind: Kind,
    target: Body,
    last: Result<X, Named>,
) -> Result<(SearchOptions, X), Named>
    ensures { result ≡ search_read last (values_of matches.now) kind target }
{
    let manner = join_parts(read_tick_and_span(matches), read_limits(matches));
    match join_parts(read_ask(matches, kind, target, last), manner) {
        Ok(((ask, last), (ends, limits))) => Ok((SearchOptions { ask, ends, limits }, last)),
        Err(option) => Err(option),
    }
}

// ---- the texts

/// Returns the word that was given for an option, or the default if it was left out.
pub(crate) fn word_or_default<'a>(
    matches: &ArgMatches<'a>,
    option: Named,
    default: &'a str,
) -> &'a str
    ensures { result.now ≡ unwrap_or (values_of matches.now option) default.entry.now }
{
    match given_word(matches, option) {
        Some(word) => word,
        None => default,
    }
}

/// Copies a word into a text. The only error is out of memory.
pub(crate) fn copy_text(alloc: Global, word: &str) -> Result<Text, AllocError>
    ensures { IfOk result (λ text. text ≡ word.now) }
{
    Ok(Text::new(String::from_str(alloc, word)?))
}

/// Returns a text with a comma and a second word after it, or the text alone if there is no second word. The only error
/// is out of memory.
pub(crate) fn with_second_word(first: Text, second: Option<&str>) -> Result<Text, AllocError>
    ensures { IfOk result (λ text. text ≡ first ++ ref2_text (text_in second.entry)) }
{
    match second {
        Some(word) => {
            let mut string = first.into_string();
            string.push_str(",")?;
            string.push_str(word)?;
            Ok(Text::new(string))
        }
        None => Ok(first),
    }
}

/// Returns the numbers of an event as they are printed: two radii joined by a comma, or the reference value. It is `-`
/// for a kind of event that has neither. A reference value that was left out is `0`. The only error is out of memory.
pub(crate) fn values_text(
    alloc: Global,
    matches: &ArgMatches<'_>,
    kind: Kind,
) -> Result<Text, AllocError>
    ensures { IfOk result (λ text. text ≡ values_text (values_of matches.now) kind) }
{
    if kind.takes_radii() {
        let first = copy_text(alloc, word_or_default(matches, Named::Radius1, ""))?;
        return with_second_word(first, Some(word_or_default(matches, Named::Radius2, "")));
    }
    if kind.reference().is_unused() {
        return copy_text(alloc, "-");
    }
    copy_text(alloc, word_or_default(matches, Named::Ref, "0"))
}

/// Makes a search in the direction `dir` from options that were read, with `values`, the text of its numbers, and the
/// names of its files. The only error is out of memory.
pub(crate) fn search_with_texts(
    alloc: Global,
    matches: &ArgMatches<'_>,
    search: SearchOptions,
    dir: Dir,
    values: Text,
) -> Result<FindAsk, AllocError>
    ensures { IfOk result (λ find.
        find ≡ search_with_texts search dir values (file_names_of matches.now)) }
{
    let mut ask = search.ask;
    ask.dir = dir;
    Ok(FindAsk {
        ask,
        values,
        tick: search.ends.tick,
        from: search.ends.from,
        to: search.ends.to,
        width: i64::from(search.limits.width),
        depth: search.limits.depth,
        workers: search.limits.workers,
        cut: search.limits.cut,
        files: file_names(alloc, matches)?,
    })
}

// Makes the search of a kind of event and a target from options that were read, with the text of its numbers and the
// names of its files. The direction is any if none was given. The only error is out of memory.
fn search_of_options(
    alloc: Global,
    matches: &ArgMatches<'_>,
    kind: Kind,
    target: Body,
    search: SearchOptions,
    dir: Option<Dir>,
) -> Result<FindAsk, AllocError>
    requires search { search ≡ search_by_options (values_of matches.now) kind target }
    requires turns { dir ≡ option_and_then dir_of (values_of matches.now opt.Dir) }
    ensures { IfOk result (λ find.
        find ≡ search_of (values_of matches.now) kind target (file_names_of matches.now)) }
{
    let values = values_text(alloc, matches, kind)?;
    search_with_texts(alloc, matches, search, dir.unwrap_or(Dir::Any), values)
}

// Makes the search of a kind of event and a target, which were read, from the other options. The error names the first
// bad option, or is out of memory.
fn search_of_target(
    alloc: Global,
    matches: &ArgMatches<'_>,
    kind: Kind,
    target: Body,
) -> Result<FindAsk, WordFault>
    requires kind { option_and_then kind_of (values_of matches.now opt.Kind) ≡ Some kind }
    requires target { option_and_then target_of (values_of matches.now opt.Target) ≡ Some target }
    ensures { Answers (search_by (values_of matches.now) (file_names_of matches.now)) result }
{
    match read_search(matches, kind, target, direction_option(matches)) {
        Ok((search, dir)) => match search_of_options(alloc, matches, kind, target, search, dir) {
            Ok(find) => Ok(find),
            Err(_) => Err(WordFault::Memory),
        },
        Err(option) => Err(WordFault::BadValue(option)),
    }
}

/// Makes the search that the options of `find` ask for, which `cert` and `verify` have too. The error names the first
/// bad option, or is out of memory.
pub(crate) fn search_of_matches(
    alloc: Global,
    matches: &ArgMatches<'_>,
) -> Result<FindAsk, WordFault>
    ensures { Answers (search_by (values_of matches.now) (file_names_of matches.now)) result }
{
    match join_parts(kind_option(matches), target_option(matches)) {
        Ok((kind, target)) => search_of_target(alloc, matches, kind, target),
        Err(option) => Err(WordFault::BadValue(option)),
    }
}
