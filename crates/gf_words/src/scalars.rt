// Scalars: the options of `scalar` become the request for the times at which a polynomial passes 0.
ghost use Rattle.std.specs.Prelude.{◌≡◌, IfOk};
ghost use Rattle.spec_requests.specs.Requests.{scalar_by, scalar_of};
ghost use Rattle.option_values.specs.Readings.{values_of};
ghost use Rattle.gf_words.specs.Answers.{Answers};
ghost use Rattle.gf_words.specs.Parts.{scalar_by_options, scalar_read, times_read};

use crate::searches::{Limits, copy_text, read_limits, word_or_default};
use clap::ArgMatches;
use option_values::{
    Polynomial, direction_option, join_parts, polynomial_option, scalar_time_option,
};
use spec_events::Dir;
use spec_requests::{Named, Request, ScalarAsk, WordFault};
use spec_scalars::Plan;
use std::alloc::{AllocError, Global};

// A scalar by its options, in whole numbers of time, without the text of its polynomial.
#[derive(Clone, Copy)]
pub(crate) struct ScalarOptions {
    pub(crate) polynomial: Polynomial,
    pub(crate) dir: Dir,
    pub(crate) from: i64,
    pub(crate) to: i64,
    pub(crate) limits: Limits,
}

// Reads the first and the last time of the span of `scalar`, which are both needed. The error names the first bad
// option.
fn read_times(matches: &ArgMatches<'_>) -> Result<(i64, i64), Named>
    ensures { result ≡ times_read (values_of matches.now) }
{
    let from = scalar_time_option(matches, Named::From);
    join_parts(from, scalar_time_option(matches, Named::To))
}

// Reads the options of `scalar` in the order of their faults. One that may be left out has its default. The error names
// the first bad option.
fn read_scalar_options(matches: &ArgMatches<'_>) -> Result<ScalarOptions, Named>
    ensures { result ≡ scalar_read (values_of matches.now) }
{
    let sought = join_parts(polynomial_option(matches), direction_option(matches));
    let manner = join_parts(read_times(matches), read_limits(matches));
    match join_parts(sought, manner) {
        Ok(((polynomial, dir), ((from, to), limits))) => Ok(ScalarOptions {
            polynomial,
            dir: dir.unwrap_or(Dir::Any),
            from,
            to,
            limits,
        }),
        Err(option) => Err(option),
    }
}

// Makes the search of a polynomial from its options, which were read, and the text of the polynomial as it was given.
// The only error is out of memory.
fn scalar_of_options(
    alloc: Global,
    matches: &ArgMatches<'_>,
    options: ScalarOptions,
) -> Result<ScalarAsk, AllocError>
    requires { options ≡ scalar_by_options (values_of matches.now) }
    ensures { IfOk result (λ ask. ask ≡ scalar_of (values_of matches.now)) }
{
    Ok(ScalarAsk {
        p: options.polynomial.p,
        q: options.polynomial.q,
        r: options.polynomial.r,
        text: copy_text(alloc, word_or_default(matches, Named::Quad, ""))?,
        from: options.from,
        to: options.to,
        plan: Plan {
            dir: options.dir,
            width: u64::from(options.limits.width),
            depth: options.limits.depth,
            cut: options.limits.cut,
        },
        workers: options.limits.workers,
    })
}

/// Makes the request of the command `scalar` from its options. The error names the first bad option, or is out of
/// memory.
pub(crate) fn scalar_request(alloc: Global, matches: &ArgMatches<'_>) -> Result<Request, WordFault>
    ensures { Answers (scalar_by (values_of matches.now)) result }
{
    match read_scalar_options(matches) {
        Ok(options) => match scalar_of_options(alloc, matches, options) {
            Ok(ask) => Ok(Request::Scalar(ask)),
            Err(_) => Err(WordFault::Memory),
        },
        Err(option) => Err(WordFault::BadValue(option)),
    }
}
