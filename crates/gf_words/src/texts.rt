// Generated texts: the words and the option of `gen` become a request, or name the first that is bad.
ghost use Rattle.std.specs.Prelude.{◌≡◌};
ghost use Rattle.spec_requests.specs.Requests.{text_by};
ghost use Rattle.option_values.specs.Readings.{values_of};
ghost use Rattle.gf_words.specs.Parts.{text_read};

use clap::ArgMatches;
use option_values::{blocks_word, join_parts, layout_word, seed_word, workers_option};
use spec_requests::{DEFAULT_WORKERS, Named, Request, WordFault};

// Reads the words and the option of `gen` in the order of their faults, and makes its request. There is one layout, so
// the request does not hold it. The error names the first bad word or option.
fn read_generation(matches: &ArgMatches<'_>) -> Result<Request, Named>
    ensures { result ≡ text_read (values_of matches.now) }
{
    let blocks = blocks_word(matches);
    let text = join_parts(layout_word(matches), blocks);
    let manner = join_parts(seed_word(matches), workers_option(matches));
    match join_parts(text, manner) {
        Ok(((_, blocks), (seed, workers))) => Ok(Request::Gen {
            blocks,
            seed,
            workers: workers.unwrap_or(DEFAULT_WORKERS),
        }),
        Err(option) => Err(option),
    }
}

/// Makes the request of the command `gen` from its words and its option. The error names the first bad one.
pub(crate) fn generated_request(matches: &ArgMatches<'_>) -> Result<Request, WordFault>
    ensures { result ≡ text_by (values_of matches.now) }
{
    match read_generation(matches) {
        Ok(request) => Ok(request),
        Err(option) => Err(WordFault::BadValue(option)),
    }
}
