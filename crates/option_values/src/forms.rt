// Readers of single words: each returns the value that a word stands for, or none if the word is not of its form.
ghost use Rattle.std.specs.Prelude.{◌≡◌, ◌&&◌, ◌≤◌, IfSome, None, Some, if◌then◌else◌, length, nat_le, nat_lt};
ghost use Rattle.std.specs.Char.{is_ascii_digit};
ghost use Rattle.std.specs.List.{list_all};
ghost use Rattle.spec_requests.specs.Names.{as_target, axis_of, command_of, cut_of, dir_of, frame_of, kind_of, layout_of, named, observer_of, rows_of, target_of, tick_of_word};
ghost use Rattle.spec_ephemeris.specs.Ticks.{IsTick};
ghost use Rattle.spec_requests.specs.Options.{are_digits, blocks_of, decimal_of, depth_of, instant_of, name_of, number_of, seed_of, width_of, workers_of};
ghost use Rattle.option_values.specs.Readings.{text_in};

use de_text::read_decimal;
use spec_bodies::Frame;
use spec_ephemeris::Body;
use spec_events::Dir;
use spec_kinds::{KINDS, Kind};
use spec_requests::{
    AXES, BODIES, COMMANDS, CUTS, CommandName, DIRS, FRAMES, LAYOUTS, MAX_DEPTH,
    MAX_DIGITS_OF_A_COUNT, MAX_DIGITS_OF_A_SEED, MAX_DIGITS_OF_BLOCKS, MAX_GENERATED_BLOCKS,
    MAX_SEED, MAX_WIDTH, MAX_WORKERS, TICKS,
};
use spec_text::Decimal;
use spec_trees::CutRule;
use window_text::read_time;

/// Returns the value of the first row of a table that has this name, or none if no row has it.
pub(crate) fn value_named<T: Copy>(table: &[(&'static str, T)], word: &str) -> Option<T>
    ensures { result ≡ named (rows_of table.now) word.now }
{
    match table {
        [(name, value), rest @ ..] => {
            if *name == word {
                Some(*value)
            } else {
                value_named(rest, word)
            }
        }
        [] => None,
    }
}

/// Returns the command of this name, such as `find`, or none for any other word.
pub fn command_named(word: &str) -> Option<CommandName>
    ensures { result ≡ command_of word.now }
{
    value_named(&COMMANDS, word)
}

/// Returns the kind of event of this name, such as `coord`, or none for any other word. Kinds of which `set` makes no
/// sets are among them.
pub(crate) fn kind_named(word: &str) -> Option<Kind>
    ensures { result ≡ kind_of word.now }
{
    match value_named(&KINDS, word) {
        Some(row) => Some(row.kind),
        None => None,
    }
}

/// Returns the body of this name, or none for any other word. The barycentre of the solar system, `ssb`, is among the
/// bodies.
pub(crate) fn body_named(word: &str) -> Option<Body>
    ensures { result ≡ observer_of word.now }
{
    value_named(&BODIES, word)
}

/// Returns the body of this name that can be a target, or none for any other word. The barycentre of the solar system
/// cannot be one.
pub(crate) fn target_named(word: &str) -> Option<Body>
    ensures { result ≡ target_of word.now }
{
    without_barycentre(body_named(word))
}

// Returns the body that a name was found to stand for, or none if there is none or it is the barycentre of the solar
// system, which cannot be a target.
fn without_barycentre(body: Option<Body>) -> Option<Body>
    ensures { result ≡ as_target body }
{
    match body {
        Some(body) if body != Body::Ssb => Some(body),
        _ => None,
    }
}

/// Returns the frame of this name, `eq` or `ecl`, or none for any other word.
pub(crate) fn frame_named(word: &str) -> Option<Frame>
    ensures { result ≡ frame_of word.now }
{
    value_named(&FRAMES, word)
}

/// Returns the number of the axis of this name: 0, 1 or 2 for `x`, `y` or `z`. Returns none for any other word.
pub(crate) fn axis_named(word: &str) -> Option<u8>
    ensures { result ≡ axis_of word.now }
{
    value_named(&AXES, word)
}

/// Returns the direction of this name, `any`, `rise` or `fall`, or none for any other word.
pub(crate) fn direction_named(word: &str) -> Option<Dir>
    ensures { result ≡ dir_of word.now }
{
    value_named(&DIRS, word)
}

/// Returns the rule of this name by which nodes are cut, `half` or `third`, or none for any other word.
pub(crate) fn cut_rule_named(word: &str) -> Option<CutRule>
    ensures { result ≡ cut_of word.now }
{
    value_named(&CUTS, word)
}

/// Returns the number of ticks in a second that a word stands for, which is 1 or 1,000. Returns none for any other
/// word.
pub(crate) fn ticks_named(word: &str) -> Option<u32>
    ensures { result ≡ tick_of_word word.now }
{
    value_named(&TICKS, word)
}

/// Returns the number of the layout of generated texts that a word stands for, which is 405. Returns none for any other
/// word.
pub(crate) fn layout_named(word: &str) -> Option<u16>
    ensures { result ≡ layout_of word.now }
{
    value_named(&LAYOUTS, word)
}

// Tells whether all bytes are ASCII digits. No byte at all passes, so callers test the length too.
fn are_ascii_digits(bytes: &[u8]) -> bool
    ensures { result ≡ list_all is_ascii_digit bytes.now }
{
    bytes.iter().all(|b| b.is_ascii_digit())
}

// Tells whether a word has 1 to `most` bytes.
fn is_length_up_to(bytes: &[u8], most: usize) -> bool
    ensures { result ≡ (nat_lt 0 (length bytes.now) && nat_le (length bytes.now) most) }
{
    !bytes.is_empty() && bytes.len() <= most
}

// Tells whether a word consists of 1 to `most` digits and nothing else.
fn are_digits(word: &str, most: usize) -> bool
    ensures { result ≡ are_digits most word.now }
{
    are_ascii_digits(word.as_bytes()) && is_length_up_to(word.as_bytes(), most)
}

/// Reads a whole number of 1 to `digits` digits. Returns none for another word, and for a number that does not lie from
/// `least` to `most`.
pub(crate) fn read_number(word: &str, digits: usize, least: u64, most: u64) -> Option<u64>
    ensures number { result ≡ number_of digits least most word.now }
    ensures most { IfSome result (λ number. number ≤ most) }
{
    if !are_digits(word, digits) {
        return None;
    }
    match word.parse::<u64>() {
        Ok(number) => number_within(number, least, most),
        Err(_) => None,
    }
}

// Returns the number if it lies from `least` to `most`, both included, else none.
fn number_within(number: u64, least: u64, most: u64) -> Option<u64>
    ensures within { result ≡ (if nat_le least number && nat_le number most then Some number
        else None) }
    ensures most { IfSome result (λ number. number ≤ most) }
{
    if least <= number && number <= most {
        Some(number)
    } else {
        None
    }
}

/// Reads the greatest width of a window, in ticks: 1 to 1,000,000. Returns none for any other word.
pub(crate) fn read_width(word: &str) -> Option<u32>
    ensures { result ≡ width_of word.now }
{
    match read_number(word, MAX_DIGITS_OF_A_COUNT, 1, MAX_WIDTH) {
        Some(number) => Some(number as u32),
        None => None,
    }
}

/// Reads the depth of a search, the most cuts of a node: 0 to 40. Returns none for any other word.
pub(crate) fn read_depth(word: &str) -> Option<u32>
    ensures { result ≡ depth_of word.now }
{
    match read_number(word, MAX_DIGITS_OF_A_COUNT, 0, MAX_DEPTH) {
        Some(number) => Some(number as u32),
        None => None,
    }
}

/// Reads a number of workers: 1 to 64. Returns none for any other word.
pub(crate) fn read_worker_count(word: &str) -> Option<u32>
    ensures { result ≡ workers_of word.now }
{
    match read_number(word, MAX_DIGITS_OF_A_COUNT, 1, MAX_WORKERS) {
        Some(number) => Some(number as u32),
        None => None,
    }
}

/// Reads the number of blocks of a generated text: 1 to 40. Returns none for any other word.
pub(crate) fn read_block_count(word: &str) -> Option<u32>
    ensures { result ≡ blocks_of word.now }
{
    match read_number(word, MAX_DIGITS_OF_BLOCKS, 1, MAX_GENERATED_BLOCKS) {
        Some(number) => Some(number as u32),
        None => None,
    }
}

/// Reads the seed of a generated text: any number of 64 bits, in at most 20 digits. Returns none for any other word.
pub(crate) fn read_seed(word: &str) -> Option<u64>
    ensures { result ≡ seed_of word.now }
{
    read_number(word, MAX_DIGITS_OF_A_SEED, 0, MAX_SEED)
}

/// Reads a decimal number without rounding it, in the form that the files have. Returns none for any other word.
pub(crate) fn read_exact_decimal(word: &str) -> Option<Decimal>
    ensures { result ≡ decimal_of word.now }
{
    read_decimal(word.as_bytes()).ok()
}

/// Reads a time, as a calendar text or a number of seconds, and returns it in ticks since J2000 in TDB. Returns none
/// for a word of another form and for a time out of range.
pub(crate) fn read_instant(word: &str, tick: u32) -> Option<i64>
    requires { IsTick tick }
    ensures { result ≡ instant_of tick word.now }
{
    read_time(word.as_bytes(), tick).ok()
}

/// Returns the word as the name of a file, or none if it is empty.
pub(crate) fn file_name<'a>(word: &'a str) -> Option<&'a str>
    ensures { text_in result ≡ name_of word.entry.now }
{
    if word.is_empty() { None } else { Some(word) }
}
