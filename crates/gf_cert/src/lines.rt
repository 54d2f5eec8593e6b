// The lines of a certificate, read one by one.
ghost use Rattle.std.specs.Prelude.{◌≡◌, [], List, OnOk, Result};
ghost use Rattle.spec_text.specs.Lines.{Numbered, tokens};
ghost use Rattle.spec_trees.specs.declared.tree.Leaf.{Leaf};
ghost use Rattle.spec_certificates.specs.declared.entry.CertFault.{CertFault};
ghost use Rattle.spec_certificates.specs.Checks.{with_words};
ghost use Rattle.spec_certificates.specs.Entries.{are_same, end_in, entry_of, leaf_in};
ghost use Rattle.gf_cert.specs.Steps.{Steps, next_entry, next_words, rest_of};

use crate::words::{is_same_text, read_depth, read_leaf_count, read_mark, read_time};
use de_text::{Line, LineStep, Tokens, Words};
use spec_certificates::{CertFault, Entry};
use spec_faults::{CERT_END, CERT_LINE};
use spec_trees::{Leaf, Node};

/// Returns the fault that a line, counted from 1, breaks the rule of this number.
pub(crate) fn fault_at(line: u32, number: u8) -> CertFault
    ensures { result ≡ record { line = line; number = number } }
{
    CertFault { line, number }
}

// Reads a leaf from five words of a line: `L`, its first time, its last time, its depth and its mark. Returns none if a
// word has another form.
fn read_leaf(word: &[u8], a: &[u8], b: &[u8], depth_word: &[u8], mark_word: &[u8]) -> Option<Entry>
    ensures { result ≡ leaf_in word.now a.now b.now depth_word.now mark_word.now }
{
    if !is_same_text(word, b"L") {
        return None;
    }
    let (Some(a), Some(b)) = (read_time(a), read_time(b)) else {
        return None;
    };
    let (Some(depth), Some(mark)) = (read_depth(depth_word), read_mark(mark_word)) else {
        return None;
    };
    Some(Entry::Leaf(Leaf {
        node: Node { a, b, depth },
        mark,
    }))
}

// Reads the end of a certificate from three words of a line: `END`, `leaves` and the number of leaves. Returns none if
// a word has another form.
fn read_end(word: &[u8], name: &[u8], count_word: &[u8]) -> Option<Entry>
    ensures { result ≡ end_in word.now name.now count_word.now }
{
    if is_same_text(word, b"END") && is_same_text(name, b"leaves") {
        match read_leaf_count(count_word) {
            Some(count) => Some(Entry::End(count)),
            None => None,
        }
    } else {
        None
    }
}

// Reads the words of a line as a leaf, which has five words, or as the end of a certificate, which has three. Returns
// none for other words.
fn read_entry(mut words: Words<'_>) -> Option<Entry>
    ensures { result ≡ entry_of words.entry }
{
    let first = words.next()?;
    let second = words.next()?;
    let third = words.next()?;
    let Some(fourth) = words.next() else {
        return read_end(first, second, third);
    };
    let fifth = words.next()?;
    match words.next() {
        None => read_leaf(first, second, third, fourth, fifth),
        Some(_) => None,
    }
}

/// Reads the next line of a certificate, and returns its number and the leaf or the end that it states. Returns none if
/// no line is left. A line of another form, or one that is too long, is a fault.
pub(crate) fn next_entry(lines: &mut Tokens<'_>) -> Result<Option<(u32, Entry)>, CertFault>
    ensures entry { result ≡ next_entry lines.old.left }
    ensures left { OnOk result (lines.new.left ≡ rest_of lines.old.left) }
    ensures end { lines.new.end_line ≡ lines.old.end_line }
{
    match lines.line() {
        LineStep::Line(line) => match read_entry(line.words()) {
            Some(entry) => Ok(Some((line.number(), entry))),
            None => Err(fault_at(line.number(), CERT_LINE)),
        },
        LineStep::TooLong(number) => Err(fault_at(number, CERT_LINE)),
        LineStep::End => Ok(None),
    }
}

// Returns the number and the words of the next line of a certificate, or none if no line is left. A line that is too
// long is a fault.
fn next_words<'a>(lines: &mut Tokens<'a>) -> Result<Option<(u32, Words<'a>)>, CertFault>
    ensures words { result ≡ next_words lines.old.left }
    ensures left { OnOk result (lines.new.left ≡ rest_of lines.old.left) }
    ensures end { lines.new.end_line ≡ lines.old.end_line }
{
    match lines.line() {
        LineStep::Line(line) => Ok(Some((line.number(), line.words()))),
        LineStep::TooLong(number) => Err(fault_at(number, CERT_LINE)),
        LineStep::End => Ok(None),
    }
}

// Tells whether no word of a line is left to be read.
fn has_no_word_left(mut words: Words<'_>) -> bool
    ensures { result ≡ are_same [] words.entry }
{
    words.next().is_none()
}

// Tells whether two lines have the same words in the same order. Blanks between words do not count.
fn have_same_words(mut one: Words<'_>, mut other: Words<'_>) -> bool
    ensures { result ≡ are_same one.entry other.entry }
{
    loop {
        let Some(word) = one.next() else {
            return has_no_word_left(other);
        };
        let Some(wanted) = other.next() else {
            return false;
        };
        if word != wanted {
            return false;
        }
    }
}

/// Checks that the next line has the words of `wanted`. The fault is that it has others, by the rule of this number,
/// that it is too long, or that no line is left.
pub(crate) fn check_words(lines: &mut Tokens<'_>, wanted: &[u8], rule: u8) -> Result<(), CertFault>
    ensures steps { (further : List Numbered → Result (List Leaf) CertFault)
        → Steps (with_words (tokens wanted.now) rule lines.old.end_line further lines.old.left)
        result (further lines.new.left) }
    ensures end { lines.new.end_line ≡ lines.old.end_line }
{
    match next_words(lines)? {
        Some((number, words)) => {
            if have_same_words(words, Words::of(wanted)) {
                Ok(())
            } else {
                Err(fault_at(number, rule))
            }
        }
        None => Err(fault_at(lines.end_line(), CERT_END)),
    }
}
