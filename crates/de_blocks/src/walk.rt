// The words of a line within a block, from left to right.
ghost use Rattle.std.specs.Prelude.{◌≡◌, ◌+◌, ◌<◌, ◌≤◌, length, take};
ghost use Rattle.de_text.specs.Triples.{AreTriple};
ghost use Rattle.spec_files.specs.Sections.{ruled_at};
ghost use Rattle.de_blocks.specs.Steps.{Reads, ReadsNumbers, on_line, zeros_on};

use crate::block::OpenBlock;
use crate::rules::check_trailing_word;
use de_text::{Line, Triple, Words};
use spec_files::{ReadError, ruled_at};
use spec_text::{Decimal, Fault};

// Reads the words of a line into a block until the block is whole or no word is left. Errors: the fault of the first
// rule that a word breaks, or out of memory.
fn read_numbers(block: &mut OpenBlock, line: u32, words: &mut Words<'_>) -> Result<(), ReadError>
    requires { length block.old.numbers < block.old.accepted.header.ncoeff }
    ensures reads { ReadsNumbers block.old.accepted block.old.numbers line words.old result
        block.new.numbers words.new }
    ensures front { take (length block.old.numbers) block.new.numbers ≡ block.old.numbers }
    ensures same { block.new.accepted ≡ block.old.accepted }
{
    let ncoeff = block.header().ncoeff as usize;
    let mut count = block.count();
    while count < ncoeff {
        match words.next_number() {
            Some(number) => {
                block.push_number(line, number)?;
                count += 1;
            }
            None => match words.next() {
                None => return Ok(()),
                Some(word) => {
                    block.push_word(line, word)?;
                    count += 1;
                }
            },
        }
    }
    Ok(())
}

// Checks that the words of a line after the last number of a block are all the number 0. Errors: the fault of the
// first that is not.
fn check_zeros(line: u32, words: Words<'_>) -> Result<(), Fault>
    ensures { result ≡ ruled_at line (zeros_on words.entry) }
{
    for word in words {
        ruled_at(line, check_trailing_word(word))?;
    }
    Ok(())
}

// Reads a line into a block, word by word: numbers until the block is whole, and zeros after them. Errors: the fault
// of the first rule that a word breaks, or out of memory. The call is not inlined, since most lines are three
// numbers, which are read without it.
#[inline(never)]
fn read_words(block: &mut OpenBlock, line: &Line<'_>) -> Result<(), ReadError>
    requires { length block.old.numbers < block.old.accepted.header.ncoeff }
    ensures reads { Reads line.now.number
        (on_line block.old.accepted block.old.numbers line.now.tokens) result block.new.numbers }
    ensures front { take (length block.old.numbers) block.new.numbers ≡ block.old.numbers }
    ensures same { block.new.accepted ≡ block.old.accepted }
{
    let number = line.number();
    let mut words = line.words();
    read_numbers(block, number, &mut words)?;
    check_zeros(number, words)?;
    Ok(())
}

// Returns the decimal itself, made anew of its two fields. So the unused bytes of a `Decimal` are not copied through
// memory, as those of a copied struct would be.
#[inline(always)]
fn remade_decimal(number: Decimal) -> Decimal
    ensures { result ≡ number }
{
    Decimal {
        mant: number.mant,
        exp: number.exp,
    }
}

// Adds the three numbers of a line to a block, which has its two dates and room for them. Errors: the fault of the
// first rule that a number breaks, or out of memory.
#[inline(always)]
fn push_triple(block: &mut OpenBlock, line: &Line<'_>, triple: Triple) -> Result<(), ReadError>
    requires triple { AreTriple line.now.tokens triple }
    requires dates { 2 ≤ length block.old.numbers }
    requires few { length block.old.numbers + 3 ≤ block.old.accepted.header.ncoeff }
    ensures reads { Reads line.now.number
        (on_line block.old.accepted block.old.numbers line.now.tokens) result block.new.numbers }
    ensures front { take (length block.old.numbers) block.new.numbers ≡ block.old.numbers }
    ensures same { block.new.accepted ≡ block.old.accepted }
{
    let number = line.number();
    let first = remade_decimal(triple.first);
    let second = remade_decimal(triple.second);
    let third = remade_decimal(triple.third);
    let numbers = [first, second, third];
    for i in 0..3 {
        block.push_coefficient(number, numbers[i])?;
    }
    Ok(())
}

// Reads a line of three numbers into a block. If the block has its dates and lacks at least three numbers, they are
// added at once; else the line is read word by word. Errors: the fault of the first rule that is broken, or out of
// memory.
#[inline(always)]
fn read_triple(block: &mut OpenBlock, line: &Line<'_>, triple: Triple) -> Result<(), ReadError>
    requires triple { AreTriple line.now.tokens triple }
    requires few { length block.old.numbers < block.old.accepted.header.ncoeff }
    ensures reads { Reads line.now.number
        (on_line block.old.accepted block.old.numbers line.now.tokens) result block.new.numbers }
    ensures front { take (length block.old.numbers) block.new.numbers ≡ block.old.numbers }
    ensures same { block.new.accepted ≡ block.old.accepted }
{
    let count = block.count();
    let wanted = block.header().ncoeff as usize - count;
    if count < 2 || wanted < 3 {
        return read_words(block, &line.without_triple());
    }
    push_triple(block, line, triple)
}

// Reads a line into a block that is not whole yet. Errors: the fault of the first rule that is broken, or out of
// memory; some of the line's numbers may then stand after those that were there before.
#[inline(always)]
pub(crate) fn read_line(block: &mut OpenBlock, line: &Line<'_>) -> Result<(), ReadError>
    requires { length block.old.numbers < block.old.accepted.header.ncoeff }
    ensures reads { Reads line.now.number
        (on_line block.old.accepted block.old.numbers line.now.tokens) result block.new.numbers }
    ensures front { take (length block.old.numbers) block.new.numbers ≡ block.old.numbers }
    ensures same { block.new.accepted ≡ block.old.accepted }
{
    match line.triple() {
        Some(triple) => read_triple(block, line, triple),
        None => read_words(block, &line.without_triple()),
    }
}
