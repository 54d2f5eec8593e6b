// The text of a certificate. Calls that append fail only if memory runs out.
ghost use Rattle.std.specs.Prelude.{◌≡◌, ◌++◌, IfOk, OnOk};
ghost use Rattle.std.specs.Fmt.{decimal, signed_decimal};
ghost use Rattle.spec_certificates.specs.Texts.{certificate, leaf_lines, leaf_text, mark_word};

use spec_trees::{Leaf, Mark, Node, Turn};
use std::alloc::{AllocError, Global};

/// Returns the text of the certificate of leaves, in their order, for the request of this line, which has no line end.
/// Its lines are `CERT 1`, the request, one for each leaf, and the number of leaves. Times are in ticks since J2000 in
/// TDB; the only error is out of memory.
pub fn certificate(alloc: Global, line: &[u8], leaves: &[Leaf]) -> Result<Vec<u8>, AllocError>
    ensures { IfOk result (λ text. text.items ≡ certificate line.now leaves.now) }
{
    let mut text = Vec::new(alloc);
    text.extend_from_slice(b"CERT 1\n")?;
    add_two_texts(&mut text, line, b"\n")?;
    add_leaves(&mut text, leaves)?;
    add_labeled_count(&mut text, b"END leaves ", leaves.len() as u64, b"\n")?;
    Ok(text)
}

// Appends two texts to a certificate, first `first` and then `second`. The only error is out of memory.
fn add_two_texts(text: &mut Vec<u8>, first: &[u8], second: &[u8]) -> Result<(), AllocError>
    ensures { OnOk result (text.new.items ≡ text.old.items ++ (first.now ++ second.now)) }
{
    text.extend_from_slice(first)?;
    text.extend_from_slice(second)
}

// Appends to a certificate a label, a number in decimal digits, and the text `end`, which ends the line. The only error
// is out of memory.
fn add_labeled_count(
    text: &mut Vec<u8>,
    name: &[u8],
    count: u64,
    end: &[u8],
) -> Result<(), AllocError>
    ensures { OnOk result
        (text.new.items ≡ text.old.items ++ (name.now ++ decimal count ++ end.now)) }
{
    let mut buffer = itoa::Buffer::new();
    text.extend_from_slice(name)?;
    add_two_texts(text, buffer.format(count).as_bytes(), end)
}

// Appends a line for each leaf to a certificate, in the order of the leaves. The only error is out of memory.
fn add_leaves(text: &mut Vec<u8>, leaves: &[Leaf]) -> Result<(), AllocError>
    ensures { OnOk result (text.new.items ≡ text.old.items ++ leaf_lines leaves.now) }
{
    for leaf in leaves {
        add_leaf_line(text, *leaf, b"\n")?;
    }
    Ok(())
}

// Appends to a certificate the words of a leaf, and the text `end`, which ends the line. The only error is out of
// memory.
fn add_leaf_line(text: &mut Vec<u8>, leaf: Leaf, end: &[u8]) -> Result<(), AllocError>
    ensures { OnOk result (text.new.items ≡ text.old.items ++ (leaf_text leaf ++ end.now)) }
{
    add_leaf(text, leaf)?;
    text.extend_from_slice(end)
}

// Appends to a certificate the words of a leaf: `L`, its first time, its last time, its depth and its mark. The only
// error is out of memory.
fn add_leaf(text: &mut Vec<u8>, leaf: Leaf) -> Result<(), AllocError>
    ensures { OnOk result (text.new.items ≡ text.old.items ++ leaf_text leaf) }
{
    add_first_time(text, b"L ", leaf.node)?;
    add_last_time(text, b" ", leaf.node)?;
    add_depth(text, b" ", leaf.node.depth)?;
    add_two_texts(text, b" ", mark_word(leaf.mark))
}

// Appends to a certificate a text and then the first time of a node, in ticks since J2000 in TDB. The only error is out
// of memory.
fn add_first_time(text: &mut Vec<u8>, name: &[u8], node: Node) -> Result<(), AllocError>
    ensures { OnOk result (text.new.items ≡ text.old.items ++ (name.now ++ signed_decimal node.a)) }
{
    let mut buffer = itoa::Buffer::new();
    add_two_texts(text, name, buffer.format(node.a).as_bytes())
}

// Appends to a certificate a text and then the last time of a node, in ticks since J2000 in TDB. The only error is out
// of memory.
fn add_last_time(text: &mut Vec<u8>, name: &[u8], node: Node) -> Result<(), AllocError>
    ensures { OnOk result (text.new.items ≡ text.old.items ++ (name.now ++ signed_decimal node.b)) }
{
    let mut buffer = itoa::Buffer::new();
    add_two_texts(text, name, buffer.format(node.b).as_bytes())
}

// Appends to a certificate a text and then the depth of a leaf in decimal digits. The only error is out of memory.
fn add_depth(text: &mut Vec<u8>, name: &[u8], depth: u32) -> Result<(), AllocError>
    ensures { OnOk result (text.new.items ≡ text.old.items ++ (name.now ++ decimal depth)) }
{
    let mut buffer = itoa::Buffer::new();
    add_two_texts(text, name, buffer.format(depth).as_bytes())
}

// Returns the word for the mark of a leaf: `N` (no event), `R` (one rise), `F` (one fall) or `U` (undecided).
fn mark_word(mark: Mark) -> &'static [u8]
    ensures { result.now ≡ mark_word mark }
{
    match mark {
        Mark::Clear => b"N",
        Mark::One(Turn::Rise) => b"R",
        Mark::One(Turn::Fall) => b"F",
        Mark::Undecided => b"U",
    }
}
