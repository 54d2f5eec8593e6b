// Laws of certificates. Each is the contract of a function that does nothing.
ghost use Rattle.std.specs.Prelude.{◌≡◌, ◌≤◌, ◌<◌, ◌^◌, List, ℕ, Ok, drop, length};
ghost use Rattle.spec_text.specs.declared.limits.TheConstants.{MAX_LINE_BYTES, MAX_TEXT_BYTES};
ghost use Rattle.spec_text.specs.Lines.{text_lines};
ghost use Rattle.spec_text.specs.Printed.{IsLine};
ghost use Rattle.spec_trees.specs.declared.tree.Leaf.{Leaf};
ghost use Rattle.spec_trees.specs.declared.tree.Node.{Node};
ghost use Rattle.spec_trees.specs.Tree.{AreLeaves, Covers, IsValid, leaves};
ghost use Rattle.spec_certificates.specs.Checks.{checked, named_leaves};
ghost use Rattle.spec_certificates.specs.Places.{Cutting, IsCutting};
ghost use Rattle.spec_certificates.specs.Shapes.{AllFit};
ghost use Rattle.spec_certificates.specs.Texts.{certificate};
ghost use Rattle.spec_certificates.specs.declared.limits.TheConstants.{MAX_CERT_LEAVES};

/// States what an accepted text shows, whoever made it: its leaves are those that its lines name from the third on,
/// they follow one another over the root, and each is a valid node with the mark of its verdict.
pub fn certificates_are_true()
    ensures named { (c : Cutting) (root : Node) (request text : List ℕ) (ls : List Leaf)
        → checked c root request text ≡ Ok ls → ls ≡ named_leaves (drop 2 (text_lines text)) }
    ensures cover { (c : Cutting) (root : Node) (request text : List ℕ) (ls : List Leaf)
        → IsCutting c → IsValid c.rules root → checked c root request text ≡ Ok ls
        → Covers root.a ls root.b }
    ensures are_leaves { (c : Cutting) (root : Node) (request text : List ℕ) (ls : List Leaf)
        → IsCutting c → IsValid c.rules root → checked c root request text ≡ Ok ls
        → AreLeaves c.rules ls }
{}

/// States that a certificate written of the leaves of a valid root is accepted with these leaves, if its request is one
/// line of at most 4,096 bytes, its times have at most 15 digits, its depths at most 2, and it has fewer than 10^8
/// leaves.
pub fn written_certificates_are_accepted()
    ensures { (c : Cutting) (root : Node) (request : List ℕ) → IsCutting c → IsValid c.rules root
        → IsLine request → AllFit (leaves c.rules root) → length (leaves c.rules root) < 10 ^ 8
        → checked c root request (certificate request (leaves c.rules root))
        ≡ Ok (leaves c.rules root) }
{}

/// States that a certificate of at most 4,194,304 leaves, with a request of at most 4,096 bytes, has at most
/// 268,435,456 bytes, the most that is read. A leaf's line has at most 40 bytes without its end.
pub fn certificates_are_short()
    ensures { (request : List ℕ) (ls : List Leaf) → length request ≤ MAX_LINE_BYTES → AllFit ls
        → length ls ≤ MAX_CERT_LEAVES → length (certificate request ls) ≤ MAX_TEXT_BYTES }
{}
