// Laws of the certificates of searches. Each is the contract of a function that does nothing when it runs.
ghost use Rattle.std.specs.Prelude.{◌≡◌, ◌≤◌, List, ℕ, Ok, length};
ghost use Rattle.spec_text.specs.Printed.{IsLine};
ghost use Rattle.spec_text.specs.declared.limits.TheConstants.{MAX_LINE_BYTES, MAX_TEXT_BYTES};
ghost use Rattle.spec_trees.specs.declared.tree.Node.{Node};
ghost use Rattle.spec_trees.specs.Tree.{IsValid, leaf_count, leaves};
ghost use Rattle.spec_searches.specs.Found.{rules};
ghost use Rattle.spec_searches.specs.Search.{IsSearch, Search};
ghost use Rattle.spec_searches.specs.declared.limits.TheConstants.{MAX_DEPTH};
ghost use Rattle.spec_certificates.specs.Checks.{checked};
ghost use Rattle.spec_certificates.specs.Texts.{certificate};
ghost use Rattle.spec_certificates.specs.declared.limits.TheConstants.{MAX_CERT_LEAVES};
ghost use Rattle.gf_cert.specs.Search.{cutting};

/// States that the certificate of a search's own leaves is accepted for the line of its request, and has at most
/// 268,435,456 bytes. This holds for searches of at most 4,194,304 leaves, down to a depth of at most 40.
pub fn certificates_of_searches_are_accepted()
    ensures accepted { (s : Search) (root : Node) (request : List ℕ) → IsSearch s
        → s.depth ≤ MAX_DEPTH → IsValid (rules s) root → IsLine request
        → leaf_count (rules s) root ≤ MAX_CERT_LEAVES
        → checked (cutting s) root request (certificate request (leaves (rules s) root))
        ≡ Ok (leaves (rules s) root) }
    ensures short { (s : Search) (root : Node) (request : List ℕ) → IsSearch s
        → s.depth ≤ MAX_DEPTH → IsValid (rules s) root → length request ≤ MAX_LINE_BYTES
        → leaf_count (rules s) root ≤ MAX_CERT_LEAVES
        → length (certificate request (leaves (rules s) root)) ≤ MAX_TEXT_BYTES }
{}
