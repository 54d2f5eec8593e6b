// Laws of the definition of a header. Each is the contract of a function that does nothing.
ghost use Rattle.std.specs.Prelude.{◌≡◌, ◌≤ℤ◌, List, Ok};
ghost use Rattle.spec_ephemeris.specs.Header.{IsHeader};
ghost use Rattle.spec_ephemeris.specs.declared.header.Header.{Header};
ghost use Rattle.spec_ephemeris.specs.declared.limits.TheConstants.{LONGEST_BLOCK};
ghost use Rattle.spec_files.specs.HeaderLines.{header};
ghost use Rattle.spec_files.specs.Sections.{FileLine};

/// States that the header that is read from accepted lines meets all rules of a header.
pub fn accepted_headers_meet_the_rules()
    ensures { (lines : List FileLine) (h : Header) (rest : List FileLine)
        → header lines ≡ Ok (h, rest) → IsHeader h }
{}

/// States that the blocks of a header that is read from accepted lines are at most 64 days long, counted in seconds.
pub fn accepted_headers_count_seconds()
    ensures { (lines : List FileLine) (h : Header) (rest : List FileLine)
        → header lines ≡ Ok (h, rest) → h.block_seconds ≤ℤ LONGEST_BLOCK }
{}
