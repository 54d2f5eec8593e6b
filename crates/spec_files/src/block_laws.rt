// Laws of the definitions of blocks. Each is the contract of a function that does nothing.
ghost use Rattle.std.specs.Prelude.{◌≡◌, ◌<◌, ◌≤ℤ◌, List, Ok};
ghost use Rattle.spec_ephemeris.specs.Header.{IsHeader};
ghost use Rattle.spec_ephemeris.specs.declared.header.Header.{Header};
ghost use Rattle.spec_ephemeris.specs.Ephemeris.{Ephemeris, IsEphemeris, end_of};
ghost use Rattle.spec_ephemeris.specs.declared.limits.TheConstants.{FIRST_TIME, LAST_TIME};
ghost use Rattle.spec_files.specs.Sections.{FileLine};
ghost use Rattle.spec_files.specs.Blocks.{blocks};

/// States that if lines are accepted as blocks of a header that meets the rules, the result is a checked ephemeris with
/// this very header and at least one block.
pub fn accepted_blocks_are_an_ephemeris()
    ensures checked { (h : Header) (lines : List FileLine) (e : Ephemeris)
        → IsHeader h → blocks h lines ≡ Ok e → IsEphemeris e }
    ensures header { (h : Header) (lines : List FileLine) (e : Ephemeris)
        → IsHeader h → blocks h lines ≡ Ok e → e.header ≡ h }
    ensures some { (h : Header) (lines : List FileLine) (e : Ephemeris)
        → IsHeader h → blocks h lines ≡ Ok e → 0 < e.blocks }
{}

/// States that accepted blocks start and end from Julian date 0 to Julian date 5,000,000, both in seconds of TDB since
/// J2000.
pub fn accepted_blocks_lie_in_time()
    ensures first { (h : Header) (lines : List FileLine) (e : Ephemeris)
        → blocks h lines ≡ Ok e → FIRST_TIME ≤ℤ e.start }
    ensures last { (h : Header) (lines : List FileLine) (e : Ephemeris)
        → blocks h lines ≡ Ok e → e.start ≤ℤ LAST_TIME }
    ensures end { (h : Header) (lines : List FileLine) (e : Ephemeris)
        → blocks h lines ≡ Ok e → end_of e ≤ℤ LAST_TIME }
{}
