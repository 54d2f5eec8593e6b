// A law of the certificates of requests. The call does nothing when it runs.
ghost use Rattle.std.specs.Prelude.{◌≡◌, ◌<◌, List, Ok, ℕ};
ghost use Rattle.spec_ephemeris.specs.Ephemeris.{Ephemeris, IsEphemeris};
ghost use Rattle.spec_requests.specs.declared.request.FindAsk.{FindAsk};
ghost use Rattle.spec_requests.specs.Limits.{IsWithinLimits};
ghost use Rattle.spec_outcomes.specs.Certificates.{IsAccepted, counted_certificate};

use gf_cert::certificates_of_searches_are_accepted;
use spec_output::the_line_of_a_request_is_a_line;

/// States that `verify` accepts what `cert` writes over an ephemeris that counts the ticks of the search. What it
/// prints is the report of the search and the number of the certificate's leaves.
pub fn what_is_certified_is_verified()
    ensures { (find : FindAsk) (e : Ephemeris) (text : List ℕ) → IsEphemeris e → 0 < e.blocks
        → IsWithinLimits find → counted_certificate find e ≡ Ok text → IsAccepted find e text }
{
    certificates_of_searches_are_accepted();
    the_line_of_a_request_is_a_line();
}
