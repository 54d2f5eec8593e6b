// Worked values of requests. The calls do nothing when they run.
ghost use Rattle.std.specs.Prelude.{◌≡◌, ◌∷◌, [], Ok, Err, Some, codes, neg_ℤ, pos, None};
ghost use Rattle.spec_requests.specs.Requests.{nought, request_of};
ghost use Rattle.spec_requests.specs.Examples.{scalar_in, scalar_words, search_in, search_words, set_between, set_words, tenths, with_search};
ghost use Rattle.spec_requests.specs.declared.request.Named.TheVariants as opt;
ghost use Rattle.spec_requests.specs.declared.request.WordFault.TheVariants.{NoCommand, UnknownCommand, Words, BadValue};
ghost use Rattle.spec_requests.specs.declared.request.Request.TheVariants.{Find, Cert, Verify, Check, Gen, Set, Scalar};
ghost use Rattle.spec_requests.specs.declared.request.Relation.TheVariants as relation;

/// Works out the requests of two command lines: `check a -- -b` names the files `a` and `-b`, and `gen 405 3 7` asks
/// for 3 blocks from the seed 7 with one worker.
pub fn check_and_gen_are_read_as_requests()
    ensures check { request_of (codes "check" ∷ codes "a" ∷ codes "--" ∷ codes "-b" ∷ [])
        ≡ Ok (Check (codes "a" ∷ codes "-b" ∷ [])) }
    ensures generated { request_of (codes "gen" ∷ codes "405" ∷ codes "3" ∷ codes "7" ∷ [])
        ≡ Ok (Gen 3 7 1) }
{}

/// Works out the faults of four command lines: one without a word, one with the unknown command `search`, `check`
/// without a file, and `gen` with 41 blocks, one too many.
pub fn bad_command_lines_have_faults()
    ensures no_word { request_of [] ≡ Err NoCommand }
    ensures other { request_of (codes "search" ∷ codes "a" ∷ []) ≡ Err UnknownCommand }
    ensures no_file { request_of (codes "check" ∷ []) ≡ Err Words }
    ensures blocks { request_of (codes "gen" ∷ codes "405" ∷ codes "41" ∷ codes "7" ∷ [])
        ≡ Err (BadValue opt.Blocks) }
{}

/// Works out the requests of `find` command lines: an option that is left out has its default, and an option may stand
/// after a file. With 1,000 ticks a second the whole number -5 still counts seconds, and is -5,000 ticks.
pub fn find_is_read_as_a_search()
    ensures defaults { request_of (with_search (codes "a" ∷ []))
        ≡ Ok (Find (search_in (codes "a"))) }
    ensures milliseconds { request_of (with_search (codes "--tick=1000" ∷ codes "--from=-5"
        ∷ codes "a" ∷ []))
        ≡ Ok (Find (record (search_in (codes "a")) {
          tick = 1000;
          from = Some (neg_ℤ (pos 5000));
        })) }
    ensures behind { request_of (with_search (codes "a" ∷ codes "--depth=40" ∷ []))
        ≡ Ok (Find (search_in (codes "a"))) }
{}

/// Works out which option of `find` is reported as bad: the first in the order of options. Bad are a missing target, a
/// second body for a coordinate, February 30, 65 workers, a tick of 10, a fraction of a second without milliseconds,
/// and an empty cut rule.
pub fn the_first_bad_option_of_find_is_reported()
    ensures first { request_of (codes "find" ∷ codes "--kind" ∷ codes "coord" ∷ codes "--cut" ∷ codes "x"
        ∷ codes "a" ∷ []) ≡ Err (BadValue opt.Target) }
    ensures second { request_of (with_search (codes "--second" ∷ codes "venus" ∷ codes "a" ∷ []))
        ≡ Err (BadValue opt.Second) }
    ensures date { request_of (with_search (codes "--from=2000-02-30T00:00:00" ∷ codes "a" ∷ []))
        ≡ Err (BadValue opt.From) }
    ensures workers { request_of (with_search (codes "--workers" ∷ codes "65" ∷ codes "a" ∷ []))
        ≡ Err (BadValue opt.Workers) }
    ensures tick { request_of (with_search (codes "--tick" ∷ codes "10" ∷ codes "--from=x"
        ∷ codes "a" ∷ []))
        ≡ Err (BadValue opt.Tick) }
    ensures direction { request_of (with_search (codes "--tick=10" ∷ codes "--dir=x" ∷ codes "a" ∷ []))
        ≡ Err (BadValue opt.Dir) }
    ensures fraction { request_of (with_search (codes "--from=2000-01-16T23:59:59.500" ∷ codes "a" ∷ []))
        ≡ Err (BadValue opt.From) }
    ensures empty { request_of (with_search (codes "--cut=" ∷ codes "a" ∷ []))
        ≡ Err (BadValue opt.Cut) }
{}

/// Works out the requests of `cert`, which has the words of a search, and of `verify`, which has the name of the
/// certificate's file too; that may be a dash.
pub fn cert_and_verify_are_read_as_searches()
    ensures written { request_of (search_words (codes "cert") (codes "a" ∷ []))
        ≡ Ok (Cert (search_in (codes "a"))) }
    ensures checked { request_of (search_words (codes "verify") (codes "--cert" ∷ codes "-"
        ∷ codes "a" ∷ [])) ≡ Ok (Verify (search_in (codes "a")) (codes "-")) }
{}

/// Works out the faults of `verify` if the certificate has no name or an empty one: they are reported after those of
/// the search's options. `cert` and `find` do not take the option `--cert`, and refuse the words.
pub fn bad_names_of_certificates_are_reported_last()
    ensures unnamed { request_of (search_words (codes "verify") (codes "a" ∷ []))
        ≡ Err (BadValue opt.Cert) }
    ensures empty { request_of (search_words (codes "verify") (codes "--cert=" ∷ codes "a" ∷ []))
        ≡ Err (BadValue opt.Cert) }
    ensures last { request_of (search_words (codes "verify") (codes "--cert=" ∷ codes "--cut=x"
        ∷ codes "a" ∷ [])) ≡ Err (BadValue opt.Cut) }
    ensures written { request_of (search_words (codes "cert") (codes "--cert=c" ∷ codes "a" ∷ []))
        ≡ Err Words }
    ensures found { request_of (with_search (codes "--cert=c" ∷ codes "a" ∷ [])) ≡ Err Words }
{}

/// Works out the requests of `set`: a search with a relation in place of a direction. The references are kept as texts
/// as they are given; the first is 0 if it is left out.
pub fn set_is_read_as_a_search_with_a_relation()
    ensures below { request_of (set_words (codes "less") (codes "a" ∷ []))
        ≡ Ok (Set (search_in (codes "a")) None relation.Less) }
    ensures between { request_of (set_words (codes "within") (codes "--ref=-100.5" ∷ codes "--ref2"
        ∷ codes "100.5" ∷ codes "a" ∷ []))
        ≡ Ok (set_between relation.Within (tenths (neg_ℤ (pos 1005))) (codes "-100.5,100.5")) }
    ensures outside { request_of (set_words (codes "outside") (codes "--ref2=100.5" ∷ codes "a" ∷ []))
        ≡ Ok (set_between relation.Outside nought (codes "0,100.5")) }
{}

/// Works out which option of `set` is reported as bad: a kind without sets, a missing relation, a relation to two
/// references for a kind without any, and a second reference that the relation does not take, or lacks. `set` takes no
/// direction.
pub fn the_first_bad_option_of_set_is_reported()
    ensures kind { request_of (codes "set" ∷ codes "--kind" ∷ codes "conj" ∷ codes "--relation"
        ∷ codes "less" ∷ codes "a" ∷ []) ≡ Err (BadValue opt.Kind) }
    ensures unnamed { request_of (search_words (codes "set") (codes "--ref2=x" ∷ codes "a" ∷ []))
        ≡ Err (BadValue opt.Relation) }
    ensures station { request_of (codes "set" ∷ codes "--kind=station" ∷ codes "--target=mars"
        ∷ codes "--relation=within" ∷ codes "--ref2=1" ∷ codes "a" ∷ [])
        ≡ Err (BadValue opt.Relation) }
    ensures one { request_of (set_words (codes "less") (codes "--ref2=1" ∷ codes "a" ∷ []))
        ≡ Err (BadValue opt.Ref2) }
    ensures two { request_of (set_words (codes "outside") (codes "a" ∷ []))
        ≡ Err (BadValue opt.Ref2) }
    ensures direction { request_of (set_words (codes "less") (codes "--dir=any" ∷ codes "a" ∷ []))
        ≡ Err Words }
{}

/// Works out the requests of `scalar` for the polynomial `1,0,-100`, which is t^2 - 100, from -50 to 50 and, with depth
/// 0, from 50 to -50: the ends of a span are not compared here.
pub fn scalar_is_read_as_a_polynomial_and_a_span()
    ensures forward { request_of (scalar_words (codes "1,0,-100") (codes "--from=-50" ∷ codes "--to"
        ∷ codes "50" ∷ [])) ≡ Ok (Scalar (scalar_in 40 (neg_ℤ (pos 50)) (pos 50))) }
    ensures depth { request_of (scalar_words (codes "1,0,-100") (codes "--depth=0" ∷ codes "--from=50"
        ∷ codes "--to=-50" ∷ [])) ≡ Ok (Scalar (scalar_in 0 (pos 50) (neg_ℤ (pos 50)))) }
{}

/// Works out which option of `scalar` is reported as bad, the polynomial first: it has three numbers of at most 19
/// digits, within their limits. Both ends are needed, as whole numbers, and no file is read.
pub fn the_first_bad_option_of_scalar_is_reported()
    ensures two { request_of (scalar_words (codes "1,0") (codes "--from=x" ∷ []))
        ≡ Err (BadValue opt.Quad) }
    ensures four { request_of (scalar_words (codes "1,0,0,0") []) ≡ Err (BadValue opt.Quad) }
    ensures large { request_of (scalar_words (codes "1,0,9999999999999999999") [])
        ≡ Err (BadValue opt.Quad) }
    ensures long { request_of (scalar_words (codes "1,0,00000000000000000000") [])
        ≡ Err (BadValue opt.Quad) }
    ensures from { request_of (scalar_words (codes "1,0,0") (codes "--to=9" ∷ []))
        ≡ Err (BadValue opt.From) }
    ensures date { request_of (scalar_words (codes "1,0,0") (codes "--from=0"
        ∷ codes "--to=2000-01-01T00:00:00" ∷ [])) ≡ Err (BadValue opt.To) }
    ensures file { request_of (scalar_words (codes "1,0") (codes "a" ∷ [])) ≡ Err Words }
{}
