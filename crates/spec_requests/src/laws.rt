// Laws of requests. Each is the contract of a function that does nothing.
ghost use Rattle.std.specs.Prelude.{◌≡◌, ◌<◌, ◌++◌, ◌∷◌, [], ℕ, List, Ok, Some};
ghost use Rattle.std.specs.Fmt.{decimal};
ghost use Rattle.spec_ephemeris.specs.declared.body.Body.{Body};
ghost use Rattle.spec_bodies.specs.declared.frame.Frame.{Frame};
ghost use Rattle.spec_events.specs.declared.dir.Dir.{Dir};
ghost use Rattle.spec_trees.specs.declared.cuts.CutRule.{CutRule};
ghost use Rattle.spec_kinds.specs.declared.kind.Kind.{Kind};
ghost use Rattle.spec_kinds.specs.Table.{kind_name};
ghost use Rattle.spec_requests.specs.Names.{axis_name, axis_of, body_name, command_name, command_of, cut_name, cut_of, dir_name, dir_of, frame_name, frame_of, kind_of, layout_of, observer_of, option_name, option_of, relation_name, relation_of, tick_of_word};
ghost use Rattle.spec_requests.specs.Limits.{KeepsToLimits};
ghost use Rattle.spec_requests.specs.Options.{verify_options};
ghost use Rattle.spec_requests.specs.Requests.{request_of};
ghost use Rattle.spec_requests.specs.declared.request.Named.{Named};
ghost use Rattle.spec_requests.specs.declared.request.Named.TheVariants as opt;
ghost use Rattle.spec_requests.specs.declared.request.Relation.{Relation};
ghost use Rattle.spec_requests.specs.declared.request.Request.{Request};
ghost use Rattle.spec_requests.specs.declared.tables.CommandName.{CommandName};
ghost use Rattle.spec_requests.specs.declared.tables.TheConstants.{FIND_OPTIONS, GEN_OPTIONS, GEN_WORDS, SCALAR_OPTIONS, SET_OPTIONS};

/// States that whatever words are read as a request, it keeps to the limits of requests: a search has a second body
/// exactly if its kind takes one, no target is the barycentre of the solar system, and widths, depths, workers, times
/// and references are in range.
pub fn requests_keep_to_limits()
    ensures { (words : List (List ℕ)) (request : Request) → request_of words ≡ Ok request
        → KeepsToLimits request }
{}

/// States that the name of each command, option, kind, body, frame, axis, direction, relation, cut rule, layout and
/// tick is read back as the thing that it names.
pub fn names_are_read_back()
    ensures commands { (command : CommandName) → command_of (command_name command) ≡ Some command }
    ensures options { (option : Named) → option_of (option_name option) ≡ Some option }
    ensures kinds { (kind : Kind) → kind_of (kind_name kind) ≡ Some kind }
    ensures bodies { (body : Body) → observer_of (body_name body) ≡ Some body }
    ensures frames { (frame : Frame) → frame_of (frame_name frame) ≡ Some frame }
    ensures axes { (axis : ℕ) → axis < 3 → axis_of (axis_name axis) ≡ Some axis }
    ensures dirs { (dir : Dir) → dir_of (dir_name dir) ≡ Some dir }
    ensures relations { (relation : Relation) → relation_of (relation_name relation) ≡ Some relation }
    ensures cuts { (cut : CutRule) → cut_of (cut_name cut) ≡ Some cut }
    ensures layouts { layout_of (decimal 405) ≡ Some 405 }
    ensures seconds { tick_of_word (decimal 1) ≡ Some 1 }
    ensures milliseconds { tick_of_word (decimal 1_000) ≡ Some 1_000 }
{}

/// States that a word that is read as a command, option, kind, body, frame, axis, direction, relation, cut rule, layout
/// or tick is the name of that thing. So no two words stand for one thing.
pub fn words_stand_for_one_thing()
    ensures commands { (word : List ℕ) (command : CommandName) → command_of word ≡ Some command
        → word ≡ command_name command }
    ensures options { (word : List ℕ) (option : Named) → option_of word ≡ Some option
        → word ≡ option_name option }
    ensures kinds { (word : List ℕ) (kind : Kind) → kind_of word ≡ Some kind
        → word ≡ kind_name kind }
    ensures bodies { (word : List ℕ) (body : Body) → observer_of word ≡ Some body
        → word ≡ body_name body }
    ensures frames { (word : List ℕ) (frame : Frame) → frame_of word ≡ Some frame
        → word ≡ frame_name frame }
    ensures axes { (word : List ℕ) (axis : ℕ) → axis_of word ≡ Some axis → word ≡ axis_name axis }
    ensures dirs { (word : List ℕ) (dir : Dir) → dir_of word ≡ Some dir → word ≡ dir_name dir }
    ensures relations { (word : List ℕ) (relation : Relation) → relation_of word ≡ Some relation
        → word ≡ relation_name relation }
    ensures cuts { (word : List ℕ) (cut : CutRule) → cut_of word ≡ Some cut → word ≡ cut_name cut }
    ensures layouts { (word : List ℕ) (layout : ℕ) → layout_of word ≡ Some layout
        → word ≡ decimal layout }
    ensures ticks { (word : List ℕ) (tick : ℕ) → tick_of_word word ≡ Some tick
        → word ≡ decimal tick }
{}

/// States the order in which the options of each command are looked at, of which the first bad one is reported.
/// `verify` looks at the certificate after all options of its search, `gen` at its words before its options, and
/// `scalar` at the polynomial first.
pub fn options_are_looked_at_in_a_fixed_order()
    ensures find { FIND_OPTIONS ≡ opt.Kind ∷ opt.Target ∷ opt.Second ∷ opt.Observer ∷ opt.Frame
        ∷ opt.Axis ∷ opt.Ref ∷ opt.Radius1 ∷ opt.Radius2 ∷ opt.Dir ∷ opt.Tick ∷ opt.From ∷ opt.To
        ∷ opt.Width ∷ opt.Depth ∷ opt.Workers ∷ opt.Cut ∷ [] }
    ensures verified { verify_options ≡ FIND_OPTIONS ++ opt.Cert ∷ [] }
    ensures generated { GEN_WORDS ++ GEN_OPTIONS
        ≡ opt.Layout ∷ opt.Blocks ∷ opt.Seed ∷ opt.Workers ∷ [] }
    ensures set { SET_OPTIONS ≡ opt.Kind ∷ opt.Target ∷ opt.Second ∷ opt.Observer ∷ opt.Frame
        ∷ opt.Axis ∷ opt.Ref ∷ opt.Radius1 ∷ opt.Radius2 ∷ opt.Relation ∷ opt.Ref2 ∷ opt.Tick
        ∷ opt.From ∷ opt.To ∷ opt.Width ∷ opt.Depth ∷ opt.Workers ∷ opt.Cut ∷ [] }
    ensures scalar { SCALAR_OPTIONS ≡ opt.Quad ∷ opt.Dir ∷ opt.From ∷ opt.To ∷ opt.Width
        ∷ opt.Depth ∷ opt.Workers ∷ opt.Cut ∷ [] }
{}
