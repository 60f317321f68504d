//! The laws on straight legs and the stations at which ways stop, each the contract of a function
//! with an empty body.
ghost use Rattle.std.specs.Prelude.{◌≡◌, ◌≢◌, ◌⊎◌, ℕ, ◌+◌, ◌<◌, ◌≤◌, Contains, List, [], ◌∷◌, ◌++◌, drop, length, replicate, slice_get, Some};
ghost use Rattle.line_arena.specs.Arena.{Arena, IsArena, LiesFurther, StandsAt};
ghost use Rattle.move_model.specs.Ahead.{ahead, with_steps, with_stretch};
ghost use Rattle.move_model.specs.Places.{ComesTo};
ghost use Rattle.move_model.specs.Stations.{AreStraightLegs, GoesStraight, HasNoneBetween, HasStation, IsNextStation};
ghost use Rattle.move_model.specs.Stations.{IsPartOf, IsRunInto, LieOnLine, Stop, line_between};
ghost use Rattle.move_model.specs.Ways.{GoesAlongWay, HasRest, IsWay, Leads, Leg, steps_along, steps_of_way};
ghost use Rattle.move_model.specs.declared.place.Place.{Place};
ghost use Rattle.plane_geom.specs.Point.{distance};
ghost use Rattle.plane_geom.specs.declared.floor.Line.{Line};
ghost use Rattle.plane_geom.specs.declared.point.Dir.{Dir};
ghost use Rattle.plane_geom.specs.declared.point.Point.{Point};
ghost use Rattle.plane_geom.specs.declared.rect.Solid.{Solid};
ghost use Rattle.walk_laws.specs.Lines.{run_line};
ghost use Rattle.walk_laws.specs.Sides.{IsHeldTo, held_to};
ghost use Rattle.walk_model.specs.Choice.{stub_length};
ghost use Rattle.walk_model.specs.Cost.{turn};
ghost use Rattle.walk_model.specs.Legal.{IsTask};
ghost use Rattle.walk_model.specs.Order.{IsFirst, Triple};
ghost use Rattle.walk_model.specs.Walk.{point_at};
ghost use Rattle.walk_model.specs.declared.task.Choice.{Choice};
ghost use Rattle.walk_model.specs.declared.task.Task.{Task};

/// From a place straight legs lead to each crossing that lies further on along the line, if the
/// next checkpoint is at no crossing between the two.
///
/// Straight legs lead along one line, with as many steps as their ends are apart, and the next
/// checkpoint is at no crossing between their ends.
pub fn legs_go_straight()
    ensures legs { (a : Arena) (via : List Point) (x y : Place) (p q : Point) → IsArena a → StandsAt a x.crossing p →
        StandsAt a y.crossing q → LiesFurther a y.heading x.crossing y.crossing →
        HasNoneBetween a via y.heading x.stage x.crossing y.crossing → ComesTo via x.stage q y.stage →
        (legs : List Leg) × GoesStraight a via x y.heading legs y }
    ensures lies { (a : Arena) (via : List Point) (x y : Place) (d : Dir) (legs : List Leg) (p q : Point) → IsArena a →
        GoesStraight a via x d legs y → StandsAt a x.crossing p → StandsAt a y.crossing q →
        LiesFurther a d x.crossing y.crossing × (steps_along legs ≡ replicate (distance p q) d) }
    ensures free { (a : Arena) (via : List Point) (x y : Place) (d : Dir) (legs : List Leg) → IsArena a →
        GoesStraight a via x d legs y → HasNoneBetween a via d x.stage x.crossing y.crossing }
    ensures heading { (a : Arena) (via : List Point) (x y : Place) (d : Dir) (legs : List Leg) →
        GoesStraight a via x d legs y → y.heading ≡ d }
{}

/// Each way that does not end at once begins with straight legs to a station. At the end of legs
/// on a walk's way the walk has the remaining legs ahead.
pub fn ways_have_stations()
    ensures station { (solids : List Solid) (a : Arena) (via : List Point) (x : Place) (l : Leg) (rest : List Leg)
        (e : Choice) → IsWay solids a via x (l ∷ rest) e → HasStation solids a via x l.to.heading (l ∷ rest) e }
    ensures rest { (solids : List Solid) (a : Arena) (task : Task) (t : Triple) (along : GoesAlongWay solids a task t)
        (x y : Place) (p q : Point) (legs back : List Leg) → HasRest solids a task t along x p (legs ++ back) →
        Leads a task.via x legs y → StandsAt a y.crossing q → HasRest solids a task t along y q back }
{}

/// The number of a walk's point at a place on its way is the length of the stub and of the legs in
/// front: the point is there, and the steps from that number on are those of the remaining way.
pub fn rests_have_numbers()
    ensures point { (solids : List Solid) (a : Arena) (task : Task) (t : Triple) → IsArena a → IsTask task →
        (along : GoesAlongWay solids a task t) (y : Place) (q : Point) (rest : List Leg) →
        (h : HasRest solids a task t along y q rest) →
        point_at t.walk (stub_length along.start + length (steps_along h.front)) ≡ q }
    ensures left { (solids : List Solid) (a : Arena) (task : Task) (t : Triple) → IsArena a → IsTask task →
        (along : GoesAlongWay solids a task t) (y : Place) (q : Point) (rest : List Leg) →
        (h : HasRest solids a task t along y q rest) →
        drop (stub_length along.start + length (steps_along h.front)) t.walk.steps ≡ steps_of_way rest along.end }
    ensures within { (solids : List Solid) (a : Arena) (task : Task) (t : Triple) → IsArena a → IsTask task →
        (along : GoesAlongWay solids a task t) (y : Place) (q : Point) (rest : List Leg) →
        (h : HasRest solids a task t along y q rest) →
        stub_length along.start + length (steps_along h.front) + stub_length along.end ≤ length t.walk.steps }
{}

/// On the way of a first walk, straight legs between two bends, neither at a port, draw a line
/// that is held to its side.
pub fn straight_legs_are_held()
    ensures { (solids : List Solid) (a : Arena) (task : Task) (t : Triple) → IsArena a → IsTask task →
        IsFirst solids task t → (along : GoesAlongWay solids a task t) (x y : Place) (p q : Point) (d : Dir) (l : Leg)
        (ls : List Leg) (m : Leg) (back : List Leg) →
        (h : HasRest solids a task t along x p ((l ∷ ls) ++ (m ∷ back))) → h.front ≢ [] →
        Leads a task.via x (l ∷ ls) y → AreStraightLegs d (l ∷ ls) → StandsAt a y.crossing q →
        0 < turn x.heading d → 0 < turn d m.to.heading →
        IsHeldTo solids task.via (held_to x.heading m.to.heading) (run_line p d (distance p q)) }
{}

/// Straight legs in front add their steps to what is ahead of a walk that arrives in their
/// direction; for one that arrives in another heading they add the bends and the run as well.
pub fn straight_legs_in_front()
    ensures on { (a : Arena) (via : List Point) (x y : Place) (p q : Point) (d : Dir) (l : Leg) (ls : List Leg) →
        IsArena a → Leads a via x (l ∷ ls) y → AreStraightLegs d (l ∷ ls) → StandsAt a x.crossing p →
        StandsAt a y.crossing q → (penalty : ℕ) (ds : List Dir) (more : ℕ) →
        ahead penalty d p (steps_along (l ∷ ls) ++ ds) more ≡ with_steps (distance p q) (ahead penalty d q ds more) }
    ensures turned { (a : Arena) (via : List Point) (x y : Place) (p q : Point) (d : Dir) (l : Leg) (ls : List Leg) →
        IsArena a → Leads a via x (l ∷ ls) y → AreStraightLegs d (l ∷ ls) → StandsAt a x.crossing p →
        StandsAt a y.crossing q → (penalty : ℕ) (h : Dir) (ds : List Dir) (more : ℕ) →
        ahead penalty h p (steps_along (l ∷ ls) ++ ds) more
        ≡ with_stretch penalty h (record { from = p; dir = d; steps = 0 }) (with_steps (distance p q) (ahead penalty d q ds more)) }
{}

/// At no place of a walk's way is the next checkpoint at its point. From each place the way goes
/// straight on to a station. It reaches each place but the entry by straight legs, which begin at
/// a bend or at the entry.
pub fn rests_have_stations()
    ensures none { (solids : List Solid) (a : Arena) (task : Task) (t : Triple) → IsArena a →
        (along : GoesAlongWay solids a task t) (y : Place) (q : Point) (rest : List Leg) →
        HasRest solids a task t along y q rest → slice_get task.via y.stage ≢ Some q }
    ensures next { (solids : List Solid) (a : Arena) (task : Task) (t : Triple) → IsArena a →
        (along : GoesAlongWay solids a task t) (x : Place) (p : Point) (l : Leg) (rest : List Leg) →
        HasRest solids a task t along x p (l ∷ rest) → IsNextStation solids a task t along x p l rest }
    ensures run { (solids : List Solid) (a : Arena) (task : Task) (t : Triple) → IsArena a →
        (along : GoesAlongWay solids a task t) (y : Place) (q : Point) (rest : List Leg) →
        (h : HasRest solids a task t along y q rest) → h.front ≢ [] → IsRunInto solids a task t along y q rest }
{}

/// Where the way of a first walk doubles back between its ports, there is a checkpoint.
pub fn ways_double_back_at_checkpoints()
    ensures { (solids : List Solid) (a : Arena) (task : Task) (t : Triple) → IsArena a → IsTask task →
        IsFirst solids task t → (along : GoesAlongWay solids a task t) (x : Place) (p : Point) (m : Leg)
        (back : List Leg) → (h : HasRest solids a task t along x p (m ∷ back)) → h.front ≢ [] →
        turn x.heading m.to.heading ≡ 2 → Contains task.via p }
{}

/// At a bend on the way of a first walk, the run that ends there begins at the entry, or is held to
/// its side.
pub fn runs_into_bends_are_held()
    ensures { (solids : List Solid) (a : Arena) (task : Task) (t : Triple) → IsArena a → IsTask task →
        IsFirst solids task t → (along : GoesAlongWay solids a task t) (y : Place) (q : Point) (m : Leg)
        (back : List Leg) → (h : HasRest solids a task t along y q (m ∷ back)) → h.front ≢ [] →
        0 < turn y.heading m.to.heading →
        (r : IsRunInto solids a task t along y q (m ∷ back)) × ((r.on.front ≡ [])
        ⊎ IsHeldTo solids task.via (held_to r.from.heading m.to.heading) (run_line r.point y.heading (distance r.point q))) }
{}

/// Between two crossings, one further on than the other, a run draws a part of the arena's line
/// that has both. A run that begins further back or ends further on draws a longer line, and what
/// holds a line to a side holds a longer one.
pub fn runs_lie_on_lines()
    ensures between { (a : Arena) (d : Dir) (b c : ℕ) (p q : Point) → IsArena a → LiesFurther a d b c → StandsAt a b p →
        StandsAt a c q → run_line p d (distance p q) ≡ line_between d p q }
    ensures line { (a : Arena) (d : Dir) (b c : ℕ) (p q : Point) → IsArena a → LiesFurther a d b c → StandsAt a b p →
        StandsAt a c q → LieOnLine a d b c p q }
    ensures sooner { (a : Arena) (d : Dir) (z b : ℕ) (r p q : Point) → IsArena a → LiesFurther a d z b → StandsAt a z r →
        StandsAt a b p → IsPartOf (line_between d p q) (line_between d r q) }
    ensures later { (a : Arena) (d : Dir) (c e : ℕ) (p q r : Point) → IsArena a → LiesFurther a d c e → StandsAt a c q →
        StandsAt a e r → IsPartOf (line_between d p q) (line_between d p r) }
    ensures held { (solids : List Solid) (via : List Point) (side : Dir) (l m : Line) → IsPartOf l m →
        IsHeldTo solids via side l → IsHeldTo solids via side m }
{}

/// From each place on its way a first walk goes straight on to a station. There the way ends, turns
/// between runs that are held, doubles back at a checkpoint, or goes straight on with more
/// checkpoints passed.
pub fn first_walks_stop_at_stations()
    ensures { (solids : List Solid) (a : Arena) (task : Task) (t : Triple) → IsArena a → IsTask task →
        IsFirst solids task t → (along : GoesAlongWay solids a task t) (x : Place) (p : Point) (l : Leg)
        (rest : List Leg) → HasRest solids a task t along x p (l ∷ rest) →
        (n : IsNextStation solids a task t along x p l rest) × (n.station.to.heading ≡ l.to.heading)
        × Stop solids a task t along x n.station.to n.point n.station.back }
{}
