//! The laws, each the contract of a function with an empty body.
ghost use Rattle.std.specs.Prelude.{◌≡◌, ◌≢◌, ℕ, ◌+◌, ◌<◌, ◌≤◌, List, [], ◌∷◌, ◌++◌, Some, length, replicate, slice_get};
ghost use Rattle.std.specs.Cmp.Lexicographic.{slice_cmp};
ghost use Rattle.std.specs.Ordering.{nat_cmp, ordering_then};
ghost use Rattle.std.specs.declared.cmp.Ordering.TheVariants.{Greater};
ghost use Rattle.line_arena.specs.Arena.{Arena, IsArena, IsNearest, LiesFurther, StandsAt};
ghost use Rattle.line_arena.specs.Stands.{StandsFor};
ghost use Rattle.move_model.specs.Ahead.{ahead, ahead_cmp, nothing, whole, with_start, with_stretch};
ghost use Rattle.move_model.specs.Boxes.{distance_from, fewest_bends};
ghost use Rattle.move_model.specs.Corners.{IsDrawn, further};
ghost use Rattle.move_model.specs.Places.{ComesTo, IsMove};
ghost use Rattle.move_model.specs.Ways.{GoesAlongWay, HasRest, IsWay, Leads, Leg, steps_along, steps_of_way};
ghost use Rattle.move_model.specs.declared.ahead.Ahead.{Ahead};
ghost use Rattle.move_model.specs.declared.ahead.Stretch.{Stretch};
ghost use Rattle.move_model.specs.declared.place.Place.{Place};
ghost use Rattle.plane_geom.specs.Point.{PointIsOnSheet, distance, forward, opposite};
ghost use Rattle.plane_geom.specs.Rect.{HasWithin};
ghost use Rattle.plane_geom.specs.declared.floor.Floor.{Floor};
ghost use Rattle.plane_geom.specs.declared.point.Dir.{Dir};
ghost use Rattle.plane_geom.specs.declared.point.Point.{Point};
ghost use Rattle.plane_geom.specs.declared.rect.Rect.{Rect};
ghost use Rattle.plane_geom.specs.declared.rect.Solid.{Solid};
ghost use Rattle.walk_model.specs.Choice.{IsChoice, stub_length};
ghost use Rattle.walk_model.specs.Cost.{runs, turn};
ghost use Rattle.walk_model.specs.Floors.{IsFloorOf};
ghost use Rattle.walk_model.specs.Legal.{IsTask};
ghost use Rattle.walk_model.specs.Line.{Draws};
ghost use Rattle.walk_model.specs.Order.{IsFirst, IsLegalTriple, Triple, dir_cmp, pin_cost};
ghost use Rattle.walk_model.specs.Walk.{Walk, end_of, straight_walk};
ghost use Rattle.walk_model.specs.declared.task.Choice.{Choice};
ghost use Rattle.walk_model.specs.declared.task.Task.{Task};

/// At a point, the number of checkpoints that a walk has passed is unique, and always exists.
pub fn one_stage()
    ensures one { (via : List Point) (k i j : ℕ) (p : Point) → ComesTo via k p i → ComesTo via k p j → i ≡ j }
    ensures some { (via : List Point) (k : ℕ) (p : Point) → k ≤ length via → (j : ℕ) × ComesTo via k p j }
{}

/// From a place at most one move leads in a direction. If one crossing is nearest to another in a
/// direction, the second is nearest to the first in the direction back.
pub fn moves_lead_back()
    ensures one { (a : Arena) (via : List Point) (x y z : Place) (m n : ℕ) → IsArena a → IsMove a via x m y →
        IsMove a via x n z → y.heading ≡ z.heading → (m ≡ n) × (y ≡ z) }
    ensures back { (a : Arena) (d : Dir) (from to : ℕ) → IsArena a → IsNearest a d from to →
        IsNearest a (opposite d) to from }
{}

/// A move leads to the nearest crossing in a direction, straight on, with as many steps as the
/// distance between the two.
pub fn nearest_crossings_make_moves()
    ensures straight { (a : Arena) (d : Dir) (b c : ℕ) (p q : Point) → IsArena a → LiesFurther a d b c → StandsAt a b p →
        StandsAt a c q → (0 < distance p q) × (q ≡ forward d (distance p q) p) }
    ensures moved { (a : Arena) (via : List Point) (x y : Place) (p q : Point) → IsArena a → StandsAt a x.crossing p →
        StandsAt a y.crossing q → IsNearest a y.heading x.crossing y.crossing → ComesTo via x.stage q y.stage →
        IsMove a via x (distance p q) y }
{}

/// The crossings of an arena that represents a floor are on the sheet.
pub fn crossings_are_on_sheet()
    ensures { (floor : Floor) (a : Arena) (c : ℕ) (p : Point) → IsArena a → StandsFor floor a → StandsAt a c p →
        PointIsOnSheet p }
{}

/// Legs followed by a way are a way, with the steps of both; and what follows the first legs of a
/// way is a way.
pub fn ways_go_on()
    ensures way { (solids : List Solid) (a : Arena) (via : List Point) (x y : Place) (ls ms : List Leg) (e : Choice) →
        Leads a via x ls y → IsWay solids a via y ms e → IsWay solids a via x (ls ++ ms) e }
    ensures steps { (ls ms : List Leg) (e : Choice) → steps_of_way (ls ++ ms) e ≡ steps_along ls ++ steps_of_way ms e }
    ensures legs { (a : Arena) (via : List Point) (x y z : Place) (ls ms : List Leg) → Leads a via x ls y →
        Leads a via y ms z → Leads a via x (ls ++ ms) z }
    ensures behind { (solids : List Solid) (a : Arena) (via : List Point) (x y : Place) (ls ms : List Leg) (e : Choice) →
        IsWay solids a via x (ls ++ ms) e → Leads a via x ls y → IsWay solids a via y ms e }
{}

/// What is ahead before a stretch is what is ahead after it, with the stretch put in front; and a
/// stretch in front keeps and reflects the order.
pub fn stretches_in_front()
    ensures steps { (penalty : ℕ) (heading : Dir) (s : Stretch) (ds : List Dir) (more : ℕ) → 0 < s.steps →
        ahead penalty heading s.from (replicate s.steps s.dir ++ ds) more
        ≡ with_stretch penalty heading s (ahead penalty s.dir (forward s.dir s.steps s.from) ds more) }
    ensures stub { (penalty : ℕ) (heading d : Dir) (p : Point) (n more : ℕ) → 0 < n →
        ahead penalty heading p (replicate n d) more
        ≡ with_stretch penalty heading (record { from = p; dir = d; steps = n + more }) nothing }
    ensures order { (penalty : ℕ) (heading : Dir) (s : Stretch) (v w : Ahead) →
        ahead_cmp (with_stretch penalty heading s v) (with_stretch penalty heading s w) ≡ ahead_cmp v w }
{}

/// Legs in front keep and reflect the order of what is ahead, and reduce neither its cost nor its
/// runs.
pub fn legs_in_front()
    ensures order { (a : Arena) (via : List Point) (x y : Place) (p q : Point) (ls : List Leg) → IsArena a →
        Leads a via x ls y → StandsAt a x.crossing p → StandsAt a y.crossing q →
        (penalty : ℕ) (ds es : List Dir) (m n : ℕ) →
        ahead_cmp (ahead penalty x.heading p (steps_along ls ++ ds) m) (ahead penalty x.heading p (steps_along ls ++ es) n)
        ≡ ahead_cmp (ahead penalty y.heading q ds m) (ahead penalty y.heading q es n) }
    ensures same { (a : Arena) (via : List Point) (x y : Place) (p q : Point) (ls : List Leg) → IsArena a →
        Leads a via x ls y → StandsAt a x.crossing p → StandsAt a y.crossing q →
        (penalty : ℕ) (ds es : List Dir) (m n : ℕ) →
        ahead penalty y.heading q ds m ≡ ahead penalty y.heading q es n →
        ahead penalty x.heading p (steps_along ls ++ ds) m ≡ ahead penalty x.heading p (steps_along ls ++ es) n }
    ensures no_less { (a : Arena) (via : List Point) (x y : Place) (p q : Point) (ls : List Leg) → IsArena a →
        Leads a via x ls y → StandsAt a x.crossing p → StandsAt a y.crossing q →
        (penalty : ℕ) (ds : List Dir) (m : ℕ) →
        ((ahead penalty y.heading q ds m).cost ≤ (ahead penalty x.heading p (steps_along ls ++ ds) m).cost)
        × ((ahead penalty y.heading q ds m).runs ≤ (ahead penalty x.heading p (steps_along ls ++ ds) m).runs) }
{}

/// A walk that leaves by the stub of its start choice is compared by what is ahead at the port,
/// with the stub in front; and a stub in front keeps and reflects the order.
pub fn stubs_in_front()
    ensures steps { (task : Task) (t : Triple) (s : Choice) (ds : List Dir) → IsChoice s → t.walk.start ≡ s.pin →
        pin_cost task.starts t.start ≡ s.cost → t.walk.steps ≡ replicate (stub_length s) s.dir ++ ds →
        whole task t ≡ with_start s (ahead task.penalty s.dir s.port ds (pin_cost task.ends t.end)) }
    ensures order { (s : Choice) (v w : Ahead) → ahead_cmp (with_start s v) (with_start s w) ≡ ahead_cmp v w }
{}

/// A walk that enters the lines by its start choice and follows a way to its end choice is legal,
/// and is compared by what is ahead at the entry, with the stub in front.
pub fn ways_are_legal()
    ensures legal { (floor : Floor) (a : Arena) (task : Task) (t : Triple) → IsArena a → StandsFor floor a → IsTask task →
        GoesAlongWay floor.solids a task t → IsLegalTriple floor.solids task t }
    ensures ahead { (solids : List Solid) (a : Arena) (task : Task) (t : Triple) → IsTask task →
        (along : GoesAlongWay solids a task t) →
        whole task t ≡ with_start along.start
        (ahead task.penalty along.start.dir along.start.port (steps_of_way along.legs along.end) along.end.cost) }
{}

/// A first walk enters the lines by its start choice and follows a way to its end choice.
pub fn first_walks_are_ways()
    ensures { (floor : Floor) (a : Arena) (task : Task) (t : Triple) → IsArena a → StandsFor floor a → IsTask task →
        IsFloorOf floor task → IsFirst floor.solids task t → GoesAlongWay floor.solids a task t }
{}

/// At its entry a way has all its legs ahead. At each place a move leads on, with the remaining
/// legs after it, and each rest is a way.
pub fn rests_go_on()
    ensures begin { (solids : List Solid) (a : Arena) (task : Task) (t : Triple) (along : GoesAlongWay solids a task t) →
        HasRest solids a task t along along.entry along.start.port along.legs }
    ensures next { (solids : List Solid) (a : Arena) (task : Task) (t : Triple) (along : GoesAlongWay solids a task t) →
        IsArena a → (y : Place) (q : Point) (l : Leg) (rest : List Leg) →
        HasRest solids a task t along y q (l ∷ rest) →
        IsMove a task.via y l.steps l.to
        × HasRest solids a task t along l.to (forward l.to.heading l.steps q) rest }
    ensures way { (solids : List Solid) (a : Arena) (task : Task) (t : Triple) (along : GoesAlongWay solids a task t)
        (y : Place) (q : Point) (rest : List Leg) → HasRest solids a task t along y q rest →
        IsWay solids a task.via y rest along.end }
{}

/// From a place on the way of a first walk, no way has less ahead than the rest of the first walk;
/// and a way with equally much ahead has no earlier steps and end choice.
pub fn rests_are_first()
    ensures least { (floor : Floor) (a : Arena) (task : Task) (t : Triple) → IsArena a → StandsFor floor a → IsTask task →
        IsFirst floor.solids task t → (along : GoesAlongWay floor.solids a task t) →
        (y : Place) (q : Point) (rest : List Leg) → HasRest floor.solids a task t along y q rest →
        (ls : List Leg) (n : ℕ) (e : Choice) → slice_get task.ends n ≡ Some e → IsWay floor.solids a task.via y ls e →
        ahead_cmp (ahead task.penalty y.heading q (steps_of_way rest along.end) along.end.cost)
        (ahead task.penalty y.heading q (steps_of_way ls e) e.cost) ≢ Greater }
    ensures steps { (floor : Floor) (a : Arena) (task : Task) (t : Triple) → IsArena a → StandsFor floor a → IsTask task →
        IsFirst floor.solids task t → (along : GoesAlongWay floor.solids a task t) →
        (y : Place) (q : Point) (rest : List Leg) → HasRest floor.solids a task t along y q rest →
        (ls : List Leg) (n : ℕ) (e : Choice) → slice_get task.ends n ≡ Some e → IsWay floor.solids a task.via y ls e →
        ahead task.penalty y.heading q (steps_of_way ls e) e.cost
        ≡ ahead task.penalty y.heading q (steps_of_way rest along.end) along.end.cost →
        ordering_then (slice_cmp dir_cmp (steps_of_way rest along.end) (steps_of_way ls e)) (nat_cmp t.end n) ≢ Greater }
{}

/// No legal walk has less cost, runs and sum of run coordinates than the first one; where they are
/// equal it has no earlier start choice, and with the same start choice no earlier steps and end
/// choice.
pub fn rivals_are_no_earlier()
    ensures least { (solids : List Solid) (task : Task) (t u : Triple) → IsFirst solids task t →
        IsLegalTriple solids task u → ahead_cmp (whole task t) (whole task u) ≢ Greater }
    ensures start { (solids : List Solid) (task : Task) (t u : Triple) → IsFirst solids task t →
        IsLegalTriple solids task u → whole task u ≡ whole task t → t.start ≤ u.start }
    ensures steps { (solids : List Solid) (task : Task) (t u : Triple) → IsFirst solids task t →
        IsLegalTriple solids task u → whole task u ≡ whole task t → u.start ≡ t.start →
        ordering_then (slice_cmp dir_cmp t.walk.steps u.walk.steps) (nat_cmp t.end u.end) ≢ Greater }
{}

/// Two lists of steps with a common beginning are ordered as what follows it.
pub fn common_steps_compare_alike()
    ensures { (front xs ys : List Dir) → slice_cmp dir_cmp (front ++ xs) (front ++ ys) ≡ slice_cmp dir_cmp xs ys }
{}

/// Bends are a metric on the directions.
pub fn bends_are_a_metric()
    ensures same { (d e : Dir) → turn d e ≡ 0 → d ≡ e }
    ensures none { (d : Dir) → turn d d ≡ 0 }
    ensures turned { (d e : Dir) → turn d e ≡ turn e d }
    ensures triangle { (d e f : Dir) → turn d f ≤ turn d e + turn e f }
{}

/// A number of steps changes the distance of a walk from a rectangle or a point by at most that
/// number, and its least number of bends grows by at most the bend before the steps.
pub fn bounds_grow_slowly()
    ensures begin { (d : Dir) (r : Rect) (p : Point) → HasWithin r p → (distance_from r p ≡ 0) × (fewest_bends d r p d ≡ 0) }
    ensures steps { (p : Point) (d : Dir) (n : ℕ) → distance p (forward d n p) ≡ n }
    ensures rectangle { (r : Rect) (p q : Point) → distance_from r q ≤ distance_from r p + distance p q }
    ensures point { (c p q : Point) → distance c q ≤ distance c p + distance p q }
    ensures bends { (from : Dir) (r : Rect) (p : Point) (h d : Dir) (n : ℕ) →
        fewest_bends from r (forward d n p) d ≤ fewest_bends from r p h + turn h d }
{}

/// Corners, and the point that a walk has reached after them: they begin with a stretch, continue
/// with it, turn, and end as the corners of the walk.
pub fn corners_draw_walks()
    ensures begin { (p : Point) (d : Dir) (n : ℕ) → 0 < n → IsDrawn (p ∷ []) (forward d n p) d (straight_walk p d n) }
    ensures straight { (points : List Point) (at : Point) (h : Dir) (w : Walk) (n : ℕ) → IsDrawn points at h w →
        IsDrawn points (forward h n at) h (further w (replicate n h)) }
    ensures turned { (points : List Point) (at : Point) (h d : Dir) (w : Walk) (n : ℕ) → IsDrawn points at h w → d ≢ h →
        0 < n → IsDrawn (points ++ at ∷ []) (forward d n at) d (further w (replicate n d)) }
    ensures ended { (points : List Point) (at : Point) (h : Dir) (w : Walk) → IsDrawn points at h w →
        Draws (points ++ at ∷ []) w × (length (points ++ at ∷ []) ≡ runs w.steps + 1) × (end_of w ≡ at) }
{}
