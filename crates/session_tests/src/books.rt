//! Which edits make a connector stale, and books that go to the new scene and back.
ghost use Rattle.std.specs.Prelude.{◌≡◌, All, IfOk};
ghost use Rattle.scene_model.specs.Answers.{AreAnswers};
ghost use Rattle.scene_model.specs.Loads.{IsLoadablePin};
ghost use Rattle.scene_model.specs.Routing.{floor_of};

use par_route::OpenGate;
use route_book::{Book, Changes};
use route_search::Tally;
use scene_store::{Dirs, Node, Pin, Pins, Scene, SceneFault, Setting};
use std::alloc::{AllocError, Global};
use std::thread::Threads;
use visibility_graph::Graph;

/// A box by its centre and its whole sizes.
#[derive(Clone, Copy)]
struct Place {
    id: i64,
    x: i64,
    y: i64,
    w: i64,
    h: i64,
    group: bool,
}

/// The other properties of a scene.
#[derive(Clone, Copy, PartialEq, Eq)]
enum Extra {
    None,
    /// The connector begins at the two pins of node 1, which differ in cost.
    Pins,
    /// It passes a checkpoint.
    Via,
    /// A bend costs one thousandth more.
    Penalty,
    /// Solids extend one thousandth further.
    Buffer,
}

/// The boxes of a scene with a connector from node 1 to node 2, and its other properties.
#[derive(Clone, Copy)]
struct Plan(&'static [Place], Extra);

/// Two scenes, whether the connector is stale between them, and the costs of its routes in them.
#[derive(Clone, Copy)]
struct Row {
    old: Plan,
    new: Plan,
    is_stale: bool,
    costs: [Option<u64>; 2],
}

const SOURCE: Place = Place {
    id: 1,
    x: 0,
    y: 0,
    w: 20_000,
    h: 20_000,
    group: false,
};

const TARGET: Place = Place {
    id: 2,
    x: 100_000,
    y: 0,
    w: 20_000,
    h: 20_000,
    group: false,
};

const TARGET_MOVED: Place = Place {
    id: 2,
    x: 200_000,
    y: 0,
    w: 20_000,
    h: 20_000,
    group: false,
};

const TARGET_GROUP: Place = Place {
    id: 2,
    x: 100_000,
    y: 0,
    w: 20_000,
    h: 20_000,
    group: true,
};

const WALL: Place = Place {
    id: 3,
    x: 50_000,
    y: 0,
    w: 20_000,
    h: 40_000,
    group: false,
};

const WALL_GROUP: Place = Place {
    id: 3,
    x: 50_000,
    y: 0,
    w: 20_000,
    h: 40_000,
    group: true,
};

const COVER: Place = Place {
    id: 3,
    x: 0,
    y: 0,
    w: 60_000,
    h: 60_000,
    group: false,
};

const ABOVE: Place = Place {
    id: 3,
    x: 50_000,
    y: -34_000,
    w: 20_000,
    h: 20_000,
    group: false,
};

const FURTHER_ABOVE: Place = Place {
    id: 3,
    x: 50_000,
    y: -34_001,
    w: 20_000,
    h: 20_000,
    group: false,
};

const WAY_ABOVE: Place = Place {
    id: 3,
    x: 50_000,
    y: -500_000,
    w: 20_000,
    h: 20_000,
    group: false,
};

const NEAR: Place = Place {
    id: 4,
    x: 50_000,
    y: -88_000,
    w: 20_000,
    h: 20_000,
    group: false,
};

const FURTHER: Place = Place {
    id: 4,
    x: 50_000,
    y: -88_001,
    w: 20_000,
    h: 20_000,
    group: false,
};

const FAR: Place = Place {
    id: 4,
    x: 50_000,
    y: -500_000,
    w: 20_000,
    h: 20_000,
    group: false,
};

const FAR_GROUP: Place = Place {
    id: 4,
    x: 50_000,
    y: -500_000,
    w: 20_000,
    h: 20_000,
    group: true,
};

const APART: Place = Place {
    id: 5,
    x: 500_000,
    y: 500_000,
    w: 20_000,
    h: 20_000,
    group: false,
};

const BAR: Place = Place {
    id: 5,
    x: 30_000,
    y: -24_000,
    w: 10_000,
    h: 10_000,
    group: false,
};

const ROWS: [Row; 17] = [
    // The reach equals the cost.
    Row {
        old: Plan(&[SOURCE, TARGET, WALL, NEAR], Extra::None),
        new: Plan(&[SOURCE, TARGET, WALL, FAR], Extra::None),
        is_stale: true,
        costs: [Some(248_000), Some(248_000)],
    },
    // It is 2 thousandths more.
    Row {
        old: Plan(&[SOURCE, TARGET, WALL, FURTHER], Extra::None),
        new: Plan(&[SOURCE, TARGET, WALL, FAR], Extra::None),
        is_stale: false,
        costs: [Some(248_000), Some(248_000)],
    },
    // With the costs of the pins it equals the cost.
    Row {
        old: Plan(&[SOURCE, TARGET, ABOVE], Extra::Pins),
        new: Plan(&[SOURCE, TARGET, WAY_ABOVE], Extra::Pins),
        is_stale: true,
        costs: [Some(150_000), Some(150_000)],
    },
    Row {
        old: Plan(&[SOURCE, TARGET, FURTHER_ABOVE], Extra::Pins),
        new: Plan(&[SOURCE, TARGET, WAY_ABOVE], Extra::Pins),
        is_stale: false,
        costs: [Some(150_000), Some(150_000)],
    },
    // The connector's own box moved.
    Row {
        old: Plan(&[SOURCE, TARGET, WALL], Extra::None),
        new: Plan(&[SOURCE, TARGET_MOVED, WALL], Extra::None),
        is_stale: true,
        costs: [Some(248_000), Some(348_000)],
    },
    // A box became a group, near and far.
    Row {
        old: Plan(&[SOURCE, TARGET, WALL], Extra::None),
        new: Plan(&[SOURCE, TARGET, WALL_GROUP], Extra::None),
        is_stale: true,
        costs: [Some(248_000), Some(100_000)],
    },
    Row {
        old: Plan(&[SOURCE, TARGET, WALL, FAR], Extra::None),
        new: Plan(&[SOURCE, TARGET, WALL, FAR_GROUP], Extra::None),
        is_stale: false,
        costs: [Some(248_000), Some(248_000)],
    },
    // An end became one.
    Row {
        old: Plan(&[SOURCE, TARGET, WALL], Extra::None),
        new: Plan(&[SOURCE, TARGET_GROUP, WALL], Extra::None),
        is_stale: true,
        costs: [Some(248_000), Some(248_000)],
    },
    Row {
        old: Plan(&[SOURCE, TARGET, WALL], Extra::None),
        new: Plan(&[SOURCE, TARGET, WALL], Extra::Penalty),
        is_stale: true,
        costs: [Some(248_000), Some(248_002)],
    },
    Row {
        old: Plan(&[SOURCE, TARGET, WALL], Extra::None),
        new: Plan(&[SOURCE, TARGET, WALL], Extra::Buffer),
        is_stale: true,
        costs: [Some(248_000), Some(248_002)],
    },
    Row {
        old: Plan(&[SOURCE, TARGET, WALL], Extra::None),
        new: Plan(&[SOURCE, TARGET, WALL], Extra::Via),
        is_stale: true,
        costs: [Some(248_000), Some(320_000)],
    },
    // Its class changed, and pins.
    Row {
        old: Plan(&[SOURCE, TARGET, WAY_ABOVE], Extra::Pins),
        new: Plan(&[SOURCE, TARGET, WAY_ABOVE], Extra::None),
        is_stale: true,
        costs: [Some(150_000), Some(100_000)],
    },
    // It has no route, and a box is removed or added.
    Row {
        old: Plan(&[SOURCE, TARGET, COVER, APART], Extra::None),
        new: Plan(&[SOURCE, TARGET, COVER], Extra::None),
        is_stale: true,
        costs: [None, None],
    },
    Row {
        old: Plan(&[SOURCE, TARGET, COVER], Extra::None),
        new: Plan(&[SOURCE, TARGET, COVER, APART], Extra::None),
        is_stale: false,
        costs: [None, None],
    },
    // The box in the way is removed.
    Row {
        old: Plan(&[SOURCE, TARGET, WALL], Extra::None),
        new: Plan(&[SOURCE, TARGET], Extra::None),
        is_stale: true,
        costs: [Some(248_000), Some(100_000)],
    },
    // A box is added on the route, or elsewhere.
    Row {
        old: Plan(&[SOURCE, TARGET, WALL], Extra::None),
        new: Plan(&[SOURCE, TARGET, WALL, BAR], Extra::None),
        is_stale: true,
        costs: [Some(248_000), Some(248_000)],
    },
    Row {
        old: Plan(&[SOURCE, TARGET, WALL], Extra::None),
        new: Plan(&[SOURCE, TARGET, WALL, APART], Extra::None),
        is_stale: false,
        costs: [Some(248_000), Some(248_000)],
    },
];

const EAST: Pin = Pin {
    class: 1,
    dx: 10_000,
    dy: 0,
    dirs: Dirs::EAST,
    cost: 60_000,
};

const NORTH: Pin = Pin {
    class: 1,
    dx: 0,
    dy: -10_000,
    dirs: Dirs::NORTH,
    cost: 20_000,
};

/// The pins of node 1, if it has some.
fn pins(alloc: Global, id: i64, extra: Extra) -> Result<Pins, AllocError>
    ensures { IfOk result (All IsLoadablePin) }
{
    let mut pins = Vec::new(alloc);
    if id == 1 && extra == Extra::Pins {
        pins.push(EAST)?;
        pins.push(NORTH)?;
    }
    Ok(Pins(pins))
}

fn load(alloc: Global, scene: &mut Scene, place: Place, extra: Extra) -> Result<(), SceneFault> {
    let Ok(pins) = pins(alloc, place.id, extra) else {
        return Err(SceneFault::Memory);
    };
    scene.load_node(Node {
        id: place.id,
        x: place.x,
        y: place.y,
        half_w: place.w / 2,
        half_h: place.h / 2,
        group: place.group,
        pins,
        origin: None,
    })
}

fn add_extra(scene: &mut Scene, extra: Extra) -> Result<(), SceneFault> {
    match extra {
        Extra::None | Extra::Pins => Ok(()),
        Extra::Via => scene.add_via(1, 1, 50_000, -60_000),
        Extra::Penalty => scene.set(Setting::Penalty, 50_001),
        Extra::Buffer => scene.set(Setting::Buffer, 4_001),
    }
}

/// Loads the plan into the scene.
fn fill(alloc: Global, scene: &mut Scene, plan: Plan) -> Result<(), SceneFault> {
    let Plan(places, extra) = plan;
    for place in places {
        load(alloc, scene, *place, extra)?;
    }
    let class = if extra == Extra::Pins { 1 } else { 0 };
    scene.add_edge(1, 2, class, 0)?;
    add_extra(scene, extra)
}

/// The graph of the scene.
fn graph_of(alloc: Global, scene: &Scene) -> Result<Graph, AllocError>
    ensures { IfOk result (λ g. g.floor ≡ floor_of scene.now) }
{
    let floor = scene.floor()?;
    Graph::build(alloc, &floor)
}

/// The scene's book, by two workers, or without threads.
fn opened<R: Threads + Sync>(
    rt: Option<&R>,
    alloc: Global,
    scene: &Scene,
    tally: &mut Tally,
) -> Result<Book, AllocError>
    ensures { IfOk result (AreAnswers scene.now) }
{
    let graph = graph_of(alloc, scene)?;
    match rt {
        Some(rt) => Book::build(rt, alloc, scene, &graph, 2, &OpenGate, tally),
        None => Book::build_alone(alloc, scene, &graph, tally),
    }
}

/// The exchange of answers between the scenes, by two workers, or without threads.
fn followed<R: Threads + Sync>(
    rt: Option<&R>,
    alloc: Global,
    book: &mut Book,
    old: &Scene,
    new: &Scene,
    tally: &mut Tally,
) -> Result<Changes, AllocError>
    requires { AreAnswers old.now book.old }
    ensures same { book.new ≡ book.old }
    ensures here { IfOk result (λ c. c.here ≡ book.old) }
{
    let graph = graph_of(alloc, new)?;
    match rt {
        Some(rt) => book.follow(rt, old, new, &graph, 2, &OpenGate, tally),
        None => book.follow_alone(old, new, &graph, tally),
    }
}

/// The cost of the route of edge 1.
fn cost(book: &Book) -> Option<u64> {
    let answer = book.answer(1)?;
    let route = answer.route.as_ref()?;
    Some(route.cost)
}

/// The same, in a copy of the book.
fn copied_cost(book: &Book) -> Result<Option<u64>, AllocError> {
    let copy = book.copy()?;
    Ok(cost(&copy))
}

/// The number of stale connectors.
fn count_stale(book: &Book, old: &Scene, new: &Scene) -> Result<usize, AllocError>
    requires { AreAnswers old.now book.now }
{
    let stale = book.stale(old, new)?;
    Ok(stale.len())
}

/// The cost of the route after an exchange, and after a second one.
fn exchanged(book: &mut Book, changes: &mut Changes) -> Result<[Option<u64>; 2], AllocError>
    requires { book.old ≡ changes.old.here }
{
    book.swap(changes);
    let after = copied_cost(book);
    book.swap(changes);
    Ok([after?, cost(book)])
}

/// The result of a row: the number of stale connectors, the number of searches, and the costs of
/// the route before, after an exchange, and after a second one.
#[derive(Clone, Copy, PartialEq, Eq)]
struct Outcome {
    stale: usize,
    searches: u64,
    costs: [Option<u64>; 3],
}

/// The result for the book of the old scene.
fn reported_of<R: Threads + Sync>(
    rt: Option<&R>,
    alloc: Global,
    book: &mut Book,
    old: &Scene,
    new: &Scene,
    tally: &mut Tally,
) -> Result<Outcome, AllocError>
    requires { AreAnswers old.now book.old }
{
    let before = cost(book);
    let stale = count_stale(book, old, new)?;
    let mut changes = followed(rt, alloc, book, old, new, tally)?;
    let costs = exchanged(book, &mut changes);
    costs.map(|[after, again]| Outcome {
        stale,
        searches: tally.count(),
        costs: [before, after, again],
    })
}

/// The result for a book between the scenes.
fn reported<R: Threads + Sync>(
    rt: Option<&R>,
    alloc: Global,
    old: &Scene,
    new: &Scene,
) -> Result<Outcome, AllocError> {
    let mut tally = Tally::new();
    let mut book = opened(rt, alloc, old, &mut tally)?;
    reported_of(rt, alloc, &mut book, old, new, &mut tally)
}

/// Loads both scenes, and returns the result of the row.
fn filled<R: Threads + Sync>(
    rt: Option<&R>,
    alloc: Global,
    old: &mut Scene,
    new: &mut Scene,
    row: Row,
) -> Result<Outcome, SceneFault> {
    fill(alloc, old, row.old)?;
    fill(alloc, new, row.new)?;
    reported(rt, alloc, old, new).map_err(|_| SceneFault::Memory)
}

/// The result of a row.
fn row_reported<R: Threads + Sync>(
    rt: Option<&R>,
    alloc: Global,
    row: Row,
) -> Result<Outcome, SceneFault> {
    let mut old = Scene::new(alloc);
    let mut new = Scene::new(alloc);
    filled(rt, alloc, &mut old, &mut new, row)
}

/// The result that a row must have.
fn wanted(row: Row) -> Outcome {
    let (stale, searches) = if row.is_stale { (1, 2) } else { (0, 1) };
    let [before, after] = row.costs;
    Outcome {
        stale,
        searches,
        costs: [before, after, before],
    }
}

/// Whether the row has its result.
fn is_right<R: Threads + Sync>(rt: Option<&R>, alloc: Global, row: Row) -> bool {
    row_reported(rt, alloc, row) == Ok(wanted(row))
}

#[test]
fn searches_what_may_change(rt: HostRuntime) {
    for (place, &row) in ROWS.iter().enumerate() {
        assert!(rt; is_right(Some(&rt), rt.alloc(), row), "row {place}");
        assert!(rt;
            is_right::<HostRuntime>(None, rt.alloc(), row),
            "row {place}, alone"
        );
    }
}
