ghost use Rattle.std.specs.Prelude.{◌≤◌};
ghost use Rattle.plan_wire.specs.Bounds.{DocumentFits, ShapeFits};

use plan_bound::uncovered;
use plan_poly::Polygon;
use plan_scene::{Edit, Scene};
use plan_slab::Slabs;
use plan_watch::OpenGate;
use plan_wire::{Document, Shape, Want, read_document};
use std::alloc::Global;
use std::process::Abort;
use std::thread::Threads;

/// The frame of 20 by 20 in which most scenes are.
pub const FRAME: &str = "[0,0,20,20]";

/// A bar that stands on the floor.
pub const BAR: &str = r#"[{"id":1,"shape":[[9,-5],[11,-5],[11,10],[9,10]]}]"#;

/// A bar from below the frame to above it.
pub const TALL_BAR: &str = r#"[{"id":1,"shape":[[9,-5],[11,-5],[11,25],[9,25]]}]"#;

/// Two bars of which one stands on the floor and one hangs down, exactly as far apart as the robot is high.
pub const GAP: &str =
    r#"[{"id":1,"shape":[[9,-5],[11,-5],[11,10],[9,10]]},{"id":2,"shape":[[9,11],[11,11],[11,25],[9,25]]}]"#;

/// A ring of four bars.
pub const RING: &str =
    r#"[{"id":1,"shape":[[4,4],[6,4],[6,16],[4,16]]},{"id":2,"shape":[[14,4],[16,4],[16,16],[14,16]]},{"id":3,"shape":[[4,4],[16,4],[16,6],[4,6]]},{"id":4,"shape":[[4,14],[16,14],[16,16],[4,16]]}]"#;

/// Two spikes whose edges cross at x = 44/5.
pub const SPIKES: &str =
    r#"[{"id":1,"shape":[[4,-5],[12,-5],[4,11]]},{"id":2,"shape":[[7,-7],[13,-7],[13,11]]}]"#;

// The document of the corner robot among obstacles in a frame.
fn text_of(rt: &impl Abort, alloc: Global, frame: &str, obstacles: &str) -> String {
    format!(in alloc;
        "{{\"format\":1,\"frame\":{frame},\"robot\":[[0,0],[1,0],[0,1]],\"obstacles\":{obstacles},\"query\":[0,0,0,0],\"certificate\":{{\"path\":[]}}}}"
    ).expect(rt, "memory")
}

// That document, read.
fn document_of(rt: &impl Abort, alloc: Global, frame: &str, obstacles: &str) -> Document
    ensures { DocumentFits result }
{
    let text = text_of(rt, alloc, frame, obstacles);
    let Ok(document) = read_document(alloc, text.as_bytes(), Want::Check) else {
        panic!(rt; "a document");
    };
    document
}

// The scene of its robot and its frame.
fn first_of(rt: &impl Abort, alloc: Global, document: &Document) -> Scene
    requires { DocumentFits document.now }
{
    let robot = Vec::from_slice(alloc, document.robot.as_slice()).expect(rt, "memory");
    let robot = Polygon::read(robot).ok().expect(rt, "a robot");
    Scene::new(alloc, robot, document.frame)
        .ok()
        .expect(rt, "a scene")
}

/// The scene of the corner robot among obstacles in a frame, all as a document gives them.
pub fn scene_of(rt: &impl Abort, alloc: Global, frame: &str, obstacles: &str) -> Scene {
    let document = document_of(rt, alloc, frame, obstacles);
    let mut scene = first_of(rt, alloc, &document);
    for shape in &document.obstacles {
        scene = with_obstacle(rt, alloc, &scene, shape);
    }
    scene
}

// The scene with one more obstacle.
fn with_obstacle(rt: &impl Abort, alloc: Global, scene: &Scene, shape: &Shape) -> Scene
    requires { ShapeFits shape.now }
{
    let spots = Vec::from_slice(alloc, shape.spots.as_slice()).expect(rt, "memory");
    let edit = Edit::Add {
        id: shape.id,
        spots,
    };
    scene.apply(alloc, &edit).ok().expect(rt, "an obstacle")
}

/// The slabs of a scene, with 1 to 16 workers.
pub fn slabs_of<R: Threads + Sync + Abort>(
    rt: &R,
    alloc: Global,
    scene: &Scene,
    workers: u8,
) -> Slabs
    requires least { 1 ≤ workers }
    requires most { workers ≤ 16 }
{
    let sums = scene.sums();
    let room = scene.room();
    let pieces = uncovered(rt, alloc, sums, room, workers, &OpenGate)
        .ok()
        .expect(rt, "pieces");
    Slabs::build_by(rt, alloc, &pieces, sums, room, workers)
        .ok()
        .expect(rt, "slabs")
}
