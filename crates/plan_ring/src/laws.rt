//! The laws of rings, of maps, and of the answers that are given. Each function does nothing: its contract is the law.

ghost use Rattle.plan_ring.specs.Laws.{RingIsAccepted, CanonicalChainIsRight, OneKindOfAnswer, OneSizeOfScene, MappedOrTooLarge, OneGiven, GivenByEachMap, OneGivenInLowestTerms, MapsExist, ScenesHaveTriangles};

/// The ring of the start's component is accepted wherever the goal is in another component.
pub fn ring_is_accepted()
    ensures { RingIsAccepted }
{}

/// A chain with the positions of that ring is accepted, blocks the start from the goal, and has a point of every route
/// between the two.
pub fn canonical_chain_is_right()
    ensures { CanonicalChainIsRight }
{}

/// For clear start and goal a clear polyline exists or a chain that blocks the one from the other, and not both.
pub fn one_kind_of_answer()
    ensures { OneKindOfAnswer }
{}

/// All maps of a scene have one number of spans and marks.
pub fn one_size()
    ensures { OneSizeOfScene }
{}

/// A scene with a map is within the limit or beyond it, and not both.
pub fn mapped_or_too_large()
    ensures { MappedOrTooLarge }
{}

/// The answer that is given to a query is one by position: the number of what is touched, the points of the path, or the
/// segments of the chain.
pub fn one_given()
    ensures { OneGiven }
{}

/// What is given by one map of a scene is given by each of them.
pub fn given_by_each_map()
    ensures { GivenByEachMap }
{}

/// And where all its points are in lowest terms, the answer itself is one.
pub fn one_in_lowest_terms()
    ensures { OneGivenInLowestTerms }
{}

/// Sums, a room and the pieces that they leave make a map of the scene.
pub fn maps_exist()
    ensures { MapsExist }
{}

/// The obstacles and the robot of each scene of simple polygons are made up of triangles, as the laws of maps ask.
pub fn scenes_have_triangles()
    ensures { ScenesHaveTriangles }
{}
