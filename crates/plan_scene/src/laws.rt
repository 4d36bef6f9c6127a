//! What the definitions of scenes say together. The function does nothing: its contract is the law.

ghost use Rattle.plan_scene.specs.Laws.{TouchesByRoomAndSums};

/// A placement touches exactly where it is on a side of the room or beyond, or some sum holds it.
pub fn touching()
    ensures { TouchesByRoomAndSums }
{}
