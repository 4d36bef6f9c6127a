use plan_scene::EditFault;

/// Why a scene has no stand.
#[derive(Clone, Copy, Debug, PartialEq, Eq)]
pub enum StandFault {
    /// Its map has more than 131,072 spans and marks.
    TooManyRegions,
    NoMemory,
}

/// Why an edit leads to no stand. The first of these that holds, in this order, is the fault.
#[derive(Clone, Copy, Debug, PartialEq, Eq)]
pub enum StepFault {
    /// The scene refuses the edit, for a cause other than want of memory.
    Edit(EditFault),
    /// The map of the edited scene has more than 131,072 spans and marks.
    TooManyRegions,
    NoMemory,
}

/// Why a robot and obstacles have no stand. The first of these that holds, in this order, is the fault.
#[derive(Clone, Copy, Debug, PartialEq, Eq)]
pub enum FirstFault {
    /// These edges of the robot are the first that meet wrongly.
    RobotNotSimple(u32, u32),
    /// The obstacle at this place, counted from 0, is the first that is refused, for a cause other than want of memory.
    Obstacle { at: u32, fault: EditFault },
    /// The map of the whole scene has more than 131,072 spans and marks.
    TooManyRegions,
    NoMemory,
}
