ghost use Rattle.std.specs.Prelude.{◌≡◌};
ghost use Rattle.plan_svg.specs.Shapes.{class_text};

/// What a shape shows, which decides how it looks.
#[derive(Clone, Copy, Debug, PartialEq, Eq)]
pub enum Class {
    Page,
    Floor,
    Room,
    Sum,
    Obstacle,
    TouchedObstacle,
    Frame,
    TouchedFrame,
    Path,
    Chain,
    Fault,
    Step,
    Start,
    Goal,
    Mark,
    Id,
    Caption,
}

impl Class {
    /// Its name in the style sheet.
    #[tactic(auto, unfolding(crate::specs::Shapes::class_text))]
    pub fn name(self) -> &'static str
        ensures { result.now ≡ class_text self }
    {
        match self {
            Class::Page => "page",
            Class::Floor => "floor",
            Class::Room => "room",
            Class::Sum => "sum",
            Class::Obstacle => "obstacle",
            Class::TouchedObstacle => "obstacle fault",
            Class::Frame => "frame",
            Class::TouchedFrame => "frame fault",
            Class::Path => "path",
            Class::Chain => "chain",
            Class::Fault => "wrong",
            Class::Step => "step",
            Class::Start => "start",
            Class::Goal => "goal",
            Class::Mark => "mark",
            Class::Id => "id",
            Class::Caption => "caption",
        }
    }
}
