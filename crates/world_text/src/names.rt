//! The words of a line for a point and for the cause of a scene's refusal.
ghost use Rattle.std.specs.Prelude.{◌≡◌};
ghost use Rattle.world_text.specs.Words.{point_name, scene_cause_name};

use ent_types::Point;
use run_model::SceneCause;

/// Returns the name of a point.
#[tactic(auto, unfolding(crate::specs::Words::point_name))]
pub(crate) fn point_name(point: Point) -> &'static str
    ensures { result.now ≡ point_name point }
{
    match point {
        Point::BeginInitialization => "BeginInitialization",
        Point::EndInitialization => "EndInitialization",
        Point::BeginSimulation => "BeginSimulation",
        Point::EndSimulation => "EndSimulation",
        Point::BeginPresentation => "BeginPresentation",
    }
}

/// Returns the name of the cause of a scene's fault.
#[tactic(auto, unfolding(crate::specs::Words::scene_cause_name))]
pub(crate) fn scene_cause_name(cause: SceneCause) -> &'static str
    ensures { result.now ≡ scene_cause_name cause }
{
    match cause {
        SceneCause::Short => "Short",
        SceneCause::Magic => "Magic",
        SceneCause::Version => "Version",
        SceneCause::TypeCount => "TypeCount",
        SceneCause::TooManyNodes => "TooManyNodes",
        SceneCause::TypeOrder => "TypeOrder",
        SceneCause::UnknownType => "UnknownType",
        SceneCause::Reserved => "Reserved",
        SceneCause::TypeShape => "TypeShape",
        SceneCause::NodeVersion => "NodeVersion",
        SceneCause::NodeOrder => "NodeOrder",
        SceneCause::PartRange => "PartRange",
        SceneCause::PartOrder => "PartOrder",
        SceneCause::TooLarge => "TooLarge",
        SceneCause::Trailing => "Trailing",
        SceneCause::Enabled => "Enabled",
        SceneCause::TooManyElements => "TooManyElements",
    }
}
