//! The generated scenario: a template whose three marks are replaced by drawn numbers.
ghost use Rattle.std.specs.Prelude.{◌≡◌, ◌++◌, IfOk, OnOk};
ghost use Rattle.std.specs.Fmt.{decimal};
ghost use Rattle.workload_make.specs.Scenario.{filled, numbers_of, scenario_text, shown};

use crate::draws::Generator;
use ent_types::Memory;
use std::alloc::Global;

/// The numbers that a scenario draws.
#[derive(Clone, Copy, Debug, PartialEq, Eq)]
pub(crate) struct Numbers {
    /// The entities in a line of the field at the start: 50 to 99.
    width: u32,
    /// The greater of an entity's two speeds: 1 to 5.
    speed: u32,
    /// The different healths at the start: 1 to 40.
    lives: u32,
}

/// The text of every generated scenario, with `@` for the width, `$` for the speed and `~` for the number of
/// healths.
pub(crate) const TEMPLATE: &str = r#"frames = 60
[[type]]
name = "Position"
fields = ["x:i32", "y:i32"]
[[type]]
name = "Velocity"
fields = ["x:i32", "y:i32"]
[[type]]
name = "Health"
fields = ["now:i32"]
[[type]]
name = "Target"
fields = ["unit:ref"]
[[type]]
name = "Seen"
fields = ["v:i32"]
[[type]]
name = "Team"
kind = "shared"
fields = ["id:i32"]
[[type]]
name = "Awake"
kind = "tag"
enableable = true
[[spawn]]
count = 5000
with = { Position = ["n % @", "n / @"], Velocity = [$, 1], Health = ["50 + n % ~"], Team = [1], Awake = [] }
[[spawn]]
count = 5000
with = { Position = ["n / @", "n % @"], Velocity = [1, $], Health = ["40 + n % ~"], Team = [2], Awake = [] }
[[system]]
name = "Move"
all = ["Position", "Velocity", "Awake"]
set = ["Position.x = Position.x + Velocity.x", "Position.y = Position.y + Velocity.y"]
[[system]]
name = "Decay"
all = ["Health"]
set = ["Health.now = Health.now - 1"]
[[system.command]]
when = "Health.now <= 0"
do = "destroy self"
[[system]]
name = "Nap"
all = ["Awake", "Health"]
every = 5
enable = ["Awake = Health.now % 7 != 0"]
[[system]]
name = "Spawn"
all = ["Position", "Team"]
every = 10
[[system.command]]
buffer = "BeginSimulation"
when = "row == 0"
do = "create u with Position(Position.x, 0), Velocity(1, 1), Health(20), Team(1), Awake"
[[system]]
name = "Look"
all = ["Seen", "Target"]
set = ["Seen.v = get(Target.unit, Position.x)"]
[[system]]
name = "Watch"
group = "Presentation"
all = ["Position"]
changed = ["Position"]
[[event]]
frame = 2
load = "scene1"
as = "One"
delay = 3
[[event]]
frame = 5
load = "scene2"
as = "Two"
[[event]]
frame = 40
unload = "One"
"#;

/// Draws the numbers of a scenario: first the width, then the speed, then the healths.
fn draw_numbers(number: u64) -> Numbers
    ensures { result ≡ numbers_of number }
{
    let mut generator = Generator { state: number };
    let width = 50 + generator.draw(50);
    let speed = 1 + generator.draw(5);
    let lives = 1 + generator.draw(40);
    Numbers {
        width,
        speed,
        lives,
    }
}

/// Appends a number in decimal.
fn push_decimal(alloc: Global, text: &mut Vec<u8>, number: u32) -> Result<(), Memory>
    ensures { OnOk result (text.new.items ≡ text.old.items ++ decimal number) }
{
    let digits = number.to_string(alloc)?;
    text.extend_from_slice(digits.as_bytes())?;
    Ok(())
}

/// Appends a byte of the template, or the number that it is the mark of.
fn push_shown(alloc: Global, text: &mut Vec<u8>, byte: u8, numbers: Numbers) -> Result<(), Memory>
    ensures { OnOk result (text.new.items ≡ text.old.items ++ shown numbers byte) }
{
    match byte {
        b'@' => push_decimal(alloc, text, numbers.width),
        b'$' => push_decimal(alloc, text, numbers.speed),
        b'~' => push_decimal(alloc, text, numbers.lives),
        _ => {
            text.push(byte)?;
            Ok(())
        }
    }
}

/// Returns the template with the numbers in place of its marks.
#[tactic(auto, unfolding(crate::specs::Scenario::filled))]
fn fill(alloc: Global, template: &[u8], numbers: Numbers) -> Result<Vec<u8>, Memory>
    ensures { IfOk result (λ text. text.items ≡ filled numbers template.now) }
{
    let mut text = Vec::with_capacity(alloc, template.len())?;
    for byte in template {
        push_shown(alloc, &mut text, *byte, numbers)?;
    }
    Ok(text)
}

/// Returns the bytes of the scenario of a number: a TOML file that loads the files `scene1` and `scene2`.
///
/// The generator is entsim's own. Each number of 64 bits has a scenario, and equal numbers have equal bytes.
pub fn scenario_of(alloc: Global, number: u64) -> Result<Vec<u8>, Memory>
    ensures { IfOk result (λ bytes. bytes.items ≡ scenario_text number) }
{
    fill(alloc, TEMPLATE.as_bytes(), draw_numbers(number))
}
