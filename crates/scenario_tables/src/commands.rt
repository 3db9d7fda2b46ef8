//! The commands of a system, as a scenario declares them.
ghost use Rattle.std.specs.Prelude.{◌≡◌, ◌≤◌, ◌<◌, length, IfOk};
ghost use Rattle.toml.specs.View.{view};
ghost use Rattle.ent_types.specs.declared.limits.TheConstants.{MOST_COMMANDS};
ghost use Rattle.scenario_record.specs.Readings.{Answers};
ghost use Rattle.scenario_tables.specs.ReadCommands.{point, same_point, name_made, made_from, command, one_more_command, command_list};

use crate::form::{Form, Step, each_over, optional, required_after, settled};
use crate::keys::{known_table, list_up_to, text};
use crate::texts::{ActText, ExprText, SystemText};
use ent_types::limits::MOST_COMMANDS;
use ent_types::{Memory, Name, Point, Registry, Sequence, TypeSet};
use expr_read::Made;
use expr_trees::{CommandText, Expr, RefExpr, Variable};
use scenario_record::{Cause, CommandEntry, ScenarioFault, bad};
use std::alloc::Global;
use toml::Value;

/// The keys of a command, in reading order.
const KEYS: [&str; 4] = ["buffer", "when", "key", "do"];

/// The point at which a command is played back.
#[derive(Clone, Copy)]
struct PointForm;

impl Form for PointForm {
    type Out = Point;

    ghost reads = { λ _ d. point d };

    fn read(&self, alloc: Global, value: &Value) -> Result<Point, ScenarioFault> {
        match text(alloc, value)? {
            "BeginInitialization" => Ok(Point::BeginInitialization),
            "EndInitialization" => Ok(Point::EndInitialization),
            "BeginSimulation" => Ok(Point::BeginSimulation),
            "EndSimulation" => Ok(Point::EndSimulation),
            "BeginPresentation" => Ok(Point::BeginPresentation),
            _ => Err(bad(alloc, Cause::BadWord)),
        }
    }
}

fn is_same_point(first: Point, second: Point) -> bool
    ensures { result ≡ same_point first second }
{
    first as u8 == second as u8
}

/// Returns the name that a command makes.
fn name_made(act: &CommandText) -> Option<Name>
    ensures { result ≡ name_made act.now }
{
    match act {
        CommandText::Create { name, .. } => Some(*name),
        CommandText::Instantiate { name, .. } => Some(*name),
        CommandText::Destroy(_) => None,
        CommandText::Add(_, _) => None,
        CommandText::Set(_, _) => None,
        CommandText::SetShared(_, _) => None,
        CommandText::Remove(_, _) => None,
        CommandText::Enable(_, _) => None,
        CommandText::Disable(_, _) => None,
    }
}

/// The names that the commands make, as a command into the buffer sees them.
fn made_by(alloc: Global, buffer: Point, earlier: &[CommandEntry]) -> Result<Vec<Made>, Memory>
    requires { length earlier.now ≤ MOST_COMMANDS }
    ensures { IfOk result (λ made. made.items ≡ made_from 0 buffer earlier.now) }
{
    let mut made = Vec::new(alloc);
    for (i, command) in earlier.iter().enumerate() {
        if let Some(name) = name_made(&command.act) {
            made.push(Made {
                name,
                number: i as u32,
                same_buffer: is_same_point(command.buffer, buffer),
            })?;
        }
    }
    Ok(made)
}

/// Reads a command, whose system has these commands before it.
#[tactic(auto, unfolding(crate::specs::ReadCommands::command))]
fn command_in(
    alloc: Global,
    registry: &Registry,
    bound: &TypeSet,
    earlier: &[CommandEntry],
    value: &Value,
) -> Result<CommandEntry, ScenarioFault>
    requires { length earlier.now ≤ MOST_COMMANDS }
    ensures { Answers (command registry.now bound.now earlier.now (view value.now)) result }
{
    let table = known_table(alloc, &KEYS, value)?;
    let expr = SystemText {
        kind: ExprText,
        registry,
        bound,
        made: &[],
    };
    let mut fault = None;
    let buffer = optional(
        alloc,
        &mut fault,
        "buffer",
        Point::EndSimulation,
        &PointForm,
        table,
    );
    let made = made_by(alloc, buffer, earlier)?;
    let text = SystemText {
        kind: ActText,
        registry,
        bound,
        made: made.as_slice(),
    };
    let when = optional(alloc, &mut fault, "when", Expr::Number(1), &expr, table);
    let key = optional(
        alloc,
        &mut fault,
        "key",
        Expr::Variable(Variable::Chunk),
        &expr,
        table,
    );
    let nothing = CommandText::Destroy(RefExpr::Null);
    let act = required_after(alloc, &mut fault, "do", nothing, &text, table);
    settled(
        fault,
        Ok(CommandEntry {
            buffer,
            when,
            key,
            act,
        }),
    )
}

/// The commands of a system.
#[derive(Clone, Copy)]
pub(crate) struct CommandsForm<'a> {
    /// The types.
    pub(crate) registry: &'a Registry,
    /// The types that each row has.
    pub(crate) bound: &'a TypeSet,
}

impl<'a> Step for CommandsForm<'a> {
    type State = Sequence<CommandEntry>;

    ghost steps = { λ it earlier d. one_more_command it.registry.now it.bound.now earlier d };

    ghost takes = { λ place. place < MOST_COMMANDS };

    ghost counts = { λ count commands. length commands ≡ count };

    fn step(
        &self,
        alloc: Global,
        _place: usize,
        commands: &mut Sequence<CommandEntry>,
        value: &Value,
    ) -> Result<(), ScenarioFault> {
        let command = command_in(alloc, self.registry, self.bound, commands.as_slice(), value)?;
        commands.push(command)?;
        Ok(())
    }
}

impl<'a> Form for CommandsForm<'a> {
    type Out = Sequence<CommandEntry>;

    ghost reads = { λ it d. command_list it.registry.now it.bound.now d };

    fn read(&self, alloc: Global, value: &Value) -> Result<Sequence<CommandEntry>, ScenarioFault> {
        let values = list_up_to(alloc, MOST_COMMANDS, value)?;
        each_over(alloc, self, Sequence::new(alloc), values)
    }
}
