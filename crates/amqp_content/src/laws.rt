//! What the definition of commands alone says.

ghost use Rattle.amqp_content.specs.Laws.{CommandsAreOne, PartsAreNoCommands, PartsBeginCommands};

/// Frames are one command at most.
pub fn commands_are_one()
    ensures { CommandsAreOne }
{}

/// A part of a command, of which frames are missing, is no command.
pub fn parts_are_no_commands()
    ensures { PartsAreNoCommands }
{}

/// Each part of a command begins a command.
pub fn parts_begin_commands()
    ensures { PartsBeginCommands }
{}
