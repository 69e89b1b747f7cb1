ghost use Rattle.ray_rules.specs.AccessLaws.{PiecesAreOfCommands};

/// A law: a piece of a command reads and writes no more than the command. It does nothing.
pub fn pieces_are_of_commands()
    ensures { PiecesAreOfCommands }
{}
