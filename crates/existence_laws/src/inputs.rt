//! The laws on what is read: arguments, scripts of proposals, and diagrams. Each is the contract of a function with an
//! empty body.
ghost use Rattle.existence_laws.specs.Arguments.{ArgumentsAsk};
ghost use Rattle.existence_laws.specs.Diagrams.{TreesHaveScenes};
ghost use Rattle.existence_laws.specs.Proposals.{ScriptsHaveProposals};

/// Arguments are read as a form exactly if they name its subcommand and have its files and options among them, in any
/// order; what follows `--` is no option. No arguments ask for two forms.
pub fn arguments_ask()
    ensures { ArgumentsAsk }
{}

/// The proposals of a script are the one list whose commands are those of the script. If there is none, what is refused
/// is the first command with which no list of proposals begins, or the end.
pub fn scripts_have_proposals()
    ensures { ScriptsHaveProposals }
{}

/// A tree is read as a scene exactly if this has the nodes and edges of its lists in their order, each with the first
/// value under each key or the default, and is valid. A tree has at most one such scene.
pub fn trees_have_scenes()
    ensures { TreesHaveScenes }
{}
