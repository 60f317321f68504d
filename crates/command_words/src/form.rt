//! The subcommands that arguments ask for.

/// What the arguments of the command line ask for: a subcommand with its options.
#[derive(Clone, Copy, Debug, PartialEq, Eq)]
pub enum Form<'a> {
    /// Checks the lines of a diagram.
    Check {
        diagram: &'a str,
    },
    /// Replays a script on a diagram, with at most `workers` searches side by side, and reports the
    /// numbers of searches if `count`.
    Route {
        diagram: &'a str,
        script: &'a str,
        workers: u32,
        count: bool,
    },
    /// Generates a diagram and a script from a seed.
    Make {
        seed: u64,
    },
    /// The transactions that a script proposes for a diagram, asked by this number of workers.
    Preview {
        diagram: &'a str,
        script: &'a str,
        workers: u32,
    },
    /// The paths that the routes of a diagram share.
    Shared {
        diagram: &'a str,
    },
    /// A certificate of the costs of a diagram.
    Prove {
        diagram: &'a str,
    },
    /// An audit of a certificate of a diagram.
    Audit {
        diagram: &'a str,
        certificate: &'a str,
    },
}
