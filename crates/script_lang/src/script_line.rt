use cluster_terms::{Name, Token};
use transformations::Command;

/// The state that a query is about.
#[derive(Debug, Drop)]
pub enum Target {
    /// `@E`: the state at epoch E, after the first E entries of the log.
    Epoch(u64),
    /// The name of a follower: its present state.
    Named(Name),
}

/// A line of a script.
#[derive(Debug, Drop)]
pub enum ScriptLine {
    /// `commit ID COMMAND`
    Commit(u64, Command),
    /// `follower F`
    Follower(Name),
    /// `deliver F E`
    Deliver(Name, u64),
    /// `snapshot F E`
    Snapshot(Name, u64),
    /// `ask F MAX`
    Ask(Name, u64),
    /// `give F I`
    Give(Name, u64),
    /// `place TARGET KS`
    Place(Target, Name),
    /// `nodes TARGET`
    Nodes(Target),
    /// `quorum TARGET KS TOKEN`
    Quorum(Target, Name, Token),
    /// `local TARGET KS DC TOKEN`
    Local(Target, Name, Name, Token),
}
