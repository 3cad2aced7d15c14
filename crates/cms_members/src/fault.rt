/// Why a node can't start.
#[derive(Clone, Copy, Debug, PartialEq, Eq)]
pub enum StartFault {
    /// The node is a member.
    Member,
    /// There are this many members, the most that there can be.
    Full(u32),
}

/// Why a member isn't removed.
#[derive(Clone, Copy, Debug, PartialEq, Eq)]
pub enum MemberFault {
    /// The node isn't a member.
    NotMember,
    /// The node is the only member.
    Last,
    /// Memory ran out.
    Memory,
}
