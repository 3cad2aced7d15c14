ghost use Rattle.std.specs.Prelude.{◌≡◌};
ghost use Rattle.cluster_terms.specs.Row.{last_token};

use cluster_terms::{Memory, RightEnd, RingRow, SmallList, Token, TryCopy};
use node_sets::NodeSet;

/// The nodes that the tokens of a range gain, and the nodes that they lose. The range begins where the row before it
/// ends, or with the least token.
#[derive(Debug, Drop)]
pub struct DeltaRow {
    pub right: RightEnd,
    pub gained: NodeSet,
    pub lost: NodeSet,
}

/// A list of rows of a delta.
pub type DeltaRows = SmallList<DeltaRow>;

impl DeltaRow {
    /// The last token of the row. It is 2^63 - 1 if the right end is `Max`.
    pub fn last_token(&self) -> Token
        ensures { result ≡ last_token self.now.right }
    {
        self.right.last_token()
    }
}

impl RingRow for DeltaRow {
    ghost right = { λ row. row.right };

    fn right_end(&self) -> RightEnd {
        self.right
    }
}

impl TryCopy for DeltaRow {
    fn copy(&self) -> Result<DeltaRow, Memory> {
        Ok(DeltaRow {
            right: self.right,
            gained: self.gained.copy()?,
            lost: self.lost.copy()?,
        })
    }
}
