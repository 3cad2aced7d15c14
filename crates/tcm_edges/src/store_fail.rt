use cluster_terms::SmallList;

/// A call of a store that is to fail.
#[derive(Clone, Copy, Debug, PartialEq, Eq)]
pub struct StoreFail {
    /// The number of the call, from 1.
    pub call: u64,
    /// How many bytes a failing append keeps. A failing replace leaves the old file if this is 0, and otherwise the new
    /// one. A failing load ignores it.
    pub keep: u64,
}

/// The calls of a store that are to fail.
pub type StoreFailList = SmallList<StoreFail>;
