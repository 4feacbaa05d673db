//! The paths of sites.

/// The paths of a run's sites: the first controller's, and the peer's if there is one.
#[derive(Clone, Copy, Debug, PartialEq, Eq)]
pub struct SitePaths<'a> {
    pub first: &'a str,
    pub peer: Option<&'a str>,
}

/// The paths of the sites on the command line, for scripts that name none.
#[derive(Clone, Copy, Debug, PartialEq, Eq)]
pub struct GivenPaths<'a> {
    /// The first controller's; `None` if each script has to name its own.
    pub first: Option<&'a str>,
    pub peer: Option<&'a str>,
}
