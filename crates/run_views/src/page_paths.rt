//! The paths of a chart's files.
use std::alloc::{AllocError, Global};
use view_options::ChartView;

/// The path of a page, counted from 1: its number stands behind a hyphen before the end of the file's name, as in `run-1.svg`.
/// A name's end is what stands behind its last dot, where something stands before that.
pub(crate) fn page_path(alloc: Global, path: &str, page: u32) -> Result<String, AllocError> {
    match path.rsplit_once('.') {
        Some((front, end)) if !end.contains('/') && !front.is_empty() && !front.ends_with('/') => {
            format!(in alloc; "{front}-{page}.{end}")
        }
        Some(_) | None => format!(in alloc; "{path}-{page}"),
    }
}

/// The path of a chart's file, or of its first page.
pub fn first_path(alloc: Global, chart: ChartView<'_>) -> Result<String, AllocError> {
    if chart.pages {
        page_path(alloc, chart.path, 1)
    } else {
        String::from_str(alloc, chart.path)
    }
}
