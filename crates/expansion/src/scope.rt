use macro_table::Macros;
use scan_model::{Mode, Site};

/// What tokens are replaced in.
#[derive(Clone, Copy)]
pub(crate) struct Scope<'a> {
    pub(crate) macros: &'a Macros,
    pub(crate) site: &'a Site,
    pub(crate) mode: Mode,
}
