// A look at what was found.
use crate::sheet::Sheet;
use crate::window::Window;
use lr_check_found::Found;
use lr_tables::Tables;

/// What was found of the tables, and what of it need not be looked at together.
#[derive(Clone, Copy)]
pub struct Look<'a> {
    pub tables: &'a Tables,
    pub found: &'a Found,
    pub window: Window,
    pub sheet: Option<&'a Sheet>,
}
