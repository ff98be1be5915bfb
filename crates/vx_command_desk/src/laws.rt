//! What a page shows that isn't whole. This function does nothing; its contract is the law.

ghost use Rattle.vx_command_desk.specs.Laws.{PagesShowTheirEnd};

use vx_desk::data_is_no_markup;

/// The text of a `desk` that ends well ends with the page's tail. One that ends with a fault has written nothing,
/// or the head and behind it no markup, so that the element of the data doesn't end and no script runs.
pub fn pages_show_their_end()
    ensures { PagesShowTheirEnd }
{
    data_is_no_markup();
}
