use vx_base::ListOf;
use vx_json::Text;

/// A line of text on a page. A character's cell is 12 pixels wide and 20 high.
#[derive(Debug, Drop)]
pub struct TextLine {
    /// The pixel column where the first character's cell begins.
    pub x: u32,
    /// The pixel row where the cells begin.
    pub y: u32,
    pub text: Text,
}

/// A list of lines.
pub type TextLines = ListOf<TextLine>;
