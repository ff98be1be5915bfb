ghost use Rattle.std.specs.Prelude.{◌≡◌, ◌≤◌, ◌<◌, ◌^◌, All, count_by, sum_by, nat_lt, chars, length};
ghost use Rattle.vx_layout.specs.declared.lines.TextLine.{TextLine};
ghost use Rattle.vx_layout.specs.declared.pages.PagePlan.{PagePlan};
ghost use Rattle.vx_layout.specs.Lines.{size_of};
ghost use Rattle.vx_layout.specs.Plan as plan;
ghost use Rattle.vx_layout.specs.Plan.{IsModest};

use crate::lines::TextLine;
use crate::pages::PagePlan;

/// The last character that has a glyph or is drawn as a blank.
const LAST_DRAWN: char = '\u{7f}';

/// How many characters of a text are drawn as the hollow box.
fn hollow_in(text: &str) -> usize
    ensures { result ≡ count_by (λ c. nat_lt 127 c) (chars text.now) }
{
    text.chars().filter(|c| *c > LAST_DRAWN).count()
}

/// The same on all lines of a page.
fn hollow_on_page(texts: &[TextLine]) -> usize
    requires size { All (λ (line : TextLine). size_of line.text ≤ 100) texts.now }
    requires few { length texts.now ≤ 400000 }
    ensures exact { result ≡ sum_by plan.hollow_in texts.now }
    ensures few { result ≤ 40000000 }
{
    let mut hollow = 0;
    for line in texts {
        hollow += hollow_in(line.text.as_str());
    }
    hollow
}

/// The same on all pages.
pub(crate) fn hollow_on(pages: &[PagePlan]) -> u32
    requires modest { All IsModest pages.now }
    requires few { length pages.now ≤ 100 }
    ensures { result ≡ plan.hollow_on pages.now }
{
    let mut hollow = 0;
    for page in pages {
        hollow += hollow_on_page(page.texts.as_slice()) as u32;
    }
    hollow
}
