ghost use Rattle.std.specs.Prelude.{◌≡◌, ◌<◌, ◌+◌, ◌^◌, IfOk, IfSome, OnSome, length};
ghost use Rattle.vx_readings.specs.Readings.{whole, Steps, Walks, LinesFit};

use crate::block::read_page;
use crate::fault::ReadingsFault;
use crate::lines::Lines;
use crate::said::SaidPage;
use std::alloc::Global;
use std::marker::Model;
use vx_grid::Paper;

/// The pages that a text of readings says, one after another. It is seen as what of the text is unread.
#[derive(Drop)]
pub struct ReadingsReader<'b> {
    alloc: Global,
    paper: Paper,
    tag: u32,
    pages: u32,
    left: Lines<'b>,
}

impl<'b> Model for ReadingsReader<'b> {
    ghost use Rattle.std.specs.Prelude.{◌<◌};
    ghost use Rattle.vx_readings.specs.Readings.{Unread};

    ghost Value = { Unread };

    ghost view = { λ a. record { paper = a.paper; tag = a.tag; pages = a.pages; left = a.left } };

    ghost invariant = { λ a. a.pages < a.left.number };
}

impl<'b> ReadingsReader<'b> {
    /// A reader of a text from its first line on, for an election of this paper and tag; takes no memory.
    pub fn new(alloc: Global, paper: Paper, tag: u32, text: &'b [u8]) -> ReadingsReader<'b>
        requires { length text.now < 2 ^ 31 }
        ensures { result ≡ whole paper tag text.now }
    {
        ReadingsReader {
            alloc,
            paper,
            tag,
            pages: 0,
            left: Lines::new(text),
        }
    }

    /// How many pages were read so far.
    pub fn pages(&self) -> u32
        ensures { result ≡ self.now.pages }
    {
        self.pages
    }

    /// The next page, or none at the end of the text. Behind a page fewer lines are unread. After a fault
    /// each further call answers the same; after want of memory the reader stands before that page.
    pub fn next(&mut self) -> Result<Option<SaidPage>, ReadingsFault>
        ensures exact { Steps self.old result self.new }
        ensures readings { Walks self.old result self.new }
        ensures counted { IfOk result (λ page. OnSome page (self.new.pages ≡ self.old.pages + 1)) }
        ensures lines_fit { IfOk result (λ page. IfSome page LinesFit) }
        ensures less { IfOk result (λ page. OnSome page (length self.new.left.lines < length self.old.left.lines)) }
    {
        if self.left.is_empty() {
            return Ok(None);
        }
        // For the proof alone: the numbers of lines fit 32 bits.
        let _line = self.left.number();
        let number = self.pages + 1;
        let (page, left) = read_page(self.alloc, self.paper, self.tag, number, &self.left)?;
        let _next = left.number();
        self.left = left;
        self.pages = number;
        Ok(Some(page))
    }
}
