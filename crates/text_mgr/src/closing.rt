//! The end of the text records of a window that is disposed of.
ghost use Rattle.text_mgr.specs.TextClosing.{AreTextsLeft};

use crate::Texts;

impl Texts {
    /// Ends the text records of a window. Those of other windows stay. Takes no memory, and draws nothing: this is for a window
    /// that is no more.
    pub fn end_of(&mut self, window: u64)
        ensures { AreTextsLeft window self.old self.new }
    {
        while let Some(_ended) = self.list.take_of(window) {}
    }
}
