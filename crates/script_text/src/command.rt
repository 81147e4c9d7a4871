//! What a line of a script asks for.

use desk_call::Call;

/// The size of a desk: the screen's width and height, and the rows of its menu bar.
#[derive(Clone, Copy, Debug, PartialEq, Eq)]
pub struct DeskSize {
    /// In columns.
    pub width: i32,
    /// In rows.
    pub height: i32,
    /// In rows.
    pub bar: i32,
}

/// A command of a script.
#[derive(Drop)]
pub enum Command<'a> {
    /// Says which version of the commands the script is written in, a number judged by nobody.
    Version(i32),
    /// Makes the desk.
    Desk(DeskSize),
    /// Shows the screen, in place of a reply.
    Image,
    /// Asks the Toolbox.
    Call(Call<'a>),
}
