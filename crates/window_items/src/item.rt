//! What one window has, with its serial.
ghost use Rattle.std.specs.Prelude.{◌≡◌};
ghost use Rattle.window_items.specs.Items.{is_in, is_item};

/// One thing of a window, as a control, a list or a text record of it.
#[derive(Drop)]
pub struct Item<T> {
    pub serial: u64,
    /// The serial of its window.
    pub window: u64,
    /// What is kept of it.
    pub kept: T,
}

impl<T> Item<T> {
    /// Whether it is in this window.
    pub(crate) fn is_in(&self, window: u64) -> bool
        ensures { result ≡ is_in window self.now }
    {
        self.window == window
    }

    /// Whether it is this window's, of this serial.
    pub(crate) fn is_item(&self, window: u64, serial: u64) -> bool
        ensures { result ≡ is_item window serial self.now }
    {
        self.is_in(window) && self.serial == serial
    }
}
