//! The layers of a window's content.
ghost use Rattle.std.specs.Prelude.{◌≡◌};
ghost use Rattle.desk_layers.specs.Desk.{same_part};

/// A layer of a window's content: its picture, or a control, a list or a text record by its serial.
#[derive(Clone, Copy, Debug, PartialEq, Eq)]
pub enum Part {
    /// The window's picture.
    Picture,
    /// The control of this serial, a number that no other control of the desk has.
    Control(u64),
    /// The list of this serial, a number that no other list of the desk has.
    List(u64),
    /// The text record of this serial, a number that no other text record of the desk has.
    Text(u64),
}

impl Part {
    /// Whether both are the picture, or controls, lists or text records of one serial.
    pub fn is(self, other: Part) -> bool
        ensures { result ≡ same_part self other }
    {
        match (self, other) {
            (Part::Picture, Part::Picture) => true,
            (Part::Control(serial), Part::Control(of_other)) => serial == of_other,
            (Part::List(serial), Part::List(of_other)) => serial == of_other,
            (Part::Text(serial), Part::Text(of_other)) => serial == of_other,
            _ => false,
        }
    }
}
