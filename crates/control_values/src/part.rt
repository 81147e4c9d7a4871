//! The parts of controls.
ghost use Rattle.std.specs.Prelude.{◌≡◌};
ghost use Rattle.control_values.specs.Parts.{number_of, part_of};

/// A part of a control (*Inside Macintosh* I, "The Control Manager", "Part Codes"), with its part code.
#[derive(Clone, Copy, Debug, PartialEq, Eq)]
pub enum ControlPart {
    /// A simple button, all of it (inButton).
    Button = 10,
    /// A check box or a radio button, all of it (inCheckBox).
    CheckBox = 11,
    /// The up arrow of a scroll bar, or the left one (inUpButton).
    UpButton = 20,
    /// The down arrow of a scroll bar, or the right one (inDownButton).
    DownButton = 21,
    /// What lies before the thumb of a scroll bar (inPageUp).
    PageUp = 22,
    /// What lies after the thumb of a scroll bar (inPageDown).
    PageDown = 23,
    /// The thumb of a scroll bar (inThumb).
    Thumb = 129,
}

/// Each part.
static PARTS: [ControlPart; 7] = [
    ControlPart::Button,
    ControlPart::CheckBox,
    ControlPart::UpButton,
    ControlPart::DownButton,
    ControlPart::PageUp,
    ControlPart::PageDown,
    ControlPart::Thumb,
];

impl ControlPart {
    /// The part with this part code, if there is one.
    pub fn of_number(number: u8) -> Option<ControlPart>
        ensures { result ≡ part_of number }
    {
        PARTS.iter().copied().find(|part| part.number() == number)
    }

    /// The part code.
    pub fn number(self) -> u8
        ensures { result ≡ number_of self }
    {
        self as u8
    }
}
