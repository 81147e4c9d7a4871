//! The value of a control, its minimum and its maximum.
ghost use Rattle.std.specs.Prelude.{◌≡◌, ◌&&◌, ◌≤ℤ◌, int_le, if◌then◌else◌, IfOk, IfErr, is_ok};
ghost use Rattle.control_values.specs.Settings.{is_in_range, settled, IsSettled};

use std::marker::Model;
use tb_geom::Refusal;

/// The value of a control with its minimum and its maximum (*Inside Macintosh* I, "The Control Manager", "Control Setting and
/// Range"). They lie in -32768..=32767, the minimum is at most the maximum, and the value lies between them.
#[derive(Clone, Copy, Debug, PartialEq, Eq)]
pub struct ControlValues {
    minimum: i16,
    maximum: i16,
    value: i16,
}

impl Model for ControlValues {
    ghost use Rattle.control_values.specs.Settings.{Setting, IsSettled};

    ghost Value = { Setting };

    ghost view = { λ c. record { minimum = c.minimum; maximum = c.maximum; value = c.value } };

    ghost inverse = { λ s. record { minimum = s.minimum; maximum = s.maximum; value = s.value } };

    ghost invariant = { λ c. IsSettled (record { minimum = c.minimum; maximum = c.maximum; value = c.value }) };
}

/// The number, which a control can keep. OutOfRange exactly where it lies outside -32768..=32767.
#[tactic(auto, unfolding(crate::specs::Settings::is_in_range))]
fn kept(number: i32) -> Result<i16, Refusal>
    ensures value { IfOk result (λ kept. kept ≡ number) }
    ensures in_range { is_ok result ≡ is_in_range number }
    ensures refused { IfErr result (λ e. e ≡ Refusal.OutOfRange) }
{
    match i16::try_from(number) {
        Ok(kept) => Ok(kept),
        Err(_) => Err(Refusal::OutOfRange),
    }
}

/// The setting with this minimum and this maximum, whose value is moved between them.
fn settled(minimum: i16, maximum: i16, value: i16) -> ControlValues
    requires { minimum ≤ℤ maximum }
    ensures { result ≡ settled minimum maximum value }
{
    ControlValues {
        minimum,
        maximum,
        value: minimum.max(value.min(maximum)),
    }
}

impl ControlValues {
    /// The setting of a new control (NewControl). A value outside is moved to the nearer end of minimum..=maximum. OutOfRange
    /// exactly where one of the three lies outside -32768..=32767, or the minimum is above the maximum.
    pub fn new(minimum: i32, maximum: i32, value: i32) -> Result<ControlValues, Refusal>
        ensures made { IfOk result (λ made. made ≡ settled minimum maximum value) }
        ensures in_range { is_ok result
            ≡ (is_in_range minimum && (is_in_range maximum && (is_in_range value && int_le minimum maximum))) }
        ensures refused { IfErr result (λ e. e ≡ Refusal.OutOfRange) }
    {
        let minimum = kept(minimum)?;
        let maximum = kept(maximum)?;
        let value = kept(value)?;
        if minimum <= maximum {
            Ok(settled(minimum, maximum, value))
        } else {
            Err(Refusal::OutOfRange)
        }
    }

    /// The value (GetCtlValue).
    pub fn value(self) -> i16
        ensures value { result ≡ self.value }
        ensures within { IsSettled self }
    {
        self.value
    }

    /// The least that the value may be (GetCtlMin).
    pub fn minimum(self) -> i16
        ensures { result ≡ self.minimum }
    {
        self.minimum
    }

    /// The greatest that the value may be (GetCtlMax).
    pub fn maximum(self) -> i16
        ensures { result ≡ self.maximum }
    {
        self.maximum
    }

    /// Sets the value (SetCtlValue). One outside is moved to the nearer end of minimum..=maximum. OutOfRange exactly where it
    /// lies outside -32768..=32767.
    pub fn set_value(&mut self, value: i32) -> Result<(), Refusal>
        ensures setting { self.new ≡ (if is_in_range value
            then settled self.old.minimum self.old.maximum value else self.old) }
        ensures in_range { is_ok result ≡ is_in_range value }
        ensures refused { IfErr result (λ e. e ≡ Refusal.OutOfRange) }
    {
        let value = kept(value)?;
        *self = settled(self.minimum, self.maximum, value);
        Ok(())
    }

    /// Sets the minimum (SetCtlMin). A value below it is moved up to it. OutOfRange exactly where it lies outside
    /// -32768..=32767 or above the maximum.
    pub fn set_minimum(&mut self, minimum: i32) -> Result<(), Refusal>
        ensures setting { self.new ≡ (if is_in_range minimum && int_le minimum self.old.maximum
            then settled minimum self.old.maximum self.old.value else self.old) }
        ensures in_range { is_ok result ≡ (is_in_range minimum && int_le minimum self.old.maximum) }
        ensures refused { IfErr result (λ e. e ≡ Refusal.OutOfRange) }
    {
        let minimum = kept(minimum)?;
        if minimum <= self.maximum {
            *self = settled(minimum, self.maximum, self.value);
            Ok(())
        } else {
            Err(Refusal::OutOfRange)
        }
    }

    /// Sets the maximum (SetCtlMax). A value above it is moved down to it. OutOfRange exactly where it lies outside
    /// -32768..=32767 or below the minimum.
    pub fn set_maximum(&mut self, maximum: i32) -> Result<(), Refusal>
        ensures setting { self.new ≡ (if is_in_range maximum && int_le self.old.minimum maximum
            then settled self.old.minimum maximum self.old.value else self.old) }
        ensures in_range { is_ok result ≡ (is_in_range maximum && int_le self.old.minimum maximum) }
        ensures refused { IfErr result (λ e. e ≡ Refusal.OutOfRange) }
    {
        let maximum = kept(maximum)?;
        if self.minimum <= maximum {
            *self = settled(self.minimum, maximum, self.value);
            Ok(())
        } else {
            Err(Refusal::OutOfRange)
        }
    }
}
